//! The walk over a scenario's text.

ghost use Rattle.std.specs.Prelude.{◌≡◌, ◌+◌, ◌≤◌, ℕ, List, [], Some, Ok, IfOk, codes, length, option_map};
ghost use Rattle.scenario_reader.specs.Prelude.{Gives, IsGiven, IsScenario, Scenario as AScenario, TooLong, each, expanded, fault_of, get, get_member, inits_of};
ghost use Rattle.scenario_reader.specs.Prelude.{items_in, items_view, members_view, needed_in, no_items, optional_in, servers_in, turn_in, under as place_under, view};
ghost use Rattle.scenario_reader.specs.Filters.{AreRead};
ghost use Rattle.scenario_reader.specs.ReadOpenings.{is_small, listed_count};
ghost use Rattle.scenario_reader.specs.ReadScenarios.{json_in, bounded, turns_in, scenario_with, scenario_from, scenario_in};

use crate::answers::answered;
use crate::head::{Head, head_in, keys_in};
use crate::opening::{listed_count, opening_in};
use crate::openings::{Opening, ServerInit};
use crate::orch_base::{MAX_SCENARIO_LEN, Moment, ServerNo};
use scenario_servers::{Listed, Names, inits_of, known_of, rules_of, servers_in};
use scenario_turns::{ListedTurn, Patterns, each_turn, expanded, in_order, printed_of};
use scenario_values::{FaultCode, ReadFault, fails, holds, items_in, under};
use scenarios::{Answers, Rules, Scenario, Turn, Turns};
use serde_json::{Map, Value};
use std::alloc::Global;

const MOST: u64 = 4_000_000;

// Whether the servers times the transactions that they list and the turns write are at most 4,000,000.
fn is_small(servers: &[ServerInit], writes: usize) -> bool
    ensures { result ≡ is_small (length servers.now) (listed_count servers.now + writes) }
{
    let count = listed_count(servers).saturating_add(writes as u64);
    match count.checked_mul(servers.len() as u64) {
        Some(product) => product <= MOST,
        None => false,
    }
}

#[tactic(auto, using(scenario_values::proofs::Unders::gives_under))]
fn turns_at(
    alloc: Global,
    names: &Names,
    patterns: &Patterns,
    nodes: u32,
    items: &[Value],
) -> Result<Vec<ListedTurn>, ReadFault>
    ensures { Gives (λ v. v.items) fault_of result
        (place_under (codes "turns")
        (each (turn_in names.now patterns.now nodes) (items_view items.now))) }
{
    under(
        alloc,
        b"turns",
        each_turn(alloc, names, patterns, nodes, items),
    )
}

// The turns that the listed ones mean, if they are not too many.
#[tactic(auto, using(scenario_turns::proofs::Expansions::few_some, scenario_turns::proofs::Expansions::few_none), unfolding(crate::specs::ReadScenarios::bounded))]
fn bounded(
    alloc: Global,
    opening: &Opening,
    ordered: &[ServerNo],
    listed: Vec<ListedTurn>,
) -> Result<Vec<Turn>, ReadFault>
    requires { length ordered.now ≤ 1000 }
    ensures { Gives (λ v. v.items) fault_of result
        (bounded opening.now.servers (expanded ordered.now listed.items)) }
{
    let Some((turns, writes)) = expanded(alloc, ordered, listed)? else {
        return Err(fails(alloc, FaultCode::TooLarge));
    };
    holds(
        alloc,
        FaultCode::TooLarge,
        is_small(opening.servers(), writes),
    )?;
    Ok(turns)
}

// The turns over the servers of this opening, of so many orchestrators.
#[tactic(auto, unfolding(crate::specs::ReadScenarios::turns_in))]
fn turns_in(
    alloc: Global,
    names: &Names,
    opening: &Opening,
    nodes: u32,
    items: &[Value],
) -> Result<Turns, ReadFault>
    requires { length opening.now.servers ≤ 1000 }
    ensures { Gives (λ t. t) fault_of result
        (turns_in names.now opening.now.servers nodes (items_view items.now)) }
{
    let patterns = Patterns::of_turns(alloc, printed_of(alloc, opening)?, items)?;
    let listed = turns_at(alloc, names, &patterns, nodes, items)?;
    let ordered = in_order(alloc, opening)?;
    let turns = bounded(alloc, opening, &ordered, listed)?;
    Ok(Turns::new(turns))
}

// The scenario of the keys before the servers, the servers, and the items of the turns.
#[tactic(auto, unfolding(crate::specs::ReadScenarios::scenario_with))]
fn scenario_with(
    alloc: Global,
    head: Head,
    listed: Listed,
    items: &[Value],
) -> Result<Scenario, ReadFault>
    requires given { IsGiven head.gtid (inits_of listed.given.items) }
    requires read { AreRead head.filters }
    ensures { Gives (λ s. s) fault_of result
        (scenario_with head (listed.names, listed.given.items) (items_view items.now)) }
{
    let known = known_of(alloc, &listed.given)?;
    let rules = rules_of(alloc, &listed.given)?;
    let servers = inits_of(alloc, listed.given)?;
    let opening = opening_in(alloc, servers, head.gtid)?;
    let servers = opening.servers();
    let turns = turns_in(alloc, &listed.names, &opening, head.nodes, items)?;
    let filters = answered(alloc, head.filters, &head.aliases, servers)?;
    let blocks = head.blocks.resolved(alloc, servers)?;
    let aliases = head.aliases.resolved(alloc, servers)?;
    Ok(Scenario {
        opening,
        moment: Moment(head.moment),
        pseudo: head.pseudo,
        nodes: head.nodes,
        block: head.block,
        blocks,
        aliases,
        filters,
        hooks: head.hooks,
        known: Answers::new(known),
        rules: Rules::new(rules),
        turns,
    })
}

// Takes a member out of an object.
fn taken(members: &mut Map<String, Value>, name: &str) -> Option<Value>
    ensures value { option_map view result
        ≡ get_member name.now (members_view members.old.entries) }
    ensures others { (other : List ℕ) → (name.now ≡ other → ⊥)
        → get_member other (members_view members.new.entries)
        ≡ get_member other (members_view members.old.entries) }
{
    members.remove(name)
}

// The servers and the turns of an object, which is used up: what else it has is dropped.
fn lists_of(object: Value) -> (Option<Value>, Option<Value>)
    ensures servers { option_map view result.0 ≡ get (codes "servers") (view object) }
    ensures turns { option_map view result.1 ≡ get (codes "turns") (view object) }
{
    match object {
        Value::Object(mut members) => {
            let servers = taken(&mut members, "servers");
            let turns = taken(&mut members, "turns");
            (servers, turns)
        }
        Value::Null | Value::Bool(_) | Value::Number(_) | Value::String(_) | Value::Array(_) => (
            None, None,
        ),
    }
}

#[tactic(auto, using(scenario_values::proofs::Unders::gives_under))]
fn servers_at(alloc: Global, gtid: bool, servers: Option<Value>) -> Result<Listed, ReadFault>
    ensures { Gives (λ l. (l.names, l.given.items)) fault_of result
        (needed_in (codes "servers") (servers_in gtid) (option_map view servers)) }
{
    match servers {
        Some(value) => under(alloc, b"servers", servers_in(alloc, gtid, value)),
        None => Err(fails(alloc, FaultCode::Missing)),
    }
}

#[tactic(auto, using(scenario_values::proofs::Unders::gives_under))]
fn listed_turns(alloc: Global, turns: &Option<Value>) -> Result<&[Value], ReadFault>
    ensures { Gives (λ v. items_view v.now) fault_of result
        (optional_in (codes "turns") items_in no_items (option_map view turns.now)) }
{
    match turns {
        Some(value) => {
            let items = under(alloc, b"turns", items_in(alloc, value))?;
            Ok(items)
        }
        None => Ok(&[]),
    }
}

#[tactic(auto, unfolding(crate::specs::ReadScenarios::scenario_from))]
fn scenario_from(alloc: Global, value: Value) -> Result<Scenario, ReadFault>
    ensures { Gives (λ s. s) fault_of result (scenario_from (view value)) }
{
    keys_in(alloc, &value)?;
    let head = head_in(alloc, &value)?;
    let (servers, turns) = lists_of(value);
    let listed = servers_at(alloc, head.gtid, servers)?;
    let items = listed_turns(alloc, &turns)?;
    scenario_with(alloc, head, listed, items)
}

fn json_in(alloc: Global, bytes: &[u8]) -> Result<Value, ReadFault>
    ensures { Gives view fault_of result (json_in bytes.now) }
{
    match Value::from_slice(alloc, bytes) {
        Ok(value) => Ok(value),
        Err(e) => {
            if e.is_memory() {
                Err(ReadFault::Memory)
            } else {
                Err(fails(alloc, FaultCode::NotJson))
            }
        }
    }
}

/// The fault of a text of more than 67,108,864 bytes.
pub fn too_long(alloc: Global) -> ReadFault
    ensures { fault_of result ≡ Some (record { code = TooLong; path = [] }) }
{
    fails(alloc, FaultCode::TooLong)
}

#[tactic(auto, unfolding(crate::specs::ReadScenarios::scenario_in))]
fn scenario_in(alloc: Global, bytes: &[u8]) -> Result<Scenario, ReadFault>
    ensures { Gives (λ s. s) fault_of result (scenario_in bytes.now) }
{
    holds(alloc, FaultCode::TooLong, bytes.len() <= MAX_SCENARIO_LEN)?;
    let value = json_in(alloc, bytes)?;
    scenario_from(alloc, value)
}

/// Reads a scenario: the one that these bytes are, or the first fault of the walk over them, with its place. `Memory`
/// also comes for a filter's regular expression past the room that `regex` grants one. The time is that of the bytes,
/// of at most 1,000,000 turns, of the aliases, of the filters for each cluster, of each pattern for each server, and of
/// `Opening::check`.
pub fn read(alloc: Global, bytes: &[u8]) -> Result<Scenario, ReadFault>
    ensures exact { Gives (λ s. s) fault_of result (scenario_in bytes.now) }
    ensures sound { IfOk result IsScenario }
{
    scenario_in(alloc, bytes)
}

/// What bytes are read as meets the condition of the calls that take a scenario.
pub fn read_is_sound()
    ensures { (bytes : List ℕ) (s : AScenario) → scenario_in bytes ≡ Ok s → IsScenario s }
{}
