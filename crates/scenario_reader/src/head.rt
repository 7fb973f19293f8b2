//! The keys before the servers.

ghost use Rattle.std.specs.Prelude.{◌≡◌, [], codes, IfOk};
ghost use Rattle.scenario_reader.specs.Prelude.{Gives, fault_of, needed, no_hooks, number_in, optional, view};
ghost use Rattle.scenario_reader.specs.Filters.{AreRead, filters_in, no_filters};
ghost use Rattle.scenario_reader.specs.Aliases.{aliases_in};
ghost use Rattle.scenario_reader.specs.Blocks.{blocks_in};
ghost use Rattle.scenario_reader.specs.Hooks.{hooks_in};
ghost use Rattle.scenario_reader.specs.ReadScenarios.{is_one, one_in, is_there, keys_in, head_in};

use crate::aliases::aliases_in;
use crate::blocks::blocks_in;
use crate::filters::{FilterTexts, filters_in, no_filters};
use crate::hooks::hooks_in;
use scenario_values::{
    FaultCode, ReadFault, bool_at, fails, holds, members_in, number_at, only_keys, under,
};
use scenarios::{Aliases, Blocks, Hooks, SharedHooks};
use serde_json::Value;
use std::alloc::Global;

/// What comes before the servers: when the scenario begins, whether it uses GTIDs, which transactions are marks, and
/// how many orchestrators there are. Then the block periods, the clusters' aliases and filters, and the hooks.
#[derive(Drop)]
pub struct Head {
    /// At most 1,000,000,000,000,000 seconds.
    pub moment: u64,
    pub gtid: bool,
    /// Each transaction whose number is divisible by this is a mark; 0 for no marks.
    pub pseudo: u64,
    /// How many orchestrators share what is kept: 1 to 16.
    pub nodes: u32,
    /// The block period: at most 1,000,000,000 seconds.
    pub block: u64,
    /// Clusters with block periods of their own, by the bytes of their labels.
    pub blocks: Blocks,
    pub aliases: Aliases,
    pub filters: FilterTexts,
    pub hooks: SharedHooks,
}

fn is_there(key: &str, object: &Value) -> bool
    ensures { result ≡ is_there key.now (view object.now) }
{
    object.get(key).is_some()
}

/// Nothing, if the top object has no key except the table's, and those that are needed.
#[tactic(auto, unfolding(crate::specs::ReadScenarios::keys_in))]
#[rattlefmt::skip]
pub(crate) fn keys_in(alloc: Global, value: &Value) -> Result<(), ReadFault>
    ensures { Gives (λ _. tt) fault_of result (keys_in (view value.now)) }
{
    let members = members_in(alloc, value)?;
    only_keys(
        alloc,
        members,
        &[
            "version", "now", "gtid", "pseudo", "nodes", "block", "blocks", "aliases", "filters", "hooks", "servers", "turns",
        ],
    )?;
    holds(alloc, FaultCode::Missing, is_there("version", value) && is_there("servers", value))
}

fn is_one(whole: Option<u64>) -> bool
    ensures { result ≡ is_one whole }
{
    match whole {
        Some(number) => number == 1,
        None => false,
    }
}

#[tactic(auto, unfolding(crate::specs::ReadScenarios::one_in))]
fn one_in(alloc: Global, value: &Value) -> Result<(), ReadFault>
    ensures { Gives (λ _. tt) fault_of result (one_in (view value.now)) }
{
    match value.as_number() {
        Some(number) => holds(alloc, FaultCode::BadVersion, is_one(number.as_u64())),
        None => Err(fails(alloc, FaultCode::BadType)),
    }
}

#[tactic(auto, using(scenario_values::proofs::Unders::gives_under))]
fn version_at(alloc: Global, object: &Value) -> Result<(), ReadFault>
    ensures { Gives (λ _. tt) fault_of result (needed (codes "version") one_in (view object.now)) }
{
    match object.get("version") {
        Some(value) => under(alloc, b"version", one_in(alloc, value)),
        None => Err(fails(alloc, FaultCode::Missing)),
    }
}

fn nodes_at(alloc: Global, object: &Value) -> Result<u32, ReadFault>
    ensures { Gives (λ n. n) fault_of result
        (optional (codes "nodes") (number_in 1 16) 1 (view object.now)) }
{
    let nodes = number_at(alloc, object, "nodes", 1, 16, 1)?;
    Ok(nodes as u32)
}

#[tactic(auto, using(scenario_values::proofs::Unders::gives_under))]
fn blocks_at(alloc: Global, object: &Value) -> Result<Blocks, ReadFault>
    ensures { Gives (λ b. b) fault_of result
        (optional (codes "blocks") blocks_in [] (view object.now)) }
{
    match object.get("blocks") {
        Some(value) => under(alloc, b"blocks", blocks_in(alloc, value)),
        None => Ok(Blocks::new(alloc, Vec::new(alloc))?),
    }
}

#[tactic(auto, using(scenario_values::proofs::Unders::gives_under))]
fn aliases_at(alloc: Global, object: &Value) -> Result<Aliases, ReadFault>
    ensures { Gives (λ a. a) fault_of result
        (optional (codes "aliases") aliases_in [] (view object.now)) }
{
    match object.get("aliases") {
        Some(value) => under(alloc, b"aliases", aliases_in(alloc, value)),
        None => Ok(Aliases::new(alloc, Vec::new(alloc))?),
    }
}

#[tactic(auto, using(scenario_values::proofs::Unders::gives_under))]
fn filters_at(alloc: Global, object: &Value) -> Result<FilterTexts, ReadFault>
    ensures exact { Gives (λ f. f) fault_of result
        (optional (codes "filters") filters_in no_filters (view object.now)) }
    ensures read { IfOk result AreRead }
{
    match object.get("filters") {
        Some(value) => under(alloc, b"filters", filters_in(alloc, value)),
        None => Ok(no_filters(alloc)?),
    }
}

#[tactic(auto, using(scenario_values::proofs::Unders::gives_under))]
fn hooks_at(alloc: Global, object: &Value) -> Result<Hooks, ReadFault>
    ensures { Gives (λ h. h) fault_of result
        (optional (codes "hooks") hooks_in no_hooks (view object.now)) }
{
    match object.get("hooks") {
        Some(value) => under(alloc, b"hooks", hooks_in(alloc, value)),
        None => Ok(Hooks::none(alloc)),
    }
}

/// The keys before the servers, in the table's order.
#[tactic(auto, unfolding(crate::specs::ReadScenarios::head_in))]
pub(crate) fn head_in(alloc: Global, object: &Value) -> Result<Head, ReadFault>
    ensures exact { Gives (λ h. h) fault_of result (head_in (view object.now)) }
    ensures read { IfOk result (λ h. AreRead h.filters) }
{
    version_at(alloc, object)?;
    let moment = number_at(alloc, object, "now", 0, 1_000_000_000_000_000, 0)?;
    let gtid = bool_at(alloc, object, "gtid", false)?;
    let pseudo = number_at(alloc, object, "pseudo", 0, 1_000_000, 0)?;
    let nodes = nodes_at(alloc, object)?;
    let block = number_at(alloc, object, "block", 0, 1_000_000_000, 3600)?;
    let blocks = blocks_at(alloc, object)?;
    let aliases = aliases_at(alloc, object)?;
    let filters = filters_at(alloc, object)?;
    let hooks = SharedHooks::new(alloc, hooks_at(alloc, object)?)?;
    Ok(Head {
        moment,
        gtid,
        pseudo,
        nodes,
        block,
        blocks,
        aliases,
        filters,
        hooks,
    })
}
