//! The turns.

ghost use Rattle.std.specs.Prelude.{◌≡◌};
ghost use Rattle.scenario_turns.specs.Prelude.{BadTurn, Command, Cut, Gives, Join, PollRead, Purge, Write, each, fault_of, holds, items_view};
ghost use Rattle.scenario_turns.specs.Prelude.{number_in, server_named, text_in, under_item, view};
ghost use Rattle.scenario_turns.specs.Prelude.turn as Turn;
ghost use Rattle.scenario_turns.specs.Commands.{command_in};
ghost use Rattle.scenario_turns.specs.declared.expansion.ListedTurn.TheVariants.{One};
ghost use Rattle.scenario_turns.specs.Expansion.{done_by};
ghost use Rattle.scenario_turns.specs.Words.{has_parts};
ghost use Rattle.scenario_turns.specs.Turns.{link_in, poller_in, one_of, two_of, server_of, amount_of, link_of, seconds_of, poll_of, poller_of, job_of, turn_by, alone};
ghost use Rattle.scenario_turns.specs.Turns.{whole_or_none, node_or_fails, node_in, node_of, act_of, inner_with, inner_from, inner_in, as_of, turn_of, turn_with, turn_from, turn_in};

use crate::command::command_in;
use crate::expansion::{ListedTurn, done_by};
use crate::orch_base::ServerNo;
use crate::patterns::Patterns;
use crate::server_words_items::Link;
use crate::word::{Word, is_word, parts_after, stands, word_at};
use scenario_servers::{Names, server_named};
use scenario_values::{
    FaultCode, ReadFault, fails, holds, items_in, number_in, text_in, under_item,
};
use scenarios::{Act, BoxedCommand, Step, Turn};
use serde_json::Value;
use std::alloc::Global;

#[tactic(auto, unfolding(crate::specs::Turns::link_in))]
fn link_in(alloc: Global, value: &Value) -> Result<Link, ReadFault>
    ensures { Gives (λ l. l) fault_of result (link_in (view value.now)) }
{
    let text = text_in(alloc, value)?;
    if is_word("desk", text) {
        return Ok(Link::Desk);
    }
    if is_word("feed", text) {
        return Ok(Link::Feed);
    }
    Err(fails(alloc, FaultCode::BadNumber))
}

fn one_of(alloc: Global, rest: &[Value]) -> Result<&Value, ReadFault>
    ensures { Gives (λ v. view v.now) fault_of result (one_of (items_view rest.now)) }
{
    if rest.len() != 1 {
        return Err(fails(alloc, FaultCode::BadTurn));
    }
    Ok(&rest[0])
}

fn two_of(alloc: Global, rest: &[Value]) -> Result<(&Value, &Value), ReadFault>
    ensures { Gives (λ p. (view p.0.now, view p.1.now)) fault_of result
        (two_of (items_view rest.now)) }
{
    if rest.len() != 2 {
        return Err(fails(alloc, FaultCode::BadTurn));
    }
    Ok((&rest[0], &rest[1]))
}

#[tactic(auto, using(scenario_values::proofs::Unders::gives_under))]
fn server_at(
    alloc: Global,
    names: &Names,
    part: usize,
    value: &Value,
) -> Result<ServerNo, ReadFault>
    ensures { Gives (λ n. n) fault_of result
        (under_item part (server_named names.now (view value.now))) }
{
    under_item(alloc, part, server_named(alloc, names, value))
}

#[tactic(auto, using(scenario_values::proofs::Unders::gives_under))]
fn number_at(
    alloc: Global,
    part: usize,
    low: u64,
    high: u64,
    value: &Value,
) -> Result<u64, ReadFault>
    ensures { Gives (λ n. n) fault_of result
        (under_item part (number_in low high (view value.now))) }
{
    under_item(alloc, part, number_in(alloc, low, high, value))
}

#[tactic(auto, using(scenario_values::proofs::Unders::gives_under))]
fn link_at(alloc: Global, value: &Value) -> Result<Link, ReadFault>
    ensures { Gives (λ l. l) fault_of result (under_item 2 (link_in (view value.now))) }
{
    under_item(alloc, 2, link_in(alloc, value))
}

#[tactic(auto, using(scenario_values::proofs::Unders::gives_under))]
fn text_at(alloc: Global, value: &Value) -> Result<&str, ReadFault>
    ensures { Gives (λ s. s.now) fault_of result (under_item 0 (text_in (view value.now))) }
{
    under_item(alloc, 0, text_in(alloc, value))
}

#[tactic(auto, unfolding(crate::specs::Turns::server_of))]
fn server_of(alloc: Global, names: &Names, rest: &[Value]) -> Result<ServerNo, ReadFault>
    ensures { Gives (λ n. n) fault_of result (server_of names.now (items_view rest.now)) }
{
    let server = one_of(alloc, rest)?;
    server_at(alloc, names, 1, server)
}

#[tactic(auto, unfolding(crate::specs::Turns::amount_of))]
fn amount_of(
    alloc: Global,
    names: &Names,
    most: u32,
    rest: &[Value],
) -> Result<(ServerNo, u32), ReadFault>
    ensures { Gives (λ p. p) fault_of result (amount_of names.now most (items_view rest.now)) }
{
    let (server, amount) = two_of(alloc, rest)?;
    let server = server_at(alloc, names, 1, server)?;
    let amount = number_at(alloc, 2, 1, u64::from(most), amount)?;
    Ok((server, amount as u32))
}

#[tactic(auto, unfolding(crate::specs::Turns::link_of))]
fn link_of(alloc: Global, names: &Names, rest: &[Value]) -> Result<(ServerNo, Link), ReadFault>
    ensures { Gives (λ p. p) fault_of result (link_of names.now (items_view rest.now)) }
{
    let (server, link) = two_of(alloc, rest)?;
    let server = server_at(alloc, names, 1, server)?;
    let link = link_at(alloc, link)?;
    Ok((server, link))
}

#[tactic(auto, unfolding(crate::specs::Turns::seconds_of))]
fn seconds_of(alloc: Global, rest: &[Value]) -> Result<u64, ReadFault>
    ensures { Gives (λ n. n) fault_of result (seconds_of (items_view rest.now)) }
{
    let number = one_of(alloc, rest)?;
    number_at(alloc, 1, 0, 1_000_000_000, number)
}

fn poller_in(alloc: Global, value: &Value) -> Result<u32, ReadFault>
    ensures { Gives (λ p. p) fault_of result (poller_in (view value.now)) }
{
    let poller = number_in(alloc, 0, 63, value)?;
    Ok(poller as u32)
}

#[tactic(auto, using(scenario_values::proofs::Unders::gives_under))]
fn poller_at(alloc: Global, value: &Value) -> Result<u32, ReadFault>
    ensures { Gives (λ p. p) fault_of result (under_item 1 (poller_in (view value.now))) }
{
    under_item(alloc, 1, poller_in(alloc, value))
}

#[tactic(auto, unfolding(crate::specs::Turns::poll_of))]
fn poll_of(alloc: Global, names: &Names, rest: &[Value]) -> Result<(u32, ServerNo), ReadFault>
    ensures { Gives (λ p. p) fault_of result (poll_of names.now (items_view rest.now)) }
{
    let (poller, server) = two_of(alloc, rest)?;
    let poller = poller_at(alloc, poller)?;
    let server = server_at(alloc, names, 2, server)?;
    Ok((poller, server))
}

#[tactic(auto, unfolding(crate::specs::Turns::poller_of))]
fn poller_of(alloc: Global, rest: &[Value]) -> Result<u32, ReadFault>
    ensures { Gives (λ p. p) fault_of result (poller_of (items_view rest.now)) }
{
    let poller = one_of(alloc, rest)?;
    poller_at(alloc, poller)
}

#[tactic(auto, unfolding(crate::specs::Turns::job_of))]
fn job_of(alloc: Global, rest: &[Value]) -> Result<u64, ReadFault>
    ensures { Gives (λ n. n) fault_of result (job_of (items_view rest.now)) }
{
    let number = one_of(alloc, rest)?;
    number_at(alloc, 1, 0, u64::MAX, number)
}

fn step_turn(step: Step) -> ListedTurn
    ensures { result ≡ One (Turn.Step step) }
{
    ListedTurn::One(Turn::Step(step))
}

fn act_turn(node: Option<u32>, act: Act) -> ListedTurn
    ensures { result ≡ One (done_by node act) }
{
    ListedTurn::One(done_by(node, act))
}

fn write_of(alloc: Global, names: &Names, rest: &[Value]) -> Result<ListedTurn, ReadFault>
    ensures { Gives (λ t. t) fault_of result
        (turn_by (λ p. Turn.Step (Write p.0 p.1))
        (amount_of names.now 1000000 (items_view rest.now))) }
{
    let (server, size) = amount_of(alloc, names, 1_000_000, rest)?;
    Ok(step_turn(Step::Write(server, size)))
}

fn purge_of(alloc: Global, names: &Names, rest: &[Value]) -> Result<ListedTurn, ReadFault>
    ensures { Gives (λ t. t) fault_of result
        (turn_by (λ p. Turn.Step (Purge p.0 p.1))
        (amount_of names.now 4294967295 (items_view rest.now))) }
{
    let (server, file) = amount_of(alloc, names, u32::MAX, rest)?;
    Ok(step_turn(Step::Purge(server, file)))
}

fn cut_of(alloc: Global, names: &Names, rest: &[Value]) -> Result<ListedTurn, ReadFault>
    ensures { Gives (λ t. t) fault_of result
        (turn_by (λ p. Turn.Step (Cut p.0 p.1)) (link_of names.now (items_view rest.now))) }
{
    let (server, link) = link_of(alloc, names, rest)?;
    Ok(step_turn(Step::Cut(server, link)))
}

fn join_of(alloc: Global, names: &Names, rest: &[Value]) -> Result<ListedTurn, ReadFault>
    ensures { Gives (λ t. t) fault_of result
        (turn_by (λ p. Turn.Step (Join p.0 p.1)) (link_of names.now (items_view rest.now))) }
{
    let (server, link) = link_of(alloc, names, rest)?;
    Ok(step_turn(Step::Join(server, link)))
}

fn poll_read_of(
    alloc: Global,
    names: &Names,
    node: Option<u32>,
    rest: &[Value],
) -> Result<ListedTurn, ReadFault>
    ensures { Gives (λ t. t) fault_of result
        (turn_by (λ p. done_by node (PollRead p.0 p.1)) (poll_of names.now (items_view rest.now))) }
{
    let (poller, server) = poll_of(alloc, names, rest)?;
    Ok(act_turn(node, Act::PollRead(poller, server)))
}

// A word that nothing follows.
fn alone(alloc: Global, turn: ListedTurn, rest: &[Value]) -> Result<ListedTurn, ReadFault>
    ensures { Gives (λ t. t) fault_of result (alone turn (items_view rest.now)) }
{
    if rest.is_empty() {
        Ok(turn)
    } else {
        Err(fails(alloc, FaultCode::BadTurn))
    }
}

fn command_of(
    alloc: Global,
    names: &Names,
    patterns: &Patterns,
    node: Option<u32>,
    rest: &[Value],
) -> Result<ListedTurn, ReadFault>
    ensures { Gives (λ t. t) fault_of result (turn_by (λ c. done_by node (Command c))
        (command_in names.now patterns.now (items_view rest.now))) }
{
    let command = command_in(alloc, names, patterns, rest)?;
    Ok(act_turn(node, Act::Command(BoxedCommand::new(alloc, command)?)))
}

#[tactic(auto, unfolding(crate::specs::Turns::whole_or_none))]
fn whole_or_none(alloc: Global, value: &Value) -> Result<Option<u64>, ReadFault>
    ensures { Gives (λ n. n) fault_of result (whole_or_none (view value.now)) }
{
    match value.as_number() {
        Some(number) => Ok(number.as_u64()),
        None => Err(fails(alloc, FaultCode::BadType)),
    }
}

#[tactic(auto, using(scenario_values::proofs::Unders::gives_under))]
fn whole_at(alloc: Global, value: &Value) -> Result<Option<u64>, ReadFault>
    ensures { Gives (λ n. n) fault_of result (under_item 1 (whole_or_none (view value.now))) }
{
    under_item(alloc, 1, whole_or_none(alloc, value))
}

// One of so many orchestrators.
fn node_or_fails(alloc: Global, nodes: u32, whole: Option<u64>) -> Result<u32, ReadFault>
    ensures { Gives (λ n. n) fault_of result (node_or_fails nodes whole) }
{
    if let Some(node) = whole {
        if 1 <= node && node <= u64::from(nodes) {
            return Ok(node as u32);
        }
    }
    Err(fails(alloc, FaultCode::NodeTurn))
}

#[tactic(auto, unfolding(crate::specs::Turns::node_in))]
fn node_in(alloc: Global, nodes: u32, value: &Value) -> Result<u32, ReadFault>
    ensures { Gives (λ n. n) fault_of result (node_in nodes (view value.now)) }
{
    let whole = whole_at(alloc, value)?;
    node_or_fails(alloc, nodes, whole)
}

#[tactic(auto, unfolding(crate::specs::Turns::node_of))]
fn node_of(alloc: Global, nodes: u32, rest: &[Value]) -> Result<u32, ReadFault>
    ensures { Gives (λ n. n) fault_of result (node_of nodes (items_view rest.now)) }
{
    let number = one_of(alloc, rest)?;
    node_in(alloc, nodes, number)
}

// What the one orchestrator, or one of several, is to do.
fn act_of(
    alloc: Global,
    names: &Names,
    patterns: &Patterns,
    node: Option<u32>,
    word: Word,
    rest: &[Value],
) -> Result<ListedTurn, ReadFault>
    ensures { Gives (λ t. t) fault_of result
        (act_of names.now patterns.now node word (items_view rest.now)) }
{
    match word {
        Word::PollRead => poll_read_of(alloc, names, node, rest),
        Word::PollStore => Ok(act_turn(node, Act::PollStore(poller_of(alloc, rest)?))),
        Word::Polls => alone(alloc, ListedTurn::Polls(node), rest),
        Word::Command => command_of(alloc, names, patterns, node, rest),
        Word::Job => Ok(act_turn(node, Act::Job(job_of(alloc, rest)?))),
        Word::Scan => alone(alloc, act_turn(node, Act::Scan), rest),
        Word::Restart => alone(alloc, act_turn(node, Act::Restart), rest),
        Word::Round => Err(fails(alloc, FaultCode::NodeTurn)),
        Word::Write
        | Word::Fetch
        | Word::Apply
        | Word::Fail
        | Word::Heal
        | Word::Rotate
        | Word::Purge
        | Word::Cut
        | Word::Join
        | Word::Tick
        | Word::Claim
        | Word::Release
        | Word::As => Err(fails(alloc, FaultCode::BadTurn)),
    }
}

// Nothing, if the name has as many parts after it as it needs.
fn has_parts(alloc: Global, word: Word, rest: &[Value]) -> Result<(), ReadFault>
    ensures { Gives (λ _. tt) fault_of result
        (holds BadTurn (has_parts word (items_view rest.now))) }
{
    holds(alloc, FaultCode::BadTurn, rest.len() == parts_after(word))
}

#[tactic(auto, unfolding(crate::specs::Turns::inner_with))]
fn inner_with(
    alloc: Global,
    names: &Names,
    patterns: &Patterns,
    node: u32,
    first: &Value,
    rest: &[Value],
) -> Result<ListedTurn, ReadFault>
    ensures { Gives (λ t. t) fault_of result
        (inner_with names.now patterns.now node (view first.now) (items_view rest.now)) }
{
    let text = text_at(alloc, first)?;
    let word = word_at(alloc, text)?;
    has_parts(alloc, word, rest)?;
    act_of(alloc, names, patterns, Some(node), word, rest)
}

fn inner_from(
    alloc: Global,
    names: &Names,
    patterns: &Patterns,
    node: u32,
    items: &[Value],
) -> Result<ListedTurn, ReadFault>
    ensures { Gives (λ t. t) fault_of result
        (inner_from names.now patterns.now node (items_view items.now)) }
{
    match items.split_first() {
        Some((first, rest)) => inner_with(alloc, names, patterns, node, first, rest),
        None => Err(fails(alloc, FaultCode::BadTurn)),
    }
}

#[tactic(auto, unfolding(crate::specs::Turns::inner_in))]
fn inner_in(
    alloc: Global,
    names: &Names,
    patterns: &Patterns,
    node: u32,
    value: &Value,
) -> Result<ListedTurn, ReadFault>
    ensures { Gives (λ t. t) fault_of result
        (inner_in names.now patterns.now node (view value.now)) }
{
    let items = items_in(alloc, value)?;
    inner_from(alloc, names, patterns, node, items)
}

#[tactic(auto, using(scenario_values::proofs::Unders::gives_under))]
fn inner_at(
    alloc: Global,
    names: &Names,
    patterns: &Patterns,
    node: u32,
    value: &Value,
) -> Result<ListedTurn, ReadFault>
    ensures { Gives (λ t. t) fault_of result
        (under_item 2 (inner_in names.now patterns.now node (view value.now))) }
{
    under_item(alloc, 2, inner_in(alloc, names, patterns, node, value))
}

#[tactic(auto, unfolding(crate::specs::Turns::as_of))]
fn as_of(
    alloc: Global,
    names: &Names,
    patterns: &Patterns,
    nodes: u32,
    rest: &[Value],
) -> Result<ListedTurn, ReadFault>
    ensures { Gives (λ t. t) fault_of result
        (as_of names.now patterns.now nodes (items_view rest.now)) }
{
    let (node, turn) = two_of(alloc, rest)?;
    let node = node_in(alloc, nodes, node)?;
    inner_at(alloc, names, patterns, node, turn)
}

fn turn_of(
    alloc: Global,
    names: &Names,
    patterns: &Patterns,
    nodes: u32,
    word: Word,
    rest: &[Value],
) -> Result<ListedTurn, ReadFault>
    ensures { Gives (λ t. t) fault_of result
        (turn_of names.now patterns.now nodes word (items_view rest.now)) }
{
    match word {
        Word::Write => write_of(alloc, names, rest),
        Word::Fetch => Ok(step_turn(Step::Fetch(server_of(alloc, names, rest)?))),
        Word::Apply => Ok(step_turn(Step::Apply(server_of(alloc, names, rest)?))),
        Word::Fail => Ok(step_turn(Step::Fail(server_of(alloc, names, rest)?))),
        Word::Heal => Ok(step_turn(Step::Heal(server_of(alloc, names, rest)?))),
        Word::Rotate => Ok(step_turn(Step::Rotate(server_of(alloc, names, rest)?))),
        Word::Purge => purge_of(alloc, names, rest),
        Word::Cut => cut_of(alloc, names, rest),
        Word::Join => join_of(alloc, names, rest),
        Word::Tick => Ok(ListedTurn::One(Turn::Tick(seconds_of(alloc, rest)?))),
        Word::PollRead
        | Word::PollStore
        | Word::Polls
        | Word::Command
        | Word::Job
        | Word::Scan
        | Word::Restart => act_of(alloc, names, patterns, None, word, rest),
        Word::Round => alone(alloc, ListedTurn::Round, rest),
        Word::Claim => Ok(ListedTurn::One(Turn::Claim(node_of(alloc, nodes, rest)?))),
        Word::Release => Ok(ListedTurn::One(Turn::Release(node_of(alloc, nodes, rest)?))),
        Word::As => as_of(alloc, names, patterns, nodes, rest),
    }
}

#[tactic(auto, unfolding(crate::specs::Turns::turn_with))]
fn turn_with(
    alloc: Global,
    names: &Names,
    patterns: &Patterns,
    nodes: u32,
    first: &Value,
    rest: &[Value],
) -> Result<ListedTurn, ReadFault>
    ensures { Gives (λ t. t) fault_of result
        (turn_with names.now patterns.now nodes (view first.now) (items_view rest.now)) }
{
    let text = text_at(alloc, first)?;
    let word = word_at(alloc, text)?;
    has_parts(alloc, word, rest)?;
    holds(alloc, FaultCode::NodeTurn, stands(nodes, word))?;
    turn_of(alloc, names, patterns, nodes, word, rest)
}

fn turn_from(
    alloc: Global,
    names: &Names,
    patterns: &Patterns,
    nodes: u32,
    items: &[Value],
) -> Result<ListedTurn, ReadFault>
    ensures { Gives (λ t. t) fault_of result
        (turn_from names.now patterns.now nodes (items_view items.now)) }
{
    match items.split_first() {
        Some((first, rest)) => turn_with(alloc, names, patterns, nodes, first, rest),
        None => Err(fails(alloc, FaultCode::BadTurn)),
    }
}

#[tactic(auto, unfolding(crate::specs::Turns::turn_in))]
fn turn_in(
    alloc: Global,
    names: &Names,
    patterns: &Patterns,
    nodes: u32,
    value: &Value,
) -> Result<ListedTurn, ReadFault>
    ensures { Gives (λ t. t) fault_of result
        (turn_in names.now patterns.now nodes (view value.now)) }
{
    let items = items_in(alloc, value)?;
    turn_from(alloc, names, patterns, nodes, items)
}

#[tactic(auto, using(scenario_values::proofs::Unders::gives_under))]
fn turn_at(
    alloc: Global,
    names: &Names,
    patterns: &Patterns,
    nodes: u32,
    number: usize,
    value: &Value,
) -> Result<ListedTurn, ReadFault>
    ensures { Gives (λ t. t) fault_of result
        (under_item number (turn_in names.now patterns.now nodes (view value.now))) }
{
    under_item(alloc, number, turn_in(alloc, names, patterns, nodes, value))
}

/// Each turn in order, of so many orchestrators.
/// - A turn that isn't known or has another number of parts is `BadTurn` at the turn.
/// - One that may not be among the turns of so many orchestrators, or names none of them, is `NodeTurn` at the turn.
/// - A part has its own faults at its place.
///
/// The time is that of the items.
pub fn each_turn(
    alloc: Global,
    names: &Names,
    patterns: &Patterns,
    nodes: u32,
    items: &[Value],
) -> Result<Vec<ListedTurn>, ReadFault>
    ensures { Gives (λ v. v.items) fault_of result
        (each (turn_in names.now patterns.now nodes) (items_view items.now)) }
{
    let mut turns = Vec::with_capacity(alloc, items.len())?;
    for (number, value) in items.iter().enumerate() {
        turns.push(turn_at(alloc, names, patterns, nodes, number, value)?)?;
    }
    Ok(turns)
}
