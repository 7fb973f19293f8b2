//! What listed turns mean.

ghost use Rattle.std.specs.Prelude.{◌≡◌, ◌++◌, ◌≤◌, IfOk, IfSome, List, OnOk, count_by, length, option_map};
ghost use Rattle.scenario_turns.specs.Expansion.{done_by, printed_of, in_order, polls_of, steps_of, expansion_of, expanded, few};
ghost use Rattle.scenario_turns.specs.Prelude.{ServerNo, is_write};

use crate::openings::Opening;
use crate::orch_base::{Memory, OwnedText, ServerNo};
use crate::pattern::printed_names;
use name_order::in_name_order;
use scenarios::{Act, Step, Turn};
use std::alloc::Global;

/// A turn as a scenario lists it.
#[derive(Drop)]
pub enum ListedTurn {
    /// One turn.
    One(Turn),
    /// Poller 0 reads each server and stores what it read, in the order of the servers' names: that of the one
    /// orchestrator, or of this one of several.
    Polls(Option<u32>),
    /// A fetch and an apply at each server in the order of the servers' names, and then the polls.
    Round,
}

const MOST_TURNS: usize = 1_000_000;

/// The servers' names as they are printed. `Err` means out of memory.
pub fn printed_of(alloc: Global, opening: &Opening) -> Result<Vec<OwnedText>, Memory>
    ensures { IfOk result (λ printed. printed.items ≡ printed_of opening.now.servers) }
{
    printed_names(alloc, opening.names())
}

/// The servers' numbers in the order of their names. `Err` means out of memory.
pub fn in_order(alloc: Global, opening: &Opening) -> Result<Vec<ServerNo>, Memory>
    requires { length opening.now.servers ≤ 1000 }
    ensures order { IfOk result (λ ordered. ordered.items ≡ in_order opening.now.servers) }
    ensures few { IfOk result (λ ordered. length ordered.items ≤ 1000) }
{
    in_name_order(alloc, opening.names())
}

/// The turn in which the one orchestrator does this, or one of several by its number.
pub(crate) fn done_by(node: Option<u32>, act: Act) -> Turn
    ensures { result ≡ done_by node act }
{
    match node {
        None => Turn::Act(act),
        Some(node) => Turn::As(node, act),
    }
}

fn push_polls(ordered: &[ServerNo], node: Option<u32>, turns: &mut Vec<Turn>) -> Result<(), Memory>
    ensures { OnOk result (turns.new.items ≡ turns.old.items ++ polls_of node ordered.now) }
{
    for no in ordered {
        turns.push(done_by(node, Act::PollRead(0, *no)))?;
        turns.push(done_by(node, Act::PollStore(0)))?;
    }
    Ok(())
}

fn push_steps(ordered: &[ServerNo], turns: &mut Vec<Turn>) -> Result<(), Memory>
    ensures { OnOk result (turns.new.items ≡ turns.old.items ++ steps_of ordered.now) }
{
    for no in ordered {
        turns.push(Turn::Step(Step::Fetch(*no)))?;
        turns.push(Turn::Step(Step::Apply(*no)))?;
    }
    Ok(())
}

fn push_turns(ordered: &[ServerNo], listed: ListedTurn, turns: &mut Vec<Turn>) -> Result<(), Memory>
    ensures { OnOk result (turns.new.items ≡ turns.old.items ++ expansion_of ordered.now listed) }
{
    match listed {
        ListedTurn::One(turn) => {
            turns.push(turn)?;
            Ok(())
        }
        ListedTurn::Polls(node) => push_polls(ordered, node, turns),
        ListedTurn::Round => {
            push_steps(ordered, turns)?;
            push_polls(ordered, None, turns)
        }
    }
}

fn is_write(turn: &Turn) -> bool
    ensures { result ≡ is_write turn.now }
{
    matches!(turn, Turn::Step(Step::Write(_, _)))
}

// How many writes a listed turn means.
#[tactic(auto, using(crate::proofs::Expansions::polls_write_nothing, crate::proofs::Expansions::rounds_write_nothing))]
fn writes_of(listed: &ListedTurn) -> usize
    ensures exact { (ns : List ServerNo) → result ≡ count_by is_write (expansion_of ns listed.now) }
    ensures few { result ≤ 1 }
{
    match listed {
        ListedTurn::One(turn) => if is_write(turn) { 1 } else { 0 },
        ListedTurn::Polls(_) | ListedTurn::Round => 0,
    }
}

/// The turns that the listed ones mean, if they are at most 1,000,000, and how many of them are writes. The time is
/// that of these turns. `Err` means out of memory.
// Inlined into a larger function, the walk would have too few registers.
#[inline(never)]
pub fn expanded(
    alloc: Global,
    ordered: &[ServerNo],
    listed: Vec<ListedTurn>,
) -> Result<Option<(Vec<Turn>, usize)>, Memory>
    ensures turns { IfOk result (λ e. option_map (λ p. p.0.items) e
        ≡ few (expanded ordered.now listed.items)) }
    ensures writes { IfOk result (λ e. IfSome e (λ p. p.1 ≡ count_by is_write p.0.items)) }
{
    let mut turns = Vec::with_capacity(alloc, listed.len().min(MOST_TURNS))?;
    let mut writes = 0;
    for one in listed {
        writes += writes_of(&one);
        push_turns(ordered, one, &mut turns)?;
        if turns.len() > MOST_TURNS {
            return Ok(None);
        }
    }
    Ok(Some((turns, writes)))
}
