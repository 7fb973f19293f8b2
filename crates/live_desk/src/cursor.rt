//! Places in a list of turns: of the next command, and of the next turn that is none.

ghost use Rattle.std.specs.Prelude.{◌≡◌, ◌≤◌, ℕ, [], All, IfSome, MatchOption, drop, length, true, if◌then◌else◌};
ghost use Rattle.live_desk.specs.Kinds.{is_command, is_command_act};
ghost use Rattle.orch_core.specs.Scenarios.ValidTurns.{IsTurn, NamesOneOf};
ghost use Rattle.live_desk.specs.Entries.{is_of};
ghost use Rattle.live_desk.specs.DeskBy.{IsAt, left_from};
ghost use Rattle.live_desk.specs.Desks.{IsNext};

use crate::turns::{Act, Turn};

fn is_command_act(act: &Act) -> bool
    ensures { result ≡ is_command_act act.now }
{
    match act {
        Act::Command(_) => true,
        Act::PollRead(_, _) | Act::PollStore(_) | Act::Job(_) | Act::Scan | Act::Restart => false,
    }
}

/// Whether the turn is a command.
pub(crate) fn is_command(t: &Turn) -> bool
    ensures { result ≡ is_command t.now }
{
    match t {
        Turn::Act(act) | Turn::As(_, act) => is_command_act(act),
        Turn::Step(_) | Turn::Tick(_) | Turn::Claim(_) | Turn::Release(_) => false,
    }
}

// Whether a turn is a command, or none.
fn is_of(commands: bool, t: &Turn) -> bool
    ensures { result ≡ is_of commands t.now }
{
    is_command(t) == commands
}

/// The first place from this one on of a command, or of a turn that is none; or the end.
pub(crate) fn next_at(turns: &[Turn], from: usize, commands: bool) -> usize
    requires { from ≤ length turns.now }
    ensures at { IsAt commands turns.now result }
    ensures left { left_from commands turns.now result ≡ left_from commands turns.now from }
{
    'turns: for at in from..turns.len() {
        if is_of(commands, &turns[at]) {
            return at;
        }
    }
    turns.len()
}

/// The next place, if it moves on.
pub(crate) fn moved(turns: &[Turn], at: usize, commands: bool, moves: bool) -> usize
    requires { IsAt commands turns.now at }
    ensures at { IsAt commands turns.now result }
    ensures left { left_from commands turns.now result ≡ (if moves
        then drop 1 (left_from commands turns.now at) else left_from commands turns.now at) }
{
    if moves && at < turns.len() {
        next_at(turns, at + 1, commands)
    } else {
        at
    }
}

/// The turn at a place, if it isn't the end.
pub(crate) fn turn_at(turns: &[Turn], at: usize, commands: bool) -> Option<&Turn>
    requires { IsAt commands turns.now at }
    ensures next { MatchOption result (left_from commands turns.now at ≡ [])
        (λ t. IsNext t.now (left_from commands turns.now at)) }
    ensures turn { IfSome result (λ t. (count : ℕ) → All (IsTurn count) turns.now
        → IsTurn count t.now) }
    ensures named { IfSome result (λ t. (nodes : ℕ) → All (NamesOneOf nodes) turns.now
        → NamesOneOf nodes t.now) }
    ensures kind { IfSome result (λ t. is_of commands t.now ≡ true) }
{
    if at < turns.len() {
        Some(&turns[at])
    } else {
        None
    }
}
