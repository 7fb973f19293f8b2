//! What a command line asks of a scenario's servers.

ghost use Rattle.std.specs.Prelude.{◌≡◌, ◌≤◌, true, IfOk, IfSome, length};
ghost use Rattle.tasks.specs.Prelude.{is_pattern};
ghost use Rattle.tasks.specs.Asked.{IsTaken, asked_about, asked_named, asked_of, asked_turn, extra_of, pattern_for, server_given, server_of, task_of, turn_for, used};
ghost use Rattle.tasks.specs.Report.{without_tables};

use crate::commands::{Command, CommandName, CommandTurn, Found, Keys};
use crate::orch_base::{Memory, Name, OwnedText, ServerNo};
use crate::turns::BoxedCommand;
use command_line::{Own, Places};
use scenario_turns::{found, printed_names};
use scenario_values::ReadFault;
use std::alloc::Global;

/// What a command line asks for.
#[derive(Drop)]
pub enum Asked {
    /// `run`: the scenario's own turns; and `live`: those that it takes.
    Run,
    /// `run --summary`: the same turns, of which the summary is written.
    Summary,
    /// `dump`: the same turns, and the servers after them as a scenario.
    Dump,
    /// A command: this turn after the scenario's.
    Turn(BoxedCommand),
    /// A command's plan, in place of the command: it takes no turn of its own.
    Plan(BoxedCommand),
    /// A command that uses an instance or a destination that no server is: it takes no turn of its own.
    Unknown,
    /// Nothing of a scenario's servers: an accepted command line asks this only if a scenario is to be drawn.
    Nothing,
}

/// What is asked for beside a single command's answer.
#[derive(Clone, Copy, Debug, PartialEq, Eq)]
pub enum Extra {
    Nothing,
    /// `--tables`: the tables after it.
    Tables,
    /// `--dump`: the servers after the command as a scenario, on out; the answer is on err.
    Dump,
}

impl Extra {
    /// Without the tables.
    pub(crate) fn without_tables(self) -> Extra
        ensures { result ≡ without_tables self }
    {
        match self {
            Extra::Nothing | Extra::Tables => Extra::Nothing,
            Extra::Dump => Extra::Dump,
        }
    }
}

/// What a command line asks of a scenario.
#[derive(Drop)]
pub struct Task {
    /// How many waits a job has: 1 to 10,000.
    pub waits: u32,
    pub asked: Asked,
    pub extra: Extra,
}

// The first server of this name.
fn server_of(names: &[Name], name: &Name) -> Option<ServerNo>
    requires { length names.now ≤ 1000 }
    ensures { result ≡ server_of names.now name.now }
{
    for (no, other) in names.iter().enumerate() {
        if other.is_same(name) {
            return Some(ServerNo(no as u32));
        }
    }
    None
}

// The server that is given, if one is and the command uses it. Nothing if no server has that name.
fn server_given(names: &[Name], uses: bool, given: &Option<Name>) -> Option<Option<ServerNo>>
    requires { length names.now ≤ 1000 }
    ensures { result ≡ server_given names.now (used uses given.now) }
{
    match given {
        Some(name) if uses => match server_of(names, name) {
            Some(no) => Some(Some(no)),
            None => None,
        },
        _ => Some(None),
    }
}

// What is given, if the command uses it.
fn used<T: Copy>(uses: bool, given: Option<T>) -> Option<T>
    ensures { result ≡ used uses given }
{
    if uses { given } else { None }
}

// A text, if it is given and the command uses it.
fn text_used(
    alloc: Global,
    uses: bool,
    given: &Option<OwnedText>,
) -> Result<Option<OwnedText>, Memory>
    ensures { IfOk result (λ text. text ≡ used uses given.now) }
{
    match given {
        Some(text) if uses => Ok(Some(text.copy(alloc)?)),
        _ => Ok(None),
    }
}

// A pattern, if it is given and the command uses it, with an answer for each server's printed name.
fn pattern_for(
    alloc: Global,
    names: &[Name],
    uses: bool,
    given: &Option<OwnedText>,
) -> Result<Option<Found>, Memory>
    requires { IfSome given.now (λ text. is_pattern text ≡ true) }
    ensures { IfOk result (λ p. p ≡ pattern_for names.now (used uses given.now)) }
{
    match given {
        Some(text) if uses => {
            let printed = printed_names(alloc, names)?;
            match found(alloc, text.as_str(), &printed) {
                Ok(found) => Ok(Some(found)),
                Err(ReadFault::Memory) => Err(Memory),
                Err(ReadFault::Fault(_)) => unreachable!(),
            }
        }
        _ => Ok(None),
    }
}

fn turn_for(
    alloc: Global,
    places: &Places,
    names: &[Name],
    name: CommandName,
    i: Option<ServerNo>,
    d: Option<ServerNo>,
) -> Result<CommandTurn, Memory>
    requires { IfSome places.now.pattern (λ text. is_pattern text ≡ true) }
    ensures { IfOk result (λ t. t ≡ turn_for places.now names.now name i d) }
{
    let uses = name.uses();
    Ok(CommandTurn {
        command: Command { name, i, d },
        keys: Keys {
            rule: used(uses.rule, places.rule),
            duration: used(uses.duration, places.duration),
            reason: text_used(alloc, uses.reason, &places.reason)?,
            owner: text_used(alloc, uses.owner, &places.owner)?,
            pattern: pattern_for(alloc, names, uses.pattern, &places.pattern)?,
        },
    })
}

// The command itself, or its plan.
fn asked_turn(alloc: Global, plan: bool, turn: CommandTurn) -> Result<Asked, Memory>
    ensures { IfOk result (λ a. a ≡ asked_turn plan turn) }
{
    let turn = BoxedCommand::new(alloc, turn)?;
    Ok(if plan {
        Asked::Plan(turn)
    } else {
        Asked::Turn(turn)
    })
}

fn asked_about(
    alloc: Global,
    places: &Places,
    names: &[Name],
    name: CommandName,
    i: Option<Option<ServerNo>>,
    d: Option<Option<ServerNo>>,
) -> Result<Asked, Memory>
    requires { IfSome places.now.pattern (λ text. is_pattern text ≡ true) }
    ensures { IfOk result (λ a. a ≡ asked_about places.now names.now name i d) }
{
    match (i, d) {
        (Some(i), Some(d)) => {
            let turn = turn_for(alloc, places, names, name, i, d)?;
            asked_turn(alloc, places.plan, turn)
        }
        (None, _) | (Some(_), None) => Ok(Asked::Unknown),
    }
}

fn asked_named(
    alloc: Global,
    places: &Places,
    names: &[Name],
    name: Option<CommandName>,
) -> Result<Asked, Memory>
    requires names { length names.now ≤ 1000 }
    requires pattern { IfSome places.now.pattern (λ text. is_pattern text ≡ true) }
    ensures { IfOk result (λ a. a ≡ asked_named places.now names.now name) }
{
    let Some(name) = name else {
        return Ok(Asked::Nothing);
    };
    let uses = name.uses();
    let i = server_given(names, uses.i, &places.i);
    let d = server_given(names, uses.d, &places.d);
    asked_about(alloc, places, names, name, i, d)
}

#[tactic(auto, unfolding(crate::specs::Asked::asked_of))]
fn asked_of(alloc: Global, places: &Places, names: &[Name]) -> Result<Asked, Memory>
    requires names { length names.now ≤ 1000 }
    requires pattern { IfSome places.now.pattern (λ text. is_pattern text ≡ true) }
    ensures { IfOk result (λ a. a ≡ asked_of places.now names.now) }
{
    let word = places.command.as_str();
    match Own::read(word) {
        Some(Own::Run) => Ok(if places.summary {
            Asked::Summary
        } else {
            Asked::Run
        }),
        Some(Own::Generate) => Ok(Asked::Nothing),
        Some(Own::Dump) => Ok(Asked::Dump),
        Some(Own::Live) => Ok(Asked::Run),
        None => asked_named(alloc, places, names, CommandName::read(word)),
    }
}

// What is asked for beside a command's answer.
fn extra_of(places: &Places) -> Extra
    ensures { result ≡ extra_of places.now }
{
    if places.dump {
        Extra::Dump
    } else if places.tables {
        Extra::Tables
    } else {
        Extra::Nothing
    }
}

/// What this accepted command line asks of servers of these names, of which there are at most 1,000. It is a run, its
/// summary or the servers that it leads to, a command's turn with all options that the command uses, or its plan. Or it
/// is a command whose instance or destination no server is. `Memory` comes only if memory runs out.
pub fn task_of(alloc: Global, places: &Places, names: &[Name]) -> Result<Task, Memory>
    requires words { IsTaken places.now }
    requires names { length names.now ≤ 1000 }
    ensures { IfOk result (λ t. t ≡ task_of places.now names.now) }
{
    Ok(Task {
        waits: places.wait,
        asked: asked_of(alloc, places, names)?,
        extra: extra_of(places),
    })
}
