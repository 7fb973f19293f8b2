//! What refuses the commands.

ghost use Rattle.std.specs.Prelude.{◌≡◌, IfOk, IsSome};
ghost use Rattle.permission.specs.OrchBase.Gives.{Gives};
ghost use Rattle.permission.specs.BookViews.Forests.{book_forest};
ghost use Rattle.permission.specs.Checks.{permit_fault, permitted};
ghost use Rattle.pseudo_match.specs.Commands.{pseudo_command};
ghost use Rattle.pseudo_match.specs.Permits.{case_of, last_row_of, lead_of, own_refusal, refusal_about, refusal_of, row_of, sources_over};

use crate::book_views::replicas;
use crate::command::pseudo_command;
use crate::commands::{Command, MatchCommand, Refusal};
use crate::instance_keeper_items::Book;
use crate::orch_base::{Moment, ServerNo};
use crate::server_model::World;
use crate::topology_tree::Forest;
use crate::{Memory, PermitFault};
use permission::{
    Case, Check, Lead, one_or_none, refusal_around, replicas_but, source, source_above, unknown_in,
    without_candidate,
};
use std::alloc::Global;

const MATCH: [Check; 8] = [
    Check::SameInstance,
    Check::Busy,
    Check::Unreachable,
    Check::OtherCluster,
    Check::Below,
    Check::DestNotLogging,
    Check::SameServerId,
    Check::VersionLower,
];

const MATCH_UP: [Check; 8] = [
    Check::Busy,
    Check::Unreachable,
    Check::NoSource,
    Check::AlreadyDetached,
    Check::SourceHasNoSource,
    Check::DestNotLogging,
    Check::SameServerId,
    Check::VersionLower,
];

const REGROUP: [Check; 1] = [Check::Busy];

// The checks of a command, by rising number, between the one that its instances are known and its own one.
fn row_of(command: MatchCommand) -> &'static [Check]
    ensures { result.now ≡ row_of command }
{
    match command {
        MatchCommand::Match | MatchCommand::MatchReplicas => &MATCH,
        MatchCommand::MatchUp => &MATCH_UP,
        MatchCommand::RegroupReplicas => &REGROUP,
    }
}

/// Which checks of a command's row come first, after the one that its instances are known.
pub fn lead_of(command: MatchCommand) -> Lead
    ensures { result ≡ lead_of command }
{
    match command {
        MatchCommand::MatchUp | MatchCommand::RegroupReplicas => Lead::Held,
        MatchCommand::Match => Lead::Apart,
        MatchCommand::MatchReplicas => Lead::Other,
    }
}

const MOVED: [Check; 1] = [Check::MovedNotLogging];

const MOVED_WITHOUT_MARKS: [Check; 2] = [Check::PseudoOff, Check::MovedNotLogging];

const REGROUPED_WITHOUT_MARKS: [Check; 1] = [Check::PseudoOff];

// The checks after a command's own one.
fn last_row_of(every: u64, command: MatchCommand) -> &'static [Check]
    ensures { result.now ≡ last_row_of every command }
{
    match command {
        MatchCommand::Match | MatchCommand::MatchUp | MatchCommand::MatchReplicas => {
            if every == 0 {
                &MOVED_WITHOUT_MARKS
            } else {
                &MOVED
            }
        }
        MatchCommand::RegroupReplicas => {
            if every == 0 {
                &REGROUPED_WITHOUT_MARKS
            } else {
                &[]
            }
        }
    }
}

// The source and the source's source of a server.
fn sources_over(alloc: Global, book: &Book, i: ServerNo) -> Result<Vec<ServerNo>, Memory>
    ensures { IfOk result (λ list. list.items ≡ sources_over book.now i) }
{
    let mut list = one_or_none(alloc, source(book, i))?;
    list.append(&mut one_or_none(alloc, source_above(book, i))?)?;
    Ok(list)
}

// Which servers move to which source, and beside which.
fn case_of(
    alloc: Global,
    book: &Book,
    command: MatchCommand,
    i: ServerNo,
    d: Option<ServerNo>,
) -> Result<Case, Memory>
    ensures { IfOk result (λ c. c ≡ case_of book.now command i d) }
{
    match command {
        MatchCommand::Match => Case::one(alloc, i, d, d),
        MatchCommand::MatchUp => {
            let above = source_above(book, i);
            Case::beside(alloc, i, &[i], above, &sources_over(alloc, book, i)?)
        }
        MatchCommand::MatchReplicas => {
            let replicas = replicas_but(alloc, book, i, d)?;
            Case::beside(alloc, i, &replicas, d, &one_or_none(alloc, d)?)
        }
        MatchCommand::RegroupReplicas => Case::round(alloc, i, &replicas(alloc, book, i)?, None),
    }
}

// A command's own check.
fn own_refusal(
    alloc: Global,
    book: &Book,
    world: &World,
    command: MatchCommand,
    i: ServerNo,
    now: Moment,
) -> Result<Option<Refusal>, Memory>
    ensures { IfOk result (λ r. r ≡ own_refusal world.now book.now now command i) }
{
    match command {
        MatchCommand::Match | MatchCommand::MatchUp | MatchCommand::MatchReplicas => Ok(None),
        MatchCommand::RegroupReplicas => without_candidate(alloc, book, world, i, now),
    }
}

/// Refuses a command of this kind about an instance with the refusal of the lowest number that applies. Else it answers
/// what the command's job is about. Each transaction is a mark whose number is divisible by `every`, and none is if
/// that is 0. It goes by the book with its rules of promotion at a moment and the servers' settings, and changes
/// nothing.
pub fn permit_kind(
    alloc: Global,
    book: &Book,
    forest: &Forest,
    world: &World,
    command: MatchCommand,
    i: ServerNo,
    d: Option<ServerNo>,
    now: Moment,
    every: u64,
) -> Result<Case, PermitFault>
    requires { forest.now ≡ book_forest book.now }
    ensures case { IfOk result (λ c. c ≡ case_of book.now command i d) }
    ensures refusal { Gives (λ _. tt) permit_fault result
        (permitted (refusal_about world.now book.now now every command i d)) }
{
    let case = case_of(alloc, book, command, i, d)?;
    let own = own_refusal(alloc, book, world, command, i, now)?;
    let (row, last) = (row_of(command), last_row_of(every, command));
    match refusal_around(alloc, book, forest, world, &case, row, own, last)? {
        Some(refusal) => Err(PermitFault::Refused(refusal)),
        None => Ok(case),
    }
}

/// Refuses one of these commands with the refusal of the lowest number that applies, by marks of this distance.
pub fn permit(
    alloc: Global,
    book: &Book,
    forest: &Forest,
    world: &World,
    command: Command,
    now: Moment,
    every: u64,
) -> Result<(), PermitFault>
    requires forest { forest.now ≡ book_forest book.now }
    requires here { IsSome (pseudo_command command.name) }
    ensures { Gives (λ _. tt) permit_fault result
        (permitted (refusal_of world.now book.now now every command)) }
{
    if let Some(unknown) = unknown_in(book, command) {
        return Err(PermitFault::Refused(unknown));
    }
    if let (Some(kind), Some(i)) = (pseudo_command(command.name), command.i) {
        permit_kind(alloc, book, forest, world, kind, i, command.d, now, every)?;
    }
    Ok(())
}
