//! What refuses the commands.

ghost use Rattle.std.specs.Prelude.{◌≡◌, IfOk, IsSome};
ghost use Rattle.permission.specs.OrchBase.Gives.{Gives};
ghost use Rattle.permission.specs.BookViews.Forests.{book_forest};
ghost use Rattle.permission.specs.Checks.{permit_fault, permitted};
ghost use Rattle.moves_gtid.specs.Commands.{gtid_command};
ghost use Rattle.moves_gtid.specs.Permits.{case_of, lead_of, refusal_about, refusal_of, row_of};

use crate::command::gtid_command;
use crate::commands::{Command, GtidCommand};
use crate::instance_keeper_items::Book;
use crate::orch_base::{Moment, ServerNo};
use crate::server_model::World;
use crate::topology_tree::Forest;
use crate::{Memory, PermitFault};
use permission::{Case, Check, Lead, first_refusal, one_or_none, replicas_but, source, unknown_in};
use std::alloc::Global;

const MOVE: [Check; 11] = [
    Check::SameInstance,
    Check::Busy,
    Check::Unreachable,
    Check::OtherCluster,
    Check::Below,
    Check::DestNotLogging,
    Check::SameServerId,
    Check::VersionLower,
    Check::GtidOff,
    Check::Errant,
    Check::PurgedSet,
];

const ENABLE: [Check; 7] = [
    Check::Busy,
    Check::Unreachable,
    Check::NoSource,
    Check::AlreadyDetached,
    Check::GtidOff,
    Check::Errant,
    Check::PurgedSet,
];

const DISABLE: [Check; 6] = [
    Check::Busy,
    Check::Unreachable,
    Check::NoSource,
    Check::AlreadyDetached,
    Check::GtidOff,
    Check::PurgedPlace,
];

// The checks of a command, by rising number, after the one that its instances are known.
fn row_of(command: GtidCommand) -> &'static [Check]
    ensures { result.now ≡ row_of command }
{
    match command {
        GtidCommand::MoveGtid | GtidCommand::MoveReplicasGtid => &MOVE,
        GtidCommand::EnableGtid => &ENABLE,
        GtidCommand::DisableGtid => &DISABLE,
    }
}

/// Which checks of a command's row come first, after the one that its instances are known.
pub fn lead_of(command: GtidCommand) -> Lead
    ensures { result ≡ lead_of command }
{
    match command {
        GtidCommand::EnableGtid | GtidCommand::DisableGtid => Lead::Held,
        GtidCommand::MoveGtid => Lead::Apart,
        GtidCommand::MoveReplicasGtid => Lead::Other,
    }
}

// Which servers move to which source, beside which, and by whose coordinates.
fn case_of(
    alloc: Global,
    book: &Book,
    command: GtidCommand,
    i: ServerNo,
    d: Option<ServerNo>,
) -> Result<Case, Memory>
    ensures { IfOk result (λ c. c ≡ case_of book.now command i d) }
{
    let x = source(book, i);
    match command {
        GtidCommand::MoveGtid => Case::one(alloc, i, d, d),
        GtidCommand::MoveReplicasGtid => {
            let replicas = replicas_but(alloc, book, i, d)?;
            Case::beside(alloc, i, &replicas, d, &one_or_none(alloc, d)?)
        }
        GtidCommand::EnableGtid => Case::one(alloc, i, x, x),
        GtidCommand::DisableGtid => {
            let case = Case::one(alloc, i, x, None)?;
            Ok(case.going_by(one_or_none(alloc, Some(i))?))
        }
    }
}

/// Refuses a command of this kind about an instance with the refusal of the lowest number that applies. Else it answers
/// what the command's job is about. It goes by the book, the servers' settings and whether they use GTIDs, and changes
/// nothing.
pub fn permit_kind(
    alloc: Global,
    book: &Book,
    forest: &Forest,
    world: &World,
    command: GtidCommand,
    i: ServerNo,
    d: Option<ServerNo>,
) -> Result<Case, PermitFault>
    requires { forest.now ≡ book_forest book.now }
    ensures case { IfOk result (λ c. c ≡ case_of book.now command i d) }
    ensures refusal { Gives (λ _. tt) permit_fault result
        (permitted (refusal_about world.now book.now command i d)) }
{
    let case = case_of(alloc, book, command, i, d)?;
    match first_refusal(alloc, book, forest, world, &case, row_of(command))? {
        Some(refusal) => Err(PermitFault::Refused(refusal)),
        None => Ok(case),
    }
}

/// Refuses one of these commands with the refusal of the lowest number that applies. The moment makes no difference to
/// these commands.
pub fn permit(
    alloc: Global,
    book: &Book,
    forest: &Forest,
    world: &World,
    command: Command,
    _now: Moment,
) -> Result<(), PermitFault>
    requires forest { forest.now ≡ book_forest book.now }
    requires here { IsSome (gtid_command command.name) }
    ensures { Gives (λ _. tt) permit_fault result
        (permitted (refusal_of world.now book.now command)) }
{
    if let Some(unknown) = unknown_in(book, command) {
        return Err(PermitFault::Refused(unknown));
    }
    if let (Some(kind), Some(i)) = (gtid_command(command.name), command.i) {
        permit_kind(alloc, book, forest, world, kind, i, command.d)?;
    }
    Ok(())
}
