//! What refuses the commands.

ghost use Rattle.std.specs.Prelude.{◌≡◌, IfOk, IsSome};
ghost use Rattle.permission.specs.OrchBase.Gives.{Gives};
ghost use Rattle.permission.specs.BookViews.Forests.{book_forest};
ghost use Rattle.permission.specs.Checks.{permit_fault, permitted};
ghost use Rattle.moves_coords.specs.Commands.{coords_command};
ghost use Rattle.moves_coords.specs.Permits.{by_gtids, case_of, lead_of, refusal_about, refusal_of, row_of};

use crate::book_views::replicas;
use crate::command::coords_command;
use crate::commands::{Command, CoordsCommand};
use crate::instance_keeper_items::Book;
use crate::orch_base::{Moment, ServerNo};
use crate::server_model::World;
use crate::topology_tree::Forest;
use crate::{Memory, PermitFault};
use permission::{
    Case, Check, Lead, first_refusal, is_auto, one_or_none, siblings, source, source_above,
    unknown_in,
};
use std::alloc::Global;

const MOVE_UP: [Check; 8] = [
    Check::Busy,
    Check::Unreachable,
    Check::NoSource,
    Check::AlreadyDetached,
    Check::SourceHasNoSource,
    Check::SameServerId,
    Check::VersionLower,
    Check::PurgedPlace,
];

const MOVE_UP_REPLICAS: [Check; 7] = [
    Check::Busy,
    Check::Unreachable,
    Check::NoSource,
    Check::AlreadyDetached,
    Check::SameServerId,
    Check::VersionLower,
    Check::PurgedPlace,
];

const MOVE_BELOW: [Check; 11] = [
    Check::SameInstance,
    Check::Busy,
    Check::Unreachable,
    Check::NoSource,
    Check::AlreadyDetached,
    Check::OtherCluster,
    Check::Below,
    Check::NotSibling,
    Check::DestNotLogging,
    Check::SameServerId,
    Check::VersionLower,
];

const REPOINT: [Check; 7] = [
    Check::SameInstance,
    Check::Busy,
    Check::Unreachable,
    Check::NoSource,
    Check::AlreadyDetached,
    Check::NotSameLog,
    Check::PurgedPlace,
];

const REPOINT_BY_GTIDS: [Check; 12] = [
    Check::SameInstance,
    Check::Busy,
    Check::Unreachable,
    Check::NoSource,
    Check::AlreadyDetached,
    Check::OtherCluster,
    Check::Below,
    Check::DestNotLogging,
    Check::SameServerId,
    Check::VersionLower,
    Check::Errant,
    Check::PurgedSet,
];

const TAKE_SIBLINGS: [Check; 7] = [
    Check::Busy,
    Check::Unreachable,
    Check::NoSource,
    Check::AlreadyDetached,
    Check::DestNotLogging,
    Check::SameServerId,
    Check::VersionLower,
];

const TAKE_MASTER: [Check; 9] = [
    Check::Busy,
    Check::Unreachable,
    Check::NoSource,
    Check::AlreadyDetached,
    Check::SourceHasNoSource,
    Check::DestNotLogging,
    Check::SameServerId,
    Check::VersionLower,
    Check::PurgedPlace,
];

const ATTACHED: [Check; 4] = [
    Check::Busy,
    Check::Unreachable,
    Check::NoSource,
    Check::AlreadyDetached,
];

const DETACHED: [Check; 4] = [
    Check::Busy,
    Check::Unreachable,
    Check::NoSource,
    Check::NotDetached,
];

const WITH_SOURCE: [Check; 3] = [Check::Busy, Check::Unreachable, Check::NoSource];

const REACHED: [Check; 2] = [Check::Busy, Check::Unreachable];

/// Whether a repoint of an instance goes by GTIDs: they are used, and it was seen to find its place by them.
pub(crate) fn by_gtids(book: &Book, world: &World, i: ServerNo) -> bool
    ensures { result ≡ by_gtids world.now book.now i }
{
    world.gtid() && is_auto(book, i)
}

// The checks of a command, by rising number, after the one that its instances are known.
fn row_of(by_gtids: bool, command: CoordsCommand) -> &'static [Check]
    ensures { result.now ≡ row_of by_gtids command }
{
    match command {
        CoordsCommand::MoveUp => &MOVE_UP,
        CoordsCommand::MoveUpReplicas => &MOVE_UP_REPLICAS,
        CoordsCommand::MoveBelow => &MOVE_BELOW,
        CoordsCommand::Repoint => {
            if by_gtids {
                &REPOINT_BY_GTIDS
            } else {
                &REPOINT
            }
        }
        CoordsCommand::TakeSiblings => &TAKE_SIBLINGS,
        CoordsCommand::TakeMaster => &TAKE_MASTER,
        CoordsCommand::ReattachReplica => &DETACHED,
        CoordsCommand::ResetReplica => &WITH_SOURCE,
        CoordsCommand::SetReadOnly | CoordsCommand::SetWriteable => &REACHED,
        CoordsCommand::DetachReplica
        | CoordsCommand::StartReplica
        | CoordsCommand::StopReplica
        | CoordsCommand::RestartReplica => &ATTACHED,
    }
}

/// Which checks of a command's row come first, after the one that its instances are known.
pub fn lead_of(command: CoordsCommand) -> Lead
    ensures { result ≡ lead_of command }
{
    match command {
        CoordsCommand::MoveUp
        | CoordsCommand::MoveUpReplicas
        | CoordsCommand::TakeSiblings
        | CoordsCommand::TakeMaster
        | CoordsCommand::DetachReplica
        | CoordsCommand::ReattachReplica
        | CoordsCommand::ResetReplica
        | CoordsCommand::StartReplica
        | CoordsCommand::StopReplica
        | CoordsCommand::RestartReplica
        | CoordsCommand::SetReadOnly
        | CoordsCommand::SetWriteable => Lead::Held,
        CoordsCommand::MoveBelow | CoordsCommand::Repoint => Lead::Apart,
    }
}

// Which servers move to which source, beside which, and by whose coordinates.
fn case_of(
    alloc: Global,
    book: &Book,
    command: CoordsCommand,
    i: ServerNo,
    d: Option<ServerNo>,
) -> Result<Case, Memory>
    ensures { IfOk result (λ c. c ≡ case_of book.now command i d) }
{
    let x = source(book, i);
    match command {
        CoordsCommand::MoveUp => {
            let case = Case::one(alloc, i, source_above(book, i), x)?;
            Ok(case.going_by(one_or_none(alloc, x)?))
        }
        CoordsCommand::MoveUpReplicas => {
            let case = Case::round(alloc, i, &replicas(alloc, book, i)?, x)?;
            Ok(case.going_by(one_or_none(alloc, Some(i))?))
        }
        CoordsCommand::MoveBelow => Case::one(alloc, i, d, d),
        CoordsCommand::Repoint => {
            let case = Case::one(alloc, i, d.or(x), None)?;
            Ok(case.going_by(one_or_none(alloc, Some(i))?))
        }
        CoordsCommand::TakeSiblings => {
            Case::round(alloc, i, &siblings(alloc, book, i)?, Some(i))
        }
        CoordsCommand::TakeMaster => {
            let case = Case::swap(alloc, book, i, x, source_above(book, i))?;
            Ok(case.going_by(one_or_none(alloc, x)?))
        }
        CoordsCommand::DetachReplica
        | CoordsCommand::ReattachReplica
        | CoordsCommand::ResetReplica
        | CoordsCommand::StartReplica
        | CoordsCommand::StopReplica
        | CoordsCommand::RestartReplica
        | CoordsCommand::SetReadOnly
        | CoordsCommand::SetWriteable => Case::one(alloc, i, None, None),
    }
}

/// Refuses a command of this kind about an instance with the refusal of the lowest number that applies. Else it answers
/// what the command's job is about. It goes by the book, the servers' settings and whether they use GTIDs, and changes
/// nothing.
pub fn permit_kind(
    alloc: Global,
    book: &Book,
    forest: &Forest,
    world: &World,
    command: CoordsCommand,
    i: ServerNo,
    d: Option<ServerNo>,
) -> Result<Case, PermitFault>
    requires { forest.now ≡ book_forest book.now }
    ensures case { IfOk result (λ c. c ≡ case_of book.now command i d) }
    ensures refusal { Gives (λ _. tt) permit_fault result
        (permitted (refusal_about world.now book.now command i d)) }
{
    let case = case_of(alloc, book, command, i, d)?;
    let row = row_of(by_gtids(book, world, i), command);
    match first_refusal(alloc, book, forest, world, &case, row)? {
        Some(refusal) => Err(PermitFault::Refused(refusal)),
        None => Ok(case),
    }
}

/// Refuses one of these commands with the refusal of the lowest number that applies. The moment makes no difference to
/// these commands.
pub fn permit(
    alloc: Global,
    book: &Book,
    forest: &Forest,
    world: &World,
    command: Command,
    _now: Moment,
) -> Result<(), PermitFault>
    requires forest { forest.now ≡ book_forest book.now }
    requires here { IsSome (coords_command command.name) }
    ensures { Gives (λ _. tt) permit_fault result
        (permitted (refusal_of world.now book.now command)) }
{
    if let Some(unknown) = unknown_in(book, command) {
        return Err(PermitFault::Refused(unknown));
    }
    if let (Some(kind), Some(i)) = (coords_command(command.name), command.i) {
        permit_kind(alloc, book, forest, world, kind, i, command.d)?;
    }
    Ok(())
}
