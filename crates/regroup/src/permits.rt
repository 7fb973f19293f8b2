//! What refuses the commands.

ghost use Rattle.std.specs.Prelude.{◌≡◌, ◌++◌, IfOk, IsSome};
ghost use Rattle.regroup.specs.Prelude.{Gives, book_forest, option_to_list, permit_fault, permitted};
ghost use Rattle.regroup.specs.Commands.{regroup_command};
ghost use Rattle.regroup.specs.Permits.{astray, case_of, crossed_by, last_row_of, lead_of, movers_of, own_refusal, passed_by, refusal_about, refusal_of, relocating, row_of};

use crate::book_views::replicas;
use crate::command::regroup_command;
use crate::commands::{Command, PathCommand, Refusal};
use crate::instance_keeper_items::Book;
use crate::orch_base::{Moment, ServerNo};
use crate::server_model::World;
use crate::topology_tree::Forest;
use crate::ways::{path_to, push_crossed, push_passed};
use crate::{Memory, PermitFault};
use permission::{
    Case, Check, Lead, one_or_none, refusal_around, replicas_but, unknown_in, without_candidate,
};
use std::alloc::Global;

const RELOCATE: [Check; 10] = [
    Check::SameInstance,
    Check::Busy,
    Check::Unreachable,
    Check::NoSource,
    Check::AlreadyDetached,
    Check::OtherCluster,
    Check::Below,
    Check::DestNotLogging,
    Check::SameServerId,
    Check::VersionLower,
];

const RELOCATE_BY_GTIDS: [Check; 11] = [
    Check::SameInstance,
    Check::Busy,
    Check::Unreachable,
    Check::OtherCluster,
    Check::Below,
    Check::DestNotLogging,
    Check::SameServerId,
    Check::VersionLower,
    Check::GtidOff,
    Check::Errant,
    Check::PurgedSet,
];

const REPLICAS: [Check; 8] = [
    Check::SameInstance,
    Check::Busy,
    Check::Unreachable,
    Check::OtherCluster,
    Check::Below,
    Check::DestNotLogging,
    Check::SameServerId,
    Check::VersionLower,
];

const REPLICAS_BY_GTIDS: [Check; 10] = [
    Check::SameInstance,
    Check::Busy,
    Check::Unreachable,
    Check::OtherCluster,
    Check::Below,
    Check::DestNotLogging,
    Check::SameServerId,
    Check::VersionLower,
    Check::Errant,
    Check::PurgedSet,
];

const REGROUP: [Check; 1] = [Check::Busy];

// The checks of a command, by rising number, between the one that its instances are known and its own one.
fn row_of(gtid: bool, command: PathCommand) -> &'static [Check]
    ensures { result.now ≡ row_of gtid command }
{
    match command {
        PathCommand::Relocate => { if gtid { &RELOCATE_BY_GTIDS } else { &RELOCATE } }
        PathCommand::RelocateReplicas => { if gtid { &REPLICAS_BY_GTIDS } else { &REPLICAS } }
        PathCommand::RegroupReplicas => &REGROUP,
    }
}

/// Which checks of a command's row come first, after the one that its instances are known.
pub fn lead_of(command: PathCommand) -> Lead
    ensures { result ≡ lead_of command }
{
    match command {
        PathCommand::RegroupReplicas => Lead::Held,
        PathCommand::Relocate => Lead::Apart,
        PathCommand::RelocateReplicas => Lead::Other,
    }
}

const PLACES: [Check; 1] = [Check::PurgedPlace];

// The checks after a command's own one.
fn last_row_of(gtid: bool, command: PathCommand) -> &'static [Check]
    ensures { result.now ≡ last_row_of gtid command }
{
    match command {
        PathCommand::Relocate | PathCommand::RelocateReplicas => {
            if gtid { &[] } else { &PLACES }
        }
        PathCommand::RegroupReplicas => &[],
    }
}

/// The servers that move, by name.
pub(crate) fn movers_of(
    alloc: Global,
    book: &Book,
    command: PathCommand,
    i: ServerNo,
    d: Option<ServerNo>,
) -> Result<Vec<ServerNo>, Memory>
    ensures { IfOk result (λ list. list.items ≡ movers_of book.now command i d) }
{
    match command {
        PathCommand::Relocate => one_or_none(alloc, Some(i)),
        PathCommand::RelocateReplicas => replicas_but(alloc, book, i, d),
        PathCommand::RegroupReplicas => Ok(Vec::new(alloc)),
    }
}

// The new source of servers that move, and the sources that they pass on their paths.
fn beside_of(
    alloc: Global,
    book: &Book,
    forest: &Forest,
    gtid: bool,
    movers: &[ServerNo],
    d: Option<ServerNo>,
) -> Result<Vec<ServerNo>, Memory>
    requires { forest.now ≡ book_forest book.now }
    ensures { IfOk result (λ list. list.items ≡ option_to_list d ++ passed_by gtid book.now
        movers.now d) }
{
    let mut list = one_or_none(alloc, d)?;
    if gtid {
        return Ok(list);
    }
    for no in movers {
        push_passed(&mut list, path_to(alloc, book, forest, d, *no)?)?;
    }
    Ok(list)
}

// The servers by whose coordinates the servers that move go their paths.
fn crossed_by(
    alloc: Global,
    book: &Book,
    forest: &Forest,
    gtid: bool,
    movers: &[ServerNo],
    d: Option<ServerNo>,
) -> Result<Vec<ServerNo>, Memory>
    requires { forest.now ≡ book_forest book.now }
    ensures { IfOk result (λ list. list.items ≡ crossed_by gtid book.now movers.now d) }
{
    let mut list = Vec::new(alloc);
    if gtid {
        return Ok(list);
    }
    for no in movers {
        push_crossed(&mut list, *no, path_to(alloc, book, forest, d, *no)?)?;
    }
    Ok(list)
}

// Servers go their paths to a destination.
fn relocating(
    alloc: Global,
    book: &Book,
    forest: &Forest,
    world: &World,
    i: ServerNo,
    movers: &[ServerNo],
    d: Option<ServerNo>,
) -> Result<Case, Memory>
    requires { forest.now ≡ book_forest book.now }
    ensures { IfOk result (λ c. c ≡ relocating world.now book.now i movers.now d) }
{
    let beside = beside_of(alloc, book, forest, world.gtid(), movers, d)?;
    let crossed = crossed_by(alloc, book, forest, world.gtid(), movers, d)?;
    Ok(Case::beside(alloc, i, movers, d, &beside)?.going_by(crossed))
}

// Which servers move to which source, beside which, and by whose coordinates.
fn case_of(
    alloc: Global,
    book: &Book,
    forest: &Forest,
    world: &World,
    command: PathCommand,
    i: ServerNo,
    d: Option<ServerNo>,
) -> Result<Case, Memory>
    requires { forest.now ≡ book_forest book.now }
    ensures { IfOk result (λ c. c ≡ case_of world.now book.now command i d) }
{
    match command {
        PathCommand::Relocate | PathCommand::RelocateReplicas => {
            let movers = movers_of(alloc, book, command, i, d)?;
            relocating(alloc, book, forest, world, i, &movers, d)
        }
        PathCommand::RegroupReplicas => Case::round(alloc, i, &replicas(alloc, book, i)?, None),
    }
}

// Whether one of the servers that move has no path.
fn astray(
    alloc: Global,
    book: &Book,
    forest: &Forest,
    gtid: bool,
    movers: &[ServerNo],
    d: Option<ServerNo>,
) -> Result<Option<Refusal>, Memory>
    requires { forest.now ≡ book_forest book.now }
    ensures { IfOk result (λ r. r ≡ astray gtid book.now movers.now d) }
{
    if gtid {
        return Ok(None);
    }
    for no in movers {
        if path_to(alloc, book, forest, d, *no)?.is_none() {
            return Ok(Some(Refusal::NoPath));
        }
    }
    Ok(None)
}

// A command's own check.
fn own_refusal(
    alloc: Global,
    book: &Book,
    forest: &Forest,
    world: &World,
    command: PathCommand,
    i: ServerNo,
    d: Option<ServerNo>,
    now: Moment,
) -> Result<Option<Refusal>, Memory>
    requires { forest.now ≡ book_forest book.now }
    ensures { IfOk result (λ r. r ≡ own_refusal world.now book.now now command i d) }
{
    match command {
        PathCommand::Relocate => astray(alloc, book, forest, world.gtid(), &[i], d),
        PathCommand::RelocateReplicas => {
            let movers = replicas_but(alloc, book, i, d)?;
            astray(alloc, book, forest, world.gtid(), &movers, d)
        }
        PathCommand::RegroupReplicas => without_candidate(alloc, book, world, i, now),
    }
}

/// Refuses a command of this kind about an instance with the refusal of the lowest number that applies. Else it answers
/// what the command's job is about: a source that several replicas pass is leased for each of them. It goes by the book
/// with its rules of promotion at a moment, the servers' settings and whether they use GTIDs, and changes nothing.
pub fn permit_kind(
    alloc: Global,
    book: &Book,
    forest: &Forest,
    world: &World,
    command: PathCommand,
    i: ServerNo,
    d: Option<ServerNo>,
    now: Moment,
) -> Result<Case, PermitFault>
    requires { forest.now ≡ book_forest book.now }
    ensures case { IfOk result (λ c. c ≡ case_of world.now book.now command i d) }
    ensures refusal { Gives (λ _. tt) permit_fault result
        (permitted (refusal_about world.now book.now now command i d)) }
{
    let case = case_of(alloc, book, forest, world, command, i, d)?;
    let own = own_refusal(alloc, book, forest, world, command, i, d, now)?;
    let (row, last) = (
        row_of(world.gtid(), command),
        last_row_of(world.gtid(), command),
    );
    match refusal_around(alloc, book, forest, world, &case, row, own, last)? {
        Some(refusal) => Err(PermitFault::Refused(refusal)),
        None => Ok(case),
    }
}

/// Refuses one of these commands with the refusal of the lowest number that applies.
pub fn permit(
    alloc: Global,
    book: &Book,
    forest: &Forest,
    world: &World,
    command: Command,
    now: Moment,
) -> Result<(), PermitFault>
    requires forest { forest.now ≡ book_forest book.now }
    requires here { IsSome (regroup_command command.name) }
    ensures { Gives (λ _. tt) permit_fault result
        (permitted (refusal_of world.now book.now now command)) }
{
    if let Some(unknown) = unknown_in(book, command) {
        return Err(PermitFault::Refused(unknown));
    }
    if let (Some(kind), Some(i)) = (regroup_command(command.name), command.i) {
        permit_kind(alloc, book, forest, world, kind, i, command.d, now)?;
    }
    Ok(())
}
