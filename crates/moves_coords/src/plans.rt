//! The plans of the commands.

ghost use Rattle.std.specs.Prelude.{◌≡◌, IfOk, IsSome, IsTrue, length, true};
ghost use Rattle.permission.specs.BookViews.Forests.{book_forest};
ghost use Rattle.permission.specs.Commands.Turns.{is_within};
ghost use Rattle.permission.specs.Operations.Named.{are_named};
ghost use Rattle.moves_coords.specs.Commands.{coords_command};
ghost use Rattle.moves_coords.specs.Plans.{asked, asked_started, master_taken, moved_below, moved_up, ops_of, plan_of, replicas_moved_up, repointed, repointed_auto, siblings_taken};

use crate::Memory;
use crate::book_views::replicas;
use crate::command::coords_command;
use crate::commands::{Command, CoordsCommand, Line, Lines};
use crate::instance_keeper_items::Book;
use crate::operations_items::Op;
use crate::orch_base::ServerNo;
use crate::permits::by_gtids;
use crate::server_model::World;
use crate::topology_tree::Forest;
use permission::{siblings, source, source_above};
use plan_parts::{
    again, asking, auto, ended_by_name, finished, moved, moved_each, restarted, swap, under,
    unders, up, ups,
};
use std::alloc::Global;

// To the source of its source.
fn moved_up(
    alloc: Global,
    i: ServerNo,
    x: Option<ServerNo>,
    g: Option<ServerNo>,
) -> Result<Vec<Op>, Memory>
    ensures { IfOk result (λ ops. ops.items ≡ moved_up i x g) }
{
    match (x, g) {
        (Some(x), Some(g)) => moved(alloc, up(alloc, i, x, g)?, i, g),
        (Some(_), None) | (None, _) => Ok(Vec::new(alloc)),
    }
}

// The replicas of `i`, to its source.
fn replicas_moved_up(
    alloc: Global,
    replicas: &[ServerNo],
    i: ServerNo,
    x: Option<ServerNo>,
) -> Result<Vec<Op>, Memory>
    ensures { IfOk result (λ ops. ops.items ≡ replicas_moved_up replicas.now i x) }
{
    match x {
        Some(x) => moved_each(alloc, ups(alloc, replicas, i, x)?, replicas, x),
        None => Ok(Vec::new(alloc)),
    }
}

// Below its sibling.
fn moved_below(
    alloc: Global,
    i: ServerNo,
    d: Option<ServerNo>,
    x: Option<ServerNo>,
) -> Result<Vec<Op>, Memory>
    ensures { IfOk result (λ ops. ops.items ≡ moved_below i d x) }
{
    match (d, x) {
        (Some(d), Some(x)) => moved(alloc, under(alloc, i, d, x)?, i, d),
        (Some(_), None) | (None, _) => Ok(Vec::new(alloc)),
    }
}

// Under its source anew, by coordinates.
fn repointed(alloc: Global, i: ServerNo, x: Option<ServerNo>) -> Result<Vec<Op>, Memory>
    ensures { IfOk result (λ ops. ops.items ≡ repointed i x) }
{
    match x {
        Some(x) => moved(alloc, again(alloc, i, x)?, i, x),
        None => Ok(Vec::new(alloc)),
    }
}

// Below any server, by GTIDs.
fn repointed_auto(alloc: Global, i: ServerNo, d: Option<ServerNo>) -> Result<Vec<Op>, Memory>
    ensures { IfOk result (λ ops. ops.items ≡ repointed_auto i d) }
{
    match d {
        Some(d) => moved(alloc, auto(alloc, i, d)?, i, d),
        None => Ok(Vec::new(alloc)),
    }
}

// The siblings of `i`, below it.
fn siblings_taken(
    alloc: Global,
    siblings: &[ServerNo],
    i: ServerNo,
    x: Option<ServerNo>,
) -> Result<Vec<Op>, Memory>
    ensures { IfOk result (λ ops. ops.items ≡ siblings_taken siblings.now i x) }
{
    match x {
        Some(x) => moved_each(alloc, unders(alloc, siblings, i, x)?, siblings, i),
        None => Ok(Vec::new(alloc)),
    }
}

// To the source of its source, which goes below it.
fn master_taken(
    alloc: Global,
    i: ServerNo,
    x: Option<ServerNo>,
    g: Option<ServerNo>,
) -> Result<Vec<Op>, Memory>
    ensures { IfOk result (λ ops. ops.items ≡ master_taken i x g) }
{
    match (x, g) {
        (Some(x), Some(g)) => {
            let lines = vec![in alloc; Line::Follows(i, g), Line::Follows(x, i)]?;
            finished(swap(alloc, i, x, g)?, Lines::new(lines))
        }
        (Some(_), None) | (None, _) => Ok(Vec::new(alloc)),
    }
}

// One operation, and the instance's name at the end.
fn asked(alloc: Global, op: Op, i: ServerNo) -> Result<Vec<Op>, Memory>
    ensures { IfOk result (λ ops. ops.items ≡ asked op i) }
{
    ended_by_name(alloc, asking(alloc, op, i)?, i)
}

// One operation before the instance is started.
fn asked_started(alloc: Global, op: Op, i: ServerNo) -> Result<Vec<Op>, Memory>
    ensures { IfOk result (λ ops. ops.items ≡ asked_started op i) }
{
    ended_by_name(alloc, restarted(alloc, op, i)?, i)
}

/// The operations of a command of this kind about an instance. `Err` means out of memory.
pub fn ops_of(
    alloc: Global,
    book: &Book,
    world: &World,
    command: CoordsCommand,
    i: ServerNo,
    d: Option<ServerNo>,
) -> Result<Vec<Op>, Memory>
    ensures { IfOk result (λ ops. ops.items ≡ ops_of world.now book.now command i d) }
{
    let x = source(book, i);
    match command {
        CoordsCommand::MoveUp => moved_up(alloc, i, x, source_above(book, i)),
        CoordsCommand::MoveUpReplicas => {
            replicas_moved_up(alloc, &replicas(alloc, book, i)?, i, x)
        }
        CoordsCommand::MoveBelow => moved_below(alloc, i, d, x),
        CoordsCommand::TakeSiblings => siblings_taken(alloc, &siblings(alloc, book, i)?, i, x),
        CoordsCommand::TakeMaster => master_taken(alloc, i, x, source_above(book, i)),
        CoordsCommand::Repoint => {
            if by_gtids(book, world, i) {
                repointed_auto(alloc, i, d.or(x))
            } else {
                repointed(alloc, i, x)
            }
        }
        CoordsCommand::DetachReplica => asked(alloc, Op::Detach(i), i),
        CoordsCommand::ReattachReplica => asked_started(alloc, Op::Reattach(i), i),
        CoordsCommand::ResetReplica => asked(alloc, Op::Reset(i), i),
        CoordsCommand::StartReplica => asked(alloc, Op::Start(i), i),
        CoordsCommand::StopReplica => asked(alloc, Op::Stop(i), i),
        CoordsCommand::RestartReplica => asked_started(alloc, Op::Stop(i), i),
        CoordsCommand::SetReadOnly => asked(alloc, Op::ReadOnly(i, true), i),
        CoordsCommand::SetWriteable => asked(alloc, Op::ReadOnly(i, false), i),
    }
}

fn plan_of(alloc: Global, book: &Book, world: &World, command: Command) -> Result<Vec<Op>, Memory>
    ensures { IfOk result (λ ops. ops.items ≡ plan_of world.now book.now command) }
{
    match (coords_command(command.name), command.i) {
        (Some(kind), Some(i)) => ops_of(alloc, book, world, kind, i, command.d),
        (Some(_), None) | (None, _) => Ok(Vec::new(alloc)),
    }
}

/// The operations of one of these commands, ended by its lines: `r<s` of each move in order, else the instance's name.
/// A command that is refused because it has no source has none. If its instances are servers of the book, so are all
/// servers of the operations. `Err` means out of memory.
pub fn plan(
    alloc: Global,
    book: &Book,
    _forest: &Forest,
    world: &World,
    command: Command,
) -> Result<Vec<Op>, Memory>
    requires forest { _forest.now ≡ book_forest book.now }
    requires here { IsSome (coords_command command.name) }
    ensures plan { IfOk result (λ ops. ops.items ≡ plan_of world.now book.now command) }
    ensures named { IsTrue (is_within (length book.now.names) command.i) →
        IsTrue (is_within (length book.now.names) command.d) →
        IfOk result (λ ops. are_named (length book.now.names) ops.items ≡ true) }
{
    // shows the proof that sources are known
    let _ = book.servers();
    plan_of(alloc, book, world, command)
}
