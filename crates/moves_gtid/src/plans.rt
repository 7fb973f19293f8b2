//! The plans of the commands.

ghost use Rattle.std.specs.Prelude.{◌≡◌, IfOk, IsSome, IsTrue, length, true};
ghost use Rattle.permission.specs.BookViews.Forests.{book_forest};
ghost use Rattle.permission.specs.Commands.Turns.{is_within};
ghost use Rattle.permission.specs.Operations.Named.{are_named};
ghost use Rattle.moves_gtid.specs.Commands.{gtid_command};
ghost use Rattle.moves_gtid.specs.Plans.{disabled, enabled, moved, ops_of, plan_of, replicas_moved};

use crate::Memory;
use crate::command::gtid_command;
use crate::commands::{Command, GtidCommand};
use crate::instance_keeper_items::Book;
use crate::operations_items::Op;
use crate::orch_base::ServerNo;
use crate::server_model::World;
use crate::topology_tree::Forest;
use permission::{replicas_but, source};
use plan_parts::{again, again_auto, auto, autos, ended_by_name, moved_each};
use std::alloc::Global;

// Below another server.
fn moved(alloc: Global, i: ServerNo, d: Option<ServerNo>) -> Result<Vec<Op>, Memory>
    ensures { IfOk result (λ ops. ops.items ≡ moved i d) }
{
    match d {
        Some(d) => plan_parts::moved(alloc, auto(alloc, i, d)?, i, d),
        None => Ok(Vec::new(alloc)),
    }
}

// Replicas below another server, one after another.
fn replicas_moved(
    alloc: Global,
    replicas: &[ServerNo],
    d: Option<ServerNo>,
) -> Result<Vec<Op>, Memory>
    ensures { IfOk result (λ ops. ops.items ≡ replicas_moved replicas.now d) }
{
    match d {
        Some(d) => moved_each(alloc, autos(alloc, replicas, d)?, replicas, d),
        None => Ok(Vec::new(alloc)),
    }
}

// Under its source, by GTIDs.
fn enabled(alloc: Global, i: ServerNo, x: Option<ServerNo>) -> Result<Vec<Op>, Memory>
    ensures { IfOk result (λ ops. ops.items ≡ enabled i x) }
{
    match x {
        Some(x) => ended_by_name(alloc, again_auto(alloc, i, x)?, i),
        None => Ok(Vec::new(alloc)),
    }
}

// Under its source, by coordinates.
fn disabled(alloc: Global, i: ServerNo, x: Option<ServerNo>) -> Result<Vec<Op>, Memory>
    ensures { IfOk result (λ ops. ops.items ≡ disabled i x) }
{
    match x {
        Some(x) => ended_by_name(alloc, again(alloc, i, x)?, i),
        None => Ok(Vec::new(alloc)),
    }
}

/// The operations of a command of this kind about an instance. `Err` means out of memory.
pub fn ops_of(
    alloc: Global,
    book: &Book,
    command: GtidCommand,
    i: ServerNo,
    d: Option<ServerNo>,
) -> Result<Vec<Op>, Memory>
    ensures { IfOk result (λ ops. ops.items ≡ ops_of book.now command i d) }
{
    match command {
        GtidCommand::MoveGtid => moved(alloc, i, d),
        GtidCommand::MoveReplicasGtid => {
            replicas_moved(alloc, &replicas_but(alloc, book, i, d)?, d)
        }
        GtidCommand::EnableGtid => enabled(alloc, i, source(book, i)),
        GtidCommand::DisableGtid => disabled(alloc, i, source(book, i)),
    }
}

fn plan_of(alloc: Global, book: &Book, command: Command) -> Result<Vec<Op>, Memory>
    ensures { IfOk result (λ ops. ops.items ≡ plan_of book.now command) }
{
    match (gtid_command(command.name), command.i) {
        (Some(kind), Some(i)) => ops_of(alloc, book, kind, i, command.d),
        (Some(_), None) | (None, _) => Ok(Vec::new(alloc)),
    }
}

/// The operations of one of these commands, ended by its lines: `r<s` of each move in order, else the instance's name.
/// A command that is refused because it has no source or destination has none. If its instances are servers of the
/// book, so are all servers of the operations. `Err` means out of memory.
pub fn plan(
    alloc: Global,
    book: &Book,
    _forest: &Forest,
    _world: &World,
    command: Command,
) -> Result<Vec<Op>, Memory>
    requires forest { _forest.now ≡ book_forest book.now }
    requires here { IsSome (gtid_command command.name) }
    ensures plan { IfOk result (λ ops. ops.items ≡ plan_of book.now command) }
    ensures named { IsTrue (is_within (length book.now.names) command.i) →
        IsTrue (is_within (length book.now.names) command.d) →
        IfOk result (λ ops. are_named (length book.now.names) ops.items ≡ true) }
{
    // shows the proof that sources are known
    let _ = book.servers();
    plan_of(alloc, book, command)
}
