//! The plans of the commands.

ghost use Rattle.std.specs.Prelude.{◌≡◌, IfOk, IsTrue, length, true};
ghost use Rattle.permission.specs.BookViews.Forests.{book_forest};
ghost use Rattle.permission.specs.Commands.Turns.{is_within};
ghost use Rattle.permission.specs.Operations.Named.{are_named};
ghost use Rattle.pseudo_match.specs.Commands.{pseudo_command};
ghost use Rattle.pseudo_match.specs.Plans.{has_plan, is_planned, moved, ops_of, plan_of, replicas_moved};

use crate::Memory;
use crate::command::pseudo_command;
use crate::commands::{Command, MatchCommand};
use crate::instance_keeper_items::Book;
use crate::operations_items::Op;
use crate::orch_base::ServerNo;
use crate::server_model::World;
use crate::topology_tree::Forest;
use permission::{replicas_but, source_above};
use plan_parts::{matching, matchings, moved_each};
use std::alloc::Global;

// Below another server.
fn moved(alloc: Global, i: ServerNo, every: u64, d: Option<ServerNo>) -> Result<Vec<Op>, Memory>
    ensures { IfOk result (λ ops. ops.items ≡ moved i every d) }
{
    match d {
        Some(d) => plan_parts::moved(alloc, matching(alloc, i, d, every)?, i, d),
        None => Ok(Vec::new(alloc)),
    }
}

// Replicas below another server, one after another.
fn replicas_moved(
    alloc: Global,
    replicas: &[ServerNo],
    every: u64,
    d: Option<ServerNo>,
) -> Result<Vec<Op>, Memory>
    ensures { IfOk result (λ ops. ops.items ≡ replicas_moved replicas.now every d) }
{
    match d {
        Some(d) => moved_each(alloc, matchings(alloc, replicas, d, every)?, replicas, d),
        None => Ok(Vec::new(alloc)),
    }
}

/// Whether the operations of a command of this kind are known before its job begins. Those of a regroup aren't.
pub fn is_planned(command: MatchCommand) -> bool
    ensures { result ≡ is_planned command }
{
    match command {
        MatchCommand::Match | MatchCommand::MatchUp | MatchCommand::MatchReplicas => true,
        MatchCommand::RegroupReplicas => false,
    }
}

/// The operations of a command of this kind about an instance, by marks of this distance. A regroup has none. `Err`
/// means out of memory.
pub fn ops_of(
    alloc: Global,
    book: &Book,
    every: u64,
    command: MatchCommand,
    i: ServerNo,
    d: Option<ServerNo>,
) -> Result<Vec<Op>, Memory>
    ensures { IfOk result (λ ops. ops.items ≡ ops_of book.now every command i d) }
{
    match command {
        MatchCommand::Match => moved(alloc, i, every, d),
        MatchCommand::MatchUp => moved(alloc, i, every, source_above(book, i)),
        MatchCommand::MatchReplicas => {
            replicas_moved(alloc, &replicas_but(alloc, book, i, d)?, every, d)
        }
        MatchCommand::RegroupReplicas => Ok(Vec::new(alloc)),
    }
}

fn plan_of(alloc: Global, book: &Book, command: Command, every: u64) -> Result<Vec<Op>, Memory>
    ensures { IfOk result (λ ops. ops.items ≡ plan_of book.now every command) }
{
    match (pseudo_command(command.name), command.i) {
        (Some(kind), Some(i)) => ops_of(alloc, book, every, kind, i, command.d),
        (Some(_), None) | (None, _) => Ok(Vec::new(alloc)),
    }
}

/// The operations of `match`, `match-up` or `match-replicas`, ended by its lines: `r<d` of each server that moves, in
/// name order. Each transaction is a mark whose number is divisible by `every`. A command that is refused because it
/// has no destination has none. If the command's instances are servers of the book, so are all servers of the
/// operations. `Err` means out of memory.
pub fn plan(
    alloc: Global,
    book: &Book,
    _forest: &Forest,
    _world: &World,
    command: Command,
    every: u64,
) -> Result<Vec<Op>, Memory>
    requires forest { _forest.now ≡ book_forest book.now }
    requires here { IsTrue (has_plan (pseudo_command command.name)) }
    ensures plan { IfOk result (λ ops. ops.items ≡ plan_of book.now every command) }
    ensures named { IsTrue (is_within (length book.now.names) command.i) →
        IsTrue (is_within (length book.now.names) command.d) →
        IfOk result (λ ops. are_named (length book.now.names) ops.items ≡ true) }
{
    plan_of(alloc, book, command, every)
}
