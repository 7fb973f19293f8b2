//! The plans of the commands.

ghost use Rattle.std.specs.Prelude.{◌≡◌, IfOk, IsTrue, drop, length, true};
ghost use Rattle.regroup.specs.Prelude.{are_named, book_forest, is_within};
ghost use Rattle.regroup.specs.Commands.{regroup_command};
ghost use Rattle.regroup.specs.Plans.{ascended, climbed, has_plan, is_planned, moved_by, next_of, ops_of, plan_of, relocated, travelled};

use crate::Memory;
use crate::command::regroup_command;
use crate::commands::{Command, PathCommand};
use crate::instance_keeper_items::Book;
use crate::operations_items::Op;
use crate::orch_base::ServerNo;
use crate::permits::movers_of;
use crate::server_model::World;
use crate::topology_tree::Forest;
use crate::ways::{Path, path_of};
use plan_parts::{again, autos, moved_each, under, up};
use std::alloc::Global;

// The source at a place, or the one after all.
fn next_of(sources: &[ServerNo], place: usize, to: ServerNo) -> ServerNo
    ensures { result ≡ next_of (drop place sources.now) to }
{
    match sources.get(place) {
        Some(source) => *source,
        None => to,
    }
}

// Up past these sources, one after another, until it is below the one after them.
fn climbed(
    alloc: Global,
    no: ServerNo,
    passed: &[ServerNo],
    to: ServerNo,
) -> Result<Vec<Op>, Memory>
    ensures { IfOk result (λ ops. ops.items ≡ climbed no passed.now to) }
{
    let mut ops = Vec::new(alloc);
    for (k, source) in passed.iter().enumerate() {
        let above = next_of(passed, k + 1, to);
        ops.append(&mut up(alloc, no, *source, above)?)?;
    }
    Ok(ops)
}

// Up past these sources to another server, or if there are none on below it by coordinates.
fn ascended(
    alloc: Global,
    no: ServerNo,
    d: ServerNo,
    passed: &[ServerNo],
) -> Result<Vec<Op>, Memory>
    ensures { IfOk result (λ ops. ops.items ≡ ascended no d passed.now) }
{
    if passed.is_empty() {
        again(alloc, no, d)
    } else {
        climbed(alloc, no, passed, d)
    }
}

// Below another server by its path.
fn travelled(
    alloc: Global,
    no: ServerNo,
    d: ServerNo,
    path: Option<Path>,
) -> Result<Vec<Op>, Memory>
    ensures { IfOk result (λ ops. ops.items ≡ travelled no d path) }
{
    let Some(path) = path else {
        return Ok(Vec::new(alloc));
    };
    match path.under() {
        Some(source) => {
            let mut ops = climbed(alloc, no, path.passed(), source)?;
            ops.append(&mut under(alloc, no, d, source)?)?;
            Ok(ops)
        }
        None => ascended(alloc, no, d, path.passed()),
    }
}

// Servers below another one, each in turn.
fn moved_by(
    alloc: Global,
    book: &Book,
    forest: &Forest,
    gtid: bool,
    movers: &[ServerNo],
    d: ServerNo,
) -> Result<Vec<Op>, Memory>
    requires { forest.now ≡ book_forest book.now }
    ensures { IfOk result (λ ops. ops.items ≡ moved_by gtid book.now movers.now d) }
{
    if gtid {
        return autos(alloc, movers, d);
    }
    let mut ops = Vec::new(alloc);
    for no in movers {
        let path = path_of(alloc, book, forest, *no, d)?;
        ops.append(&mut travelled(alloc, *no, d, path)?)?;
    }
    Ok(ops)
}

fn relocated(
    alloc: Global,
    book: &Book,
    forest: &Forest,
    gtid: bool,
    movers: &[ServerNo],
    d: Option<ServerNo>,
) -> Result<Vec<Op>, Memory>
    requires { forest.now ≡ book_forest book.now }
    ensures { IfOk result (λ ops. ops.items ≡ relocated gtid book.now movers.now d) }
{
    match d {
        Some(d) => {
            let ops = moved_by(alloc, book, forest, gtid, movers, d)?;
            moved_each(alloc, ops, movers, d)
        }
        None => Ok(Vec::new(alloc)),
    }
}

/// Whether the operations of a command of this kind are known before its job begins. Those of a regroup aren't.
pub fn is_planned(command: PathCommand) -> bool
    ensures { result ≡ is_planned command }
{
    match command {
        PathCommand::Relocate | PathCommand::RelocateReplicas => true,
        PathCommand::RegroupReplicas => false,
    }
}

/// The operations of a command of this kind about an instance. A regroup has none. `Err` means out of memory.
pub fn ops_of(
    alloc: Global,
    book: &Book,
    forest: &Forest,
    world: &World,
    command: PathCommand,
    i: ServerNo,
    d: Option<ServerNo>,
) -> Result<Vec<Op>, Memory>
    requires { forest.now ≡ book_forest book.now }
    ensures { IfOk result (λ ops. ops.items ≡ ops_of world.now book.now command i d) }
{
    match command {
        PathCommand::Relocate | PathCommand::RelocateReplicas => {
            let movers = movers_of(alloc, book, command, i, d)?;
            relocated(alloc, book, forest, world.gtid(), &movers, d)
        }
        PathCommand::RegroupReplicas => Ok(Vec::new(alloc)),
    }
}

fn plan_of(
    alloc: Global,
    book: &Book,
    forest: &Forest,
    world: &World,
    command: Command,
) -> Result<Vec<Op>, Memory>
    requires { forest.now ≡ book_forest book.now }
    ensures { IfOk result (λ ops. ops.items ≡ plan_of world.now book.now command) }
{
    match (regroup_command(command.name), command.i) {
        (Some(kind), Some(i)) => ops_of(alloc, book, forest, world, kind, i, command.d),
        (Some(_), None) | (None, _) => Ok(Vec::new(alloc)),
    }
}

/// The operations of `relocate` or `relocate-replicas`, ended by its lines: `r<d` of each server that moves, in name
/// order. They are those of each server's path in turn, or with GTIDs one attachment each. If the command's instances
/// are servers of the book, so are all servers of the operations. `Err` means out of memory.
pub fn plan(
    alloc: Global,
    book: &Book,
    forest: &Forest,
    world: &World,
    command: Command,
) -> Result<Vec<Op>, Memory>
    requires forest { forest.now ≡ book_forest book.now }
    requires here { IsTrue (has_plan (regroup_command command.name)) }
    ensures plan { IfOk result (λ ops. ops.items ≡ plan_of world.now book.now command) }
    ensures named { IsTrue (is_within (length book.now.names) command.i) →
        IsTrue (is_within (length book.now.names) command.d) →
        IfOk result (λ ops. are_named (length book.now.names) ops.items ≡ true) }
{
    plan_of(alloc, book, forest, world, command)
}
