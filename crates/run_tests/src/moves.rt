//! What refuses commands that move servers, or the leases of their jobs and how many operations these have.

ghost use Rattle.std.specs.Prelude.{◌≡◌, IsSome, IsTrue};
ghost use Rattle.permission.specs.BookViews.Forests.{book_forest};
ghost use Rattle.moves_coords.specs.Commands.{coords_command};
ghost use Rattle.moves_gtid.specs.Commands.{gtid_command};
ghost use Rattle.regroup.specs.Commands.{regroup_command};

use crate::book_views::book_forest;
use crate::commands::{Command, CommandName, CoordsCommand, GtidCommand, PathCommand};
use crate::instance_keeper_items::Book;
use crate::made::{book, world};
use crate::operations_items::Op;
use crate::orch_base::{Moment, ServerNo};
use crate::server_model::World;
use crate::topology_tree::Forest;
use moves_coords::coords_command;
use moves_gtid::gtid_command;
use regroup::{PermitFault, regroup_command};
use std::alloc::Global;
use std::process::Abort;
use std::test::*;

#[derive(Clone, Copy)]
enum Want {
    Refused(u8),
    Planned(&'static [ServerNo], usize),
}

// A command, its instance and its destination, whether GTIDs are used, and what is wanted.
type Case = (CommandName, ServerNo, Option<ServerNo>, bool, Want);

// A job's leases and operations.
type Planned = Result<(Vec<ServerNo>, Vec<Op>), PermitFault>;

const M: ServerNo = ServerNo(0);

const S: ServerNo = ServerNo(1);

const R: ServerNo = ServerNo(2);

const D: ServerNo = ServerNo(3);

const A: ServerNo = ServerNo(4);

const F: ServerNo = ServerNo(5);

const L: ServerNo = ServerNo(6);

const K: ServerNo = ServerNo(7);

const J: ServerNo = ServerNo(8);

const R_S: [ServerNo; 2] = [R, S];

const S_R: [ServerNo; 2] = [S, R];

const R_D: [ServerNo; 2] = [R, D];

const R_D_S: [ServerNo; 3] = [R, D, S];

const K_L: [ServerNo; 2] = [K, L];

const A_ALONE: [ServerNo; 1] = [A];

const CASES: [Case; 11] = [
    (CommandName::MoveUp, R, None, false, Want::Planned(&R_S, 12)),
    (CommandName::MoveUp, A, None, false, Want::Refused(15)),
    (CommandName::Repoint, A, None, false, Want::Refused(3)),
    (
        CommandName::TakeSiblings,
        A,
        None,
        false,
        Want::Planned(&A_ALONE, 1),
    ),
    (
        CommandName::TakeMaster,
        K,
        None,
        false,
        Want::Planned(&K_L, 15),
    ),
    (CommandName::TakeMaster, J, None, false, Want::Refused(14)),
    (CommandName::Repoint, F, Some(D), false, Want::Refused(13)),
    (
        CommandName::MoveGtid,
        R,
        Some(D),
        true,
        Want::Planned(&R_D, 8),
    ),
    (
        CommandName::Relocate,
        R,
        Some(D),
        false,
        Want::Planned(&R_D_S, 27),
    ),
    (CommandName::Relocate, D, Some(R), false, Want::Refused(19)),
    (
        CommandName::RegroupReplicas,
        S,
        None,
        false,
        Want::Planned(&S_R, 0),
    ),
];

fn by_coords(
    alloc: Global,
    book: &Book,
    forest: &Forest,
    world: &World,
    command: Command,
    kind: CoordsCommand,
    i: ServerNo,
) -> Planned
    requires forest { forest.now ≡ book_forest book.now }
    requires here { IsSome (coords_command command.name) }
{
    moves_coords::permit(alloc, book, forest, world, command, Moment(0))?;
    let case = moves_coords::permit_kind(alloc, book, forest, world, kind, i, command.d)?;
    let ops = moves_coords::plan(alloc, book, forest, world, command)?;
    Ok((case.into_leased(), ops))
}

fn by_gtids(
    alloc: Global,
    book: &Book,
    forest: &Forest,
    world: &World,
    command: Command,
    kind: GtidCommand,
    i: ServerNo,
) -> Planned
    requires forest { forest.now ≡ book_forest book.now }
    requires here { IsSome (gtid_command command.name) }
{
    moves_gtid::permit(alloc, book, forest, world, command, Moment(0))?;
    let case = moves_gtid::permit_kind(alloc, book, forest, world, kind, i, command.d)?;
    let ops = moves_gtid::plan(alloc, book, forest, world, command)?;
    Ok((case.into_leased(), ops))
}

fn along_paths(
    alloc: Global,
    book: &Book,
    forest: &Forest,
    world: &World,
    command: Command,
    kind: PathCommand,
    i: ServerNo,
) -> Planned
    requires forest { forest.now ≡ book_forest book.now }
    requires here { IsSome (regroup_command command.name) }
{
    let now = Moment(0);
    regroup::permit(alloc, book, forest, world, command, now)?;
    let case = regroup::permit_kind(alloc, book, forest, world, kind, i, command.d, now)?;
    let ops = match regroup_command(command.name) {
        Some(PathCommand::Relocate | PathCommand::RelocateReplicas) => {
            regroup::plan(alloc, book, forest, world, command)?
        }
        Some(PathCommand::RegroupReplicas) | None => Vec::new(alloc),
    };
    Ok((case.into_leased(), ops))
}

fn planned(alloc: Global, book: &Book, world: &World, command: Command, i: ServerNo) -> Planned {
    let forest = book_forest(alloc, book)?;
    if let Some(kind) = coords_command(command.name) {
        return by_coords(alloc, book, &forest, world, command, kind, i);
    }
    if let Some(kind) = gtid_command(command.name) {
        return by_gtids(alloc, book, &forest, world, command, kind, i);
    }
    if let Some(kind) = regroup_command(command.name) {
        return along_paths(alloc, book, &forest, world, command, kind, i);
    }
    Err(PermitFault::Memory)
}

fn is_as_wanted(planned: Planned, want: Want) -> bool {
    match (planned, want) {
        (Ok((list, ops)), Want::Planned(leases, count)) => {
            list.as_slice() == leases && ops.len() == count
        }
        (Err(PermitFault::Refused(refusal)), Want::Refused(number)) => refusal.number() == number,
        (Ok(_) | Err(_), _) => false,
    }
}

fn holds(rt: &impl Abort, alloc: Global, case: Case) -> Result<bool, Fail> {
    let (name, i, d, gtid, want) = case;
    let book = book(rt, alloc)?;
    let world = world(rt, alloc, gtid)?;
    let command = Command {
        name,
        i: Some(i),
        d,
    };
    Ok(is_as_wanted(planned(alloc, &book, &world, command, i), want))
}

#[test]
fn commands_that_move_servers(rt: HostRuntime) -> Result<(), Fail> {
    for case in &CASES {
        assert!(rt; holds(&rt, rt.alloc(), *case)?, "{}", case.0.word());
    }
    Ok(())
}
