//! Permission, leases and job of a command that begins a job.

ghost use Rattle.std.specs.Prelude.{◌≡◌, ◌<◌, All, IfOk, IsTrue, length};
ghost use Rattle.command_outcomes.specs.Prelude.{Gives, book_forest, is_within, permit_fault};
ghost use Rattle.recovery_core.specs.Permission.Checks.{permitted};
ghost use Rattle.command_outcomes.specs.Jobs.{case_of, job_by, lead_of, leases_by, means_of, ops_of, refusal_about, refusal_by, unless_planned};

use crate::commands::{Command, Planner};
use crate::instance_keeper_items::Book;
use crate::job_plans::Job;
use crate::operations_items::Op;
use crate::orch_base::{Memory, Moment, ServerNo};
use crate::permission_items::{Case, Lead, PermitFault, unknown_in};
use crate::recovery_plans_items::Means;
use crate::regrouping::RegroupJob;
use crate::server_model::World;
use crate::topology_tree::Forest;
use std::alloc::Global;
use unended_jobs::Unended;

/// Which checks of a command's row come first, after the one that its instances are known.
pub(crate) fn lead_of(planner: Planner) -> Lead
    ensures { result ≡ lead_of planner }
{
    match planner {
        Planner::Coordinates(kind) => moves_coords::lead_of(kind),
        Planner::Gtids(kind) => moves_gtid::lead_of(kind),
        Planner::Paths(kind) => regroup::lead_of(kind),
        Planner::Matches(kind) => pseudo_match::lead_of(kind),
    }
}

// What refuses a command of some kind about an instance, or what its checks are about.
fn permit_kind(
    alloc: Global,
    book: &Book,
    forest: &Forest,
    world: &World,
    planner: Planner,
    i: ServerNo,
    d: Option<ServerNo>,
    now: Moment,
    every: u64,
) -> Result<Case, PermitFault>
    requires { forest.now ≡ book_forest book.now }
    ensures case { IfOk result (λ c. c ≡ case_of world.now book.now planner i d) }
    ensures refusal { Gives (λ _. tt) permit_fault result
        (permitted (refusal_about world.now book.now now every planner i d)) }
{
    match planner {
        Planner::Coordinates(kind) => {
            moves_coords::permit_kind(alloc, book, forest, world, kind, i, d)
        }
        Planner::Gtids(kind) => moves_gtid::permit_kind(alloc, book, forest, world, kind, i, d),
        Planner::Paths(kind) => regroup::permit_kind(alloc, book, forest, world, kind, i, d, now),
        Planner::Matches(kind) => {
            pseudo_match::permit_kind(alloc, book, forest, world, kind, i, d, now, every)
        }
    }
}

fn permitted_leases(
    alloc: Global,
    book: &Book,
    forest: &Forest,
    world: &World,
    command: Command,
    planner: Planner,
    now: Moment,
    every: u64,
) -> Result<Vec<ServerNo>, PermitFault>
    requires { forest.now ≡ book_forest book.now }
    ensures list { IfOk result
        (λ list. list.items ≡ leases_by world.now book.now command planner) }
    ensures refusal { Gives (λ _. tt) permit_fault result
        (permitted (refusal_by world.now book.now now every command planner)) }
{
    if let Some(unknown) = unknown_in(book, command) {
        return Err(PermitFault::Refused(unknown));
    }
    let Some(i) = command.i else {
        return Ok(Vec::new(alloc));
    };
    let case = permit_kind(
        alloc, book, forest, world, planner, i, command.d, now, every,
    )?;
    Ok(case.into_leased())
}

/// `Refused` exactly with the lowest refusal of the permission table that applies to the command. Else the servers of
/// which its job takes the leases: servers of the book, if the command's instances are. Each transaction is a mark
/// whose number is divisible by `every`, and none is if that is 0. It changes nothing. `Memory` comes only if memory
/// runs out.
pub fn permit(
    alloc: Global,
    book: &Book,
    forest: &Forest,
    world: &World,
    command: Command,
    planner: Planner,
    now: Moment,
    every: u64,
) -> Result<Vec<ServerNo>, PermitFault>
    requires { forest.now ≡ book_forest book.now }
    ensures list { IfOk result
        (λ list. list.items ≡ leases_by world.now book.now command planner) }
    ensures refusal { Gives (λ _. tt) permit_fault result
        (permitted (refusal_by world.now book.now now every command planner)) }
    ensures within { IsTrue (is_within (length book.now.names) command.i) →
        IsTrue (is_within (length book.now.names) command.d) →
        IfOk result (λ list. All (λ n. n.0 < length book.now.names) list.items) }
{
    // shows the proof that sources are known
    let _ = book.servers();
    permitted_leases(alloc, book, forest, world, command, planner, now, every)
}

// The operations of a command of some kind about an instance; none of a regroup.
fn ops_of(
    alloc: Global,
    book: &Book,
    forest: &Forest,
    world: &World,
    planner: Planner,
    i: ServerNo,
    d: Option<ServerNo>,
    every: u64,
) -> Result<Vec<Op>, Memory>
    requires { forest.now ≡ book_forest book.now }
    ensures { IfOk result (λ ops. ops.items ≡ ops_of world.now book.now every planner i d) }
{
    match planner {
        Planner::Coordinates(kind) => moves_coords::ops_of(alloc, book, world, kind, i, d),
        Planner::Gtids(kind) => moves_gtid::ops_of(alloc, book, kind, i, d),
        Planner::Paths(kind) => regroup::ops_of(alloc, book, forest, world, kind, i, d),
        Planner::Matches(kind) => pseudo_match::ops_of(alloc, book, every, kind, i, d),
    }
}

fn unless_planned(is_planned: bool, means: Means) -> Option<Means>
    ensures { result ≡ unless_planned is_planned means }
{
    if is_planned { None } else { Some(means) }
}

/// How the others go in a regroup, by marks of this distance; none of a command that has a plan.
pub fn means_of(planner: Planner, every: u64) -> Option<Means>
    ensures { result ≡ means_of every planner }
{
    match planner {
        Planner::Coordinates(_) | Planner::Gtids(_) => None,
        Planner::Paths(kind) => unless_planned(regroup::is_planned(kind), Means::Bridges),
        Planner::Matches(kind) => {
            unless_planned(pseudo_match::is_planned(kind), Means::Matches(every))
        }
    }
}

/// The command's job, with this number, whose operations may wait so often each, and by marks of this distance. It has
/// the operations of its plan, ended by its lines, or for a regroup what is done with the replicas. `Err` means out of
/// memory.
pub fn job(
    alloc: Global,
    book: &Book,
    forest: &Forest,
    world: &World,
    command: Command,
    planner: Planner,
    id: u64,
    wait: u32,
    every: u64,
) -> Result<Unended, Memory>
    requires { forest.now ≡ book_forest book.now }
    ensures { IfOk result (λ job. job ≡ job_by world.now book.now command planner id wait every) }
{
    let ops = match (means_of(planner, every), command.i) {
        (Some(means), Some(i)) => {
            return Ok(RegroupJob::make(alloc, book, i, means, id, wait)?.into_unended());
        }
        (None, Some(i)) => ops_of(alloc, book, forest, world, planner, i, command.d, every)?,
        (Some(_) | None, None) => Vec::new(alloc),
    };
    Ok(Unended::Plan(Job::make(alloc, id, ops, wait)?))
}
