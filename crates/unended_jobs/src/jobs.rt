//! Jobs: how one is found, what its turn answers, and what becomes of it.

ghost use Rattle.std.specs.Prelude.{◌≡◌, ◌<◌, ℕ, true, false, length, slice_get, None, Some, IfOk, IfSome, OnOk, OnErr, MatchOption};
ghost use Rattle.unended_jobs.specs.Prelude.{is_going, remove, run};
ghost use Rattle.recovery_plans.specs.KeptRows.Servers.{are_known, observed_servers};
ghost use Rattle.unended_jobs.specs.Looks.{CanGo, observation_of, step_of};
ghost use Rattle.unended_jobs.specs.Jobs.{Rise, book_turned, job_at, job_exchanges, job_observation, jobs_turned, reads_with, step_reply, stored, turn_by, without_leases};

use crate::instance_keeper_items::{Book, Observation};
use crate::look::UnendedLook;
use crate::operations_items::JobStep;
use crate::orch_base::Memory;
use crate::server_model::World;
use crate::unended::Unended;
use std::alloc::Global;
use turns::{BoxedFailure, Failure, Reply};

/// The index of a job among those by rising number, and its number.
#[derive(Clone, Copy)]
pub struct FoundJob {
    pub at: usize,
    pub id: u64,
}

/// The index of the job of a number among jobs by rising number, found by halves.
pub fn find(jobs: &[Unended], id: u64) -> Option<usize>
    requires { (high : ℕ) × Rise 0 jobs.now high }
    ensures { MatchOption result (job_at jobs.now id ≡ None)
        (λ at. (at < length jobs.now) × (job_at jobs.now id ≡ slice_get jobs.now at)) }
{
    let at = jobs.partition_point(|job| job.id() < id);
    if at == jobs.len() {
        return None;
    }
    if jobs[at].id() == id { Some(at) } else { None }
}

/// What a job's turn answers. `Err` means out of memory.
pub fn answer(alloc: Global, step: &JobStep) -> Result<Reply, Memory>
    ensures { IfOk result (λ r. r ≡ step_reply step.now) }
{
    Ok(match step {
        JobStep::Going => Reply::Going,
        JobStep::Done(lines) => Reply::Told(lines.copy_each(alloc)?),
        JobStep::Failed(cause, lines) => {
            let failure = Failure {
                cause: cause.copy(alloc)?,
                lines: lines.copy_each(alloc)?,
            };
            Reply::Failed(BoxedFailure::new(alloc, failure)?)
        }
    })
}

fn is_going(step: &JobStep) -> bool
    ensures { result ≡ is_going step.now }
{
    match step {
        JobStep::Going => true,
        JobStep::Done(_) | JobStep::Failed(_, _) => false,
    }
}

// What the job observed takes the next read number, and is stored.
fn store(book: &mut Book, reads: &mut u64, observation: Option<Observation>)
    requires { IfSome observation (λ o.
        are_known (length book.old.names) (observed_servers o) ≡ true) }
    ensures book { book.new ≡ stored book.old observation }
    ensures reads { reads.new ≡ reads_with reads.old observation }
{
    if let Some(o) = observation {
        *reads = reads.saturating_add(1);
        let _ = book.store_observation(o);
    }
}

// A job that is ended is dropped, and its leases are free.
fn drop_ended(jobs: &mut Vec<Unended>, book: &mut Book, at: usize, id: u64, step: &JobStep)
    requires { at < length jobs.old.items }
    ensures going { is_going step.now ≡ true → (jobs.new.items ≡ jobs.old.items)
        × (book.new ≡ book.old) }
    ensures ended { is_going step.now ≡ false → (jobs.new.items ≡ remove jobs.old.items at)
        × (book.new ≡ without_leases book.old id) }
{
    if !is_going(step) {
        let _ = jobs.remove(at);
        book.free_leases(id);
    }
}

/// Does what was looked up for this job: the world after its exchanges, what it observed stored, and the job as it is
/// then. If the job is ended, it is dropped, with its leases free. If memory runs out, nothing has changed. That comes
/// only if the job goes on and nothing is observed.
pub fn take_turn(
    alloc: Global,
    jobs: &mut Vec<Unended>,
    world: &mut World,
    book: &mut Book,
    reads: &mut u64,
    found: FoundJob,
    look: UnendedLook,
) -> Result<(), Memory>
    requires at { found.at < length jobs.old.items }
    requires id { job_at jobs.old.items found.id ≡ slice_get jobs.old.items found.at }
    requires rising { (high : ℕ) × Rise 0 jobs.old.items high }
    requires can { IfSome (job_at jobs.old.items found.id) (λ j. CanGo world.old j look) }
    requires known { IfSome (observation_of look)
        (λ o. are_known (length book.old.names) (observed_servers o) ≡ true) }
    ensures jobs { OnOk result (jobs.new.items ≡ jobs_turned jobs.old.items found.id
        (turn_by jobs.old.items found.id look)) }
    ensures world { OnOk result (world.new ≡ run world.old
        (job_exchanges (turn_by jobs.old.items found.id look))) }
    ensures book { OnOk result (book.new ≡ book_turned book.old found.id
        (turn_by jobs.old.items found.id look)) }
    ensures reads { OnOk result (reads.new ≡ reads_with reads.old
        (job_observation (turn_by jobs.old.items found.id look))) }
    ensures err { OnErr result ((jobs.new.items ≡ jobs.old.items) × (world.new ≡ world.old)) }
    ensures still { OnErr result ((book.new ≡ book.old) × (reads.new ≡ reads.old)) }
    ensures memory { OnErr result (observation_of look ≡ None) }
    ensures going { OnErr result (step_of look ≡ JobStep.Going) }
{
    let FoundJob { at, id } = found;
    let (step, observation) = jobs[at].turn(alloc, world, look)?;
    store(book, reads, observation);
    drop_ended(jobs, book, at, id, &step);
    Ok(())
}
