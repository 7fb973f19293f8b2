//! Recoveries that begin.

ghost use Rattle.std.specs.Prelude.{◌≡◌, ◌≤◌, ◌++◌, IfOk, OnOk, length, map, vec_capacity};
ghost use Rattle.recovery_turns.specs.Prelude.{Task as ATask, begun_recovery, but, first_ops, first_source, first_stage, first_tasks, is_master};
ghost use Rattle.recovery_turns.specs.Prelude.{job_with};
ghost use Rattle.recovery_turns.specs.Cores.{core_of};

use crate::RecoveryJob;
use crate::job_parts::JobParts;
use crate::operations_items::Op;
use crate::orch_base::{Memory, ServerNo};
use recovery_plans::{Means, Outcome, Purpose, Stage, Task};
use std::alloc::Global;

fn first_stage(purpose: Purpose, failed: ServerNo) -> Stage
    ensures { result ≡ first_stage purpose failed }
{
    match purpose {
        Purpose::Regroup => Stage::Idle,
        Purpose::Master | Purpose::Intermediate(_) => Stage::Check,
        Purpose::Takeover(d) => Stage::Meet(failed, d),
    }
}

fn first_ops(alloc: Global, purpose: Purpose, failed: ServerNo) -> Result<Vec<Op>, Memory>
    ensures { IfOk result (λ ops. ops.items ≡ first_ops purpose failed) }
{
    match purpose {
        Purpose::Regroup => Ok(Vec::new(alloc)),
        Purpose::Master | Purpose::Intermediate(_) | Purpose::Takeover(_) => {
            Ok(vec![in alloc; Op::Status(failed, None)]?)
        }
    }
}

// The new source, if it is known from the start.
fn first_source(purpose: Purpose) -> Option<ServerNo>
    ensures { result ≡ first_source purpose }
{
    match purpose {
        Purpose::Regroup | Purpose::Master => None,
        Purpose::Intermediate(no) | Purpose::Takeover(no) => Some(no),
    }
}

// Only after a master a better one is looked for.
fn is_master(purpose: Purpose) -> bool
    ensures { result ≡ is_master purpose }
{
    match purpose {
        Purpose::Master => true,
        Purpose::Regroup | Purpose::Intermediate(_) | Purpose::Takeover(_) => false,
    }
}

// Each replica is drained.
fn add_drains(tasks: &mut Vec<Task>, replicas: &[ServerNo]) -> Result<(), Memory>
    ensures { OnOk result (tasks.new.items
        ≡ tasks.old.items ++ map ATask.Draining replicas.now) }
{
    for no in replicas {
        tasks.push(Task::Draining(*no))?;
    }
    Ok(())
}

// Each replica but one comes to the position at which that one stopped.
fn trails(alloc: Global, replicas: &[ServerNo], lead: ServerNo) -> Result<Vec<Task>, Memory>
    ensures { IfOk result (λ v. v.items ≡ map ATask.Trailing (but replicas.now lead)) }
{
    let mut tasks = Vec::new(alloc);
    for no in replicas {
        if no.0 != lead.0 {
            tasks.push(Task::Trailing(*no))?;
        }
    }
    Ok(tasks)
}

fn first_tasks(alloc: Global, purpose: Purpose, replicas: &[ServerNo]) -> Result<Vec<Task>, Memory>
    ensures { IfOk result (λ v. v.items ≡ first_tasks purpose replicas.now) }
{
    let mut tasks = Vec::new(alloc);
    match purpose {
        Purpose::Regroup | Purpose::Master => {
            add_drains(&mut tasks, replicas)?;
            tasks.push(Task::Choosing)?;
            tasks.push(Task::Sorting)?;
        }
        Purpose::Intermediate(no) => {
            tasks.push(Task::Reading(no))?;
            add_drains(&mut tasks, replicas)?;
            tasks.push(Task::Handing)?;
            tasks.push(Task::Sorting)?;
        }
        Purpose::Takeover(no) => {
            tasks = trails(alloc, replicas, no)?;
            tasks.push(Task::Yielding)?;
        }
    }
    Ok(tasks)
}

// The job of a recovery that begins, with room for so many sightings, matches and servers in its hands.
fn first_job(
    alloc: Global,
    purpose: Purpose,
    id: u64,
    wait: u32,
    failed: ServerNo,
    room: usize,
) -> Result<JobParts, Memory>
    ensures core { IfOk result (λ c. core_of c ≡ job_with id wait (first_ops purpose failed)) }
    ensures within { IfOk result (λ c. c.done ≤ length c.ops.items) }
    ensures seen { IfOk result (λ c. vec_capacity c.seen ≡ room) }
    ensures matches { IfOk result (λ c. vec_capacity c.matches ≡ room) }
    ensures hands { IfOk result (λ c. vec_capacity c.hands ≡ room) }
{
    Ok(JobParts {
        id,
        wait,
        ops: first_ops(alloc, purpose, failed)?,
        done: 0,
        waited: 0,
        seen: Vec::with_capacity(alloc, room)?,
        matches: Vec::with_capacity(alloc, room)?,
        hands: Vec::with_capacity(alloc, room)?,
    })
}

impl RecoveryJob {
    /// A recovery begins, as the job of this number, whose operations may wait so often each. It is of this server,
    /// with these replicas, and it reports those, both in name order. The others go by these means. `Err` means out of
    /// memory.
    pub fn make(
        alloc: Global,
        purpose: Purpose,
        means: Means,
        id: u64,
        wait: u32,
        failed: ServerNo,
        replicas: Vec<ServerNo>,
        order: Vec<ServerNo>,
    ) -> Result<RecoveryJob, Memory>
        ensures { IfOk result (λ r. r
            ≡ begun_recovery purpose means id wait failed replicas.items order.items) }
    {
        let room = replicas.len() + 8;
        let chosen = first_source(purpose);
        Ok(RecoveryJob {
            purpose,
            means,
            core: first_job(alloc, purpose, id, wait, failed, room)?,
            stage: first_stage(purpose, failed),
            queue: first_tasks(alloc, purpose, &replicas)?,
            begun: 0,
            failed,
            replicas,
            order,
            drained: Vec::with_capacity(alloc, room)?,
            chosen,
            lead: None,
            eligible: Vec::new(alloc),
            swaps: is_master(purpose),
            outcome: Outcome {
                promoted: chosen,
                followers: Vec::with_capacity(alloc, room)?,
                lost: Vec::with_capacity(alloc, room)?,
            },
        })
    }
}
