//! Rounds: how a job is run to its end.

ghost use Rattle.std.specs.Prelude.{◌≡◌, ◌++◌, IfOk};
ghost use Rattle.std.specs.List.{flat_map};
ghost use Rattle.unended_jobs.specs.Rounds.{polls, replicates, round_over};

use crate::orch_base::{Memory, ServerNo};
use std::alloc::Global;
use turns::{Act, Step, Turn};

/// By this poller the servers are read between a job's turns.
const POLLER: u32 = 0;

fn add_replication(turns: &mut Vec<Turn>, servers: &[ServerNo]) -> Result<(), Memory>
    ensures { IfOk result (λ t. turns.new.items ≡ turns.old.items ++ flat_map replicates
        servers.now) }
{
    for no in servers {
        turns.push(Turn::Step(Step::Fetch(*no)))?;
        turns.push(Turn::Step(Step::Apply(*no)))?;
    }
    Ok(())
}

fn add_polls(turns: &mut Vec<Turn>, servers: &[ServerNo]) -> Result<(), Memory>
    ensures { IfOk result (λ t. turns.new.items ≡ turns.old.items ++ flat_map polls servers.now) }
{
    for no in servers {
        turns.push(Turn::Act(Act::PollRead(POLLER, *no)))?;
        turns.push(Turn::Act(Act::PollStore(POLLER)))?;
    }
    Ok(())
}

/// What follows the job's turn in a round: fetch and apply on each of the servers, then a poll of each, in their order.
/// `Err` means out of memory.
pub fn others_over(alloc: Global, servers: &[ServerNo]) -> Result<Vec<Turn>, Memory>
    ensures { IfOk result (λ turns.
        turns.items ≡ flat_map replicates servers.now ++ flat_map polls servers.now) }
{
    let mut turns = Vec::new(alloc);
    add_replication(&mut turns, servers)?;
    add_polls(&mut turns, servers)?;
    Ok(turns)
}

/// One turn of the job, then fetch and apply on each of the servers, then a poll of each, in their order. `Err` means
/// out of memory.
pub fn round_over(alloc: Global, servers: &[ServerNo], job: u64) -> Result<Vec<Turn>, Memory>
    ensures { IfOk result (λ turns. turns.items ≡ round_over servers.now job) }
{
    let mut turns = Vec::new(alloc);
    turns.push(Turn::Act(Act::Job(job)))?;
    add_replication(&mut turns, servers)?;
    add_polls(&mut turns, servers)?;
    Ok(turns)
}
