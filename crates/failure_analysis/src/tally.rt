//! Replicas, counted for each server in one pass over the instances.

ghost use Rattle.std.specs.Prelude.{◌≡◌, ℕ, ◌+◌, ◌<◌, ◌^◌, IfOk, length, map, replicate, slice_index_or};
ghost use Rattle.instance_keeper.specs.OrchBase.declared.server.ServerNo.{ServerNo as Number};
ghost use Rattle.failure_analysis.specs.Analysis.{lags, replicates};
ghost use Rattle.failure_analysis.specs.Tallies.{no_replicas, raised, tally_of, AreParts};

use crate::Memory;
use crate::orch_base::{IoState, SourceState};
use instance_keeper::{Book, Instance};
use std::alloc::Global;

/// How many replicas a server has, how many of them are valid, how many of these replicate, and how many of these lag.
#[derive(Clone, Copy)]
pub(crate) struct Tally {
    pub(crate) replicas: u32,
    pub(crate) valid: u32,
    pub(crate) replicating: u32,
    pub(crate) lagging: u32,
}

fn replicates(replica: &Instance) -> bool
    ensures { result ≡ replicates replica.now }
{
    replica.valid && replica.seen.io == IoState::Yes && replica.seen.sql
}

fn lags(replica: &Instance) -> bool
    ensures { result ≡ lags replica.now }
{
    replicates(replica) && replica.seen.exec.is_before(replica.seen.read)
}

impl Tally {
    // Counts one more replica.
    fn raise(&mut self, replica: &Instance)
        requires parts { AreParts self.old }
        requires room { self.old.replicas + 1 < 2 ^ 32 }
        ensures { self.new ≡ raised self.old replica.now }
    {
        self.replicas += 1;
        self.valid += u32::from(replica.valid);
        self.replicating += u32::from(replicates(replica));
        self.lagging += u32::from(lags(replica));
    }
}

fn no_tallies(alloc: Global, count: u32) -> Result<Vec<Tally>, Memory>
    ensures { IfOk result (λ tallies. tallies.items ≡ replicate count no_replicas) }
{
    let mut tallies = Vec::with_capacity(alloc, count as usize)?;
    for _ in 0..count {
        tallies.push(Tally {
            replicas: 0,
            valid: 0,
            replicating: 0,
            lagging: 0,
        })?;
    }
    Ok(tallies)
}

/// The counts of each server, by number, of all that is known.
pub(crate) fn tallies(
    alloc: Global,
    book: &Book,
    instances: &[&Option<Instance>],
) -> Result<Vec<Tally>, Memory>
    requires { map (λ place. place.now) instances.now ≡ book.now.instances }
    ensures count { IfOk result (λ tallies. length tallies.items ≡ length book.now.names) }
    ensures tallies { IfOk result (λ tallies. (n : Number) → n.0 < length book.now.names →
        slice_index_or tallies.items n.0 no_replicas ≡ tally_of book.now.instances n) }
{
    let count = book.servers();
    let mut tallies = no_tallies(alloc, count)?;
    for place in instances {
        if let Some(replica) = place {
            if let SourceState::Attached(source) = replica.seen.source {
                tallies[source.0 as usize].raise(replica);
            }
        }
    }
    Ok(tallies)
}
