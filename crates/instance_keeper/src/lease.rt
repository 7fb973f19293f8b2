//! Leases.

ghost use Rattle.std.specs.Prelude.{◌≡◌, ◌<◌, All, length};
ghost use Rattle.instance_keeper.specs.Leases.{first_busy, freed, given_back, taken};

use crate::orch_base::ServerNo;
use std::fmt;

/// Why leases aren't taken.
#[derive(Clone, Copy, Debug, PartialEq, Eq)]
pub enum LeaseFault {
    /// A job has the lease of this server.
    Busy {
        /// The first of the servers that has a lease.
        no: ServerNo,
        /// The job that has it.
        job: u64,
    },
}

impl fmt::Display for LeaseFault {
    fn fmt<W: fmt::Write>(&self, f: &mut fmt::Formatter<W>) -> fmt::Result {
        match self {
            LeaseFault::Busy { no, job } => write!(f, "job {job} has the lease of server {}", no.0),
        }
    }
}

/// The first server of the list that has a lease.
pub(crate) fn first_busy(leases: &[Option<u64>], list: &[ServerNo]) -> Option<LeaseFault>
    requires { All (λ k. k.0 < length leases.now) list.now }
    ensures { result ≡ first_busy leases.now list.now }
{
    for no in list {
        if let Some(job) = leases[no.0 as usize] {
            return Some(LeaseFault::Busy { no: *no, job });
        }
    }
    None
}

/// Gives the job the leases of the list.
pub(crate) fn take(leases: &mut [Option<u64>], list: &[ServerNo], job: u64)
    requires { All (λ k. k.0 < length leases.old) list.now }
    ensures { leases.new ≡ taken leases.old list.now job }
{
    for no in list {
        leases[no.0 as usize] = Some(job);
    }
}

fn freed(lease: Option<u64>, job: u64) -> Option<u64>
    ensures { result ≡ freed job lease }
{
    match lease {
        Some(other) if other == job => None,
        lease => lease,
    }
}

/// Takes the leases of a job from it.
#[tactic(auto, using(crate::proofs::Leasing::freed_at, crate::proofs::Leasing::freed_next, crate::proofs::Leasing::freed_all))]
pub(crate) fn give_back(leases: &mut [Option<u64>], job: u64)
    ensures { leases.new ≡ given_back leases.old job }
{
    for lease in leases.iter_mut() {
        *lease = freed(*lease, job);
    }
}
