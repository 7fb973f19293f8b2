//! The flaws of servers, in the order in which they are looked for.

ghost use Rattle.std.specs.Prelude.{◌≡◌};
ghost use Rattle.opening_checks.specs.Prelude.{first_met, flaw_in};
ghost use Rattle.opening_checks.specs.Checked.{found_of};
ghost use Rattle.opening_checks.specs.Checks.{place_flaw_in, plain_flaw_in, refused, without, InRange, Tells};
ghost use Rattle.opening_checks.specs.ServerTests.{flaw_by, met_by};

use crate::OpeningFault;
use crate::fault::FlawedValue;
use crate::files::first_bad_files;
use crate::flaws::{Test, first_met, flaw_by};
use crate::kin::first_not_kin;
use crate::orch_base::ServerNo;
use crate::places::first_bad_coords;
use crate::source_logs::no_logs;
use openings::{Flaw, ServerInit};
use std::alloc::Global;

// A fault if a server has the flaw; this one is the first, and this value of it is to blame.
fn refuse(flaw: Flaw, first: Option<(ServerNo, FlawedValue)>) -> Result<(), OpeningFault>
    ensures { result ≡ without flaw first }
{
    match first {
        None => Ok(()),
        Some((n, value)) => Err(OpeningFault::Flawed(flaw, n, value)),
    }
}

// A fault if a server meets the test.
fn refuse_met(servers: &[ServerInit], test: Test) -> Result<(), OpeningFault>
    requires { InRange servers.now }
    ensures { result
        ≡ refused servers.now (flaw_by test) (first_met (met_by servers.now test) 0 servers.now) }
{
    refuse(flaw_by(test), first_met(servers, test))
}

// The flaws that are found without memory.
fn check_each(servers: &[ServerInit]) -> Result<(), OpeningFault>
    requires { InRange servers.now }
    ensures { Tells result (found_of servers.now (plain_flaw_in servers.now)) }
{
    refuse_met(servers, Test::BothGiven)?;
    refuse_met(servers, Test::SourceNotLogging)?;
    refuse_met(servers, Test::Loop)?;
    refuse_met(servers, Test::OtherCluster)?;
    refuse_met(servers, Test::TooMany)
}

// The flaws of places in logs. Each log is laid once at most, and none is kept after them.
fn check_places(alloc: Global, servers: &[ServerInit]) -> Result<(), OpeningFault>
    requires { InRange servers.now }
    ensures { Tells result (found_of servers.now (place_flaw_in servers.now)) }
{
    let mut table = no_logs(alloc, servers.len())?;
    let logs = table.as_mut_slice();
    refuse(Flaw::BadPlace, first_bad_files(alloc, servers, logs)?)?;
    refuse(Flaw::BadPlace, first_bad_coords(alloc, servers, logs)?)
}

// Whether the servers have no flaw.
pub(crate) fn check_servers(alloc: Global, servers: &[ServerInit]) -> Result<(), OpeningFault>
    requires { InRange servers.now }
    ensures { Tells result (found_of servers.now (flaw_in servers.now)) }
{
    check_each(servers)?;
    check_places(alloc, servers)?;
    refuse(Flaw::NotKin, first_not_kin(alloc, servers)?)
}
