//! The summary of a run.

ghost use Rattle.std.specs.Prelude.{◌≡◌, ◌++◌, OnErr, OnOk};
ghost use Rattle.report_text.specs.Summary.{executed_in, executed_text, recoveries_text, summary_text, tally_text};

use crate::number::print_counted;
use crate::orch_base::{Memory, ServerNo};
use crate::table::print_errant;
use itoa::Buffer;
use server_model::World;

/// How many turns were taken, and how many of them were answered by a refusal, or by the failure of a job.
#[derive(Clone, Copy, Debug, PartialEq, Eq)]
pub struct Tally {
    pub turns: u64,
    pub refused: u64,
    pub failed: u64,
}

fn print_tally(tally: Tally, out: &mut Vec<u8>) -> Result<(), Memory>
    ensures { OnOk result (out.new.items ≡ out.old.items ++ tally_text tally) }
{
    print_counted(b"turns ", tally.turns, out)?;
    print_counted(b" refused ", tally.refused, out)?;
    print_counted(b" failed ", tally.failed, out)?;
    out.extend_from_slice(b"\n")
}

// How many transactions the servers have executed, all together.
fn executed_in(world: &World) -> u128
    ensures { result ≡ executed_in world.now }
{
    let mut executed = 0;
    for no in 0..world.servers() {
        executed += u128::from(world.executed(ServerNo(no)));
    }
    executed
}

fn print_executed(world: &World, out: &mut Vec<u8>) -> Result<(), Memory>
    ensures { OnOk result (out.new.items ≡ out.old.items ++ executed_text world.now) }
{
    let mut buffer = Buffer::new();
    out.extend_from_slice(b"executed ")?;
    out.extend_from_slice(buffer.format(executed_in(world)).as_bytes())?;
    out.extend_from_slice(b"\n")
}

fn print_recoveries(recoveries: u64, out: &mut Vec<u8>) -> Result<(), Memory>
    ensures { OnOk result (out.new.items ≡ out.old.items ++ recoveries_text recoveries) }
{
    print_counted(b"recoveries ", recoveries, out)?;
    out.extend_from_slice(b"\n")
}

fn print_summary(
    tally: Tally,
    world: &World,
    recoveries: u64,
    out: &mut Vec<u8>,
) -> Result<(), Memory>
    ensures { OnOk result (out.new.items
        ≡ out.old.items ++ summary_text tally world.now recoveries) }
{
    print_tally(tally, out)?;
    print_executed(world, out)?;
    print_recoveries(recoveries, out)?;
    print_errant(world, out)
}

/// Appends a line of the turns and of what was refused and failed, and one of the transactions that all servers
/// together have executed. Then comes one of the number of recoveries, and one of how many writes servers with a source
/// accepted. If memory runs out, it appends nothing.
pub fn summary(
    tally: Tally,
    world: &World,
    recoveries: u64,
    out: &mut Vec<u8>,
) -> Result<(), Memory>
    ensures ok { OnOk result (out.new.items
        ≡ out.old.items ++ summary_text tally world.now recoveries) }
    ensures err { OnErr result (out.new.items ≡ out.old.items) }
{
    let mut lines = Vec::new(*out.allocator());
    print_summary(tally, world, recoveries, &mut lines)?;
    out.append(&mut lines)
}
