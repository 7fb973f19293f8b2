//! The positions of replicas in their sources' logs.

ghost use Rattle.std.specs.Prelude.{◌≡◌, ◌≤◌, IfOk, IfSome, is_some, length};
ghost use Rattle.opening_checks.specs.Prelude.{BadPlace, PartsInRange, bad_coords, bad_coords_in, coord_after, first_met};
ghost use Rattle.opening_checks.specs.Checks.{server_of, IsToBlame};
ghost use Rattle.opening_checks.specs.Places.{FilesGood, LimitsInRange};
ghost use Rattle.opening_checks.specs.SourceLogs.{AreLogs};
ghost use Rattle.opening_checks.specs.Values.{bad_coords_under, bad_exec_in, coord_value, coord_value_in, coord_value_under};

use crate::fault::FlawedValue;
use crate::orch_base::{Memory, ServerNo};
use crate::source_logs::take_log;
use binlog_coords::{Coord, LogIndex};
use openings::ServerInit;
use std::alloc::Global;

// The end of the first `k` transactions of the log, or its start if it has fewer.
fn coord_after(log: &LogIndex, k: u64) -> Coord
    ensures { result ≡ coord_after log.now.log k }
{
    if k <= log.len() {
        log.coord_after(k)
    } else {
        log.coord_after(0)
    }
}

// Whether the executed coordinate hasn't the place of what was executed.
fn is_bad_exec(log: &LogIndex, executed: u64, exec: Coord) -> bool
    ensures { result ≡ bad_exec_in log.now.log executed exec }
{
    log.place(exec) != Some(executed)
}

// The executed coordinate, if it hasn't the place of what was executed, or the read one, if it has none or is before
// it.
fn bad_coord_in(log: &LogIndex, executed: u64, exec: Coord, read: Coord) -> Option<FlawedValue>
    ensures met { is_some result ≡ bad_coords_in log.now.log executed exec read }
    ensures value { IfSome result (λ v. v ≡ coord_value_in log.now.log executed exec) }
{
    if is_bad_exec(log, executed, exec) {
        Some(FlawedValue::At)
    } else if log.place(read).is_none() || read.is_before(exec) {
        Some(FlawedValue::Read)
    } else {
        None
    }
}

// The first coordinate of a server that is out of place in this log.
fn bad_coord_under(log: &LogIndex, init: &ServerInit) -> Option<FlawedValue>
    ensures met { is_some result ≡ bad_coords_under log.now.log init.now }
    ensures value { IfSome result (λ v. v ≡ coord_value_under log.now.log init.now) }
{
    let exec = init.at.unwrap_or(coord_after(log, init.executed));
    let read = init.read.unwrap_or(exec);
    bad_coord_in(log, init.executed, exec, read)
}

// The first coordinate of a server that is out of place in its source's log.
fn bad_coord(
    alloc: Global,
    servers: &[ServerInit],
    logs: &mut [Option<LogIndex>],
    init: &ServerInit,
) -> Result<Option<FlawedValue>, Memory>
    requires parts { PartsInRange servers.now }
    requires limits { LimitsInRange servers.now }
    requires files { FilesGood servers.now }
    requires logs { AreLogs servers.now logs.old }
    ensures met { IfOk result (λ o. is_some o ≡ bad_coords servers.now init.now) }
    ensures value { IfOk result (λ o. IfSome o (λ v. v ≡ coord_value servers.now init.now)) }
    ensures logs { IfOk result (λ _. AreLogs servers.now logs.new) }
{
    let Some(m) = init.source else {
        return Ok(None);
    };
    let Some(source) = servers.get(m.0 as usize) else {
        return Ok(None);
    };
    let log = take_log(alloc, servers, logs, m, source)?;
    let bad = bad_coord_under(&log, init);
    logs[m.0 as usize] = Some(log);
    Ok(bad)
}

// The first replica that has no place in its source's log, if all files are in order, and the coordinate that is to
// blame.
pub(crate) fn first_bad_coords(
    alloc: Global,
    servers: &[ServerInit],
    logs: &mut [Option<LogIndex>],
) -> Result<Option<(ServerNo, FlawedValue)>, Memory>
    requires parts { PartsInRange servers.now }
    requires limits { LimitsInRange servers.now }
    requires files { FilesGood servers.now }
    requires few { length servers.now ≤ 1000 }
    requires logs { AreLogs servers.now logs.old }
    ensures met { IfOk result (λ f. server_of f
        ≡ first_met (λ k i. bad_coords servers.now i) 0 servers.now) }
    ensures value { IfOk result (IsToBlame servers.now BadPlace) }
{
    for (n, init) in servers.iter().enumerate() {
        if let Some(value) = bad_coord(alloc, servers, logs, init)? {
            return Ok(Some((ServerNo(n as u32), value)));
        }
    }
    Ok(None)
}
