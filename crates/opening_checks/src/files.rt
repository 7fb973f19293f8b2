//! The files of the servers' binary logs: flush points, and what is purged.

ghost use Rattle.std.specs.Prelude.{◌≡◌, ◌≤◌, ◌<◌, ◌^◌, IfOk, IfSome, Some, false, is_some, length, slice_get};
ghost use Rattle.opening_checks.specs.Prelude.{BadPlace, PartsInRange, bad_files, bad_flushes, bad_purged, falls_or_passes, first_met, parts_of};
ghost use Rattle.opening_checks.specs.Prelude.{transactions};
ghost use Rattle.opening_checks.specs.Checks.{server_of, IsToBlame};
ghost use Rattle.opening_checks.specs.Places.{LimitsInRange};
ghost use Rattle.opening_checks.specs.SourceLogs.{AreLogs};
ghost use Rattle.opening_checks.specs.Values.{first_bad_flush, flush_value, place_value};

use crate::fault::FlawedValue;
use crate::orch_base::{Memory, ServerNo};
use crate::source_logs::take_log;
use binlog_coords::LogIndex;
use openings::{ServerInit, count_of};
use std::alloc::Global;

// The number of the first count that is less than the one before it, or more than the bound.
fn first_bad_flush(bound: u64, counts: &[u64]) -> Option<usize>
    ensures met { is_some result ≡ falls_or_passes bound 0 counts.now }
    ensures first { IfSome result (λ k. k ≡ first_bad_flush bound 0 0 counts.now) }
{
    let mut least = 0;
    for (k, count) in counts.iter().enumerate() {
        if *count < least || bound < *count {
            return Some(k);
        }
        least = *count;
    }
    None
}

// The first bad flush point, or all of them if the server has no log.
fn bad_flush(init: &ServerInit) -> Option<FlawedValue>
    requires { transactions (parts_of init.now) < 2 ^ 64 }
    ensures met { is_some result ≡ bad_flushes init.now }
    ensures value { IfSome result (λ v. v ≡ flush_value init.now) }
{
    let flushes = init.flushes.as_slice();
    if init.settings.logs {
        let k = first_bad_flush(count_of(init), flushes)?;
        Some(FlawedValue::Flush(k))
    } else if flushes.is_empty() {
        None
    } else {
        Some(FlawedValue::Flushes)
    }
}

// Whether the first kept file of a server is none of its log's. The log is laid only if files are purged.
fn is_badly_purged(
    alloc: Global,
    servers: &[ServerInit],
    logs: &mut [Option<LogIndex>],
    n: ServerNo,
    init: &ServerInit,
) -> Result<bool, Memory>
    requires parts { PartsInRange servers.now }
    requires limits { LimitsInRange servers.now }
    requires at { slice_get servers.now n.0 ≡ Some init.now }
    requires points { bad_flushes init.now ≡ false }
    requires logs { AreLogs servers.now logs.old }
    ensures met { IfOk result (λ b. b ≡ bad_purged servers.now n.0 init.now) }
    ensures logs { IfOk result (λ _. AreLogs servers.now logs.new) }
{
    if init.purged <= 1 {
        return Ok(false);
    }
    if !init.settings.logs {
        return Ok(true);
    }
    let log = take_log(alloc, servers, logs, n, init)?;
    let is_passed = log.files() < init.purged;
    logs[n.0 as usize] = Some(log);
    Ok(is_passed)
}

// The bad flush points of a server, and else its first kept file, if that is none of its log's.
fn bad_files(
    alloc: Global,
    servers: &[ServerInit],
    logs: &mut [Option<LogIndex>],
    n: ServerNo,
    init: &ServerInit,
) -> Result<Option<FlawedValue>, Memory>
    requires parts { PartsInRange servers.now }
    requires limits { LimitsInRange servers.now }
    requires at { slice_get servers.now n.0 ≡ Some init.now }
    requires logs { AreLogs servers.now logs.old }
    ensures met { IfOk result (λ o. is_some o ≡ bad_files servers.now n.0 init.now) }
    ensures value { IfOk result (λ o. IfSome o (λ v. v ≡ place_value servers.now n.0 init.now)) }
    ensures logs { IfOk result (λ _. AreLogs servers.now logs.new) }
{
    if let Some(value) = bad_flush(init) {
        return Ok(Some(value));
    }
    if is_badly_purged(alloc, servers, logs, n, init)? {
        return Ok(Some(FlawedValue::Purged));
    }
    Ok(None)
}

// The first server whose flush points or whose first kept file are out of place, and the value that is to blame. The
// logs that are laid join those that are kept.
pub(crate) fn first_bad_files(
    alloc: Global,
    servers: &[ServerInit],
    logs: &mut [Option<LogIndex>],
) -> Result<Option<(ServerNo, FlawedValue)>, Memory>
    requires parts { PartsInRange servers.now }
    requires limits { LimitsInRange servers.now }
    requires few { length servers.now ≤ 1000 }
    requires logs { AreLogs servers.now logs.old }
    ensures met { IfOk result (λ f. server_of f ≡ first_met (bad_files servers.now) 0 servers.now) }
    ensures value { IfOk result (IsToBlame servers.now BadPlace) }
    ensures logs { IfOk result (λ _. AreLogs servers.now logs.new) }
{
    for (n, init) in servers.iter().enumerate() {
        let no = ServerNo(n as u32);
        if let Some(value) = bad_files(alloc, servers, logs, no, init)? {
            return Ok(Some((no, value)));
        }
    }
    Ok(None)
}
