//! Logs of sources, each laid once for all its replicas.

ghost use Rattle.std.specs.Prelude.{◌≡◌, IfOk, None, Some, false, replicate, slice_get};
ghost use Rattle.opening_checks.specs.Prelude.{PartsInRange, bad_flushes, log_at};
ghost use Rattle.opening_checks.specs.Places.{LimitsInRange};
ghost use Rattle.opening_checks.specs.SourceLogs.{AreLogs};

use crate::orch_base::{Memory, ServerNo};
use binlog_coords::LogIndex;
use openings::{ServerInit, executed_by, laid_log};
use std::alloc::Global;

/// For each of so many servers no log yet.
pub(crate) fn no_logs(alloc: Global, servers: usize) -> Result<Vec<Option<LogIndex>>, Memory>
    ensures { IfOk result (λ logs. logs.items ≡ replicate servers None) }
{
    let mut logs = Vec::with_capacity(alloc, servers)?;
    for _ in 0..servers {
        logs.push(None)?;
    }
    Ok(logs)
}

// The log of a server, if its flush points are in order.
fn log_at(
    alloc: Global,
    servers: &[ServerInit],
    n: ServerNo,
    init: &ServerInit,
) -> Result<LogIndex, Memory>
    requires parts { PartsInRange servers.now }
    requires limits { LimitsInRange servers.now }
    requires at { slice_get servers.now n.0 ≡ Some init.now }
    requires points { bad_flushes init.now ≡ false }
    ensures { IfOk result (λ l. l.log ≡ log_at servers.now n.0) }
{
    let history = executed_by(alloc, servers, n)?;
    let flushes = init.flushes.as_slice().len() as u64;
    laid_log(alloc, init, &history, history.len() as u64, flushes)
}

/// Takes the log of a server, if its flush points are in order, out of the table. It is laid, if it isn't there.
pub(crate) fn take_log(
    alloc: Global,
    servers: &[ServerInit],
    logs: &mut [Option<LogIndex>],
    n: ServerNo,
    init: &ServerInit,
) -> Result<LogIndex, Memory>
    requires parts { PartsInRange servers.now }
    requires limits { LimitsInRange servers.now }
    requires at { slice_get servers.now n.0 ≡ Some init.now }
    requires points { bad_flushes init.now ≡ false }
    requires logs { AreLogs servers.now logs.old }
    ensures log { IfOk result (λ l. l.log ≡ log_at servers.now n.0) }
    ensures logs { AreLogs servers.now logs.new }
{
    match logs[n.0 as usize].take() {
        Some(log) => Ok(log),
        None => log_at(alloc, servers, n, init),
    }
}
