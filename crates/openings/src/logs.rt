//! The log of each server.

ghost use Rattle.std.specs.Prelude.{◌≡◌, ◌+◌, ◌-◌, ◌<◌, ◌≤◌, ◌++◌, All, IfOk, IsTrue, drop, false, length};
ghost use Rattle.openings.specs.Flaws.{bad_flushes};
ghost use Rattle.openings.specs.Laying.{rises_from, SameBehind};
ghost use Rattle.openings.specs.Logs.{flushed_at, laid, laid_after};
ghost use Rattle.openings.specs.Servers.{count_of, log_by, logged_by};
ghost use Rattle.openings.specs.Taking.{HasSize};

use crate::ServerInit;
use crate::orch_base::{Memory, Txn};
use binlog_coords::LogIndex;
use std::alloc::Global;

// Flushes the log once for each flush point at this count, from the one at `next` on. The answer is the first after
// them.
fn flush_at(log: &mut LogIndex, flushes: &[u64], next: usize, count: u64) -> usize
    requires next { next ≤ length flushes.now }
    requires left { length flushes.now ≤ log.old.flushes + next }
    requires rises { IsTrue (rises_from count (drop next flushes.now)) }
    ensures log { log.new.log ≡ flushed_at (drop next flushes.now) count log.old.log }
    ensures txns { log.new.txns ≡ log.old.txns }
    ensures room { log.new.room ≡ log.old.room }
    ensures flushes { log.new.flushes + result ≡ log.old.flushes + next }
    ensures next { result ≤ length flushes.now }
    ensures rises { IsTrue (rises_from (count + 1) (drop result flushes.now)) }
    ensures behind { SameBehind count (drop next flushes.now) (drop result flushes.now) }
{
    let mut at = next;
    while at < flushes.len() && flushes[at] == count {
        log.rotate();
        at += 1;
    }
    at
}

// Lays the transactions into an empty log in order, with a flush after each count that is listed.
fn lay(log: &mut LogIndex, flushes: &[u64], history: &[Txn])
    requires sizes { All HasSize history.now }
    requires room { length log.old.txns + length history.now ≤ log.old.room }
    requires left { length flushes.now ≤ log.old.flushes }
    requires rises { IsTrue (rises_from 0 flushes.now) }
    ensures log { log.new.log ≡ laid_after flushes.now 0 log.old.log history.now }
    ensures txns { log.new.txns ≡ log.old.txns ++ history.now }
    ensures room { log.new.room ≡ log.old.room }
    ensures flushes { All (λ k. k ≤ length history.now) flushes.now
        → log.new.flushes + length flushes.now ≡ log.old.flushes }
{
    let mut next = 0;
    for (count, t) in history.iter().enumerate() {
        next = flush_at(log, flushes, next, count as u64);
        log.push_txn(*t);
    }
    flush_at(log, flushes, next, history.len() as u64);
}

/// What a server has executed, laid with its flush points as its log lays it, even if it doesn't log. A flush point
/// after it all is none. There is room for so many transactions and flushes, with those that are laid. `Err` means out
/// of memory.
pub fn laid_history(
    alloc: Global,
    init: &ServerInit,
    history: &[Txn],
    room: u64,
    flushes: u64,
) -> Result<LogIndex, Memory>
    requires limit_low { 100 ≤ init.now.settings.limit }
    requires limit_high { init.now.settings.limit ≤ 1073741824 }
    requires sizes { All HasSize history.now }
    requires fits { length history.now ≤ room }
    requires room { room ≤ 4000000 }
    requires left { length init.now.flushes ≤ flushes }
    requires flushes { flushes ≤ 4000000 }
    requires points { bad_flushes init.now ≡ false }
    ensures log { IfOk result (λ l. l.log
        ≡ laid init.now.settings.limit init.now.flushes history.now) }
    ensures txns { IfOk result (λ l. l.txns ≡ history.now) }
    ensures room { IfOk result (λ l. l.room ≡ room) }
    ensures flushes { count_of init.now ≡ length history.now
        → IfOk result (λ l. l.flushes ≡ flushes - length init.now.flushes) }
{
    let mut log = LogIndex::with_room(alloc, init.settings.limit, room, flushes)?;
    lay(&mut log, init.flushes.as_slice(), history);
    Ok(log)
}

/// The log of a server that has executed these transactions, as `log_of` makes it. A flush point after them all is
/// none. `Err` means out of memory.
pub fn laid_log(
    alloc: Global,
    init: &ServerInit,
    history: &[Txn],
    room: u64,
    flushes: u64,
) -> Result<LogIndex, Memory>
    requires limit_low { 100 ≤ init.now.settings.limit }
    requires limit_high { init.now.settings.limit ≤ 1073741824 }
    requires sizes { All HasSize history.now }
    requires fits { length history.now ≤ room }
    requires room { room ≤ 4000000 }
    requires left { length init.now.flushes ≤ flushes }
    requires flushes { flushes ≤ 4000000 }
    requires points { bad_flushes init.now ≡ false }
    ensures log { IfOk result (λ l. l.log ≡ log_by init.now history.now) }
    ensures txns { IfOk result (λ l. l.txns ≡ logged_by init.now history.now) }
    ensures room { IfOk result (λ l. l.room ≡ room) }
    ensures flushes { count_of init.now ≡ length history.now
        → IfOk result (λ l. l.flushes ≡ flushes - length init.now.flushes) }
{
    if init.settings.logs {
        laid_history(alloc, init, history, room, flushes)
    } else {
        LogIndex::with_room(alloc, init.settings.limit, room, flushes)
    }
}

/// The log of a server that has executed this history, with room for `room` transactions, and for `flushes` flushes
/// with those that the opening lists: at most 4,000,000 each. The time is that of the history and the flushes. `Err`
/// means out of memory.
pub fn log_of(
    alloc: Global,
    init: &ServerInit,
    history: &[Txn],
    room: u64,
    flushes: u64,
) -> Result<LogIndex, Memory>
    requires limit_low { 100 ≤ init.now.settings.limit }
    requires limit_high { init.now.settings.limit ≤ 1073741824 }
    requires sizes { All HasSize history.now }
    requires fits { length history.now ≤ room }
    requires room { room ≤ 4000000 }
    requires left { length init.now.flushes ≤ flushes }
    requires flushes { flushes ≤ 4000000 }
    requires points { bad_flushes init.now ≡ false }
    requires counts { length history.now ≡ count_of init.now }
    ensures { IfOk result (λ l. l ≡ record {
      log = log_by init.now history.now;
      txns = logged_by init.now history.now;
      room = room;
      flushes = flushes - length init.now.flushes;
    }) }
{
    laid_log(alloc, init, history, room, flushes)
}
