//! Whether the log of a server matches another's (Pseudo-GTID).

ghost use Rattle.std.specs.Prelude.{◌≡◌, ◌<◌, ◌≤◌, IsTrue, Some, length};
ghost use Rattle.job_plans.specs.Prelude.{Server as AServer, can_reach, coord_after, first_unlike, is_mark, last_mark, match_logs, matched_at};
ghost use Rattle.job_plans.specs.Prelude.{place_of_mark, same_txn, server_at, shows_same};
ghost use Rattle.job_plans.specs.Entries.{kept_from};

use crate::binlog_coords_items::{Coord, LogIndex};
use crate::orch_base::{ServerNo, Txn};
use crate::server_model::World;
use operations::MatchFault;

fn is_mark(every: u64, t: Txn) -> bool
    ensures { result ≡ is_mark every t }
{
    every != 0 && t.seq % every == 0
}

fn is_same_txn(x: Txn, y: Txn) -> bool
    ensures { result ≡ same_txn x y }
{
    x.origin.0 == y.origin.0 && x.seq == y.seq
}

fn shows_same(every: u64, x: Txn, y: Txn) -> bool
    ensures { result ≡ shows_same every x y }
{
    x.origin.0 == y.origin.0 && (x.size == y.size && is_mark(every, x) == is_mark(every, y))
}

// The index of the first transaction that the log of a server keeps. If it doesn't log, how many it has executed.
fn kept_from(world: &World, no: ServerNo) -> u64
    requires { no.0 < length world.now.servers }
    ensures { (s : AServer) → server_at world.now no.0 ≡ Some s → result ≡ kept_from s }
{
    match world.log(no) {
        None => world.executed(no),
        Some(log) => {
            let file = world.plain(no).first;
            log.place(Coord { file, pos: 4 }).unwrap_or(0)
        }
    }
}

// The last mark that the log of a server keeps. The time is that of the entries after it.
fn last_mark(world: &World, no: ServerNo, every: u64) -> Option<u64>
    requires { no.0 < length world.now.servers }
    ensures { (s : AServer) → server_at world.now no.0 ≡ Some s → result ≡ last_mark every s }
{
    let from = kept_from(world, no);
    for k in (from..world.executed(no)).rev() {
        if is_mark(every, world.transaction(no, k)) {
            return Some(k);
        }
    }
    None
}

// The place of a mark in the log of a server. The time is that of the entries after it.
fn place_of_mark(world: &World, no: ServerNo, mark: Txn) -> Option<u64>
    requires { no.0 < length world.now.servers }
    ensures { (s : AServer) → server_at world.now no.0 ≡ Some s →
        result ≡ place_of_mark s (Some mark) }
{
    let from = kept_from(world, no);
    for k in (from..world.executed(no)).rev() {
        if is_same_txn(world.transaction(no, k), mark) {
            return Some(k);
        }
    }
    None
}

// The end of so many transactions of a log. If it has fewer, the log's start.
fn end_after(log: &LogIndex, count: u64) -> Coord
    ensures { result ≡ coord_after log.now.log count }
{
    if log.len() < count {
        return Coord { file: 1, pos: 4 };
    }
    log.coord_after(count)
}

// The end of all that the first server has executed, in the log of the second, by a mark that both keep. Each entry of
// the first is compared with that in its place in the second.
fn matched_at(
    world: &World,
    r: ServerNo,
    d: ServerNo,
    log: &LogIndex,
    every: u64,
    i: u64,
    j: u64,
) -> Result<Coord, MatchFault>
    requires server { r.0 < length world.now.servers }
    requires other { d.0 < length world.now.servers }
    requires mark { (x : AServer) → server_at world.now r.0 ≡ Some x →
        (kept_from x ≤ i) × (i < length x.history.txns) }
    requires same { (y : AServer) → server_at world.now d.0 ≡ Some y →
        (kept_from y ≤ j) × (j < length y.history.txns) }
    requires log { (y : AServer) → server_at world.now d.0 ≡ Some y → y.log ≡ log.now }
    ensures { (x y : AServer) → server_at world.now r.0 ≡ Some x →
        server_at world.now d.0 ≡ Some y
        → result ≡ matched_at x y i j (first_unlike every x y i j) }
{
    let (count, more) = (world.executed(r), world.executed(d));
    let mut at = j + 1;
    for k in i + 1..count {
        if more <= at || !shows_same(every, world.transaction(r, k), world.transaction(d, at)) {
            return Err(MatchFault::Mismatch(k + 1));
        }
        at += 1;
    }
    Ok(end_after(log, at))
}

// Whether a server is there and reached.
fn is_reached(world: &World, no: ServerNo) -> bool
    ensures value { result ≡ can_reach (server_at world.now no.0) }
    ensures there { IsTrue result → no.0 < length world.now.servers }
{
    no.0 < world.servers() && world.is_reached(no)
}

/// The end of all that server `r` has executed, in the log of `d`, by the last mark that the log of `r` keeps. A mark
/// is a transaction whose number is divisible by `every`. There are none at 0.
/// - `Unreachable` has the first of the two that is down or whose desk link is cut.
/// - `NoMark`: the log of `r` keeps no mark, or that of `d` doesn't keep the last one of `r`.
/// - `Mismatch` has the first entry of `r` after the mark, counted from 1, for which `d` has none in its place. It also
///   comes if the entry there has another origin or another size, or is a mark.
///
/// The time is that of the entries after the mark. It takes no memory.
pub fn match_logs(world: &World, r: ServerNo, d: ServerNo, every: u64) -> Result<Coord, MatchFault>
    ensures { result ≡ match_logs world.now r d every }
{
    if !is_reached(world, r) {
        return Err(MatchFault::Unreachable(r));
    }
    if !is_reached(world, d) {
        return Err(MatchFault::Unreachable(d));
    }
    let Some(log) = world.log(d) else {
        return Err(MatchFault::NoMark);
    };
    let Some(i) = last_mark(world, r, every) else {
        return Err(MatchFault::NoMark);
    };
    let Some(j) = place_of_mark(world, d, world.transaction(r, i)) else {
        return Err(MatchFault::NoMark);
    };
    matched_at(world, r, d, log, every, i, j)
}
