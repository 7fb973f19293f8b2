//! Servers by the GTIDs of what they have executed.

ghost use Rattle.std.specs.Prelude.{◌≡◌, ◌+◌, ◌-◌, ◌<◌, ◌≤◌, All, IfOk, length, map, take, slice_range, true, if◌then◌else◌};
ghost use Rattle.server_model.specs.Prelude.{with_pair};
ghost use Rattle.server_model.specs.Gtids.{auto_readiness, held_len, kept_coord, purged_len, purged_txns, reserved_set, uuids_in, with_gtids, IsNumbered};

use crate::attach::spot_below;
use crate::binlog_coords_items::{Coord, LogIndex};
use crate::gtid_sets::ReservedSet;
use crate::orch_base::{Memory, ServerNo};
use crate::{AttachFault, Server};
use std::alloc::Global;

/// The UUID of a server, or 0 if there is none.
pub(crate) fn uuid_of(servers: &[Server], no: ServerNo) -> u128
    ensures { result ≡ uuids_in servers.now no.0 }
{
    match servers.get(no.0 as usize) {
        None => 0,
        Some(s) => s.settings.uuid,
    }
}

/// Adds the GTID to the set, if GTIDs are used. It takes no memory.
pub(crate) fn keep_gtid(executed: &mut ReservedSet, gtid: bool, uuid: u128, n: u64)
    requires some { 1 ≤ n }
    requires few { n ≤ 4000001 }
    requires room { gtid ≡ true → length executed.old.intervals < executed.old.room }
    ensures { executed.new ≡ (if gtid
        then record executed.old { intervals = with_pair uuid n executed.old.intervals }
        else executed.old) }
{
    if gtid {
        executed.add(uuid, n);
    }
}

/// Adds the GTIDs of the transactions from one index on and before another to the set, if GTIDs are used. It takes no
/// memory.
pub(crate) fn keep_gtids(
    kept: &mut ReservedSet,
    gtid: bool,
    servers: &[Server],
    log: &LogIndex,
    from: u64,
    to: u64,
)
    requires numbered { All (IsNumbered (length servers.now)) log.now.txns }
    requires order { from ≤ to }
    requires within { to ≤ length log.now.txns }
    requires room { gtid ≡ true → length kept.old.intervals + (to - from) ≤ kept.old.room }
    ensures { kept.new ≡ (if gtid
        then record kept.old {
          intervals = with_gtids (uuids_in servers.now) kept.old.intervals
              (slice_range log.now.txns from to);
        }
        else kept.old) }
{
    if gtid {
        for k in from..to {
            let t = log.txn(k).unwrap();
            kept.add(uuid_of(servers, t.origin), t.seq);
        }
    }
}

/// Makes the set that the copies of a server's set share, if there is none. `Err` means out of memory.
pub(crate) fn settle(alloc: Global, sets: &mut Vec<ReservedSet>, no: ServerNo) -> Result<(), Memory>
    requires { no.0 < length sets.old.items }
    ensures { sets.new.items ≡ sets.old.items }
{
    sets[no.0 as usize].settle(alloc)
}

/// How many transactions the longest prefix of a history has that the set holds.
pub(crate) fn held_len(servers: &[Server], executed: &ReservedSet, log: &LogIndex) -> u64
    ensures { result ≡ held_len (uuids_in servers.now) executed.now.intervals log.now.txns }
{
    for k in 0..log.len() {
        let t = log.txn(k).unwrap();
        if !executed.contains(uuid_of(servers, t.origin), t.seq) {
            return k;
        }
    }
    log.len()
}

/// Why a server can't be attached by a set, except for the sets, by whether it would close a loop.
pub(crate) fn auto_readiness(s: &Server, loops: bool) -> Result<(), AttachFault>
    ensures { result ≡ auto_readiness s.now loops }
{
    if !(s.up && s.desk) {
        return Err(AttachFault::Unreachable);
    }
    if s.receiver || s.applier {
        return Err(AttachFault::Running(spot_below(s)));
    }
    if loops {
        return Err(AttachFault::Loop);
    }
    Ok(())
}

/// How many transactions are in the purged files of a server's log.
pub(crate) fn purged_len(s: &Server) -> u64
    ensures { result ≡ purged_len s.now }
{
    if !s.settings.logs {
        return 0;
    }
    let kept = Coord {
        file: s.first,
        pos: 4,
    };
    s.log.place(kept).unwrap_or(0)
}

/// The coordinate, or the start of the first kept file of the server's log if the coordinate is in a purged one.
pub(crate) fn kept_coord(s: &Server, at: Coord) -> Coord
    ensures { result ≡ kept_coord s.now at }
{
    if at.file < s.first {
        Coord {
            file: s.first,
            pos: 4,
        }
    } else {
        at
    }
}

// The set of the first transactions, so many, that a server has executed, if GTIDs are used, in the room that its
// history has.
fn executed_set(
    alloc: Global,
    servers: &[Server],
    gtid: bool,
    log: &LogIndex,
    count: u64,
) -> Result<ReservedSet, Memory>
    requires numbered { All (IsNumbered (length servers.now)) log.now.txns }
    requires within { count ≤ length log.now.txns }
    requires fits { count ≤ log.now.room }
    ensures { IfOk result (λ set. set
        ≡ reserved_set gtid (uuids_in servers.now) log.now.room (take count log.now.txns)) }
{
    if !gtid {
        return ReservedSet::with_room(alloc, 0);
    }
    let mut executed = ReservedSet::with_room(alloc, log.room())?;
    keep_gtids(&mut executed, true, servers, log, 0, count);
    Ok(executed)
}

/// The set of what is in the purged files of each server's log, if GTIDs are used, in the room that its history has.
pub(crate) fn purged_sets(
    alloc: Global,
    servers: &[Server],
    gtid: bool,
) -> Result<Vec<ReservedSet>, Memory>
    requires numbered { All (λ s. All (IsNumbered (length servers.now)) s.history.txns)
        servers.now }
    requires fits { All (λ s. length s.history.txns ≤ s.history.room) servers.now }
    requires within { All (λ s. purged_len s ≤ length s.history.txns) servers.now }
    ensures { IfOk result (λ v. v.items ≡
        map (λ s. reserved_set gtid (uuids_in servers.now) s.history.room (purged_txns s))
        servers.now) }
{
    let mut sets = Vec::new(alloc);
    for s in servers {
        sets.push(executed_set(alloc, servers, gtid, &s.log, purged_len(s))?)?;
    }
    Ok(sets)
}

/// The set of what each server has executed, if GTIDs are used, in the room that its history has.
pub(crate) fn executed_sets(
    alloc: Global,
    servers: &[Server],
    gtid: bool,
) -> Result<Vec<ReservedSet>, Memory>
    requires { All (λ s. All (IsNumbered (length servers.now)) s.history.txns) servers.now }
    ensures { IfOk result (λ v. v.items ≡
        map (λ s. reserved_set gtid (uuids_in servers.now) s.history.room s.history.txns)
        servers.now) }
{
    let mut sets = Vec::new(alloc);
    for s in servers {
        sets.push(executed_set(alloc, servers, gtid, &s.log, s.log.len())?)?;
    }
    Ok(sets)
}
