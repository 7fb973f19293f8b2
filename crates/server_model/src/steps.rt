//! What a receiver and an applier are to do next.

ghost use Rattle.std.specs.Prelude.{◌≡◌, ◌<◌, ◌≤◌, All, Some, true, ◌==◌, ◌&&◌, if◌then◌else◌};
ghost use Rattle.server_model.specs.Prelude.{has_place, next_after};
ghost use Rattle.server_model.specs.Exchanges.{applied, apply_answer, apply_from, fetch_answer, fetch_from, is_applying, is_attached, is_reached, is_receiving, IsReady};
ghost use Rattle.server_model.specs.Worlds.{has_source};
ghost use Rattle.server_model.specs.Gtids.{uuids_in, TellsExecuted};
ghost use Rattle.server_model.specs.Fit.{HasSize};

use crate::binlog_coords_items::{Coord, Next};
use crate::gtid_sets::ReservedSet;
use crate::gtids::uuid_of;
use crate::orch_base::{ServerNo, SourceState, Txn};
use crate::{ApplyAnswer, ApplyStep, FetchAnswer, FetchStep, Server};

pub(crate) fn is_attached(source: SourceState) -> bool
    ensures { result ≡ is_attached source }
{
    matches!(source, SourceState::Attached(_))
}

/// Whether orchestrator reaches the server.
pub(crate) fn is_reachable(s: &Server) -> bool
    ensures { result ≡ (s.now.up && s.now.desk) }
{
    s.up && s.desk
}

/// Whether the receiver of a replica is on.
pub(crate) fn is_receiving(r: &Server) -> bool
    ensures { result ≡ is_receiving r.now }
{
    r.up && (is_attached(r.source) && r.receiver)
}

/// Whether the applier of a replica is on.
pub(crate) fn is_applying(r: &Server) -> bool
    ensures { result ≡ is_applying r.now }
{
    r.up && (is_attached(r.source) && r.applier)
}

/// How many of the writes that the server accepts are errant: each, if it has a source, or none.
pub(crate) fn errant_writes(s: &Server) -> u64
    ensures value { result ≡ (if has_source s.now.source then 1 else 0) }
    ensures within { result ≤ 1 }
{
    match s.source {
        SourceState::Without => 0,
        SourceState::Attached(_) | SourceState::Detached(_) => 1,
    }
}

/// Whether the applier of a replica is at the position at which it is to stop.
pub(crate) fn is_reached(r: &Server) -> bool
    ensures { result ≡ is_reached r.now.until r.now.exec }
{
    match r.until {
        None => false,
        Some(until) => until.is_at_or_before(r.exec),
    }
}

// What follows in the log of a server; that of one that doesn't log is empty.
fn next_in(s: &Server, c: Coord) -> Next
    requires { has_place s.now.log.log c ≡ true }
    ensures { result ≡ next_after s.now.log.log c }
{
    if s.settings.logs {
        s.log.next_after(c)
    } else {
        Next::End
    }
}

/// What the receiver of `r`, which is on, is to do under its source `s`.
pub(crate) fn receiver_step(r: &Server, s: &Server) -> FetchStep
    requires { has_place s.now.log.log r.now.read ≡ true }
    ensures { result ≡ fetch_from r.now (Some s.now) }
{
    if !(s.up && r.feed) {
        return FetchStep::Unlinked;
    }
    if r.read.file < s.first {
        return FetchStep::Refuse(s.first);
    }
    FetchStep::Take(next_in(s, r.read))
}

pub(crate) fn fetch_answer(step: FetchStep) -> FetchAnswer
    ensures { result ≡ fetch_answer step }
{
    match step {
        FetchStep::Halt => FetchAnswer::Stopped,
        FetchStep::Unlinked => FetchAnswer::NoLink,
        FetchStep::Refuse(first) => FetchAnswer::Purged(first),
        FetchStep::Take(Next::Entry(_, to)) => FetchAnswer::Got(to),
        FetchStep::Take(Next::Rotate(to)) => FetchAnswer::Rotated(to),
        FetchStep::Take(Next::End) => FetchAnswer::Nothing,
    }
}

/// One if the transaction is of this server, else none.
pub(crate) fn own_of(no: ServerNo, t: Txn) -> u64
    ensures value { result ≡ (if t.origin.0 == no.0 then 1 else 0) }
    ensures within { result ≤ 1 }
{
    if t.origin.0 == no.0 { 1 } else { 0 }
}

pub(crate) fn apply_answer(step: ApplyStep) -> ApplyAnswer
    ensures { result ≡ apply_answer step }
{
    match step {
        ApplyStep::Halt => ApplyAnswer::Stopped,
        ApplyStep::ForgetUntil => ApplyAnswer::AtUntil,
        ApplyStep::Idle => ApplyAnswer::Nothing,
        ApplyStep::Pass(to) => ApplyAnswer::Rotated(to),
        ApplyStep::Skip(to) => ApplyAnswer::Skipped(to),
        ApplyStep::NoRoom => ApplyAnswer::Full,
        ApplyStep::Execute(_, to) => ApplyAnswer::Done(to),
    }
}

/// What the applier of `r`, which is on and isn't at the position at which it is to stop, is to do under its source
/// `s`.
pub(crate) fn applier_step(
    gtid: bool,
    r: &Server,
    s: &Server,
    servers: &[Server],
    executed: &ReservedSet,
) -> ApplyStep
    requires place { has_place s.now.log.log r.now.exec ≡ true }
    requires sizes { All HasSize s.now.history.txns }
    requires told { TellsExecuted gtid (uuids_in servers.now) executed.now.intervals r.now s.now }
    ensures step { result ≡ apply_from gtid r.now (Some s.now) }
    ensures ready { IsReady (Some r.now) result }
{
    if r.exec.is_same(r.read) {
        return ApplyStep::Idle;
    }
    let next = next_in(s, r.exec);
    applied(gtid, r, s, next, servers, executed)
}

fn applied(
    gtid: bool,
    r: &Server,
    s: &Server,
    next: Next,
    servers: &[Server],
    executed: &ReservedSet,
) -> ApplyStep
    requires sizes { All HasSize s.now.history.txns }
    requires told { TellsExecuted gtid (uuids_in servers.now) executed.now.intervals r.now s.now }
    ensures step { result ≡ applied gtid r.now s.now next }
    ensures ready { IsReady (Some r.now) result }
{
    match next {
        Next::Entry(index, to) => match s.log.txn(index) {
            None => ApplyStep::Idle,
            Some(t) => {
                if gtid && executed.contains(uuid_of(servers, t.origin), t.seq) {
                    ApplyStep::Skip(to)
                } else if r.log.room() <= r.log.len() {
                    ApplyStep::NoRoom
                } else {
                    ApplyStep::Execute(t, to)
                }
            }
        },
        Next::Rotate(to) => ApplyStep::Pass(to),
        Next::End => ApplyStep::Idle,
    }
}
