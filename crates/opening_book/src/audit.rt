//! The audit of kept rows.

ghost use Rattle.std.specs.Prelude.{◌≡◌, ℕ, List, IfOk, not};
ghost use Rattle.opening_book.specs.Prelude.{AuditState, IsAudit, Moment as AMoment, position};
ghost use Rattle.opening_book.specs.Audits.{audit_of, id_in, is_instance, last_id, later_id, latest_recovery, recovery_raised};
ghost use Rattle.opening_book.specs.Opening.{loading};

use crate::Memory;
use crate::counting::GREATEST_ID;
use crate::orch_base::Moment;
use audit_log::{Audit, Periods, recoveries_in};
use instance_keeper::{Recovery, Row};
use std::alloc::Global;

fn id_in(row: &Row) -> u64
    ensures { result ≡ id_in row.now }
{
    match row {
        Row::Recovery(kept) => { if kept.id <= GREATEST_ID { kept.id } else { 0 } }
        Row::Instance(_)
        | Row::Downtime(_)
        | Row::Candidate(_)
        | Row::Switch(_)
        | Row::Active { .. } => 0,
    }
}

fn later_id(last: u64, row: &Row) -> u64
    ensures { result ≡ later_id last row.now }
{
    last.max(id_in(row))
}

/// The greatest id, up to `GREATEST_ID`, of all recoveries of these rows, or 0. Those that don't count are looked at
/// too, so that no row is written over that was handed back.
pub fn last_id(rows: &[Row]) -> u64
    ensures { result ≡ last_id rows.now }
{
    let mut last = 0;
    'rows: for row in rows {
        last = later_id(last, row);
    }
    last
}

fn is_instance(row: &Row) -> bool
    ensures { result ≡ is_instance row.now }
{
    match row {
        Row::Instance(_) => true,
        Row::Downtime(_)
        | Row::Candidate(_)
        | Row::Recovery(_)
        | Row::Switch(_)
        | Row::Active { .. } => false,
    }
}

fn first_other(rows: &[Row]) -> Option<usize>
    ensures { result ≡ position (λ row. not (is_instance row)) rows.now }
{
    rows.iter().position(|row| !is_instance(row))
}

/// The rows from the first one on that is no instance. What is loaded of recoveries is the same of them as of all.
pub fn beyond_instances(rows: &[Row]) -> &[Row]
    ensures audit { (period : List ℕ → ℕ) (next : ℕ) →
        audit_of period next result.now ≡ audit_of period next rows.now }
    ensures loading { (period : List ℕ → ℕ) (a : AuditState) (at : AMoment) →
        loading period result.now a at ≡ loading period rows.now a at }
{
    match first_other(rows) {
        Some(from) => &rows[from..],
        None => &[],
    }
}

/// The audit of the recoveries of these rows, by their clusters' block periods for rows that have none, with the next
/// id. Its index is made if it has a recovery. `Err` means out of memory.
pub fn loaded_audit<P: Periods>(
    alloc: Global,
    periods: &P,
    rows: &[Row],
    next: u64,
) -> Result<Audit, Memory>
    requires { IsAudit (audit_of (P.period_of periods.now) next rows.now) }
    ensures { IfOk result (λ a. a.audit ≡ audit_of (P.period_of periods.now) next rows.now) }
{
    let recoveries = recoveries_in(alloc, periods, rows)?;
    let mut audit = Audit::make(recoveries, next);
    if !audit.recoveries().is_empty() {
        audit.index(alloc)?;
    }
    Ok(audit)
}

fn recovery_raised(now: Moment, recovery: &Recovery) -> Moment
    ensures { result.0 ≡ recovery_raised now.0 recovery.now }
{
    let begun = now.max(recovery.begun);
    match recovery.ended {
        Some(ended) => begun.max(ended),
        None => begun,
    }
}

/// The latest of this moment and all begun and ended moments of these recoveries.
pub fn latest_recovery(now: Moment, recoveries: &[Recovery]) -> Moment
    ensures { result.0 ≡ latest_recovery now.0 recoveries.now }
{
    let mut latest = now;
    'recoveries: for recovery in recoveries {
        latest = recovery_raised(latest, recovery);
    }
    latest
}
