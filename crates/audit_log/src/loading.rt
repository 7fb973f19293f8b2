//! The recoveries of kept rows.

ghost use Rattle.std.specs.Prelude.{◌≡◌, IfOk, unwrap_or};
ghost use Rattle.std.specs.Option.{option_copied};
ghost use Rattle.audit_log.specs.Loading.{loaded_by, recoveries_in, recovery_row_in};

use crate::Memory;
use crate::periods::Periods;
use kept_rows::{Recovery, RecoveryRow, Row};
use std::alloc::Global;

fn recovery_row_in(row: &Row) -> Option<&RecoveryRow>
    ensures { option_copied result ≡ recovery_row_in row.now }
{
    match row {
        Row::Recovery(kept) => Some(kept),
        Row::Instance(_)
        | Row::Downtime(_)
        | Row::Candidate(_)
        | Row::Switch(_)
        | Row::Active { .. } => None,
    }
}

// The block period of a row: its own, or its cluster's if it has none.
fn period_of<P: Periods>(periods: &P, kept: &RecoveryRow) -> u64
    ensures { result ≡ unwrap_or kept.now.block (P.period_of periods.now kept.now.cluster) }
{
    match kept.block {
        Some(block) => block,
        None => periods.period(kept.failed, kept.cluster.as_str()),
    }
}

/// The recovery that a row keeps. It has its cluster's block period if the row has none. Only then is the period asked.
/// `Err` means out of memory.
pub fn loaded_by<P: Periods>(
    alloc: Global,
    periods: &P,
    kept: &RecoveryRow,
) -> Result<Recovery, Memory>
    ensures { IfOk result (λ r. r ≡ loaded_by (P.period_of periods.now) kept.now) }
{
    let period = period_of(periods, kept);
    Ok(kept.copy(alloc)?.into_recovery(period))
}

/// The recoveries among some rows, in their order, by their clusters' block periods for rows that have none. `Err`
/// means out of memory.
pub fn recoveries_in<P: Periods>(
    alloc: Global,
    periods: &P,
    rows: &[Row],
) -> Result<Vec<Recovery>, Memory>
    ensures { IfOk result (λ recoveries. recoveries.items
        ≡ recoveries_in (P.period_of periods.now) rows.now) }
{
    let mut recoveries = Vec::new(alloc);
    for row in rows {
        if let Some(kept) = recovery_row_in(row) {
            recoveries.push(loaded_by(alloc, periods, kept)?)?;
        }
    }
    Ok(recoveries)
}
