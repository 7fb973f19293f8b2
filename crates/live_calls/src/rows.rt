//! The rows of a live run, for the caller's row store.

ghost use Rattle.std.specs.Prelude.{◌≡◌, IfOk};
ghost use Rattle.live_calls.specs.Prelude.{HasKeeperCause, KeepsAll};
ghost use Rattle.live_calls.specs.Reports.{puts};

use crate::kept_rows_items::{Change, Keeper, KeeperFault, Row};
use crate::orch_base::{Memory, Name};
use std::alloc::Global;

// Changes that put each of the rows.
fn puts(alloc: Global, rows: Vec<Row>) -> Result<Vec<Change>, Memory>
    ensures { IfOk result (λ v. v.items ≡ puts rows.items) }
{
    let mut changes = Vec::with_capacity(alloc, rows.len())?;
    'rows: for row in rows {
        changes.push(Change::Put(row))?;
    }
    Ok(changes)
}

/// Keeps the rows, each in place of one with its table and key, by one call, or at a fault none.
pub(crate) fn keep_rows<K: Keeper>(
    alloc: Global,
    keeper: &mut K,
    names: &[Name],
    rows: Vec<Row>,
) -> Result<(), KeeperFault>
    ensures kept { KeepsAll (K.kept keeper.old) (K.kept keeper.new) (puts rows.items) result }
    ensures cause { HasKeeperCause (K.faults keeper.old) (K.faults keeper.new) result }
{
    let changes = puts(alloc, rows)?;
    keeper.keep(alloc, names, &changes)
}
