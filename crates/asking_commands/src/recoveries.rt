//! The lines of an audit's recoveries: those of a command and those of the tables are the same.

ghost use Rattle.std.specs.Prelude.{◌≡◌, IfOk};
ghost use Rattle.asking_commands.specs.Lines.{line_of, recovery_lines};

use crate::kept_rows_items::Recovery;
use crate::orch_base::Memory;
use commands::{Line, Lines, RecoveryLine};
use std::alloc::Global;

fn line_of(alloc: Global, recovery: &Recovery) -> Result<RecoveryLine, Memory>
    ensures { IfOk result (λ l. l ≡ line_of recovery.now) }
{
    Ok(RecoveryLine {
        id: recovery.id,
        cluster: recovery.cluster.copy(alloc)?,
        kind: recovery.kind,
        failed: recovery.failed,
        begun: recovery.begun,
        ended: recovery.ended,
        outcome: recovery.outcome,
        acked: recovery.acked,
    })
}

/// A line for each of these recoveries, in their order. `Err` means out of memory.
pub fn recovery_lines(alloc: Global, recoveries: &[Recovery]) -> Result<Lines, Memory>
    ensures { IfOk result (λ lines. lines ≡ recovery_lines recoveries.now) }
{
    let mut lines = Vec::with_capacity(alloc, recoveries.len())?;
    for recovery in recoveries {
        lines.push(Line::Recovery(line_of(alloc, recovery)?))?;
    }
    Ok(Lines::new(lines))
}
