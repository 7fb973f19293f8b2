//! Lines of operations.

ghost use Rattle.std.specs.Prelude.{◌≡◌, ◌++◌, OnOk};
ghost use Rattle.std.specs.Option.{option_to_list};
ghost use Rattle.plan_lines.specs.Pieces.{as_told};

use crate::Memory;
use crate::operations_items::Op;
use plan_texts::{Expect, Line};

/// An operation that expects nothing else.
pub(crate) fn as_told(op: Op) -> Line
    ensures { result ≡ as_told op }
{
    Line::Does(op, Expect::AsTold)
}

/// Adds a line, if there is one.
pub(crate) fn push_some(lines: &mut Vec<Line>, line: Option<Line>) -> Result<(), Memory>
    ensures { OnOk result (lines.new.items ≡ lines.old.items ++ option_to_list line) }
{
    if let Some(line) = line {
        lines.push(line)?;
    }
    Ok(())
}
