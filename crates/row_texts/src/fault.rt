//! Why a text is no row.

ghost use Rattle.std.specs.Prelude.{◌≡◌};
ghost use Rattle.row_texts.specs.declared.fault.RowFault.TheVariants.{Memory as NoMemory};

use crate::orch_base::Memory;

/// Why a text is no row: the first fault in this order.
#[derive(Clone, Copy, Debug, PartialEq, Eq)]
pub enum RowFault {
    /// The text isn't UTF-8 or no JSON, or its value isn't an object with just a list, `f`, and a value, `v`.
    NotJson,
    /// `v` is no version of the table.
    BadVersion,
    /// The field of this number, counted from 0, is missing, is one too many, or hasn't its form.
    BadField(usize),
    /// The key hasn't the printed form of the table's keys.
    BadKey,
    /// The key or a field names a server that isn't known.
    UnknownServer,
    /// Out of memory.
    Memory,
}

impl From<Memory> for RowFault {
    ghost from_gives = { λ _ e. e ≡ NoMemory };

    fn from(_e: Memory) -> RowFault {
        RowFault::Memory
    }
}
