//! How a task ends.

use std::fmt;

/// How a task ends.
#[derive(Clone, Copy, Debug, PartialEq, Eq)]
pub enum Ending {
    /// All turns were taken and the report is written; whether a written reply is refused or failed.
    Written(bool),
    /// A sink failed that was to take the report.
    Unwritten,
    /// The row store failed.
    Keeper,
    /// Out of memory.
    Memory,
}

impl fmt::Display for Ending {
    fn fmt<W: fmt::Write>(&self, f: &mut fmt::Formatter<W>) -> fmt::Result {
        match self {
            Ending::Written(false) => write!(f, "done"),
            Ending::Written(true) => write!(f, "refused"),
            Ending::Unwritten => write!(f, "write fault"),
            Ending::Keeper => write!(f, "keeper fault"),
            Ending::Memory => write!(f, "out of memory"),
        }
    }
}
