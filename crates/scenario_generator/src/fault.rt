//! Why a scenario was not written.

ghost use Rattle.std.specs.Prelude.{◌≡◌};
ghost use Rattle.scenario_generator.specs.declared.fault.NotWritten.TheVariants.{Memory, Sink};

use orch_base::{Failed, Memory};
use std::fmt;

/// Why a scenario was not written to its end.
#[derive(Clone, Copy, Debug, PartialEq, Eq)]
pub enum NotWritten {
    /// Out of memory.
    Memory,
    /// The sink failed, and counted it.
    Sink,
}

impl From<Failed> for NotWritten {
    ghost from_gives = { λ _ e. e ≡ Sink };

    fn from(_e: Failed) -> NotWritten {
        NotWritten::Sink
    }
}

impl From<Memory> for NotWritten {
    ghost from_gives = { λ _ e. e ≡ Memory };

    fn from(_e: Memory) -> NotWritten {
        NotWritten::Memory
    }
}

impl fmt::Display for NotWritten {
    fn fmt<W: fmt::Write>(&self, f: &mut fmt::Formatter<W>) -> fmt::Result {
        match self {
            NotWritten::Memory => write!(f, "out of memory"),
            NotWritten::Sink => write!(f, "the sink failed"),
        }
    }
}
