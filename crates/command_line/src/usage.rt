//! Why a command line gives nothing.

ghost use Rattle.std.specs.Prelude.{◌≡◌};
ghost use Rattle.command_line.specs.declared.usage.Usage.TheVariants.{Memory as NoMemory};

use crate::Memory;
use std::alloc::AllocFailed;
use std::fmt;

/// Why a command line gives nothing.
#[derive(Clone, Copy, Debug, PartialEq, Eq)]
pub enum Usage {
    /// The command line isn't accepted.
    BadWords,
    /// Out of memory.
    Memory,
}

impl From<Memory> for Usage {
    ghost from_gives = { λ _ e. e ≡ NoMemory };

    fn from(_e: Memory) -> Usage {
        Usage::Memory
    }
}

impl<T: Drop> From<AllocFailed<T>> for Usage {
    ghost from_gives = { λ _ e. e ≡ NoMemory };

    fn from(_failed: AllocFailed<T>) -> Usage {
        Usage::Memory
    }
}

impl fmt::Display for Usage {
    fn fmt<W: fmt::Write>(&self, f: &mut fmt::Formatter<W>) -> fmt::Result {
        match self {
            Usage::BadWords => write!(f, "usage"),
            Usage::Memory => write!(f, "out of memory"),
        }
    }
}
