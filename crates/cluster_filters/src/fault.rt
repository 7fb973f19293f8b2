//! Why a filter or a pattern was not read.

ghost use Rattle.std.specs.Prelude.{◌≡◌};
ghost use Rattle.cluster_filters.specs.declared.fault.FilterFault.TheVariants.{Memory};

use std::alloc::{AllocError, AllocFailed};
use std::fmt;

/// Why a list of filters, or a pattern, was not read.
#[derive(Clone, Copy, Debug, PartialEq, Eq)]
pub enum FilterFault {
    /// The text at this index, from 0, is the first that is no regular expression, or nests past the
    /// limit of `regex`.
    BadPattern(usize),
    /// Out of memory, or a compiled regular expression past the room that `regex` grants one.
    Memory,
}

impl From<AllocError> for FilterFault {
    ghost from_gives = { λ _ fault. fault ≡ Memory };

    fn from(_error: AllocError) -> FilterFault {
        FilterFault::Memory
    }
}

impl<T: Drop> From<AllocFailed<T>> for FilterFault {
    ghost from_gives = { λ _ fault. fault ≡ Memory };

    fn from(_failed: AllocFailed<T>) -> FilterFault {
        FilterFault::Memory
    }
}

impl fmt::Display for FilterFault {
    fn fmt<W: fmt::Write>(&self, f: &mut fmt::Formatter<W>) -> fmt::Result {
        match self {
            FilterFault::BadPattern(index) => write!(f, "text {index} is no regular expression"),
            FilterFault::Memory => write!(f, "out of memory"),
        }
    }
}
