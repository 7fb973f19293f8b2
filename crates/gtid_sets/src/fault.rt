//! What is wrong with a text that is no set of GTIDs.

ghost use Rattle.std.specs.Prelude.{◌≡◌};
ghost use Rattle.gtid_sets.specs.declared.fault.GtidFault.TheVariants.{Memory};

use crate::Memory;
use crate::interval::LARGEST;
use std::fmt;

/// The first fault of a text that is no set of GTIDs, with the offset of its byte.
#[derive(Clone, Copy, Debug, PartialEq, Eq)]
pub enum GtidFault {
    /// No hyphenated UUID, with the offset of its first byte. For an empty part beside a comma it is the offset of the
    /// comma or the end that follows it.
    BadUuid(usize),
    /// No `n` or `n-m`, or n above m, with the offset of the interval's first byte. For a UUID alone it is the offset
    /// after it.
    BadInterval(usize),
    /// A number 0, with the offset of the interval's first byte.
    Zero(usize),
    /// A number above `LARGEST`, with the offset of the interval's first byte.
    TooLarge(usize),
    /// Out of memory.
    Memory,
}

impl From<Memory> for GtidFault {
    ghost from_gives = { λ _ e. e ≡ Memory };

    fn from(_e: Memory) -> GtidFault {
        GtidFault::Memory
    }
}

impl fmt::Display for GtidFault {
    fn fmt<W: fmt::Write>(&self, f: &mut fmt::Formatter<W>) -> fmt::Result {
        match self {
            GtidFault::BadUuid(at) => write!(f, "no UUID at byte {at}"),
            GtidFault::BadInterval(at) => write!(f, "no interval at byte {at}"),
            GtidFault::Zero(at) => write!(f, "a number 0 at byte {at}"),
            GtidFault::TooLarge(at) => write!(f, "a number above {LARGEST} at byte {at}"),
            GtidFault::Memory => write!(f, "out of memory"),
        }
    }
}
