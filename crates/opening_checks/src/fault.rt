//! What a check answers of servers with a flaw.

ghost use Rattle.std.specs.Prelude.{◌≡◌};
ghost use Rattle.opening_checks.specs.declared.fault.OpeningFault.TheVariants.{Memory};

use crate::orch_base::{Memory, ServerNo};
use openings::Flaw;
use std::fmt;

/// The value of a server that is to blame for a flaw.
#[derive(Clone, Copy, Debug, PartialEq, Eq)]
pub enum FlawedValue {
    /// The name of its source.
    Source,
    /// How many of its source's transactions the server has executed.
    Executed,
    /// The executed coordinate.
    At,
    /// The read coordinate.
    Read,
    /// The whole history.
    History,
    /// The origin of a part of the history, by the part's number from 0 on.
    Origin(usize),
    /// All flush points.
    Flushes,
    /// A flush point, by its number from 0 on.
    Flush(usize),
    /// The first file that its binary log keeps.
    Purged,
}

/// Why servers were refused.
#[derive(Clone, Copy, Debug, PartialEq, Eq)]
pub enum OpeningFault {
    /// The first flaw, the first server that has it, and the value of that server that is to blame.
    /// - `BothGiven`, `SourceNotLogging`, `Loop`: the source.
    /// - `TooMany`: the executed count.
    /// - `NotKin`: the history.
    /// - `OtherCluster`: the source, or the first origin of another cluster.
    /// - `BadPlace`: all flush points of a server without a log, or the first flush point that falls or passes the
    ///   count. Else the first kept file, or the first coordinate out of place.
    Flawed(Flaw, ServerNo, FlawedValue),
    /// Out of memory.
    Memory,
}

impl From<Memory> for OpeningFault {
    ghost from_gives = { λ _ e. e ≡ Memory };

    fn from(_e: Memory) -> OpeningFault {
        OpeningFault::Memory
    }
}

impl fmt::Display for OpeningFault {
    fn fmt<W: fmt::Write>(&self, f: &mut fmt::Formatter<W>) -> fmt::Result {
        match self {
            OpeningFault::Flawed(flaw, no, _) => write!(f, "server {}: {flaw}", no.0),
            OpeningFault::Memory => write!(f, "out of memory"),
        }
    }
}
