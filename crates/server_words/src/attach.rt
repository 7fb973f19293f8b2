//! The positions of servers, and why one isn't attached.

ghost use Rattle.std.specs.Prelude.{◌≡◌};
ghost use Rattle.server_words.specs.declared.attach.AttachFault.TheVariants.{Memory as NoMemory};

use crate::orch_base::{Memory, ServerNo};
use binlog_coords::Coord;
use gtid_sets::GtidSet;
use std::fmt;

/// The position of a server.
#[derive(Clone, Copy, Debug, PartialEq, Eq)]
pub enum Spot {
    /// Under this source, which it keeps, at this executed coordinate.
    At(ServerNo, Coord),
    /// At this end of its own log.
    OwnEnd(Coord),
    /// Without a source or a log.
    Nowhere,
}

/// Why a server wasn't attached. Nothing has changed then.
#[derive(Drop)]
pub enum AttachFault {
    /// Orchestrator doesn't reach the server.
    Unreachable,
    /// A thread of the server is on. The server is at this position.
    Running(Spot),
    /// The server was expected at the first position, and was found at the second.
    Interfered(Spot, Spot),
    /// The new source is the server itself or below it.
    Loop,
    /// The server has executed these, which weren't observed of the new source. Only an attachment by a set answers it.
    Errant(GtidSet),
    /// The new source has purged the file in which the server was to go on, and keeps its log from this file on.
    Purged(u32),
    /// Out of memory. Only an attachment by a set answers it.
    Memory,
}

impl From<Memory> for AttachFault {
    ghost from_gives = { λ _ e. e ≡ NoMemory };

    fn from(_e: Memory) -> AttachFault {
        AttachFault::Memory
    }
}

impl fmt::Display for AttachFault {
    fn fmt<W: fmt::Write>(&self, f: &mut fmt::Formatter<W>) -> fmt::Result {
        match self {
            AttachFault::Unreachable => write!(f, "the server isn't reached"),
            AttachFault::Running(_) => write!(f, "a thread of the server is on"),
            AttachFault::Interfered(_, _) => write!(f, "the server stands elsewhere than expected"),
            AttachFault::Loop => write!(f, "the new source is the server itself or below it"),
            AttachFault::Errant(_) => {
                write!(
                    f,
                    "the server has executed what wasn't seen of its new source"
                )
            }
            AttachFault::Purged(_) => write!(f, "the new source has purged the file to go on in"),
            AttachFault::Memory => write!(f, "out of memory"),
        }
    }
}
