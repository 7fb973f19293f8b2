//! What the exchanges answer.

use binlog_coords::Coord;
use std::fmt;

/// The answer to an ordinary client's write.
#[derive(Clone, Copy, Debug, PartialEq, Eq)]
pub enum WriteAnswer {
    /// The server is down.
    Down,
    /// The server is read-only.
    ReadOnly,
    /// The history has no room left.
    Full,
    /// The transaction was executed, as the server's own of this number.
    Done(u64),
}

/// The answer of a receiver that was to read one step of its source's log.
#[derive(Clone, Copy, Debug, PartialEq, Eq)]
pub enum FetchAnswer {
    /// The server is down, isn't attached, or its receiver is off.
    Stopped,
    /// The source is down, or the link to it is cut.
    NoLink,
    /// The source has purged the file that was to be read, and keeps its log from this file on. The receiver is off
    /// then.
    Purged(u32),
    /// The source's log has nothing more.
    Nothing,
    /// The receiver went on to the next file.
    Rotated(Coord),
    /// The receiver read the transaction that ends here.
    Got(Coord),
}

/// The answer of an applier that was to execute one step of its relay log.
#[derive(Clone, Copy, Debug, PartialEq, Eq)]
pub enum ApplyAnswer {
    /// The server is down, isn't attached, or its applier is off.
    Stopped,
    /// The applier had come to the position at which it was to stop, and stopped.
    AtUntil,
    /// The relay log is empty.
    Nothing,
    /// The applier went on to the source's next file.
    Rotated(Coord),
    /// The transaction that ends here was executed before.
    Skipped(Coord),
    /// The history has no room left.
    Full,
    /// The transaction that ends here was executed.
    Done(Coord),
}

/// The answer if a new file of the binary log was to begin.
#[derive(Clone, Copy, Debug, PartialEq, Eq)]
pub enum RotateAnswer {
    /// The server is down.
    Down,
    /// The server has no log.
    NotLogging,
    /// There is no room left for a file that is asked for.
    Full,
    /// The file begins here.
    Done(Coord),
}

/// The answer if files of the binary log were to be purged.
#[derive(Clone, Copy, Debug, PartialEq, Eq)]
pub enum PurgeAnswer {
    /// The server is down.
    Down,
    /// The server has no log.
    NotLogging,
    /// The log has no file of this number yet.
    NoFile,
    /// The log is kept from this file on.
    Done(u32),
}

/// Orchestrator doesn't reach the server: it is down, or its link to the desk is cut.
#[derive(Clone, Copy, Debug, PartialEq, Eq)]
pub struct Unreachable;

impl fmt::Display for Unreachable {
    fn fmt<W: fmt::Write>(&self, f: &mut fmt::Formatter<W>) -> fmt::Result {
        write!(f, "the server isn't reached")
    }
}
