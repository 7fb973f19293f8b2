//! What orchestrator sees of a server in one exchange.

ghost use Rattle.std.specs.Prelude.{◌≡◌};
ghost use Rattle.server_words.specs.declared.status.StatusFault.TheVariants.{Memory as NoMemory};

use crate::orch_base::{IoState, Memory, SourceState};
use binlog_coords::Coord;
use gtid_sets::GtidSet;
use std::fmt;

/// A server as one exchange shows it (MySQL 8.0 Reference Manual, "SHOW REPLICA STATUS Statement", "SHOW BINARY LOG
/// STATUS Statement").
#[derive(Drop)]
pub struct Status {
    /// The end of its own binary log; None exactly for a server that doesn't log.
    pub own_end: Option<Coord>,
    pub source: SourceState,
    /// How far its applier has executed its source's log. For a server without a source it is the log's start.
    pub exec: Coord,
    /// How far its receiver has read its source's log. For a server without a source it is the log's start.
    pub read: Coord,
    /// Whether it finds its place by GTIDs (SOURCE_AUTO_POSITION).
    pub auto: bool,
    /// Its receiver.
    pub io: IoState,
    /// Whether its applier is on.
    pub sql: bool,
    pub read_only: bool,
    /// The first file that its own binary log keeps; 1 before any purge, and for a server that doesn't log.
    pub first: u32,
    /// The GTIDs of what it has executed (`gtid_executed`); empty if the servers don't use GTIDs.
    pub set: GtidSet,
    /// The GTIDs of what is in the purged files of its log (`gtid_purged`). It is empty if the servers don't use GTIDs,
    /// and for a server that doesn't log.
    pub purged: GtidSet,
}

impl Status {
    ghost use Rattle.std.specs.Prelude.{◌≡◌, ◌↔◌, IfOk, IsTrue, OnOk, OnErr};

    /// The same once more. `Err` means out of memory.
    #[inline(always)]
    pub fn copy(&self) -> Result<Status, Memory>
        ensures { IfOk result (λ s. s ≡ self.now) }
    {
        let set = self.set.copy()?;
        let purged = self.purged.copy()?;
        Ok(Status {
            own_end: self.own_end,
            source: self.source,
            exec: self.exec,
            read: self.read,
            auto: self.auto,
            io: self.io,
            sql: self.sql,
            read_only: self.read_only,
            set,
            first: self.first,
            purged,
        })
    }

    /// Becomes the same as the other, whose sets it shares. If memory runs out, it stays whole.
    pub fn set_to(&mut self, other: &Status) -> Result<(), Memory>
        ensures ok { OnOk result (self.new ≡ other.now) }
        ensures err { OnErr result (self.new ≡ self.old) }
    {
        let set = other.set.copy()?;
        let purged = other.purged.copy()?;
        self.set = set;
        self.purged = purged;
        self.own_end = other.own_end;
        self.source = other.source;
        self.exec = other.exec;
        self.read = other.read;
        self.auto = other.auto;
        self.io = other.io;
        self.sql = other.sql;
        self.read_only = other.read_only;
        self.first = other.first;
        Ok(())
    }

    // Whether its GTIDs are the same.
    fn has_same_sets(&self, other: &Status) -> bool
        ensures { IsTrue result
            ↔ ((self.now.set ≡ other.now.set) × (self.now.purged ≡ other.now.purged)) }
    {
        self.set.is_same(&other.set) && self.purged.is_same(&other.purged)
    }

    // Whether it replicates in the same way.
    fn has_same_source(&self, other: &Status) -> bool
        ensures { IsTrue result ↔ ((self.now.source ≡ other.now.source)
            × (self.now.exec ≡ other.now.exec) × (self.now.read ≡ other.now.read)
            × (self.now.auto ≡ other.now.auto)) }
    {
        (self.source == other.source && self.exec == other.exec)
            && (self.read == other.read && self.auto == other.auto)
    }

    // Whether its threads and flags are the same.
    fn has_same_threads(&self, other: &Status) -> bool
        ensures { IsTrue result ↔ ((self.now.io ≡ other.now.io) × (self.now.sql ≡ other.now.sql)
            × (self.now.read_only ≡ other.now.read_only)) }
    {
        self.io == other.io && self.sql == other.sql && self.read_only == other.read_only
    }

    // Whether its own log is the same.
    fn has_same_log(&self, other: &Status) -> bool
        ensures { IsTrue result
            ↔ ((self.now.own_end ≡ other.now.own_end) × (self.now.first ≡ other.now.first)) }
    {
        self.own_end == other.own_end && self.first == other.first
    }

    /// Whether the same was seen.
    pub fn is_same(&self, other: &Status) -> bool
        ensures { IsTrue result ↔ (self.now ≡ other.now) }
    {
        self.has_same_sets(other)
            && (self.has_same_log(other) && self.has_same_source(other))
            && self.has_same_threads(other)
    }
}

/// Why nothing was seen of a server.
#[derive(Clone, Copy, Debug, PartialEq, Eq)]
pub enum StatusFault {
    /// The server is down, or its link to the desk is cut.
    Unreachable,
    /// Out of memory.
    Memory,
}

impl From<Memory> for StatusFault {
    ghost from_gives = { λ _ e. e ≡ NoMemory };

    fn from(_e: Memory) -> StatusFault {
        StatusFault::Memory
    }
}

impl fmt::Display for StatusFault {
    fn fmt<W: fmt::Write>(&self, f: &mut fmt::Formatter<W>) -> fmt::Result {
        match self {
            StatusFault::Unreachable => write!(f, "the server isn't reached"),
            StatusFault::Memory => write!(f, "out of memory"),
        }
    }
}
