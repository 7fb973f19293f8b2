//! One server as a scenario gives it.

ghost use Rattle.std.specs.Prelude.{◌≡◌, ◌↔◌, IfOk, IsTrue};

use crate::orch_base::{Copied, Memory, Same, ServerNo, Settings};
use crate::{Counts, Parts};
use binlog_coords::Coord;
use std::alloc::Global;

/// A server as a scenario gives it. The fields from `executed` to `until` speak of a server with a source.
pub struct ServerInit {
    pub settings: Settings,
    /// Whether the server refuses ordinary clients' writes.
    pub read_only: bool,
    pub up: bool,
    /// Whether orchestrator reaches the server.
    pub desk: bool,
    /// Whether the server reaches its source.
    pub feed: bool,
    /// What a server without a source has executed, if the scenario lists it.
    pub history: Option<Parts>,
    pub source: Option<ServerNo>,
    /// How many of its source's transactions the server has executed, from the first on.
    pub executed: u64,
    /// The executed coordinate in the source's log. If it isn't given, the end of what was executed.
    pub at: Option<Coord>,
    /// The read coordinate. If it isn't given, the executed one.
    pub read: Option<Coord>,
    /// Whether the receiver is on.
    pub io: bool,
    /// Whether the applier is on.
    pub sql: bool,
    /// Whether the server finds its place by GTIDs (SOURCE_AUTO_POSITION).
    pub auto: bool,
    /// Whether the server keeps its source and doesn't replicate from it.
    pub detached: bool,
    /// How far the applier is to go before it stops. It needs no place in a log.
    pub until: Option<Coord>,
    /// After how many of its transactions FLUSH BINARY LOGS was called, in rising or equal order.
    pub flushes: Counts,
    /// The first file that its binary log keeps: those before it are purged. 1 to 4,294,967,295; 1 without a log.
    pub purged: u32,
}

impl Drop for ServerInit {
    fn drop(self) {
        let ServerInit {
            settings: _settings,
            read_only: _,
            up: _,
            desk: _,
            feed: _,
            history: _history,
            source: _,
            executed: _,
            at: _,
            read: _,
            io: _,
            sql: _,
            auto: _,
            detached: _,
            until: _,
            flushes: _flushes,
            purged: _,
        } = self;
    }
}

// The same history once more, if there is one.
fn copy_history(alloc: Global, history: &Option<Parts>) -> Result<Option<Parts>, Memory>
    ensures { IfOk result (λ h. h ≡ history.now) }
{
    match history {
        Some(parts) => Ok(Some(parts.copy(alloc)?)),
        None => Ok(None),
    }
}

impl ServerInit {
    ghost use Rattle.std.specs.Prelude.{◌≡◌, ◌↔◌, IfOk, IsTrue};
    ghost use Rattle.openings.specs.SameInits.{IsSameServer, IsSameReplica};

    // Whether what doesn't speak of a source is equal.
    fn same_server(&self, other: &ServerInit) -> bool
        ensures { IsTrue result ↔ IsSameServer self.now other.now }
    {
        self.settings.is_same(&other.settings)
            && self.history.is_same(&other.history)
            && (self.flushes.is_same(&other.flushes) && self.purged == other.purged)
            && (self.read_only == other.read_only && self.up == other.up)
            && (self.desk == other.desk && self.feed == other.feed)
    }

    // Whether what speaks of a source is equal.
    fn same_replica(&self, other: &ServerInit) -> bool
        ensures { IsTrue result ↔ IsSameReplica self.now other.now }
    {
        (self.source == other.source && self.executed == other.executed)
            && (self.at == other.at && self.read == other.read && self.until == other.until)
            && (self.io == other.io && self.sql == other.sql)
            && (self.auto == other.auto && self.detached == other.detached)
    }
}

impl Same for ServerInit {
    fn is_same(&self, other: &ServerInit) -> bool {
        self.same_server(other) && self.same_replica(other)
    }
}

impl Copied for ServerInit {
    fn copy(&self, alloc: Global) -> Result<ServerInit, Memory> {
        Ok(ServerInit {
            settings: self.settings.copy(alloc)?,
            read_only: self.read_only,
            up: self.up,
            desk: self.desk,
            feed: self.feed,
            history: copy_history(alloc, &self.history)?,
            source: self.source,
            executed: self.executed,
            at: self.at,
            read: self.read,
            io: self.io,
            sql: self.sql,
            auto: self.auto,
            detached: self.detached,
            until: self.until,
            flushes: self.flushes.copy(alloc)?,
            purged: self.purged,
        })
    }
}
