//! What the tables print of a server.

use crate::orch_base::SourceState;
use binlog_coords::Coord;

/// A server's state except for what it has executed and logged.
#[derive(Clone, Copy, Debug, PartialEq, Eq)]
pub struct Plain {
    pub up: bool,
    /// Whether orchestrator's link to the server is joined.
    pub desk: bool,
    /// Whether the server's link to its source is joined.
    pub feed: bool,
    pub read_only: bool,
    pub source: SourceState,
    /// The executed coordinate.
    pub exec: Coord,
    /// The read coordinate.
    pub read: Coord,
    pub auto: bool,
    pub receiver: bool,
    pub applier: bool,
    pub until: Option<Coord>,
    /// The first file that its own binary log keeps; 1 before any purge, and for a server that doesn't log.
    pub first: u32,
}
