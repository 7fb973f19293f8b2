//! What a job saw of servers.

use crate::binlog_coords_items::Coord;
use crate::gtid_sets::GtidSet;
use crate::orch_base::{ServerNo, SourceState};

/// A server's position, by one status.
#[derive(Drop)]
pub struct Position {
    /// The end of its own binary log; none if it doesn't log.
    pub own_end: Option<Coord>,
    pub source: SourceState,
    /// How far it had executed its source's log.
    pub exec: Coord,
    /// What it had executed, if GTIDs are used.
    pub set: GtidSet,
}

/// What a job saw of a server.
#[derive(Drop)]
pub struct Sight {
    /// The server.
    pub no: ServerNo,
    /// Its position.
    pub seen: Position,
}
