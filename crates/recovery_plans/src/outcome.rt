//! What becomes of replicas.

use crate::Why;
use crate::binlog_coords_items::Coord;
use crate::orch_base::ServerNo;

/// A replica that was stopped below its source, as it was seen then.
#[derive(Clone, Copy, Debug, PartialEq, Eq)]
pub struct Stopped {
    /// The replica.
    pub no: ServerNo,
    /// How far it has executed its source's log.
    pub exec: Coord,
    /// The end of its own binary log: none if it doesn't log.
    pub own_end: Option<Coord>,
}

/// A replica and the source below which it was put.
#[derive(Clone, Copy, Debug, PartialEq, Eq)]
pub struct Follower {
    /// The replica.
    pub no: ServerNo,
    /// Its source.
    pub source: ServerNo,
}

/// A replica that isn't below the new source.
#[derive(Clone, Copy, Debug, PartialEq, Eq)]
pub struct LostReplica {
    /// The replica.
    pub no: ServerNo,
    /// Why it was left.
    pub why: Why,
    /// Whether it was detached from its source.
    pub detached: bool,
}

/// What a recovery comes to.
#[derive(Drop)]
pub struct Outcome {
    /// The server that is promoted, or below which the others go: none if there is none.
    pub promoted: Option<ServerNo>,
    /// Who follows, in the order in which they came below their sources.
    pub followers: Vec<Follower>,
    /// Who is lost, in the order in which that was decided.
    pub lost: Vec<LostReplica>,
}
