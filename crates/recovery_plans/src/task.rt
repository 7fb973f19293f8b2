//! What a recovery is still to do.

use crate::binlog_coords_items::Coord;
use crate::instance_keeper_items::Bridge;
use crate::orch_base::ServerNo;

/// How a replica goes below its new source.
#[derive(Clone, Copy, Debug, PartialEq, Eq)]
pub enum Way {
    /// From the executed coordinate of the bridge, below the bridge's server.
    Down(Bridge),
    /// From the own coordinate of the bridge, below the bridge's source.
    Up(Bridge),
    /// By GTIDs, below this server, which was read.
    Auto {
        to: ServerNo,
        /// How far the replica has executed the log of its source so far.
        exec: Coord,
    },
    /// By a match of their logs, below this server.
    Match {
        to: ServerNo,
        /// How far the replica has executed the log of its source so far.
        exec: Coord,
        /// Each transaction is a mark whose number is divisible by this.
        every: u64,
    },
}

/// A part of a recovery, in the order in which they are done. A decision has no operation of its own and takes no turn.
#[derive(Clone, Copy, Debug, PartialEq, Eq)]
pub enum Task {
    /// The successor is read.
    Reading(ServerNo),
    /// A replica is stopped once it has executed what it has received.
    Draining(ServerNo),
    /// A decision: which replica is promoted, and which of the others go below it.
    Choosing,
    /// A decision: how the next of the drained replicas goes below the successor.
    Handing,
    /// A replica goes below its new source, and is started.
    Moving(ServerNo, Way),
    /// A decision: what is done with the lost.
    Sorting,
    /// A lost replica is detached.
    Expelling(ServerNo),
    /// A lost replica is started.
    Releasing(ServerNo),
    /// A replica goes to the position at which the designated one stopped, and below it.
    Trailing(ServerNo),
    /// The designated replica takes its master's place.
    Yielding,
}
