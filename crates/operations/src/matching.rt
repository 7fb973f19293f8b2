//! How the logs of servers match (Pseudo-GTID).

use crate::binlog_coords_items::Coord;
use crate::orch_base::ServerNo;
use crate::server_words_items::Spot;

/// Why the log of a server doesn't match another's.
#[derive(Clone, Copy, Debug, PartialEq, Eq)]
pub enum MatchFault {
    /// This server isn't reached: the first of the two that isn't.
    Unreachable(ServerNo),
    /// The first server's log keeps no mark, or the second's doesn't keep the last one of it.
    NoMark,
    /// This entry of the first server, counted from 1, is the first after the mark for which the second has none in its
    /// place, or a different one.
    Mismatch(u64),
}

/// That the log of a server matches another's.
#[derive(Clone, Copy, Debug)]
pub struct Match {
    /// The server.
    pub no: ServerNo,
    /// The one whose log its log matches.
    pub to: ServerNo,
    /// The server's position.
    pub spot: Spot,
    /// The end of all that it had executed, in the other's log.
    pub at: Coord,
}
