//! Replicas that were drained.

use crate::binlog_coords_items::Coord;
use crate::orch_base::{Rule, ServerNo};

/// A replica of a failed server that has executed what it had received, as it was seen then.
#[derive(Clone, Copy, Debug, PartialEq, Eq)]
pub struct Drained {
    /// The replica.
    pub no: ServerNo,
    /// How far it has executed the failed server's log.
    pub exec: Coord,
    /// The end of its own binary log: none if it doesn't log.
    pub own_end: Option<Coord>,
    /// Its rule of promotion.
    pub rule: Rule,
    /// Whether it writes a binary log.
    pub logs: bool,
    /// Whether it is in the failed server's data centre.
    pub near: bool,
}
