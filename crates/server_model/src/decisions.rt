//! What a receiver and an applier are to do next.

use crate::binlog_coords_items::{Coord, Next};
use crate::orch_base::Txn;

/// What a receiver is to do next.
#[derive(Clone, Copy, Debug, PartialEq, Eq)]
pub enum FetchStep {
    Halt,
    Unlinked,
    /// To stop: the source has purged the file that is to be read, and keeps its log from this file on.
    Refuse(u32),
    /// To take what follows in the source's log.
    Take(Next),
}

/// What an applier is to do next.
#[derive(Clone, Copy, Debug, PartialEq, Eq)]
pub enum ApplyStep {
    Halt,
    ForgetUntil,
    Idle,
    Pass(Coord),
    Skip(Coord),
    NoRoom,
    Execute(Txn, Coord),
}
