//! What a turn is to do.

use crate::binlog_coords_items::Coord;
use crate::instance_keeper_items::Observation;
use crate::orch_base::ServerNo;
use crate::server_words_items::{Ask, Spot};
use operations::{JobStep, Match, Sight};

/// What a turn does to servers and to its job.
#[derive(Drop)]
pub enum Act {
    /// The job ends, and each server in its hands is started.
    Fail,
    /// The job ends.
    End,
    /// The operation is done, and nothing changes.
    Pass,
    /// The operation is done: this was seen.
    Keep(Sight),
    /// The operation is done: this match was found.
    Found(Match),
    /// This was seen, and the operation is due again.
    Wait(Sight),
    /// The operation is done: this is asked of a server.
    Ask(ServerNo, Ask),
    /// The first server, which is at this position, goes below the second, at the coordinate.
    Attach(ServerNo, Spot, ServerNo, Coord),
    /// The first server goes below the second, by the GTIDs that were seen of it.
    Auto(ServerNo, ServerNo),
}

/// What the next turn of a job comes to. Only `Job::look` makes one.
#[derive(Drop)]
pub struct Look {
    /// Whether the job goes on, is done or failed.
    pub step: JobStep,
    /// What the turn observes for the book, if it reads a status.
    pub observation: Option<Observation>,
    /// What it does to servers and to its job.
    pub act: Act,
}
