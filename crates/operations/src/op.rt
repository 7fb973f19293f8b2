//! What a job does, one operation a turn.

use crate::orch_base::ServerNo;
use commands::Lines;

/// How far a replica is to go in its source's log.
#[derive(Clone, Copy, Debug, PartialEq, Eq)]
pub enum Aim {
    /// To the end of this server's own binary log, as the job saw it last.
    EndOf(ServerNo),
    /// To the executed coordinate of this server, as the job saw it last.
    ExecOf(ServerNo),
}

/// A change of source by one status of a replica: the end of its own binary log and its executed coordinate are one
/// point of two logs.
#[derive(Clone, Copy, Debug, PartialEq, Eq)]
pub enum Crossing {
    /// The first server, which is at the own end of the second, goes to the second's source.
    Up,
    /// The first server goes below the second, which has the same source and is at the same position.
    Down,
    /// The first server, the source of the second, goes below the second.
    About,
    /// The first server goes back below the second, which is its source.
    Back,
}

/// An operation of a plan. An exchange that doesn't reach its server fails the job.
#[derive(Drop)]
pub enum Op {
    /// Reads the server's status, for the book too. If a source is named, the job fails unless the server is attached
    /// to it.
    Status(ServerNo, Option<ServerNo>),
    /// Stops both threads of the server.
    Stop(ServerNo),
    /// Stops the server's receiver.
    StopReceiver(ServerNo),
    /// Starts both threads of the server.
    Start(ServerNo),
    /// Takes the server's source away.
    Reset(ServerNo),
    /// Detaches the server from its source, which it keeps.
    Detach(ServerNo),
    /// Attaches a detached server to its source again.
    Reattach(ServerNo),
    /// Makes the server refuse clients' writes, or take them (`read_only`).
    ReadOnly(ServerNo, bool),
    /// Starts the server; its applier is to stop at the aim. It is passed over if the server was seen at the aim or
    /// after it.
    Until(ServerNo, Aim),
    /// Waits until the server has executed up to the aim. The last wait fails the job.
    Await(ServerNo, Aim),
    /// Waits until the first server has executed all that was seen of the second. The last wait fails the job.
    AwaitSet(ServerNo, ServerNo),
    /// Waits while the server's applier is on and hasn't executed all that was read. The last wait ends it.
    Settle(ServerNo),
    /// Changes the first server's source, by what was seen of the one of the two that is the replica.
    Cross(Crossing, ServerNo, ServerNo),
    /// Attaches the server to its own source anew, by coordinates, if it was seen.
    Same(ServerNo),
    /// Attaches the first server to the second, by the GTIDs that were seen of the second.
    Auto(ServerNo, ServerNo),
    /// Matches the log of the first server with that of the second, by marks, of which each transaction is one whose
    /// number is divisible by this. The job keeps what it found.
    Match(ServerNo, ServerNo, u64),
    /// Attaches the first server to the second, by the match that was found of the two.
    CrossMatch(ServerNo, ServerNo),
    /// Ends the job with these lines.
    Finish(Lines),
}
