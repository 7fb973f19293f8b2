//! What a recovery is doing.

use crate::Way;
use crate::commands::Lines;
use crate::instance_keeper_items::Bridge;
use crate::orch_base::ServerNo;

/// The part of a task that is being done. A stage ends with the operation that changes a source, or whether writes are
/// taken. So each stage determines the state of its server.
#[derive(Drop)]
pub enum Stage {
    /// Nothing: the next task is due.
    Idle,
    /// The failed server is read, which ends the recovery if it is reached.
    Check,
    /// The successor is read.
    Read(ServerNo),
    /// A replica is stopped; it was read then.
    Drain(ServerNo),
    Judged(ServerNo),
    /// A replica goes below its new source. It is below this one, and is to start.
    Move(ServerNo, Way),
    Join(ServerNo, ServerNo),
    /// A lost replica is detached; it is.
    Expel(ServerNo),
    Expelled(ServerNo),
    /// A lost replica is started, if it is reached.
    Release(ServerNo),
    /// The second, a better one, comes to the end of the promoted one's log; it has no source; the promoted one is
    /// below it.
    Level(ServerNo, ServerNo),
    Swap(ServerNo, ServerNo),
    Swapped(ServerNo, ServerNo),
    /// The second goes back below the promoted one. It is there, and is to start.
    Return(ServerNo, ServerNo),
    Resume(ServerNo, ServerNo),
    /// The promoted one loses its source; it has none, and is to take writes; it takes them.
    Crown(ServerNo),
    Open(ServerNo),
    Opened(ServerNo),
    /// A master that is to give its place to a replica is read, and must have no source; it refuses writes; the replica
    /// comes to the end of its log.
    Meet(ServerNo, ServerNo),
    Shut(ServerNo, ServerNo),
    Gather(ServerNo, ServerNo),
    /// A replica is read, or it was. It goes to the position at which the designated one stopped, by the bridge that
    /// was seen of that one. It is stopped, and was read then.
    Look(ServerNo, Bridge),
    Looked(ServerNo, Bridge),
    Trail(ServerNo, Bridge),
    Halted(ServerNo, Bridge),
    /// The designated replica loses its source; it has none; the master is below it.
    Yield(ServerNo, ServerNo),
    Switch(ServerNo, ServerNo),
    Switched(ServerNo, ServerNo),
    /// Nothing more is changed. These are the lines.
    Close(Lines),
}
