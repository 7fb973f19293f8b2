//! The commands that begin jobs, by the permission and the plan that their jobs go by.

/// A command that moves or changes servers by coordinates (orchestrator's documentation, "Executing via command line").
#[derive(Clone, Copy, Debug, PartialEq, Eq)]
pub enum CoordsCommand {
    /// `move-up`: a replica goes up, to its source's source.
    MoveUp,
    /// `move-up-replicas`: the replicas of a server go up, to its source.
    MoveUpReplicas,
    /// `move-below`: a replica goes below its sibling.
    MoveBelow,
    /// `repoint`: a replica is pointed at a source anew, by GTIDs if they are used and it finds its place by them.
    Repoint,
    /// `take-siblings`: the siblings of a replica go below it.
    TakeSiblings,
    /// `take-master`: a replica and its source change places.
    TakeMaster,
    /// `detach-replica`: a replica is detached from its source.
    DetachReplica,
    /// `reattach-replica`: a detached replica goes back to its source.
    ReattachReplica,
    /// `reset-replica`: a server forgets its source.
    ResetReplica,
    /// `start-replica`: a replica's threads are started.
    StartReplica,
    /// `stop-replica`: a replica's threads are stopped.
    StopReplica,
    /// `restart-replica`: a replica's threads are stopped and started.
    RestartReplica,
    /// `set-read-only`: a server refuses clients' writes.
    SetReadOnly,
    /// `set-writeable`: a server takes clients' writes.
    SetWriteable,
}

/// A command that moves servers by GTIDs, or has one find its place by them (orchestrator's documentation, "Executing
/// via command line").
#[derive(Clone, Copy, Debug, PartialEq, Eq)]
pub enum GtidCommand {
    /// `move-gtid`: a server goes below another.
    MoveGtid,
    /// `move-replicas-gtid`: the replicas of a server go below another.
    MoveReplicasGtid,
    /// `enable-gtid`: a replica finds its place under its source by GTIDs.
    EnableGtid,
    /// `disable-gtid`: a replica goes on under its source by coordinates.
    DisableGtid,
}

/// A command that takes servers below another one by whatever path, or sets a server's replicas in order
/// (orchestrator's documentation, "Executing via command line").
#[derive(Clone, Copy, Debug, PartialEq, Eq)]
pub enum PathCommand {
    /// `relocate`: a server goes below another, by GTIDs if they are used, else by its path of moves by coordinates.
    Relocate,
    /// `relocate-replicas`: the replicas of a server go below another, each by its path.
    RelocateReplicas,
    /// `regroup-replicas`: the replicas of a server go below the best of them.
    RegroupReplicas,
}

/// A command that takes servers below another one if their logs match, or sets a server's replicas in order so
/// (orchestrator's documentation, "Pseudo GTID").
#[derive(Clone, Copy, Debug, PartialEq, Eq)]
pub enum MatchCommand {
    /// `match`: a server goes below another.
    Match,
    /// `match-up`: a replica goes up, to its source's source.
    MatchUp,
    /// `match-replicas`: the replicas of a server go below another.
    MatchReplicas,
    /// `regroup-replicas-pgtid`: the replicas of a server go below the best of them.
    RegroupReplicas,
}
