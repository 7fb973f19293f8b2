//! The analysis of a server.

ghost use Rattle.std.specs.Prelude.{◌≡◌};
ghost use Rattle.orch_base.specs.Words.{code_text};

/// An analysis, by orchestrator's names (orchestrator's documentation, "Failure detection scenarios").
#[derive(Clone, Copy, Debug, PartialEq, Eq)]
pub enum Code {
    /// A valid master whose one replica isn't valid.
    MasterSingleReplicaDead,
    /// A valid master whose one replica is valid and doesn't replicate.
    MasterSingleReplicaNotReplicating,
    /// A valid master of two or more replicas, all valid, none replicating.
    AllMasterReplicasNotReplicating,
    /// A valid master of two or more replicas, not all valid, none replicating.
    AllMasterReplicasNotReplicatingOrDead,
    /// A master that isn't valid and has no replica.
    DeadMasterWithoutReplicas,
    /// A master that isn't valid, and none of its replicas is.
    DeadMasterAndReplicas,
    /// A master that isn't valid; all replicas are, and none replicates.
    DeadMaster,
    /// A master that isn't valid; some replicas are, and none replicates.
    DeadMasterAndSomeReplicas,
    /// A master that isn't valid; some replicas replicate, all of these with lag.
    UnreachableMasterWithLaggingReplicas,
    /// A master that isn't valid; some replicas replicate, not all of these with lag.
    UnreachableMaster,
    /// A valid intermediate master, none of whose replicas replicates.
    AllIntermediateMasterReplicasNotReplicating,
    /// An intermediate master that isn't valid, and none of its replicas is.
    DeadIntermediateMasterAndReplicas,
    /// An intermediate master that isn't valid; its one replica is, and doesn't replicate.
    DeadIntermediateMasterWithSingleReplica,
    /// An intermediate master that isn't valid; its two or more replicas all are, and none replicates.
    DeadIntermediateMaster,
    /// An intermediate master that isn't valid; some replicas are, and none replicates.
    DeadIntermediateMasterAndSomeReplicas,
    /// An intermediate master that isn't valid; some replicas replicate, all of these with lag.
    UnreachableIntermediateMasterWithLaggingReplicas,
    /// An intermediate master that isn't valid; some replicas replicate, not all of these with lag.
    UnreachableIntermediateMaster,
    /// None of these.
    NoProblem,
}

impl Code {
    /// Orchestrator's name for it.
    pub fn word(self) -> &'static str
        ensures { result.now ≡ code_text self }
    {
        match self {
            Code::MasterSingleReplicaDead => "MasterSingleReplicaDead",
            Code::MasterSingleReplicaNotReplicating => "MasterSingleReplicaNotReplicating",
            Code::AllMasterReplicasNotReplicating => "AllMasterReplicasNotReplicating",
            Code::AllMasterReplicasNotReplicatingOrDead => "AllMasterReplicasNotReplicatingOrDead",
            Code::DeadMasterWithoutReplicas => "DeadMasterWithoutReplicas",
            Code::DeadMasterAndReplicas => "DeadMasterAndReplicas",
            Code::DeadMaster => "DeadMaster",
            Code::DeadMasterAndSomeReplicas => "DeadMasterAndSomeReplicas",
            Code::UnreachableMasterWithLaggingReplicas => "UnreachableMasterWithLaggingReplicas",
            Code::UnreachableMaster => "UnreachableMaster",
            Code::AllIntermediateMasterReplicasNotReplicating =>
                "AllIntermediateMasterReplicasNotReplicating",
            Code::DeadIntermediateMasterAndReplicas => "DeadIntermediateMasterAndReplicas",
            Code::DeadIntermediateMasterWithSingleReplica =>
                "DeadIntermediateMasterWithSingleReplica",
            Code::DeadIntermediateMaster => "DeadIntermediateMaster",
            Code::DeadIntermediateMasterAndSomeReplicas => "DeadIntermediateMasterAndSomeReplicas",
            Code::UnreachableIntermediateMasterWithLaggingReplicas =>
                "UnreachableIntermediateMasterWithLaggingReplicas",
            Code::UnreachableIntermediateMaster => "UnreachableIntermediateMaster",
            Code::NoProblem => "NoProblem",
        }
    }
}
