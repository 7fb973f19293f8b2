//! The commands' names, and what each needs.

ghost use Rattle.std.specs.Prelude.{◌≡◌, ◌↔◌, List, ℕ, Some, option_copied};
ghost use Rattle.commands.specs.Names.{name_of, needs_of, uses_of, word_of};
ghost use Rattle.commands.specs.declared.name.CommandName.{CommandName};

use crate::arguments::{Needs, Uses};

/// A command (orchestrator's documentation, "Executing via command line").
#[derive(Clone, Copy, Debug, PartialEq, Eq)]
pub enum CommandName {
    /// `move-up`: a replica goes up, to its source's source.
    MoveUp,
    /// `move-up-replicas`: all replicas of a server go up, to its source.
    MoveUpReplicas,
    /// `move-below`: a replica goes below its sibling.
    MoveBelow,
    /// `repoint`: a replica is pointed at a source anew.
    Repoint,
    /// `take-siblings`: a replica's siblings go below it.
    TakeSiblings,
    /// `take-master`: a replica takes its source's place.
    TakeMaster,
    /// `move-gtid`: a server goes below another by GTIDs.
    MoveGtid,
    /// `move-replicas-gtid`: a server's replicas go below another by GTIDs.
    MoveReplicasGtid,
    /// `enable-gtid`: a replica goes on by GTIDs.
    EnableGtid,
    /// `disable-gtid`: a replica goes on by coordinates.
    DisableGtid,
    /// `relocate`: a server goes below another in whatever way there is.
    Relocate,
    /// `relocate-replicas`: a server's replicas go below another in whatever way there is.
    RelocateReplicas,
    /// `regroup-replicas`: a server's replicas go below the one of them that is furthest on.
    RegroupReplicas,
    /// `match`: a server goes below another if their logs match.
    Match,
    /// `match-up`: a replica goes up, to its source's source, if their logs match.
    MatchUp,
    /// `match-replicas`: a server's replicas go below another if their logs match.
    MatchReplicas,
    /// `regroup-replicas-pgtid`: a server's replicas go below the one of them that is furthest on, if logs match.
    RegroupReplicasPgtid,
    /// `detach-replica`: a replica is detached from its source.
    DetachReplica,
    /// `reattach-replica`: a detached replica goes back to its source.
    ReattachReplica,
    /// `reset-replica`: a server forgets its source.
    ResetReplica,
    /// `start-replica`: a replica's threads are started.
    StartReplica,
    /// `stop-replica`: a replica's threads are stopped.
    StopReplica,
    /// `restart-replica`: a replica's threads are stopped and started.
    RestartReplica,
    /// `set-read-only`: a server refuses clients' writes.
    SetReadOnly,
    /// `set-writeable`: a server takes clients' writes.
    SetWriteable,
    /// `discover`: a server is read and becomes an instance.
    Discover,
    /// `forget`: an instance is forgotten.
    Forget,
    /// `begin-downtime`: an instance's downtime begins.
    BeginDowntime,
    /// `end-downtime`: an instance's downtime ends.
    EndDowntime,
    /// `register-candidate`: an instance is registered with a rule of promotion.
    RegisterCandidate,
    /// `recover`: a failed server's recovery begins.
    Recover,
    /// `graceful-master-takeover`: a master is replaced as planned.
    GracefulMasterTakeover,
    /// `ack-cluster-recoveries`: a cluster's recoveries are acknowledged.
    AckClusterRecoveries,
    /// `topology`: the trees of an instance's cluster.
    Topology,
    /// `which-master`: an instance's source.
    WhichMaster,
    /// `which-replicas`: an instance's replicas.
    WhichReplicas,
    /// `which-cluster`: an instance's cluster.
    WhichCluster,
    /// `which-cluster-instances`: the instances of an instance's cluster.
    WhichClusterInstances,
    /// `clusters`: all clusters.
    Clusters,
    /// `all-instances`: all instances.
    AllInstances,
    /// `find`: the instances whose names have a pattern.
    Find,
    /// `replication-analysis`: what is wrong with which instance.
    ReplicationAnalysis,
    /// `audit-recoveries`: all recoveries.
    AuditRecoveries,
    /// `disable-global-recoveries`: recoveries are disabled.
    DisableGlobalRecoveries,
    /// `enable-global-recoveries`: recoveries are enabled.
    EnableGlobalRecoveries,
    /// `check-global-recoveries`: whether recoveries are enabled.
    CheckGlobalRecoveries,
}

const NAMES: [CommandName; 46] = [
    CommandName::MoveUp,
    CommandName::MoveUpReplicas,
    CommandName::MoveBelow,
    CommandName::Repoint,
    CommandName::TakeSiblings,
    CommandName::TakeMaster,
    CommandName::MoveGtid,
    CommandName::MoveReplicasGtid,
    CommandName::EnableGtid,
    CommandName::DisableGtid,
    CommandName::Relocate,
    CommandName::RelocateReplicas,
    CommandName::RegroupReplicas,
    CommandName::Match,
    CommandName::MatchUp,
    CommandName::MatchReplicas,
    CommandName::RegroupReplicasPgtid,
    CommandName::DetachReplica,
    CommandName::ReattachReplica,
    CommandName::ResetReplica,
    CommandName::StartReplica,
    CommandName::StopReplica,
    CommandName::RestartReplica,
    CommandName::SetReadOnly,
    CommandName::SetWriteable,
    CommandName::Discover,
    CommandName::Forget,
    CommandName::BeginDowntime,
    CommandName::EndDowntime,
    CommandName::RegisterCandidate,
    CommandName::Recover,
    CommandName::GracefulMasterTakeover,
    CommandName::AckClusterRecoveries,
    CommandName::Topology,
    CommandName::WhichMaster,
    CommandName::WhichReplicas,
    CommandName::WhichCluster,
    CommandName::WhichClusterInstances,
    CommandName::Clusters,
    CommandName::AllInstances,
    CommandName::Find,
    CommandName::ReplicationAnalysis,
    CommandName::AuditRecoveries,
    CommandName::DisableGlobalRecoveries,
    CommandName::EnableGlobalRecoveries,
    CommandName::CheckGlobalRecoveries,
];

impl CommandName {
    /// The command of this word; none for any other text.
    #[tactic(auto, unfolding(crate::specs::Names::name_of))]
    pub fn read(text: &str) -> Option<CommandName>
        ensures { result ≡ name_of text.now }
    {
        NAMES.iter().find(|name| text == name.word()).copied()
    }

    /// The command's word.
    pub fn word(&self) -> &'static str
        ensures { result.now ≡ word_of self.now }
    {
        self.row().word
    }

    /// The keys that the command needs.
    pub fn needs(self) -> Needs
        ensures { result ≡ needs_of self }
    {
        self.row().arguments.needs()
    }

    /// The keys that the command uses: those that it needs. `repoint` also uses its destination if it is given, and
    /// `begin-downtime` the duration, the reason and the owner if they are given.
    pub fn uses(self) -> Uses
        ensures { result ≡ uses_of self }
    {
        self.row().arguments.uses()
    }
}
