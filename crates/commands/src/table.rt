//! The table of commands: what each is, in one place.

ghost use Rattle.std.specs.Prelude.{◌≡◌};
ghost use Rattle.commands.specs.Table.{row};
ghost use Rattle.commands.specs.declared.route.Planner.TheVariants as planner;
ghost use Rattle.commands.specs.declared.route.Route.TheVariants as route;

use crate::arguments::Arguments::{
    self, AnyServer, Destination, Downtime, Instance, Nothing, OptionalDestination, Pattern, Rule,
};
use crate::kinds::{CoordsCommand as Coords, GtidCommand, MatchCommand, PathCommand};
use crate::name::CommandName;
use crate::route::Route::{self, Discovers, Forgets, Recovers, TakesOver};
use crate::route::{Decision, Planner, Question};

/// What a command is.
#[derive(Clone, Copy)]
pub(crate) struct Row {
    pub(crate) word: &'static str,
    pub(crate) arguments: Arguments,
    pub(crate) route: Route,
}

fn listed(word: &'static str, arguments: Arguments, route: Route) -> Row
    ensures word { result.word.now ≡ word.now }
    ensures arguments { result.arguments ≡ arguments }
    ensures route { result.route ≡ route }
{
    Row {
        word,
        arguments,
        route,
    }
}

fn asks(word: &'static str, arguments: Arguments, what: Question) -> Row
    ensures word { result.word.now ≡ word.now }
    ensures arguments { result.arguments ≡ arguments }
    ensures route { result.route ≡ route.Asks what }
{
    listed(word, arguments, Route::Asks(what))
}

fn decides(word: &'static str, arguments: Arguments, what: Decision) -> Row
    ensures word { result.word.now ≡ word.now }
    ensures arguments { result.arguments ≡ arguments }
    ensures route { result.route ≡ route.Decides what }
{
    listed(word, arguments, Route::Decides(what))
}

fn begins(word: &'static str, arguments: Arguments, by: Planner) -> Row
    ensures word { result.word.now ≡ word.now }
    ensures arguments { result.arguments ≡ arguments }
    ensures route { result.route ≡ route.Begins by }
{
    listed(word, arguments, Route::Begins(by))
}

fn coords(word: &'static str, arguments: Arguments, kind: Coords) -> Row
    ensures word { result.word.now ≡ word.now }
    ensures arguments { result.arguments ≡ arguments }
    ensures route { result.route ≡ route.Begins (planner.Coordinates kind) }
{
    begins(word, arguments, Planner::Coordinates(kind))
}

fn gtids(word: &'static str, arguments: Arguments, kind: GtidCommand) -> Row
    ensures word { result.word.now ≡ word.now }
    ensures arguments { result.arguments ≡ arguments }
    ensures route { result.route ≡ route.Begins (planner.Gtids kind) }
{
    begins(word, arguments, Planner::Gtids(kind))
}

impl CommandName {
    /// What the command is.
    pub(crate) fn row(self) -> Row
        ensures word { result.word.now ≡ (row self).word }
        ensures arguments { result.arguments ≡ (row self).arguments }
        ensures route { result.route ≡ (row self).route }
    {
        match self {
            Self::MoveUp => coords("move-up", Instance, Coords::MoveUp),
            Self::MoveUpReplicas => coords("move-up-replicas", Instance, Coords::MoveUpReplicas),
            Self::MoveBelow => coords("move-below", Destination, Coords::MoveBelow),
            Self::Repoint => coords("repoint", OptionalDestination, Coords::Repoint),
            Self::TakeSiblings => coords("take-siblings", Instance, Coords::TakeSiblings),
            Self::TakeMaster => coords("take-master", Instance, Coords::TakeMaster),
            Self::MoveGtid => gtids("move-gtid", Destination, GtidCommand::MoveGtid),
            Self::MoveReplicasGtid => gtids(
                "move-replicas-gtid",
                Destination,
                GtidCommand::MoveReplicasGtid,
            ),
            Self::EnableGtid => gtids("enable-gtid", Instance, GtidCommand::EnableGtid),
            Self::DisableGtid => gtids("disable-gtid", Instance, GtidCommand::DisableGtid),
            Self::Relocate => begins(
                "relocate",
                Destination,
                Planner::Paths(PathCommand::Relocate),
            ),
            Self::RelocateReplicas => begins(
                "relocate-replicas",
                Destination,
                Planner::Paths(PathCommand::RelocateReplicas),
            ),
            Self::RegroupReplicas => begins(
                "regroup-replicas",
                Instance,
                Planner::Paths(PathCommand::RegroupReplicas),
            ),
            Self::Match => begins("match", Destination, Planner::Matches(MatchCommand::Match)),
            Self::MatchUp => begins(
                "match-up",
                Instance,
                Planner::Matches(MatchCommand::MatchUp),
            ),
            Self::MatchReplicas => begins(
                "match-replicas",
                Destination,
                Planner::Matches(MatchCommand::MatchReplicas),
            ),
            Self::RegroupReplicasPgtid => begins(
                "regroup-replicas-pgtid",
                Instance,
                Planner::Matches(MatchCommand::RegroupReplicas),
            ),
            Self::DetachReplica => coords("detach-replica", Instance, Coords::DetachReplica),
            Self::ReattachReplica => coords("reattach-replica", Instance, Coords::ReattachReplica),
            Self::ResetReplica => coords("reset-replica", Instance, Coords::ResetReplica),
            Self::StartReplica => coords("start-replica", Instance, Coords::StartReplica),
            Self::StopReplica => coords("stop-replica", Instance, Coords::StopReplica),
            Self::RestartReplica => coords("restart-replica", Instance, Coords::RestartReplica),
            Self::SetReadOnly => coords("set-read-only", Instance, Coords::SetReadOnly),
            Self::SetWriteable => coords("set-writeable", Instance, Coords::SetWriteable),
            Self::Discover => listed("discover", AnyServer, Discovers),
            Self::Forget => listed("forget", Instance, Forgets),
            Self::BeginDowntime => decides("begin-downtime", Downtime, Decision::BeginDowntime),
            Self::EndDowntime => decides("end-downtime", Instance, Decision::EndDowntime),
            Self::RegisterCandidate => decides(
                "register-candidate",
                Rule,
                Decision::RegisterCandidate,
            ),
            Self::Recover => listed("recover", Instance, Recovers),
            Self::GracefulMasterTakeover => listed(
                "graceful-master-takeover",
                Destination,
                TakesOver,
            ),
            Self::AckClusterRecoveries => decides(
                "ack-cluster-recoveries",
                Instance,
                Decision::AckRecoveries,
            ),
            Self::Topology => asks("topology", Instance, Question::Topology),
            Self::WhichMaster => asks("which-master", Instance, Question::WhichMaster),
            Self::WhichReplicas => asks("which-replicas", Instance, Question::WhichReplicas),
            Self::WhichCluster => asks("which-cluster", Instance, Question::WhichCluster),
            Self::WhichClusterInstances => asks(
                "which-cluster-instances",
                Instance,
                Question::WhichClusterInstances,
            ),
            Self::Clusters => asks("clusters", Nothing, Question::Clusters),
            Self::AllInstances => asks("all-instances", Nothing, Question::AllInstances),
            Self::Find => asks("find", Pattern, Question::Find),
            Self::ReplicationAnalysis => asks("replication-analysis", Nothing, Question::Analysis),
            Self::AuditRecoveries => asks("audit-recoveries", Nothing, Question::Recoveries),
            Self::DisableGlobalRecoveries => decides(
                "disable-global-recoveries",
                Nothing,
                Decision::DisableRecoveries,
            ),
            Self::EnableGlobalRecoveries => decides(
                "enable-global-recoveries",
                Nothing,
                Decision::EnableRecoveries,
            ),
            Self::CheckGlobalRecoveries => asks(
                "check-global-recoveries",
                Nothing,
                Question::Switch,
            ),
        }
    }
}
