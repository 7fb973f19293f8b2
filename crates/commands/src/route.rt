//! What a command does.

ghost use Rattle.std.specs.Prelude.{◌≡◌};
ghost use Rattle.commands.specs.Routes.{planner_of, route_of};

use crate::kinds::{CoordsCommand, GtidCommand, MatchCommand, PathCommand};
use crate::name::CommandName;

/// What a command asks the book or the audit.
#[derive(Clone, Copy, Debug, PartialEq, Eq)]
pub enum Question {
    /// `topology`: the trees of an instance's cluster.
    Topology,
    /// `which-master`: an instance's source.
    WhichMaster,
    /// `which-replicas`: an instance's replicas.
    WhichReplicas,
    /// `which-cluster`: an instance's cluster.
    WhichCluster,
    /// `which-cluster-instances`: the instances of an instance's cluster.
    WhichClusterInstances,
    /// `clusters`: all clusters.
    Clusters,
    /// `all-instances`: all instances.
    AllInstances,
    /// `find`: the instances whose names have a pattern.
    Find,
    /// `replication-analysis`: what is wrong with the instances.
    Analysis,
    /// `audit-recoveries`: the recoveries that were begun.
    Recoveries,
    /// `check-global-recoveries`: whether recoveries are enabled.
    Switch,
}

/// What an operator decides.
#[derive(Clone, Copy, Debug, PartialEq, Eq)]
pub enum Decision {
    /// `begin-downtime`: an instance's analysis begins no recovery for some time.
    BeginDowntime,
    /// `end-downtime`: it may again.
    EndDowntime,
    /// `register-candidate`: how an instance is to be promoted.
    RegisterCandidate,
    /// `disable-global-recoveries`: no recovery begins by itself.
    DisableRecoveries,
    /// `enable-global-recoveries`: recoveries may.
    EnableRecoveries,
    /// `ack-cluster-recoveries`: a cluster's recoveries are acknowledged, so that they block no other.
    AckRecoveries,
}

/// Which commands' permission and plan a job goes by, and which of them the command is.
#[derive(Clone, Copy, Debug, PartialEq, Eq)]
pub enum Planner {
    /// The commands that move or change servers by binary log coordinates.
    Coordinates(CoordsCommand),
    /// The commands that move servers by GTIDs, or have them find their places by them.
    Gtids(GtidCommand),
    /// The commands that take servers below another one by whatever path, or replicas of one below the best of them.
    Paths(PathCommand),
    /// The commands that do so if logs match.
    Matches(MatchCommand),
}

/// What a command does.
#[derive(Clone, Copy, Debug, PartialEq, Eq)]
pub enum Route {
    /// Reads a server, which becomes an instance.
    Discovers,
    /// Removes an instance.
    Forgets,
    /// Asks the book or the audit, and changes nothing.
    Asks(Question),
    /// Keeps what an operator decides.
    Decides(Decision),
    /// Begins a job.
    Begins(Planner),
    /// Begins the recovery of a server.
    Recovers,
    /// Begins a takeover of a master's place.
    TakesOver,
}

impl Route {
    /// What the command does.
    pub fn of(name: CommandName) -> Route
        ensures { result ≡ route_of name }
    {
        name.row().route
    }

    /// Which permission and plan the job of the command goes by: none if it begins no job, or a recovery.
    pub fn planner(self) -> Option<Planner>
        ensures { result ≡ planner_of self }
    {
        match self {
            Route::Begins(planner) => Some(planner),
            Route::Discovers
            | Route::Forgets
            | Route::Asks(_)
            | Route::Decides(_)
            | Route::Recovers
            | Route::TakesOver => None,
        }
    }
}
