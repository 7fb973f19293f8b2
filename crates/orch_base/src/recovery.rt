//! What is recovered, and how it ends (orchestrator's documentation, "Topology recovery").

ghost use Rattle.std.specs.Prelude.{◌≡◌};
ghost use Rattle.orch_base.specs.Words.{cause_name_text, kind_text};

use crate::server::ServerNo;

/// What is recovered.
#[derive(Clone, Copy, Debug, PartialEq, Eq)]
pub enum Kind {
    /// A master that failed.
    Master,
    /// An intermediate master that failed.
    Intermediate,
    /// A master that is replaced as planned.
    Takeover,
}

impl Kind {
    /// Its word.
    pub fn word(self) -> &'static str
        ensures { result.now ≡ kind_text self }
    {
        match self {
            Kind::Master => "master",
            Kind::Intermediate => "intermediate",
            Kind::Takeover => "takeover",
        }
    }
}

/// The name of a cause that ends a recovery.
#[derive(Clone, Copy, Debug, PartialEq, Eq)]
pub enum CauseName {
    /// A server wasn't reached.
    Unreachable,
    /// The last wait was spent.
    WaitSpent,
    /// A server replicates from elsewhere than it was seen to.
    Interfered,
    /// A server's threads run.
    Running,
    /// The server would be below itself.
    Loop,
    /// The server has transactions that its new source hasn't.
    Errant,
    /// A replica has another source.
    Moved,
    /// The server that had failed was reached.
    Reachable,
    /// No replica may be promoted.
    NoCandidate,
    /// The new source has purged the file that a server was to go on in.
    Purged,
    /// The logs have no unique entry in common by which they could be matched.
    NoMark,
    /// The logs differ after the unique entry by which they were matched.
    Mismatch,
    /// A hook that ran before the recovery answered that it isn't to go on.
    HookFailed,
}

impl CauseName {
    /// Its word.
    pub fn word(self) -> &'static str
        ensures { result.now ≡ cause_name_text self }
    {
        match self {
            CauseName::Unreachable => "Unreachable",
            CauseName::WaitSpent => "WaitSpent",
            CauseName::Interfered => "Interfered",
            CauseName::Running => "Running",
            CauseName::Loop => "Loop",
            CauseName::Errant => "Errant",
            CauseName::Moved => "Moved",
            CauseName::Reachable => "Reachable",
            CauseName::NoCandidate => "NoCandidate",
            CauseName::Purged => "Purged",
            CauseName::NoMark => "NoMark",
            CauseName::Mismatch => "Mismatch",
            CauseName::HookFailed => "HookFailed",
        }
    }
}

/// How a recovery ended.
#[derive(Clone, Copy, Debug, PartialEq, Eq)]
pub enum Ending {
    /// It hasn't ended.
    Unended,
    /// This server was promoted.
    Promoted(ServerNo),
    /// It failed by this cause.
    Failed(CauseName),
    /// Orchestrator was restarted meanwhile.
    Interrupted,
}
