//! The lines that a command answers.

ghost use Rattle.std.specs.Prelude.{◌≡◌, ◌↔◌, IfOk, IsTrue};

use crate::binlog_coords_items::Coord;
use crate::orch_base::{
    Code, Copied, Ending, Kind, Listed, Moment, OwnedText, Rule, ServerNo, Version,
};
use crate::{Cause, Memory, Refusal};
use server_words::Spot;
use std::alloc::Global;
use std::marker::Model;

/// The state of an instance.
#[derive(Clone, Copy, Debug, PartialEq, Eq)]
pub enum StateWord {
    /// `ok`: none of the others.
    Ok,
    /// `stopped`: it has a source and doesn't replicate from it.
    Stopped,
    /// `detached`: it is detached from its source.
    Detached,
    /// `unreachable`: its last reading didn't reach it.
    Unreachable,
}

/// Why a replica isn't below the promoted server.
#[derive(Clone, Copy, Debug, PartialEq, Eq)]
pub enum Lost {
    /// It executed more of the failed server's log than the promoted one: up to here.
    Ahead(Coord),
    /// It executed less of the failed server's log than the promoted one: up to here.
    Behind(Coord),
    /// It was to go on at this coordinate, in a file that its new source has purged. By GTIDs, it executed up to here.
    Purged(Coord),
    /// It wasn't reached.
    Unreachable,
    /// It isn't below the failed server, but at this position.
    Moved(Spot),
    /// It writes no binary log.
    NotLogging,
    /// Its rule of promotion is `must_not`.
    MustNot,
}

/// When a hook of a recovery runs (orchestrator's documentation, "Recovery hooks").
#[derive(Clone, Copy, Debug, PartialEq, Eq)]
pub enum HookPhase {
    /// `pre_failover`: before the recovery; an exit that isn't 0 ends it.
    PreFailover,
    /// `post_failover`: when the recovery is done.
    PostFailover,
    /// `post_unsuccessful`: when the recovery failed.
    PostUnsuccessful,
}

/// What a line reports of a recovery.
pub struct RecoveryLine {
    /// Its number, counted from 1.
    pub id: u64,
    /// The label of the cluster.
    pub cluster: OwnedText,
    pub kind: Kind,
    /// The server that failed, or is replaced.
    pub failed: ServerNo,
    pub begun: Moment,
    /// When it ended: none for one that hasn't.
    pub ended: Option<Moment>,
    pub outcome: Ending,
    /// Whether it is acknowledged.
    pub acked: bool,
}

impl Drop for RecoveryLine {
    fn drop(self) {
        let RecoveryLine {
            id: _,
            cluster: _cluster,
            kind: _,
            failed: _,
            begun: _,
            ended: _,
            outcome: _,
            acked: _,
        } = self;
    }
}

impl RecoveryLine {
    /// The same line once more. `Err` means out of memory.
    pub fn copy(&self, alloc: Global) -> Result<RecoveryLine, Memory>
        ensures { IfOk result (λ l. l ≡ self.now) }
    {
        Ok(RecoveryLine {
            id: self.id,
            cluster: self.cluster.copy(alloc)?,
            kind: self.kind,
            failed: self.failed,
            begun: self.begun,
            ended: self.ended,
            outcome: self.outcome,
            acked: self.acked,
        })
    }
}

/// What a line reports.
#[derive(Drop)]
pub enum Line {
    /// A server's name.
    Server(ServerNo),
    /// `none`: there is no source.
    NoMaster,
    /// A cluster's label.
    Cluster(OwnedText),
    /// An instance in its tree.
    Instance {
        /// How far it is below the tree's root.
        depth: u32,
        no: ServerNo,
        state: StateWord,
        version: Version,
        /// Whether it refuses clients' writes (`read_only`).
        read_only: bool,
    },
    /// The first server replicates from the second.
    Follows(ServerNo, ServerNo),
    /// This server was promoted in a master's place.
    Promoted(ServerNo),
    /// This server takes over the replicas of an intermediate master.
    Successor(ServerNo),
    /// A replica isn't below the promoted server.
    Lost {
        no: ServerNo,
        why: Lost,
        /// Whether it was detached from its source.
        detached: bool,
    },
    /// An instance's analysis.
    Analysis {
        no: ServerNo,
        code: Code,
        /// Its replicas.
        replicas: u32,
        /// Those whose last reading reached them.
        valid: u32,
        /// Those of them that replicate.
        replicating: u32,
        /// Those of them that haven't executed all that they read.
        lagging: u32,
    },
    /// An instance is in downtime until this moment.
    Downtime(ServerNo, Moment),
    /// An instance is registered with a rule of promotion until this moment.
    Candidate {
        no: ServerNo,
        rule: Rule,
        until: Moment,
    },
    /// So many recoveries were acknowledged.
    Acknowledged(u64),
    /// Recoveries are enabled.
    Enabled,
    /// Recoveries are disabled.
    Disabled,
    /// A recovery of the audit.
    Recovery(RecoveryLine),
    /// A recovery of an instance with this analysis was begun, as this job.
    Begun {
        no: ServerNo,
        code: Code,
        job: u64,
    },
    /// A recovery of an instance with this analysis was refused.
    Refused {
        no: ServerNo,
        code: Code,
        refusal: Refusal,
    },
    /// A hook of a recovery ran.
    Hook {
        phase: HookPhase,
        /// What ran, with the values in place of its placeholders.
        text: OwnedText,
        exit: u8,
    },
    /// A replica wasn't matched or attached, for this cause.
    Unmatched {
        no: ServerNo,
        why: Cause,
    },
}

impl Copied for Line {
    fn copy(&self, alloc: Global) -> Result<Line, Memory> {
        Ok(match self {
            Line::Server(no) => Line::Server(*no),
            Line::NoMaster => Line::NoMaster,
            Line::Cluster(label) => Line::Cluster(label.copy(alloc)?),
            Line::Instance {
                depth,
                no,
                state,
                version,
                read_only,
            } => Line::Instance {
                depth: *depth,
                no: *no,
                state: *state,
                version: *version,
                read_only: *read_only,
            },
            Line::Follows(no, source) => Line::Follows(*no, *source),
            Line::Promoted(no) => Line::Promoted(*no),
            Line::Successor(no) => Line::Successor(*no),
            Line::Lost { no, why, detached } => Line::Lost {
                no: *no,
                why: *why,
                detached: *detached,
            },
            Line::Analysis {
                no,
                code,
                replicas,
                valid,
                replicating,
                lagging,
            } => Line::Analysis {
                no: *no,
                code: *code,
                replicas: *replicas,
                valid: *valid,
                replicating: *replicating,
                lagging: *lagging,
            },
            Line::Downtime(no, until) => Line::Downtime(*no, *until),
            Line::Candidate { no, rule, until } => Line::Candidate {
                no: *no,
                rule: *rule,
                until: *until,
            },
            Line::Acknowledged(count) => Line::Acknowledged(*count),
            Line::Enabled => Line::Enabled,
            Line::Disabled => Line::Disabled,
            Line::Recovery(recovery) => Line::Recovery(recovery.copy(alloc)?),
            Line::Begun { no, code, job } => Line::Begun {
                no: *no,
                code: *code,
                job: *job,
            },
            Line::Refused { no, code, refusal } => Line::Refused {
                no: *no,
                code: *code,
                refusal: refusal.copy(alloc)?,
            },
            Line::Hook { phase, text, exit } => Line::Hook {
                phase: *phase,
                text: text.copy(alloc)?,
                exit: *exit,
            },
            Line::Unmatched { no, why } => Line::Unmatched {
                no: *no,
                why: why.copy(alloc)?,
            },
        })
    }
}

/// Lines in order, which contracts see as that list.
pub type Lines = Listed<Line>;
