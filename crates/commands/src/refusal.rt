//! Why a command is refused.

ghost use Rattle.std.specs.Prelude.{◌≡◌, IfOk};
ghost use Rattle.commands.specs.Refusals.{number_of};

use crate::orch_base::{Code, Moment, ServerNo};
use crate::{BoxedSet, Memory};
use std::alloc::Global;

/// Why a command is refused, by its number: if several apply, the lowest number is answered.
#[derive(Drop)]
pub enum Refusal {
    /// 2: the instance isn't known.
    UnknownInstance,
    /// 3: the instance and the destination are one.
    SameInstance,
    /// 4: this server has a lease, of this job.
    Busy(ServerNo, u64),
    /// 5: this server wasn't reached.
    Unreachable(ServerNo),
    /// 6: the instance has no source.
    NoSource,
    /// 7: the instance isn't detached from its source.
    NotDetached,
    /// 8: the instance is detached from its source.
    AlreadyDetached,
    /// 9: a server that moves is of another cluster than the destination.
    OtherCluster,
    /// 10: the destination is below a server that moves.
    Below,
    /// 11: the instance's source has no source.
    SourceHasNoSource,
    /// 12: the instance and the destination don't have the same source.
    NotSibling,
    /// 13: the destination isn't the instance's source, whose log it reads.
    NotSameLog,
    /// 14: the new source writes no binary log.
    DestNotLogging,
    /// 15: this server has the `server_id` of its new source.
    SameServerId(ServerNo),
    /// 16: this server's version is lower than that of its new source.
    VersionLower(ServerNo),
    /// 17: GTID mode is off.
    GtidOff,
    /// 18: a server that moves has executed these of its own, which the new source lacks.
    Errant(BoxedSet),
    /// 19: by coordinates no way leads below the destination.
    NoPath,
    /// 20: this analysis of the instance begins no recovery.
    NotActionable(Code),
    /// 21: recoveries are disabled.
    GloballyDisabled,
    /// 22: the failed server is in downtime until this moment.
    Downtimed(Moment),
    /// 23: the filters of such recoveries don't have the cluster.
    FilteredOut,
    /// 24: this recovery of the cluster hasn't ended.
    OpenRecovery(u64),
    /// 25: this recovery of the cluster isn't acknowledged, and blocks others until this moment.
    Blocked(u64, Moment),
    /// 26: no replica may be promoted.
    NoCandidate,
    /// 27: the instance has a source.
    NotMaster,
    /// 28: the destination's source isn't the instance.
    NotReplica,
    /// 29: so many errant writes were counted.
    NotQuiet(u64),
    /// 30: this server, the new source, was seen to have purged what a server that moves lacks; it keeps its log from
    /// this file on.
    Purged(ServerNo, u32),
    /// 31: no transaction is a mark by which logs could be matched.
    PseudoOff,
    /// 32: this server, which moves, writes no binary log.
    MovedNotLogging(ServerNo),
}

impl Refusal {
    /// The refusal's number.
    pub fn number(&self) -> u8
        ensures { result ≡ number_of self.now }
    {
        match self {
            Refusal::UnknownInstance => 2,
            Refusal::SameInstance => 3,
            Refusal::Busy(_, _) => 4,
            Refusal::Unreachable(_) => 5,
            Refusal::NoSource => 6,
            Refusal::NotDetached => 7,
            Refusal::AlreadyDetached => 8,
            Refusal::OtherCluster => 9,
            Refusal::Below => 10,
            Refusal::SourceHasNoSource => 11,
            Refusal::NotSibling => 12,
            Refusal::NotSameLog => 13,
            Refusal::DestNotLogging => 14,
            Refusal::SameServerId(_) => 15,
            Refusal::VersionLower(_) => 16,
            Refusal::GtidOff => 17,
            Refusal::Errant(_) => 18,
            Refusal::NoPath => 19,
            Refusal::NotActionable(_) => 20,
            Refusal::GloballyDisabled => 21,
            Refusal::Downtimed(_) => 22,
            Refusal::FilteredOut => 23,
            Refusal::OpenRecovery(_) => 24,
            Refusal::Blocked(_, _) => 25,
            Refusal::NoCandidate => 26,
            Refusal::NotMaster => 27,
            Refusal::NotReplica => 28,
            Refusal::NotQuiet(_) => 29,
            Refusal::Purged(_, _) => 30,
            Refusal::PseudoOff => 31,
            Refusal::MovedNotLogging(_) => 32,
        }
    }

    /// The same refusal once more.
    pub fn copy(&self, alloc: Global) -> Result<Refusal, Memory>
        ensures { IfOk result (λ r. r ≡ self.now) }
    {
        Ok(match self {
            Refusal::UnknownInstance => Refusal::UnknownInstance,
            Refusal::SameInstance => Refusal::SameInstance,
            Refusal::Busy(no, job) => Refusal::Busy(*no, *job),
            Refusal::Unreachable(no) => Refusal::Unreachable(*no),
            Refusal::NoSource => Refusal::NoSource,
            Refusal::NotDetached => Refusal::NotDetached,
            Refusal::AlreadyDetached => Refusal::AlreadyDetached,
            Refusal::OtherCluster => Refusal::OtherCluster,
            Refusal::Below => Refusal::Below,
            Refusal::SourceHasNoSource => Refusal::SourceHasNoSource,
            Refusal::NotSibling => Refusal::NotSibling,
            Refusal::NotSameLog => Refusal::NotSameLog,
            Refusal::DestNotLogging => Refusal::DestNotLogging,
            Refusal::SameServerId(no) => Refusal::SameServerId(*no),
            Refusal::VersionLower(no) => Refusal::VersionLower(*no),
            Refusal::GtidOff => Refusal::GtidOff,
            Refusal::Errant(set) => Refusal::Errant(set.copy(alloc)?),
            Refusal::NoPath => Refusal::NoPath,
            Refusal::NotActionable(code) => Refusal::NotActionable(*code),
            Refusal::GloballyDisabled => Refusal::GloballyDisabled,
            Refusal::Downtimed(until) => Refusal::Downtimed(*until),
            Refusal::FilteredOut => Refusal::FilteredOut,
            Refusal::OpenRecovery(id) => Refusal::OpenRecovery(*id),
            Refusal::Blocked(id, until) => Refusal::Blocked(*id, *until),
            Refusal::NoCandidate => Refusal::NoCandidate,
            Refusal::NotMaster => Refusal::NotMaster,
            Refusal::NotReplica => Refusal::NotReplica,
            Refusal::NotQuiet(count) => Refusal::NotQuiet(*count),
            Refusal::Purged(no, first) => Refusal::Purged(*no, *first),
            Refusal::PseudoOff => Refusal::PseudoOff,
            Refusal::MovedNotLogging(no) => Refusal::MovedNotLogging(*no),
        })
    }
}
