//! Why a job fails.

ghost use Rattle.std.specs.Prelude.{◌≡◌, IfOk};
ghost use Rattle.commands.specs.Causes.{cause_name};

use crate::orch_base::{CauseName, ServerNo, SourceState};
use crate::{BoxedSet, Memory};
use server_words::Spot;
use std::alloc::Global;

/// Why a job fails.
#[derive(Drop)]
pub enum Cause {
    /// This server wasn't reached.
    Unreachable(ServerNo),
    /// The last wait for this server was spent.
    WaitSpent(ServerNo),
    /// This server was expected at one position and found at another.
    Interfered {
        no: ServerNo,
        expected: Spot,
        found: Spot,
    },
    /// A thread of this server is on.
    Running(ServerNo),
    /// This server would be below itself.
    Loop(ServerNo),
    /// This server has executed these, which its new source lacks.
    Errant(ServerNo, BoxedSet),
    /// This server has another source than the one that it was seen to have: this one.
    Moved(ServerNo, SourceState),
    /// This server, which had failed, was reached.
    Reachable(ServerNo),
    /// No replica may be promoted.
    NoCandidate,
    /// This server was to go on in a file that its new source has purged. The new source keeps its log from this file
    /// on.
    Purged(ServerNo, u32),
    /// This server's log has no mark by which it could be matched, or its new source's log lacks the last one.
    NoMark(ServerNo),
    /// This server's log differs from its new source's at this entry, counted from 1, after the mark by which they were
    /// matched.
    Mismatch(ServerNo, u64),
    /// The hook of this number, counted from 1, that ran before the recovery had this exit, which isn't 0.
    HookFailed {
        number: u32,
        exit: u8,
    },
}

impl Cause {
    /// The cause's name.
    pub fn name(&self) -> CauseName
        ensures { result ≡ cause_name self.now }
    {
        match self {
            Cause::Unreachable(_) => CauseName::Unreachable,
            Cause::WaitSpent(_) => CauseName::WaitSpent,
            Cause::Interfered { .. } => CauseName::Interfered,
            Cause::Running(_) => CauseName::Running,
            Cause::Loop(_) => CauseName::Loop,
            Cause::Errant(_, _) => CauseName::Errant,
            Cause::Moved(_, _) => CauseName::Moved,
            Cause::Reachable(_) => CauseName::Reachable,
            Cause::NoCandidate => CauseName::NoCandidate,
            Cause::Purged(_, _) => CauseName::Purged,
            Cause::NoMark(_) => CauseName::NoMark,
            Cause::Mismatch(_, _) => CauseName::Mismatch,
            Cause::HookFailed { .. } => CauseName::HookFailed,
        }
    }

    /// The same cause once more. `Err` means out of memory.
    pub fn copy(&self, alloc: Global) -> Result<Cause, Memory>
        ensures { IfOk result (λ c. c ≡ self.now) }
    {
        Ok(match self {
            Cause::Unreachable(no) => Cause::Unreachable(*no),
            Cause::WaitSpent(no) => Cause::WaitSpent(*no),
            Cause::Interfered {
                no,
                expected,
                found,
            } => Cause::Interfered {
                no: *no,
                expected: *expected,
                found: *found,
            },
            Cause::Running(no) => Cause::Running(*no),
            Cause::Loop(no) => Cause::Loop(*no),
            Cause::Errant(no, set) => Cause::Errant(*no, set.copy(alloc)?),
            Cause::Moved(no, source) => Cause::Moved(*no, *source),
            Cause::Reachable(no) => Cause::Reachable(*no),
            Cause::NoCandidate => Cause::NoCandidate,
            Cause::Purged(no, first) => Cause::Purged(*no, *first),
            Cause::NoMark(no) => Cause::NoMark(*no),
            Cause::Mismatch(no, entry) => Cause::Mismatch(*no, *entry),
            Cause::HookFailed { number, exit } => Cause::HookFailed {
                number: *number,
                exit: *exit,
            },
        })
    }
}
