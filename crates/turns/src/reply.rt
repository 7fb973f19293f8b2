//! What turns answer.

ghost use Rattle.std.specs.Prelude.{◌≡◌, IfOk, true};
ghost use Rattle.turns.specs.Plain.{is_plain};

use crate::Turn;
use crate::orch_base::{Memory, Moment};
use commands::{Cause, Lines, Refusal};
use server_words::{ApplyAnswer, FetchAnswer, PurgeAnswer, RotateAnswer, WriteAnswer};
use std::alloc::Global;
use std::marker::Model;
use std::mem::size_of;

/// Why a job failed, and the lines that it answers.
pub struct Failure {
    pub cause: Cause,
    /// The lines of its hooks. A job that isn't a recovery's has none.
    pub lines: Lines,
}

impl Drop for Failure {
    fn drop(self) {
        let Failure {
            cause: _cause,
            lines: _lines,
        } = self;
    }
}

impl Failure {
    /// The same once more. `Err` means out of memory.
    pub fn copy(&self, alloc: Global) -> Result<Failure, Memory>
        ensures { IfOk result (λ f. f ≡ self.now) }
    {
        Ok(Failure {
            cause: self.cause.copy(alloc)?,
            lines: self.lines.copy_each(alloc)?,
        })
    }
}

/// A job's failure on the heap, which contracts see as that failure.
pub struct BoxedFailure {
    failure: Box<Failure>,
}

impl Drop for BoxedFailure {
    fn drop(self) {
        let BoxedFailure { failure: _failure } = self;
    }
}

impl Model for BoxedFailure {
    ghost use Rattle.std.specs.Prelude.{box_value};
    ghost use Rattle.turns.specs.declared.reply.Failure.{Failure as AFailure};

    ghost Value = { AFailure };

    ghost view = { λ f. box_value f.failure };
}

impl BoxedFailure {
    /// This failure. `Err` means out of memory.
    pub fn new(alloc: Global, failure: Failure) -> Result<BoxedFailure, Memory>
        ensures { IfOk result (λ f. f ≡ failure) }
    {
        Ok(BoxedFailure {
            failure: Box::new(alloc, failure)?,
        })
    }

    /// The failure.
    pub fn as_failure(&self) -> &Failure
        ensures { result.now ≡ self.now }
    {
        &self.failure
    }

    /// The same failure once more. `Err` means out of memory.
    pub fn copy(&self, alloc: Global) -> Result<BoxedFailure, Memory>
        ensures { IfOk result (λ f. f ≡ self.now) }
    {
        BoxedFailure::new(alloc, self.failure.copy(alloc)?)
    }
}

/// What a turn answers.
#[derive(Drop)]
pub enum Reply {
    Write(WriteAnswer),
    Fetch(FetchAnswer),
    Apply(ApplyAnswer),
    /// It is done. There is no more to say.
    Done,
    Rotate(RotateAnswer),
    Purge(PurgeAnswer),
    /// The moment that it is now.
    Now(Moment),
    /// The number of a reading that reached its server.
    Read(u64),
    /// The number of a reading that didn't reach its server.
    ReadUnreachable(u64),
    /// The book has no such instance.
    Unknown,
    /// The reading is stored.
    Stored,
    /// The instance was read later, by this number.
    Old(u64),
    /// The slot is empty.
    Nothing,
    /// The command, the job or the scan is done, with these lines.
    Told(Lines),
    /// The command is refused, and changed nothing.
    Refused(Refusal),
    /// The command began the job of this number.
    Begun(u64),
    /// The job isn't done.
    Going,
    /// The job failed.
    Failed(BoxedFailure),
    /// There is no such job that hasn't ended.
    NoJob,
    /// The claim is the node's until this moment.
    Held(Moment),
    /// The claim is another node's until this moment.
    Taken { node: u32, until: Moment },
    /// The claim is nobody's any more.
    Released,
    /// The claim isn't the node's.
    NotHeld,
    /// The node remembers no claim that lasts, and did nothing.
    Lapsed,
}

// A journal of a million turns has a pair for each.
const _: () = prove!(size_of::<(Turn, Reply)>() == 56);

impl Reply {
    /// The same reply once more, of one that holds nothing on the heap. It takes no memory.
    pub fn again(&self) -> Reply
        requires { is_plain self.now ≡ true }
        ensures { result ≡ self.now }
    {
        match self {
            Reply::Write(answer) => Reply::Write(*answer),
            Reply::Fetch(answer) => Reply::Fetch(*answer),
            Reply::Apply(answer) => Reply::Apply(*answer),
            Reply::Rotate(answer) => Reply::Rotate(*answer),
            Reply::Purge(answer) => Reply::Purge(*answer),
            Reply::Now(now) => Reply::Now(*now),
            Reply::Read(read) => Reply::Read(*read),
            Reply::ReadUnreachable(read) => Reply::ReadUnreachable(*read),
            Reply::Unknown => Reply::Unknown,
            Reply::Stored => Reply::Stored,
            Reply::Old(read) => Reply::Old(*read),
            Reply::Nothing => Reply::Nothing,
            Reply::Begun(job) => Reply::Begun(*job),
            Reply::Going => Reply::Going,
            Reply::NoJob => Reply::NoJob,
            Reply::Held(until) => Reply::Held(*until),
            Reply::Taken { node, until } => Reply::Taken {
                node: *node,
                until: *until,
            },
            Reply::Released => Reply::Released,
            Reply::NotHeld => Reply::NotHeld,
            Reply::Lapsed => Reply::Lapsed,
            Reply::Done | Reply::Told(_) | Reply::Refused(_) | Reply::Failed(_) => Reply::Done,
        }
    }

    /// The same reply once more. `Err` means out of memory.
    pub fn copy(&self, alloc: Global) -> Result<Reply, Memory>
        ensures { IfOk result (λ r. r ≡ self.now) }
    {
        match self {
            Reply::Told(lines) => Ok(Reply::Told(lines.copy_each(alloc)?)),
            Reply::Refused(refusal) => Ok(Reply::Refused(refusal.copy(alloc)?)),
            Reply::Failed(failure) => Ok(Reply::Failed(failure.copy(alloc)?)),
            Reply::Write(_)
            | Reply::Fetch(_)
            | Reply::Apply(_)
            | Reply::Done
            | Reply::Rotate(_)
            | Reply::Purge(_)
            | Reply::Now(_)
            | Reply::Read(_)
            | Reply::ReadUnreachable(_)
            | Reply::Unknown
            | Reply::Stored
            | Reply::Old(_)
            | Reply::Nothing
            | Reply::Begun(_)
            | Reply::Going
            | Reply::NoJob
            | Reply::Held(_)
            | Reply::Taken { .. }
            | Reply::Released
            | Reply::NotHeld
            | Reply::Lapsed => Ok(self.again()),
        }
    }
}
