//! The verdict of a reply on its turn.

ghost use Rattle.std.specs.Prelude.{◌≡◌};
ghost use Rattle.tasks.specs.Report.{is_for_err, is_refused, is_taken, verdict_of};

use crate::turns::Reply;

/// Whether a command was refused, a job failed, or another's claim lasts.
#[derive(Clone, Copy)]
pub(crate) enum Verdict {
    Neither,
    Refused,
    Failed,
    Taken,
}

/// Which of them a reply has.
pub(crate) fn verdict_of(reply: &Reply) -> Verdict
    ensures { result ≡ verdict_of reply.now }
{
    match reply {
        Reply::Refused(_) => Verdict::Refused,
        Reply::Failed(_) => Verdict::Failed,
        Reply::Taken { .. } => Verdict::Taken,
        Reply::Write(_)
        | Reply::Fetch(_)
        | Reply::Apply(_)
        | Reply::Done
        | Reply::Rotate(_)
        | Reply::Purge(_)
        | Reply::Now(_)
        | Reply::Read(_)
        | Reply::ReadUnreachable(_)
        | Reply::Unknown
        | Reply::Stored
        | Reply::Old(_)
        | Reply::Nothing
        | Reply::Told(_)
        | Reply::Begun(_)
        | Reply::Going
        | Reply::NoJob
        | Reply::Held(_)
        | Reply::Released
        | Reply::NotHeld
        | Reply::Lapsed => Verdict::Neither,
    }
}

/// Whether a command was refused, or a job failed.
pub(crate) fn is_refused(reply: &Reply) -> bool
    ensures { result ≡ is_refused reply.now }
{
    match verdict_of(reply) {
        Verdict::Refused | Verdict::Failed => true,
        Verdict::Neither | Verdict::Taken => false,
    }
}

/// Whether a single command answers so on err.
pub(crate) fn is_for_err(reply: &Reply) -> bool
    ensures { result ≡ is_for_err reply.now }
{
    match verdict_of(reply) {
        Verdict::Refused | Verdict::Failed | Verdict::Taken => true,
        Verdict::Neither => false,
    }
}

/// Whether another's claim lasts.
pub(crate) fn is_taken(reply: &Reply) -> bool
    ensures { result ≡ is_taken reply.now }
{
    match verdict_of(reply) {
        Verdict::Taken => true,
        Verdict::Neither | Verdict::Refused | Verdict::Failed => false,
    }
}
