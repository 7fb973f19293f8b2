//! The turns of a job, one after another.

ghost use Rattle.std.specs.Prelude.{◌≡◌, ◌++◌, ◌<◌, ◌≤◌, ℕ, List, false, length};
ghost use Rattle.cause_laws.specs.Prelude.{Job, Line as ALine, Op as AnOp, ServerNo as Number, deed_of, finished, list_any, turns_left};
ghost use Rattle.cause_laws.specs.Prelude.cause;
ghost use Rattle.cause_laws.specs.Prelude.step;
ghost use Rattle.cause_laws.specs.Courses.{AllFree, AllGoing, AreSpent, IsDoneIn, Meeting, is_finish, job_after, lines_of, turn_at};

/// A job whose wait for a server is spent has waited for it as often as it may, by one operation, and each of these
/// waits found it short.
pub fn waits_are_spent_last()
    ensures { (j : Job) (ms : List Meeting) (m : Meeting) (n : Number) (lines : List ALine) →
        j.waited ≡ 0 → AllGoing j ms →
        (turn_at (job_after j ms) m).step ≡ step.Failed (cause.WaitSpent n) lines →
        AreSpent j ms n }
{}

/// A job is done, within the turns that it has left, with the lines of its last operation, if nothing happens to its
/// operations.
pub fn undisturbed_jobs_are_done()
    ensures done { (j : Job) (ms : List Meeting) → j.waited ≤ j.wait → turns_left j < length ms →
        AllFree j ms → IsDoneIn j ms }
    ensures lines { (ops : List AnOp) (lines : List ALine) →
        list_any (λ op. is_finish (deed_of op)) ops ≡ false →
        lines_of (finished ops lines) ≡ lines }
{}
