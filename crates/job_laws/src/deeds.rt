//! Operations, each in a turn of its job.

ghost use Rattle.std.specs.Prelude.{◌≡◌, ℕ, ◌+◌, ◌<◌, ◌≤◌, List, [], Option, Some, None, true, false};
ghost use Rattle.job_laws.specs.Prelude.{AllAllowed, Deed, Exchange, Goes, Job, Moment as AMoment, Observation as Reading, Op as AnOp, Placed, Safe};
ghost use Rattle.job_laws.specs.Prelude.{ServerNo as Number, Settle, Status as Showed, Stops, World, by_deed, going, is_settled, next, run, saw};
ghost use Rattle.job_laws.specs.Prelude.{seen_in, settled, status, turned};
ghost use Rattle.job_laws.specs.Prelude.cause;
ghost use Rattle.job_laws.specs.Held.{HeldJob, KeepsHeld, IsNext};
ghost use Rattle.job_laws.specs.Matched.{AllMeet};
ghost use Rattle.job_laws.specs.Sound.{AllBridged, KeepsSound, IsNextSafely};
ghost use Rattle.job_laws.specs.Leases.{Leases, HasLeases, KeepsLeases};

/// A turn of a job with `Held` makes allowed exchanges and the job has `Held` after it, with errant writes or without.
/// It doesn't matter which operation is due, and which operations with `Held` are left after it. It changes only
/// servers that are leased to the job. The job keeps `Held` through what others do meanwhile. The exchanges are allowed
/// for any job, with `Held` or without.
pub fn each_operation_keeps_held()
    ensures allowed { (w : World) (read : ℕ) (now : AMoment) (j : Job) →
        AllAllowed w (turned w read now j).exchanges }
    ensures turn { (w : World) (read : ℕ) (now : AMoment) (j : Job) → Placed w → HeldJob w j →
        KeepsHeld w (turned w read now j) }
    ensures deed { (w : World) (read : ℕ) (now : AMoment) (j : Job) (rest : List AnOp) (d : Deed) →
        IsNext w j rest d → KeepsHeld w (settled j (by_deed w read now j rest d)) }
    ensures goes { (w : World) (read : ℕ) (now : AMoment) (j k : Job) (rest : List AnOp) (d : Deed)
        (o : Option Reading) (es : List Exchange) →
        IsNext w j rest d → by_deed w read now j rest d ≡ Goes o es k → KeepsHeld w (going o es k) }
    ensures leases { (l : Leases) (w : World) (read : ℕ) (now : AMoment) (j : Job) → HasLeases l j →
        KeepsLeases l j.id (turned w read now j) }
    ensures others { (w : World) (es : List Exchange) (j : Job) → Placed w → AllAllowed w es →
        HeldJob w j → HeldJob (run w es) j }
{}

/// In a `Safe` world each attachment that a turn makes joins well, and every bridge that the job saw is right
/// afterwards.
pub fn each_operation_keeps_sound()
    ensures turn { (w : World) (read : ℕ) (now : AMoment) (j : Job) → Safe w → Placed w →
        HeldJob w j → AllBridged w j.seen → AllMeet w j.matches →
        KeepsSound w (turned w read now j) }
    ensures deed { (w : World) (read : ℕ) (now : AMoment) (j : Job) (rest : List AnOp) (d : Deed) →
        IsNextSafely w j rest d → KeepsSound w (settled j (by_deed w read now j rest d)) }
    ensures goes { (w : World) (read : ℕ) (now : AMoment) (j k : Job) (rest : List AnOp) (d : Deed)
        (o : Option Reading) (es : List Exchange) →
        IsNextSafely w j rest d → by_deed w read now j rest d ≡ Goes o es k →
        KeepsSound w (going o es k) }
{}

/// The wait for a server that has a settled applier ends if the applier is off or has executed all that was read. It
/// ends by its last wait in any case. It fails only if the server isn't reached.
pub fn settling_ends()
    ensures unreached { (w : World) (read : ℕ) (now : AMoment) (j : Job) (rest : List AnOp)
        (n : Number) →
        seen_in (status w n.0) ≡ None →
        by_deed w read now j rest (Settle n) ≡ Stops (cause.Unreachable n) None }
    ensures settled { (w : World) (read : ℕ) (now : AMoment) (j : Job) (rest : List AnOp)
        (n : Number) (s : Showed) →
        seen_in (status w n.0) ≡ Some s → is_settled s ≡ true →
        by_deed w read now j rest (Settle n) ≡ Goes None [] (next (saw j n s) rest) }
    ensures last { (w : World) (read : ℕ) (now : AMoment) (j : Job) (rest : List AnOp) (n : Number)
        (s : Showed) →
        seen_in (status w n.0) ≡ Some s → j.wait ≤ j.waited + 1 →
        by_deed w read now j rest (Settle n) ≡ Goes None [] (next (saw j n s) rest) }
    ensures waits { (w : World) (read : ℕ) (now : AMoment) (j : Job) (rest : List AnOp) (n : Number)
        (s : Showed) →
        seen_in (status w n.0) ≡ Some s → is_settled s ≡ false → j.waited + 1 < j.wait →
        by_deed w read now j rest (Settle n)
        ≡ Goes None [] (record (saw j n s) { waited = j.waited + 1 }) }
{}
