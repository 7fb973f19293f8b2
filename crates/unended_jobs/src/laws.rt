//! What a turn leaves of what the next one requires.

ghost use Rattle.std.specs.Prelude.{◌≡◌, ◌<◌, ℕ, IfSome, Some, length, true};
ghost use Rattle.unended_jobs.specs.Prelude.{AllAllowed, BookState, Moment as AMoment, Observation as Reading, Recovery, ServerNo as Number, World};
ghost use Rattle.unended_jobs.specs.Prelude.{is_going, observed, taken};
ghost use Rattle.unended_jobs.specs.declared.unended.Unended.{Unended as AnUnended};
ghost use Rattle.unended_jobs.specs.Unended.{IsReady, IsReadyRecovery, IsUnended, flown, number_of, turns_of};

/// A turn's exchanges are allowed, and what it observes is a status of a server that is there. A job that goes on keeps
/// its number, names servers that are there, and has fewer turns left. Whatever a recovery's turn comes to, the
/// promoted server is there.
pub fn unended_jobs_go_on()
    ensures allowed { (w : World) (b : BookState) (read : ℕ) (now : AMoment) (u : AnUnended) →
        AllAllowed w (flown w b read now u).exchanges }
    ensures observes { (w : World) (b : BookState) (read : ℕ) (now : AMoment) (u : AnUnended)
        (o : Reading) →
        IsReady (length w.servers) u → (flown w b read now u).observation ≡ Some o →
        (n : Number) × (o ≡ observed w read now n) × (n.0 < length w.servers) }
    ensures number { (count : ℕ) (w : World) (b : BookState) (read : ℕ) (now : AMoment)
        (u : AnUnended) →
        IsReady count u → is_going (flown w b read now u).step ≡ true →
        number_of (flown w b read now u).next ≡ number_of u }
    ensures ready { (count : ℕ) (w : World) (b : BookState) (read : ℕ) (now : AMoment)
        (u : AnUnended) →
        IsReady count u → is_going (flown w b read now u).step ≡ true →
        IsReady count (flown w b read now u).next }
    ensures unended { (count : ℕ) (w : World) (b : BookState) (read : ℕ) (now : AMoment)
        (u : AnUnended) →
        IsUnended count u → is_going (flown w b read now u).step ≡ true →
        IsUnended count (flown w b read now u).next }
    ensures promoted { (count : ℕ) (w : World) (b : BookState) (read : ℕ) (now : AMoment)
        (r : Recovery) →
        IsReadyRecovery count r →
        IfSome (taken w b read now r).recovery.outcome.promoted (λ n. n.0 < count) }
    ensures fewer { (count : ℕ) (w : World) (b : BookState) (read : ℕ) (now : AMoment)
        (u : AnUnended) →
        IsReady count u → is_going (flown w b read now u).step ≡ true →
        turns_of (flown w b read now u).next < turns_of u }
{}
