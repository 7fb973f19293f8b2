//! What no turn of a recovery changes.

ghost use Rattle.std.specs.Prelude.{ℕ};
ghost use Rattle.recovery_covers.specs.Prelude.{BookState, Moment as AMoment, Recovery, World, taken};
ghost use Rattle.recovery_covers.specs.Kept.{SameAim};

/// A turn changes neither what a recovery is for, nor the failed server and the replicas to which it owes a place, nor
/// those that it reports.
pub fn replicas_stay()
    ensures { (w : World) (b : BookState) (read : ℕ) (now : AMoment) (r : Recovery) →
        SameAim r (taken w b read now r).recovery }
{}
