//! What turns of recoveries change, and whom they choose among or hand over.

ghost use Rattle.std.specs.Prelude.{◌≡◌, ℕ, true};
ghost use Rattle.recovery_covers.specs.Prelude.{BookState, Decisions, HeldRecovery, HeldRings, Moment as AMoment, Placed, Recovery, World, ground_of, is_going};
ghost use Rattle.recovery_covers.specs.Prelude.{taken};
ghost use Rattle.recovery_covers.specs.SoFar.{CoversSoFar};
ghost use Rattle.recovery_covers.specs.Doing.{DecidesOverAll, MakesWell};

/// If one is to be chosen each replica is drained, or lost. If drained ones are to be handed over to a successor, so is
/// each that wasn't handed over before. A turn after which the recovery goes on changes servers only so:
/// - it detaches only lost ones;
/// - it resets only the promoted one of a dead master, a follower that is to take its place, or the designated one of a
///   takeover, each at its stage;
/// - it opens only the promoted one to writes, which has no source;
/// - it closes only the old master of a takeover.
pub fn recoveries_change_what_they_may()
    ensures chooses { (w : World) (b : BookState) (read : ℕ) (now : AMoment) (r d : Recovery) →
        Placed w → HeldRings w b.rings → HeldRecovery w r → CoversSoFar w r →
        Decisions (ground_of w b now) r d → DecidesOverAll d }
    ensures changes { (w : World) (b : BookState) (read : ℕ) (now : AMoment) (r : Recovery) →
        Placed w → HeldRings w b.rings → HeldRecovery w r → CoversSoFar w r →
        is_going (taken w b read now r).step ≡ true →
        MakesWell w (ground_of w b now) r (taken w b read now r).exchanges }
{}
