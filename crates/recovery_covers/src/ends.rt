//! What a recovery that is done owes each replica.

ghost use Rattle.std.specs.Prelude.{◌≡◌, ℕ, List};
ghost use Rattle.recovery_covers.specs.Prelude.{BookState, HeldRecovery, HeldRings, Line as ALine, Moment as AMoment, Placed, Recovery, World, run, taken};
ghost use Rattle.recovery_covers.specs.SoFar.{CoversSoFar};
ghost use Rattle.recovery_covers.specs.Covers.{IsTold};
ghost use Rattle.recovery_covers.specs.Prelude.step;
ghost use Rattle.recovery_covers.specs.Chains.{IsChain};

/// A turn in which a recovery is done leaves its replicas covered, and its lines are those of the outcome. Each
/// follower follows the promoted server, but after a swap: then the chosen one does, and each other one follows the
/// chosen one.
pub fn recoveries_end_covered()
    ensures told { (w : World) (b : BookState) (read : ℕ) (now : AMoment) (r : Recovery) →
        Placed w → HeldRings w b.rings → HeldRecovery w r → CoversSoFar w r →
        (lines : List ALine) → (taken w b read now r).step ≡ step.Done lines →
        IsTold (run w (taken w b read now r).exchanges) (taken w b read now r).recovery lines }
    ensures chain { (w : World) (b : BookState) (read : ℕ) (now : AMoment) (r : Recovery) →
        Placed w → HeldRings w b.rings → HeldRecovery w r → CoversSoFar w r →
        (lines : List ALine) → (taken w b read now r).step ≡ step.Done lines →
        IsChain (taken w b read now r).recovery }
{}
