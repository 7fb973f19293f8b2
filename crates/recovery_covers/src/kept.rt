//! What a promoted server has of the failed one's history.

ghost use Rattle.std.specs.Prelude.{◌≡◌, ℕ, List, Some, All};
ghost use Rattle.recovery_covers.specs.Prelude.{AllAllowed, BookState, Exchange, HeldRecovery, HeldRings, Line as ALine, Means as AMeans};
ghost use Rattle.recovery_covers.specs.Prelude.{Moment as AMoment, Placed, Purpose as APurpose, Recovery, ServerNo as Number, SoundRings, World};
ghost use Rattle.recovery_covers.specs.Prelude.{begun_recovery, run, taken};
ghost use Rattle.recovery_laws.specs.ServerModel.Safe.{Safe};
ghost use Rattle.recovery_laws.specs.RecoveryPlans.declared.purpose.Purpose.TheVariants as purpose;
ghost use Rattle.recovery_laws.specs.SoundRecoveries.{SoundRecovery};
ghost use Rattle.recovery_covers.specs.Covers.{IsTold};
ghost use Rattle.recovery_covers.specs.SoFar.{CoversSoFar};
ghost use Rattle.recovery_covers.specs.Kept.{Keeps, KeptByChosen, IsBeginning};

/// What each replica that might have been chosen had when it was drained is a prefix of what the chosen one has. If the
/// recovery is done in a `Safe` world, it is a prefix of what the promoted one has, with or without a swap. What the
/// old master of a takeover has is a prefix of what the designated one has.
pub fn recoveries_keep_histories()
    ensures begun { (w : World) (u : APurpose) (by : AMeans) (id wait : ℕ) (f : Number)
        (replicas order : List Number) →
        KeptByChosen w (begun_recovery u by id wait f replicas order) }
    ensures taken { (w : World) (b : BookState) (read : ℕ) (now : AMoment) (r : Recovery) →
        Placed w → HeldRings w b.rings → SoundRings w b.rings → HeldRecovery w r →
        SoundRecovery w r → CoversSoFar w r → KeptByChosen w r →
        KeptByChosen (run w (taken w b read now r).exchanges) (taken w b read now r).recovery }
    ensures others { (w : World) (es : List Exchange) (r : Recovery) → Placed w →
        AllAllowed w es → KeptByChosen w r → KeptByChosen (run w es) r }
    ensures promoted { (w : World) (r : Recovery) (lines : List ALine) (n : Number) → Safe w →
        KeptByChosen w r → IsTold w r lines → r.outcome.promoted ≡ Some n →
        All (λ s. Keeps w r.failed.0 s.exec n.0) r.eligible }
    ensures old { (w : World) (r : Recovery) (lines : List ALine) (d : Number) → Safe w →
        IsTold w r lines → r.purpose ≡ purpose.Takeover d → IsBeginning w r.failed.0 d.0 }
{}
