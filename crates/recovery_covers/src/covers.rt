//! What a recovery owes each replica.

ghost use Rattle.std.specs.Prelude.{◌≡◌, ℕ, List, All, true};
ghost use Rattle.recovery_covers.specs.Prelude.{BookState, Exchange, HeldRecovery, HeldRings, IsLeased, LeasedRecovery, Leases, Means as AMeans};
ghost use Rattle.recovery_covers.specs.Prelude.{Moment as AMoment, Placed, Purpose as APurpose, Recovery, ServerNo as Number, World, after};
ghost use Rattle.recovery_covers.specs.Prelude.{begun_recovery, is_going, is_outside, run, server_of, taken};
ghost use Rattle.recovery_covers.specs.Covers.{AreReplicas};
ghost use Rattle.recovery_covers.specs.SoFar.{CoversSoFar};

/// A recovery begins with its replicas covered so far, over any servers, if none of them is named twice.
pub fn recoveries_begin_covered()
    ensures { (w : World) (u : APurpose) (by : AMeans) (id wait : ℕ) (f : Number)
        (replicas order : List Number) →
        AreReplicas u f replicas → CoversSoFar w (begun_recovery u by id wait f replicas order) }
{}

/// A turn after which a recovery goes on leaves its replicas covered so far. Between its turns exchanges that are no
/// orchestrator's leave them so, and so do turns of other jobs, if the recovery's servers are leased to it.
pub fn recoveries_cover()
    ensures going { (w : World) (b : BookState) (read : ℕ) (now : AMoment) (r : Recovery) →
        Placed w → HeldRings w b.rings → HeldRecovery w r → CoversSoFar w r →
        is_going (taken w b read now r).step ≡ true →
        CoversSoFar (run w (taken w b read now r).exchanges) (taken w b read now r).recovery }
    ensures outside { (w : World) (e : Exchange) (r : Recovery) → is_outside e ≡ true →
        CoversSoFar w r → CoversSoFar (after w e) r }
    ensures others { (l : Leases) (id mine : ℕ) (w : World) (es : List Exchange) (r : Recovery) →
        All (λ e. IsLeased l id (server_of e)) es → (id ≡ mine → ⊥) → LeasedRecovery l mine r →
        CoversSoFar w r → CoversSoFar (run w es) r }
{}
