//! Why replicas are lost, and who is chosen.

ghost use Rattle.std.specs.Prelude.{◌≡◌, ℕ, Bool, true, List, [], Some};
ghost use Rattle.recovery_reasons.specs.Prelude.{BookState, HeldRecovery, HeldRings, Line as ALine, Means as AMeans, Moment as AMoment};
ghost use Rattle.recovery_reasons.specs.Prelude.{Purpose as APurpose, Recovery, ServerNo as Number, World, begun_recovery, closes, decided, ground_of};
ghost use Rattle.recovery_reasons.specs.Prelude.{Cause as Why, Stage as AStage, fate, is_going, taken};
ghost use Rattle.recovery_reasons.specs.Prelude.purpose;
ghost use Rattle.recovery_reasons.specs.Prelude.step;
ghost use Rattle.recovery_reasons.specs.Prelude.taking;
ghost use Rattle.recovery_reasons.specs.Fatal.{CanEnd};
ghost use Rattle.recovery_reasons.specs.Nobody.{HasNobody};
ghost use Rattle.recovery_reasons.specs.OnWay.{AllFit};
ghost use Rattle.recovery_reasons.specs.Asking.{Speaks};
ghost use Rattle.recovery_reasons.specs.Reasons.{ExplainsTruly, Fact, IsExplained, WasCrowned};

/// What a recovery came to so far has true facts: each entry of its lost, each of its drained, whom it chose and among
/// whom, and whom it promoted. They were so before the turn, or are true of its world and its book. Take whatever holds
/// for what was so and for each fact that is true of this turn. It holds for all afterwards, whether the recovery goes
/// on, is done or fails.
///
/// A recovery whose decisions leave no operation chooses its new source, and found nobody. So a takeover always has an
/// operation. One that is done has lost nobody because none of the drained may be promoted. A master's recovery that is
/// done has looked for a better one than the chosen one. That one is promoted, unless there is none, or unless the
/// change of places was given up. A recovery doesn't fail for one of its replicas that isn't reached, or if two servers
/// can't change places.
pub fn recoveries_tell_the_truth()
    ensures told { (w : World) (b : BookState) (read : ℕ) (now : AMoment) (r : Recovery)
        (P : Fact → Bool) →
        HeldRings w b.rings → HeldRecovery w r → Speaks r → ExplainsTruly w b now r P →
        IsExplained P r → IsExplained P (taken w b read now r).recovery }
    ensures speaks { (w : World) (b : BookState) (read : ℕ) (now : AMoment) (r : Recovery) →
        HeldRings w b.rings → HeldRecovery w r → Speaks r →
        is_going (taken w b read now r).step ≡ true →
        Speaks (taken w b read now r).recovery }
    ensures begun { (u : APurpose) (by : AMeans) (id wait : ℕ) (f : Number)
        (replicas order : List Number) →
        Speaks (begun_recovery u by id wait f replicas order) }
    ensures untold { (P : Fact → Bool) (u : APurpose) (by : AMeans) (id wait : ℕ) (f : Number)
        (replicas order : List Number) →
        IsExplained P (begun_recovery u by id wait f replicas order) }
    ensures nobody { (w : World) (b : BookState) (now : AMoment) (r : Recovery) → Speaks r →
        (decided (ground_of w b now) r).core.ops ≡ [] →
        HasNobody w b now r (decided (ground_of w b now) r) }
    ensures fit { (w : World) (b : BookState) (read : ℕ) (now : AMoment) (r : Recovery) →
        Speaks r → (lines : List ALine) → (taken w b read now r).step ≡ step.Done lines →
        AllFit (taken w b read now r).recovery.outcome.lost }
    ensures crowned { (w : World) (b : BookState) (read : ℕ) (now : AMoment) (r : Recovery)
        (P : Fact → Bool) →
        Speaks r → IsExplained P (taken w b read now r).recovery →
        (lines : List ALine) → (taken w b read now r).step ≡ step.Done lines →
        closes (taken w b read now r).recovery.stage ≡ true →
        (p : Number) → (taken w b read now r).recovery.purpose ≡ purpose.Master →
        (taken w b read now r).recovery.chosen ≡ Some p →
        WasCrowned P p (taken w b read now r).recovery.outcome.promoted }
    ensures fatal { (w : World) (u : APurpose) (s : AStage) (c : Why) →
        fate w u s c ≡ taking.Fails → CanEnd s c }
{}
