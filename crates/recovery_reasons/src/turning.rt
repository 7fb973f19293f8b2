//! What single turns of recoveries do.

ghost use Rattle.std.specs.Prelude.{◌≡◌, ◌∷◌, ℕ, All, Bool, List, [], true};
ghost use Rattle.recovery_reasons.specs.Prelude.{BookState, Cause as Why, HeldRecovery, HeldRings, Line as ALine, Moment as AMoment, Op as AnOp};
ghost use Rattle.recovery_reasons.specs.Prelude.{Recovery, ServerNo as Number, Way as AWay, World, decided, ground_of, is_going, server_of, taken};
ghost use Rattle.recovery_reasons.specs.Prelude.op;
ghost use Rattle.recovery_reasons.specs.Prelude.stage;
ghost use Rattle.recovery_reasons.specs.Prelude.step;
ghost use Rattle.recovery_reasons.specs.Attaching.{AttachesAsSent, IsTriedNow};
ghost use Rattle.recovery_reasons.specs.Changing.{IsIts};
ghost use Rattle.recovery_reasons.specs.Asking.{AsksAsDue, Speaks};
ghost use Rattle.recovery_reasons.specs.Reasons.{ExplainsTruly, Fact, IsExplained};
ghost use Rattle.recovery_reasons.specs.Undoing.{KeepsHands, OpensAgain, StartsHands};
ghost use Rattle.recovery_reasons.specs.Waiting.{BeginsWhole, WaitsItsTurns};

/// Each attachment of a turn is the one by which its replica was sent, or by which two servers change places. What it
/// answers becomes of the replica: it is below its new source, or is lost for that. Only one that would be below itself
/// ends the recovery.
///
/// Each wait ends in the turn whose status shows that the server is there, else in the last one that the job has, and
/// never before. The server is stopped next. A stage that waits does all its operations, one after another. Another
/// replica of a takeover goes on by what its readings show.
///
/// Whom the job stopped and didn't start again is started by the turn in which the recovery fails. If that is a
/// takeover that has closed its master, that one takes writes again, until it is below the designated one. If it was to
/// go below it in this turn, the designated one goes back below it and is started.
///
/// No turn changes another server than its replicas, and in a takeover the master and the designated one. A turn after
/// which the recovery goes on starts and stops only whom its stage starts and stops. It starts only those lost ones
/// that are to be started.
pub fn recoveries_turn_well()
    ensures attaches { (w : World) (b : BookState) (read : ℕ) (now : AMoment) (r : Recovery)
        (P : Fact → Bool) →
        HeldRings w b.rings → HeldRecovery w r → Speaks r → ExplainsTruly w b now r P →
        IsExplained P r → is_going (taken w b read now r).step ≡ true →
        AttachesAsSent P (ground_of w b now) r (taken w b read now r).exchanges }
    ensures changes { (w : World) (b : BookState) (read : ℕ) (now : AMoment) (r : Recovery) →
        Speaks r → All (λ e. IsIts r.purpose r.failed r.replicas (server_of e))
        (taken w b read now r).exchanges }
    ensures answered { (w : World) (b : BookState) (read : ℕ) (now : AMoment) (r : Recovery)
        (n : Number) (y : AWay) (o : AnOp) →
        HeldRings w b.rings → HeldRecovery w r → Speaks r →
        (decided (ground_of w b now) r).stage ≡ stage.Move n y →
        (decided (ground_of w b now) r).core.ops ≡ o ∷ op.Start n ∷ [] →
        IsTriedNow w (decided (ground_of w b now) r) n y (taken w b read now r) }
    ensures waits { (w : World) (b : BookState) (read : ℕ) (now : AMoment) (r : Recovery) →
        Speaks r → WaitsItsTurns w (decided (ground_of w b now) r) (taken w b read now r) }
    ensures asks { (w : World) (b : BookState) (read : ℕ) (now : AMoment) (r : Recovery) →
        HeldRings w b.rings → HeldRecovery w r → Speaks r →
        is_going (taken w b read now r).step ≡ true →
        AsksAsDue (ground_of w b now) r (taken w b read now r).exchanges }
    ensures begins { (w : World) (b : BookState) (read : ℕ) (now : AMoment) (r : Recovery) →
        HeldRings w b.rings → HeldRecovery w r → Speaks r →
        is_going (taken w b read now r).step ≡ true →
        BeginsWhole (ground_of w b now) r (taken w b read now r) }
    ensures hands { (w : World) (b : BookState) (read : ℕ) (now : AMoment) (r : Recovery) →
        is_going (taken w b read now r).step ≡ true → KeepsHands r (taken w b read now r) }
    ensures starts { (w : World) (b : BookState) (read : ℕ) (now : AMoment) (r : Recovery)
        (c : Why) (lines : List ALine) →
        (taken w b read now r).step ≡ step.Failed c lines → StartsHands r (taken w b read now r) }
    ensures opens { (w : World) (b : BookState) (read : ℕ) (now : AMoment) (r : Recovery)
        (c : Why) (lines : List ALine) →
        (taken w b read now r).step ≡ step.Failed c lines →
        OpensAgain w (decided (ground_of w b now) r) (taken w b read now r) }
{}
