//! What a turn of a recovery leaves of what the next one requires.

ghost use Rattle.std.specs.Prelude.{◌≡◌, ◌<◌, ◌==◌, ℕ, All, Contains, List, Some, find, true};
ghost use Rattle.recovery_plans.specs.Prelude.{AllAllowed, BookState, Line as ALine, Moment as AMoment, ServerNo as Number, World, is_going};
ghost use Rattle.recovery_plans.specs.Beginning.{begun_recovery};
ghost use Rattle.recovery_plans.specs.Moves.{Turning};
ghost use Rattle.recovery_plans.specs.Named.{IsListOf, IsNamedRecovery};
ghost use Rattle.recovery_plans.specs.Deciding.{sort, why_of};
ghost use Rattle.recovery_plans.specs.Recoveries.{Outcome, Recovery};
ghost use Rattle.recovery_plans.specs.Taking.{taken};
ghost use Rattle.recovery_plans.specs.Telling.{lost_line};
ghost use Rattle.recovery_plans.specs.Whys.{cause_of};
ghost use Rattle.recovery_plans.specs.declared.outcome.LostReplica.{LostReplica as Left};
ghost use Rattle.recovery_plans.specs.declared.task.Task.{Task as ATask};
ghost use Rattle.recovery_plans.specs.declared.why.Miss.{Miss as AMiss};
ghost use Rattle.recovery_plans.specs.declared.why.Why.{Why as AWhy};
ghost use Rattle.recovery_plans.specs.declared.means.Means.{Means as AMeans};
ghost use Rattle.recovery_plans.specs.declared.purpose.Purpose.{Purpose as APurpose};

/// A recovery names servers that are there, from its start on, through each turn after which it goes on.
pub fn recoveries_stay_named()
    ensures begun { (count : ℕ) (u : APurpose) (by : AMeans) (id wait : ℕ)
        (f : Number) (replicas order : List Number) →
        All (λ n. n.0 < count) replicas → f.0 < count →
        IsListOf (λ n. n < count) (λ n. n < count) u f →
        IsNamedRecovery count (begun_recovery u by id wait f replicas order) }
    ensures turn { (count : ℕ) (w : World) (b : BookState) (read : ℕ) (now : AMoment)
        (r : Recovery) →
        IsNamedRecovery count r → is_going (taken w b read now r).step ≡ true →
        IsNamedRecovery count (taken w b read now r).recovery }
    ensures number { (count : ℕ) (w : World) (b : BookState) (read : ℕ) (now : AMoment)
        (r : Recovery) →
        IsNamedRecovery count r → is_going (taken w b read now r).step ≡ true →
        (taken w b read now r).recovery.core.id ≡ r.core.id }
{}

/// Each exchange of a turn is allowed in the world to which those before it led, whatever the recovery saw and whatever
/// the servers' states are. An attachment's coordinate has a place in the log of its new source.
pub fn recoveries_are_allowed()
    ensures { (w : World) (b : BookState) (read : ℕ) (now : AMoment) (r : Recovery) →
        AllAllowed w (taken w b read now r).exchanges }
{}

/// Each turn of a recovery is a walk. First decisions, each under its guard. Then at most one operation, in the same
/// world. In the world after its exchanges comes what its end makes of the recovery.
pub fn turns_are_walks()
    ensures { (w : World) (b : BookState) (read : ℕ) (now : AMoment) (r : Recovery) →
        Turning w b read now r (taken w b read now r) }
{}

/// In a regroup each replica that wasn't matched or attached is to be started once the others have gone their ways, and
/// its line has the cause.
pub fn unmatched_replicas_are_started()
    ensures started { (r : Recovery) (n : Number) (m : AMiss) →
        r.purpose ≡ APurpose.Regroup → Contains r.replicas n →
        why_of r.outcome.lost n ≡ Some (AWhy.Unmatched m) →
        Contains (sort r).queue (ATask.Releasing n) }
    ensures told { (o : Outcome) (l : Left) (m : AMiss) →
        find (λ x. x.no.0 == l.no.0) o.lost ≡ Some l → l.why ≡ AWhy.Unmatched m →
        lost_line o l.no ≡ Some (ALine.Unmatched l.no (cause_of l.no m)) }
{}
