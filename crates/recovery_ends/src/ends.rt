//! Recoveries end.

ghost use Rattle.std.specs.Prelude.{◌≡◌, ◌<◌, ℕ, List, true};
ghost use Rattle.recovery_plans.specs.OrchBase.declared.server.Moment.{Moment as AMoment};
ghost use Rattle.recovery_plans.specs.OrchBase.declared.server.ServerNo.{ServerNo as Number};
ghost use Rattle.recovery_plans.specs.InstanceKeeper.Book.{BookState};
ghost use Rattle.recovery_plans.specs.Operations.Turns.{is_going};
ghost use Rattle.recovery_plans.specs.ServerModel.Worlds.{World};
ghost use Rattle.recovery_plans.specs.declared.means.Means.{Means as AMeans};
ghost use Rattle.recovery_plans.specs.declared.purpose.Purpose.{Purpose as APurpose};
ghost use Rattle.recovery_plans.specs.Beginning.{begun_recovery};
ghost use Rattle.recovery_plans.specs.Recoveries.{Recovery};
ghost use Rattle.recovery_plans.specs.Taking.{taken};
ghost use Rattle.recovery_ends.specs.Ends.{IsShaped, turns_to_end};

/// A turn after which a recovery goes on leaves it fewer turns, whatever the servers and the book are. It has ended an
/// operation, or was one more of a limited number of waits.
pub fn recoveries_end()
    ensures begun { (u : APurpose) (by : AMeans) (id wait : ℕ) (f : Number)
        (replicas order : List Number) →
        IsShaped (begun_recovery u by id wait f replicas order) }
    ensures shaped { (w : World) (b : BookState) (read : ℕ) (now : AMoment) (r : Recovery) →
        IsShaped r → is_going (taken w b read now r).step ≡ true →
        IsShaped (taken w b read now r).recovery }
    ensures fewer { (w : World) (b : BookState) (read : ℕ) (now : AMoment) (r : Recovery) →
        IsShaped r → is_going (taken w b read now r).step ≡ true →
        turns_to_end (taken w b read now r).recovery < turns_to_end r }
{}
