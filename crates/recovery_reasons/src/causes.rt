//! The meaning of a job's cause.

ghost use Rattle.std.specs.Prelude.{◌≡◌, ℕ, List, Option, Some};
ghost use Rattle.recovery_reasons.specs.Prelude.{Cause as Why, Deed, Job, Match, Moment as AMoment, Observation as AnObservation, Op as AnOp};
ghost use Rattle.recovery_reasons.specs.Prelude.{ServerNo as Number, Stops, World, by_deed, spoken_to};
ghost use Rattle.recovery_reasons.specs.Causes.{IsMatchCause, IsTrueOf};

/// If an operation stops its job, the cause names the server that it worked on, and is true of it in that turn's world.
/// That of a match is why the logs of the two don't match in that world.
pub fn causes_are_true()
    ensures alone { (w : World) (read : ℕ) (now : AMoment) (j : Job) (rest : List AnOp) (d : Deed)
        (n : Number) (c : Why) (o : Option AnObservation) →
        spoken_to d ≡ Some n → by_deed w read now j rest d ≡ Stops c o → IsTrueOf w n c }
    ensures matches { (w : World) (read : ℕ) (now : AMoment) (j : Job) (rest : List AnOp)
        (n m : Number) (every : ℕ) (c : Why) (o : Option AnObservation) →
        by_deed w read now j rest (Match n m every) ≡ Stops c o →
        IsMatchCause w n m every c }
{}
