//! Unended recoveries that are done.

ghost use Rattle.std.specs.Prelude.{◌≡◌, ◌<◌, ℕ, List, All, Some, true};
ghost use Rattle.unended_laws.specs.Prelude.{DecidesOverAll, Decisions, Flight, HasOnePlace, IsBeginning, IsChain, IsNamedRecovery, IsTold, Keeps};
ghost use Rattle.unended_laws.specs.Prelude.{Line as ALine, MakesWell, Safe, SameAim, ServerNo as Number, Unended as AnUnended, ground_of, is_going, times};
ghost use Rattle.unended_laws.specs.Flights.{HeldJobs, SoundJobs};
ghost use Rattle.unended_jobs.specs.RecoveryPlans.Recoveries.{Recovery};
ghost use Rattle.unended_laws.specs.Prelude.purpose;
ghost use Rattle.unended_laws.specs.CoveredFlights.{CoveredJobs, KeptJobs, SpeakingJobs};
ghost use Rattle.unended_laws.specs.Turns.{IsDoneIn, IsNamedOutcome, RecoveryTurn, outcome_then, recovery_then, taken_in, world_then};
ghost use Rattle.unended_laws.specs.Upkeep.{SparesItsMaster};

/// A turn leaves a recovery its purpose, its failed server and its replicas. One in which it is done leaves these
/// replicas covered, with the outcome's lines, each in one place. Its followers are a chain only after a swap. The
/// servers of the outcome are there. If it decides whom to choose each replica is drained, or lost, and before it hands
/// over the first. A turn after which it goes on changes what it may. Nothing is asked of a takeover's master but to
/// refuse writes, and it is attached only when the designated one takes its place.
pub fn finished_recoveries_cover()
    ensures aim { (f : Flight) (us : List AnUnended) (t : RecoveryTurn f us) →
        SameAim t.recovery (recovery_then f us t) }
    ensures told { (f : Flight) (us : List AnUnended) (t : RecoveryTurn f us)
        (lines : List ALine) →
        IsDoneIn f us t lines → HeldJobs f us → CoveredJobs f us →
        IsTold (world_then f us t) (recovery_then f us t) lines }
    ensures chain { (f : Flight) (us : List AnUnended) (t : RecoveryTurn f us)
        (lines : List ALine) →
        IsDoneIn f us t lines → HeldJobs f us → CoveredJobs f us → IsChain (recovery_then f us t) }
    ensures placed { (f : Flight) (us : List AnUnended) (t : RecoveryTurn f us)
        (lines : List ALine) →
        IsDoneIn f us t lines → HeldJobs f us → CoveredJobs f us →
        (n : ℕ) → 0 < times n t.recovery.replicas →
        HasOnePlace t.recovery.purpose (outcome_then f us t) n }
    ensures named { (f : Flight) (us : List AnUnended) (t : RecoveryTurn f us)
        (lines : List ALine) (count : ℕ) →
        IsDoneIn f us t lines → HeldJobs f us → CoveredJobs f us →
        IsNamedRecovery count t.recovery → IsNamedOutcome count (outcome_then f us t) }
    ensures chooses { (f : Flight) (us : List AnUnended) (t : RecoveryTurn f us)
        (d : Recovery) →
        HeldJobs f us → CoveredJobs f us →
        Decisions (ground_of f.world t.book t.at_moment) t.recovery d → DecidesOverAll d }
    ensures changes { (f : Flight) (us : List AnUnended) (t : RecoveryTurn f us) →
        HeldJobs f us → CoveredJobs f us → is_going (taken_in f us t).step ≡ true →
        MakesWell f.world (ground_of f.world t.book t.at_moment) t.recovery
        (taken_in f us t).exchanges }
    ensures spares { (f : Flight) (us : List AnUnended) (t : RecoveryTurn f us) →
        HeldJobs f us → CoveredJobs f us → SpeakingJobs us →
        is_going (taken_in f us t).step ≡ true →
        SparesItsMaster (ground_of f.world t.book t.at_moment) t.recovery
        (taken_in f us t).exchanges }
{}

/// If an unended recovery is done in a `Safe` world the promoted server has what each that might have been chosen had
/// when it was drained. What the old master of a takeover has is a prefix of what the designated one has.
pub fn finished_recoveries_keep_histories()
    ensures promoted { (f : Flight) (us : List AnUnended) (t : RecoveryTurn f us)
        (lines : List ALine) (n : Number) →
        IsDoneIn f us t lines → HeldJobs f us → SoundJobs f us → CoveredJobs f us →
        KeptJobs f us → Safe (world_then f us t) → (outcome_then f us t).promoted ≡ Some n →
        All (λ s. Keeps (world_then f us t) t.recovery.failed.0 s.exec n.0)
        (recovery_then f us t).eligible }
    ensures old { (f : Flight) (us : List AnUnended) (t : RecoveryTurn f us)
        (lines : List ALine) (d : Number) →
        IsDoneIn f us t lines → HeldJobs f us → CoveredJobs f us →
        Safe (world_then f us t) → t.recovery.purpose ≡ purpose.Takeover d →
        IsBeginning (world_then f us t) t.recovery.failed.0 d.0 }
{}
