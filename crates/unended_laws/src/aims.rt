//! What unended recoveries are about.

ghost use Rattle.std.specs.Prelude.{◌≡◌, ◌∷◌, ◌++◌, ℕ, List, Option, []};
ghost use Rattle.unended_laws.specs.Prelude.{BookState, Flight, Moment as AMoment, SameAim, Unended as AnUnended, flown, job_at, jobs_turned, option_map};
ghost use Rattle.unended_laws.specs.Flights.{HeldJobs};
ghost use Rattle.unended_jobs.specs.RecoveryPlans.Recoveries.{Recovery};
ghost use Rattle.unended_laws.specs.CoveredBeside.{IsAimedBeside};
ghost use Rattle.unended_laws.specs.CoveredFlights.{AimedJobs};
ghost use Rattle.unended_laws.specs.Turns.{RecoveryTurn, recovery_then};

/// A recovery keeps its number and what it is about, from its start to its last turn: purpose, failed server, replicas,
/// and those that it reports.
pub fn aims_stay_in_flight()
    ensures begun { (begun : ℕ → Recovery) (us : List AnUnended) (u : AnUnended) →
        IsAimedBeside begun u → AimedJobs begun us → AimedJobs begun (us ++ u ∷ []) }
    ensures none { (begun : ℕ → Recovery) → AimedJobs begun [] }
    ensures turned { (begun : ℕ → Recovery) (f : Flight) (us : List AnUnended) (b : BookState)
        (id read : ℕ) (now : AMoment) →
        f.rings ≡ b.rings → HeldJobs f us → AimedJobs begun us → AimedJobs begun
        (jobs_turned us id (option_map (flown f.world b read now) (job_at us id))) }
    ensures last { (begun : ℕ → Recovery) (f : Flight) (us : List AnUnended)
        (t : RecoveryTurn f us) →
        HeldJobs f us → AimedJobs begun us → SameAim (begun t.id) (recovery_then f us t) }
{}
