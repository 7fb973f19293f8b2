//! Recoveries while others take their turns.

ghost use Rattle.std.specs.Prelude.{List, []};
ghost use Rattle.unended_laws.specs.Prelude.{Flight, MayPass, Passage, Restarting, Unended as AnUnended, passed};
ghost use Rattle.unended_laws.specs.Flights.{HeldJobs};
ghost use Rattle.unended_laws.specs.Passages.{IsApart};
ghost use Rattle.unended_laws.specs.CoveredFlights.{CoveredJobs, KeptJobs, SpeakingJobs};
ghost use Rattle.unended_laws.specs.CoveredPassages.{IsOutside};

/// What is no orchestrator's exchange, no job's turn, no job's start and no restart leaves all covered. Histories stay
/// kept through exchanges of any kind.
pub fn covered_jobs_stay()
    ensures covered { (f : Flight) (us : List AnUnended) (p : Passage) → IsOutside p →
        CoveredJobs f us → CoveredJobs (passed f p) us }
    ensures kept { (f : Flight) (us : List AnUnended) (p : Passage) → MayPass f p → IsApart p →
        HeldJobs f us → KeptJobs f us → KeptJobs (passed f p) us }
{}

/// A restart leaves no recovery.
pub fn restarts_leave_none_covered()
    ensures covered { (f : Flight) → CoveredJobs (passed f Restarting) [] }
    ensures kept { (f : Flight) → KeptJobs (passed f Restarting) [] }
    ensures speaking { SpeakingJobs [] }
{}
