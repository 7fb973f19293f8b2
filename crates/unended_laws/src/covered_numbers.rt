//! Turns of jobs by their numbers.

ghost use Rattle.std.specs.Prelude.{◌≡◌, ℕ, Bool, List, Option};
ghost use Rattle.unended_laws.specs.Prelude.{BookState, Flight, Moment as AMoment, Observation as Reading, Unended as AnUnended, flown, job_at, jobs_turned};
ghost use Rattle.unended_laws.specs.Prelude.{option_map, passing};
ghost use Rattle.unended_laws.specs.Flights.{HeldJobs, SoundJobs};
ghost use Rattle.unended_laws.specs.Passages.{passages_by};
ghost use Rattle.unended_laws.specs.CoveredFlights.{CoveredJobs, KeptJobs, SpeakingJobs};

/// The turn of a job's number leaves all covered, the job itself too if it goes on. It leaves all kept if all was
/// `Sound`, whichever readings are stored. If there is no such job nothing happens.
pub fn covered_jobs_take_turns()
    ensures covered { (f : Flight) (us : List AnUnended) (b : BookState) (id read : ℕ)
        (now : AMoment) (keeps : Option Reading → Bool) →
        f.rings ≡ b.rings → HeldJobs f us → CoveredJobs f us →
        CoveredJobs (passing f (passages_by f.world b read now keeps id (job_at us id)))
        (jobs_turned us id (option_map (flown f.world b read now) (job_at us id))) }
    ensures kept { (f : Flight) (us : List AnUnended) (b : BookState) (id read : ℕ)
        (now : AMoment) (keeps : Option Reading → Bool) →
        f.rings ≡ b.rings → HeldJobs f us → SoundJobs f us → CoveredJobs f us → KeptJobs f us →
        KeptJobs (passing f (passages_by f.world b read now keeps id (job_at us id)))
        (jobs_turned us id (option_map (flown f.world b read now) (job_at us id))) }
    ensures speaking { (f : Flight) (us : List AnUnended) (b : BookState) (id read : ℕ)
        (now : AMoment) →
        f.rings ≡ b.rings → HeldJobs f us → SpeakingJobs us →
        SpeakingJobs (jobs_turned us id (option_map (flown f.world b read now) (job_at us id))) }
{}
