//! Turns of jobs by their numbers.

ghost use Rattle.std.specs.Prelude.{◌≡◌, ℕ, Bool, List, Option};
ghost use Rattle.unended_laws.specs.Prelude.{AllMayPass, AllPassWell, BookState, Flight, IsQuiet, Moment as AMoment, Observation as Reading};
ghost use Rattle.unended_laws.specs.Prelude.{Unended as AnUnended, flown, job_at, jobs_turned, option_map, passing};
ghost use Rattle.unended_laws.specs.Flights.{HeldJobs, SoundJobs};
ghost use Rattle.unended_laws.specs.Passages.{passages_by};

/// The turn of a job's number leaves all with `Held`, and with `Sound` if there are no errant writes afterwards,
/// whichever readings are stored. If there is no such job nothing happens.
pub fn numbered_turns_pass()
    ensures may { (f : Flight) (us : List AnUnended) (b : BookState) (id read : ℕ) (now : AMoment)
        (keeps : Option Reading → Bool) →
        f.rings ≡ b.rings → HeldJobs f us →
        AllMayPass f (passages_by f.world b read now keeps id (job_at us id)) }
    ensures held { (f : Flight) (us : List AnUnended) (b : BookState) (id read : ℕ) (now : AMoment)
        (keeps : Option Reading → Bool) →
        f.rings ≡ b.rings → HeldJobs f us →
        HeldJobs (passing f (passages_by f.world b read now keeps id (job_at us id)))
        (jobs_turned us id (option_map (flown f.world b read now) (job_at us id))) }
    ensures well { (f : Flight) (us : List AnUnended) (b : BookState) (id read : ℕ) (now : AMoment)
        (keeps : Option Reading → Bool) →
        f.rings ≡ b.rings → HeldJobs f us → SoundJobs f us →
        AllPassWell f (passages_by f.world b read now keeps id (job_at us id)) }
    ensures sound { (f : Flight) (us : List AnUnended) (b : BookState) (id read : ℕ)
        (now : AMoment) (keeps : Option Reading → Bool) →
        f.rings ≡ b.rings → HeldJobs f us → SoundJobs f us →
        IsQuiet (passing f (passages_by f.world b read now keeps id (job_at us id))).world →
        SoundJobs (passing f (passages_by f.world b read now keeps id (job_at us id)))
        (jobs_turned us id (option_map (flown f.world b read now) (job_at us id))) }
{}
