//! Turns of unended jobs.

ghost use Rattle.std.specs.Prelude.{◌≡◌, ℕ, Bool, List, Some};
ghost use Rattle.unended_laws.specs.Prelude.{BookState, Flight, IsQuiet, MayPass, Moment as AMoment, PassesWell, Unended as AnUnended, flown, job_at};
ghost use Rattle.unended_laws.specs.Prelude.{jobs_turned, passed};
ghost use Rattle.unended_laws.specs.Flights.{HeldJobs, SoundJobs};
ghost use Rattle.unended_laws.specs.Passages.{passage_of};

/// The turn of an unended job, on a book with the same bridges, leaves all with `Held`, the job itself too if it goes
/// on. It leaves all with `Sound` if there are no errant writes afterwards.
pub fn unended_jobs_take_turns()
    ensures may { (f : Flight) (us : List AnUnended) (b : BookState) (id read : ℕ) (now : AMoment)
        (keeps : Bool) (u : AnUnended) →
        job_at us id ≡ Some u → f.rings ≡ b.rings → HeldJobs f us →
        MayPass f (passage_of f.world b read now keeps id u) }
    ensures held { (f : Flight) (us : List AnUnended) (b : BookState) (id read : ℕ) (now : AMoment)
        (keeps : Bool) (u : AnUnended) →
        job_at us id ≡ Some u → f.rings ≡ b.rings → HeldJobs f us →
        HeldJobs (passed f (passage_of f.world b read now keeps id u))
        (jobs_turned us id (Some (flown f.world b read now u))) }
    ensures well { (f : Flight) (us : List AnUnended) (b : BookState) (id read : ℕ) (now : AMoment)
        (keeps : Bool) (u : AnUnended) →
        job_at us id ≡ Some u → f.rings ≡ b.rings → HeldJobs f us → SoundJobs f us →
        PassesWell f (passage_of f.world b read now keeps id u) }
    ensures sound { (f : Flight) (us : List AnUnended) (b : BookState) (id read : ℕ)
        (now : AMoment) (keeps : Bool) (u : AnUnended) →
        job_at us id ≡ Some u → f.rings ≡ b.rings → HeldJobs f us → SoundJobs f us →
        IsQuiet (passed f (passage_of f.world b read now keeps id u)).world →
        SoundJobs (passed f (passage_of f.world b read now keeps id u))
        (jobs_turned us id (Some (flown f.world b read now u))) }
{}
