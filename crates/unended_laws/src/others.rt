//! Unended jobs while others take their turns.

ghost use Rattle.std.specs.Prelude.{List, []};
ghost use Rattle.unended_laws.specs.Prelude.{Flight, IsQuiet, MayPass, Passage, Restarting, Unended as AnUnended, passed};
ghost use Rattle.unended_laws.specs.Flights.{HeldJobs, SoundJobs};
ghost use Rattle.unended_laws.specs.Passages.{IsApart};

/// What begins no job, is no job's turn and no restart leaves all with `Held`, and with `Sound` if there are no errant
/// writes afterwards.
pub fn unended_jobs_stay()
    ensures held { (f : Flight) (us : List AnUnended) (p : Passage) → MayPass f p → IsApart p →
        HeldJobs f us → HeldJobs (passed f p) us }
    ensures sound { (f : Flight) (us : List AnUnended) (p : Passage) → MayPass f p → IsApart p →
        IsQuiet (passed f p).world → HeldJobs f us → SoundJobs f us → SoundJobs (passed f p) us }
{}

/// A restart leaves no job. All else that is kept has `Held`, and `Sound` if it had it.
pub fn restarts_leave_no_job()
    ensures held { (f : Flight) (us : List AnUnended) → HeldJobs f us →
        HeldJobs (passed f Restarting) [] }
    ensures sound { (f : Flight) (us : List AnUnended) → SoundJobs f us →
        SoundJobs (passed f Restarting) [] }
{}
