//! Runs of turns, with jobs.

ghost use Rattle.std.specs.Prelude.{List};
ghost use Rattle.job_laws.specs.Prelude.{IsQuiet};
ghost use Rattle.job_laws.specs.Flights.{Flight, Held, Sound};
ghost use Rattle.job_laws.specs.Passages.{Passage, passed, MayPass, PassesWell, passing, AllMayPass, AllPassWell};

/// Each turn keeps `Held`, with errant writes or without, and `Sound` if there are none afterwards. So every state of a
/// run has `Held`, and every one without errant writes has `Sound`.
pub fn runs_are_sound()
    ensures held { (f : Flight) (p : Passage) → MayPass f p → Held f → Held (passed f p) }
    ensures sound { (f : Flight) (p : Passage) → MayPass f p → PassesWell f p →
        IsQuiet (passed f p).world → Held f → Sound f → Sound (passed f p) }
    ensures run_held { (f : Flight) (ps : List Passage) → AllMayPass f ps → Held f →
        Held (passing f ps) }
    ensures run_sound { (f : Flight) (ps : List Passage) → AllMayPass f ps → AllPassWell f ps →
        IsQuiet (passing f ps).world → Held f → Sound f → Sound (passing f ps) }
{}
