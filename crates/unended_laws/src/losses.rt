//! Why unended recoveries lose replicas, and whom they choose.

ghost use Rattle.std.specs.Prelude.{Bool, List};
ghost use Rattle.unended_laws.specs.Prelude.{ExplainsTruly, Fact, Flight, IsExplained, Unended as AnUnended};
ghost use Rattle.unended_laws.specs.Flights.{HeldJobs};
ghost use Rattle.unended_laws.specs.CoveredFlights.{SpeakingJobs};
ghost use Rattle.unended_laws.specs.Turns.{RecoveryTurn, recovery_then};

/// What an unended recovery came to was true before the turn, or is true of the world and the book of the turn that
/// reports it. So what holds for what was so, and for each fact that is true in this turn, holds for all afterwards.
/// That is so whether the recovery goes on, is done or fails.
pub fn facts_in_flight_are_true()
    ensures { (f : Flight) (us : List AnUnended) (t : RecoveryTurn f us)
        (P : Fact → Bool) →
        HeldJobs f us → SpeakingJobs us →
        ExplainsTruly f.world t.book t.at_moment t.recovery P →
        IsExplained P t.recovery → IsExplained P (recovery_then f us t) }
{}
