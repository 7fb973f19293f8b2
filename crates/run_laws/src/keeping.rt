//! Laws of the kept rows through runs.

ghost use Rattle.run_laws.specs.Following.{OpeningAuditsAreFollowed, OpeningsAreFollowed, RestartsLoadAll, RunAuditsAreFollowed, RunClaimsAreFollowed, RunsAreFollowed, TurnAuditsAreFollowed, TurnsAreFollowed};

/// The kept rows follow what orchestrator knows, if nobody else changes them. Under each table and key for which the
/// book has a row that row is kept. Under any other of its tables only rows that don't count are kept. So it is at the
/// opening, each turn with its changes keeps it so, and so it is after every run.
///
/// They follow the recoveries, too, as they begin, end and are acknowledged. Under each id of which there is one that
/// one is kept, and under any other id only what doesn't count. So a restart loads the audit whole. The row of the
/// claim is the kept claim's, or none if none is kept. Ids only have to fit their type.
pub fn kept_rows_follow()
    ensures opening { OpeningsAreFollowed }
    ensures turn { TurnsAreFollowed }
    ensures run { RunsAreFollowed }
    ensures opening_audit { OpeningAuditsAreFollowed }
    ensures turn_audit { TurnAuditsAreFollowed }
    ensures run_audit { RunAuditsAreFollowed }
    ensures run_claim { RunClaimsAreFollowed }
    ensures restart { RestartsLoadAll }
{}
