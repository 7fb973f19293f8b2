//! Laws of single turns and of openings.

ghost use Rattle.recovery_runs.specs.States.{CoveredState, KeptState, SpeakingState, TendedState};
ghost use Rattle.recovery_runs.specs.SingleTurns.{AtAnyOpening, BeginsJobsOnce, OpeningsAreAimed, RecoveriesComeOfThoseBegun, TurnsKeepAims};
ghost use Rattle.recovery_runs.specs.Prelude.{TurnKeeps, WhereHeld, WhereReady, WhereSound};

/// The jobs that a turn begins are plans, and recoveries as they begin. These have the replicas that the book has of
/// their failed servers, and none is named twice. They have the scenario's hooks, which get the failed server, except
/// for a regroup and a takeover, which run none.
pub fn turns_begin_jobs_once()
    ensures { WhereReady (λ count. BeginsJobsOnce) }
{}

/// Each recovery after a turn was there before it, or begins in it, with its number, its entry in the audit and its
/// hooks. It is about the same servers.
pub fn recoveries_come_of_those_begun()
    ensures { RecoveriesComeOfThoseBegun }
{}

/// A turn leaves each recovery with its replicas covered so far, whatever rows the row store hands back. If the state
/// has `Sound`, it also has what its chosen server is to have kept. Its operations work on the replica of which they
/// make an entry, its hooks are in order, and it is about what it began with.
pub fn turns_cover()
    ensures covered { WhereHeld (TurnKeeps CoveredState) }
    ensures kept { WhereSound (λ s t. CoveredState s → TurnKeeps KeptState s t) }
    ensures speaking { WhereHeld (TurnKeeps SpeakingState) }
    ensures tended { WhereHeld (TurnKeeps TendedState) }
    ensures aimed { TurnsKeepAims }
{}

/// So a run begins, without jobs.
pub fn openings_cover()
    ensures covered { AtAnyOpening CoveredState }
    ensures kept { AtAnyOpening KeptState }
    ensures speaking { AtAnyOpening SpeakingState }
    ensures tended { AtAnyOpening TendedState }
    ensures aimed { OpeningsAreAimed }
{}
