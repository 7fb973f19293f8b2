//! Laws of runs.

ghost use Rattle.run_laws.specs.Room.{NoHistoryIsFull, NoLogIsFull, SkipsNothing};
ghost use Rattle.run_laws.specs.Runs.{InEveryQuietState, InEveryState, OwnTurnsAreFew, OwnTurnsCome, QuietRunsWereQuiet};
ghost use Rattle.run_laws.specs.Prelude.{Placed, Safe};

/// From the opening state of a scenario on, each state without errant writes of each run over its servers is `Safe`. So
/// it is for the scenario's own run and for any other, whatever rows the row store hands back at the opening and at
/// each turn.
pub fn every_quiet_state_is_safe()
    ensures { InEveryQuietState (λ now. Safe now.world) }
{}

/// Each state of each run has `Placed`, with errant writes or without. No server is below itself, and every source is
/// there and logs. Both coordinates of each server with a source have places in its source's log.
pub fn every_state_is_placed()
    ensures { InEveryState (λ now. Placed now.world) }
{}

/// A scenario's own turns are turns over its servers: what holds of any run holds of the scenario's own.
pub fn own_turns_are_turns()
    ensures { OwnTurnsCome }
{}

/// If the last state of a run has no errant writes, each before it has none.
pub fn quiet_runs_were_quiet()
    ensures { QuietRunsWereQuiet }
{}

/// In a state without errant writes no applier answers that it skipped a transaction as executed before.
pub fn skipped_never_comes()
    ensures { InEveryQuietState SkipsNothing }
{}

/// In every run with at most the scenario's write turns no exchange finds a history full if the world before it has no
/// errant writes. In every run with at most its rotate turns no rotate turn finds a log without room for a new file.
/// The scenario's own turns are such a run.
pub fn full_never_comes()
    ensures histories { NoHistoryIsFull }
    ensures files { NoLogIsFull }
    ensures own { OwnTurnsAreFew }
{}
