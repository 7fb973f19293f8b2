//! Laws of the recoveries of runs.

ghost use Rattle.recovery_runs.specs.Prelude.{InEveryState};
ghost use Rattle.recovery_runs.specs.Looks.{RecoveriesLookBefore};
ghost use Rattle.recovery_runs.specs.Failing.{RecoveriesFailForWhatBefell};
ghost use Rattle.recovery_runs.specs.TurnsWell.{RecoveriesTurnWell};
ghost use Rattle.recovery_runs.specs.Booking.{RecoveriesBookTheirEnd};
ghost use Rattle.recovery_runs.specs.Everywhere.{EarlyTurnsStayStill, HooksAreScenarios, NextAreExplained, RecoveriesAreExplained, RecoveriesBegan, RecoveriesFailWell, RecoveriesFinishWell};

/// An unended recovery began in one of the turns of its run, a command's or a scan's, with its entry in the audit. It
/// is about what it began with, and its replicas are those that the book had attached to the failed server then.
pub fn recoveries_began()
    ensures { RecoveriesBegan }
{}

/// What a recovery came to was true of the servers and the book in one of its turns. If each fact that was true in a
/// turn of the recovery counts, all that it came to so far count. So do all to which it comes in its next turn.
///
/// One that answers a failure fails for what happened in that turn. `NoCandidate` comes only if a choice of it found
/// nobody who may be promoted, and so only from a recovery that chooses its new source. `Reachable` comes only if its
/// check reached the failed server, `Moved` if the master was seen with a source. Else its operation stopped so, or the
/// hook that was due before it ended it. In each turn whoever it chooses is chosen among all replicas that aren't lost,
/// and nobody is handed over before all are drained. A turn after which it goes on changes only what it may.
///
/// Each attachment is the one by which its replica was sent, and what it answers becomes of the replica. A wait ends by
/// the status of its turn, or as the last that the job has. A turn in which the recovery fails starts whom it stopped.
/// The master that a takeover closes, which takes writes again then, has no source.
///
/// At its end, in a master's place, a recovery looks at the promoted server, and a takeover before that at its old
/// master. Such a turn that reaches the server leaves the book so, unless the book has a later reading. The promoted
/// one has no source and takes writes. The old master is attached to the designated one.
pub fn recoveries_have_true_facts()
    ensures before { RecoveriesAreExplained }
    ensures after { NextAreExplained }
    ensures failed { InEveryState RecoveriesFailForWhatBefell }
    ensures turns { InEveryState RecoveriesTurnWell }
    ensures books { InEveryState RecoveriesBookTheirEnd }
{}

/// The turn of a run in which a recovery is done leaves nothing owed, whatever rows the row store hands back and in
/// whatever order the turns came.
pub fn recoveries_finish_well()
    ensures { RecoveriesFinishWell }
{}

/// The turn of a run in which a recovery fails answers its cause and the lines of its hooks. Until all before it have
/// run that are to, no turn of it changes a server: so none has if one of these ended it. Its hooks are the scenario's.
pub fn recoveries_tell_hooks_in_runs()
    ensures failed { RecoveriesFailWell }
    ensures still { EarlyTurnsStayStill }
    ensures own { HooksAreScenarios }
{}

/// The first turn of a dead master's or intermediate master's recovery looks at it. One that is reached ends the
/// recovery, with no hook before it, and one that isn't lets it go on. No later turn answers that it is reached. Then
/// comes a hook a turn, which goes on exactly if its exit is 0. So all had it if the recovery is done. The first turn
/// of a takeover ends it if the master isn't reached, or has a source.
pub fn recoveries_look_first()
    ensures { RecoveriesLookBefore }
{}
