//! Laws of the audit through runs.

ghost use Rattle.run_laws.specs.Prelude.{IsApart};
ghost use Rattle.run_laws.specs.Audits.{AnyTurnAims, AnyTurnBeginsApart, AnyTurnGivesPeriods, EachRecoveryCounts, NextNeverSinks, RestartsKeepAll, TurnsMakeAudits};
ghost use Rattle.run_laws.specs.JobEntries.{EntriesHaveJobs};
ghost use Rattle.run_laws.specs.Runs.{InEveryState, InEveryStateOf};

/// In each state of each run the audit's recoveries don't overlap, whatever rows the row store hands back. Each cluster
/// has at most one unended recovery, and ids rise below the next one. No turn lets the next id sink. Each recovery of
/// the audit counts at a restart: its servers are there, and its numbers are in their ranges. Each that isn't ended has
/// its unended job, and the entry of each unended job isn't ended: one for one, in their order.
pub fn every_audit_is_apart()
    ensures apart { InEveryState (λ now. IsApart now.audit) }
    ensures next { NextNeverSinks }
    ensures counted { InEveryStateOf EachRecoveryCounts }
    ensures jobs { InEveryState EntriesHaveJobs }
{}

/// Recoveries begin without overlap by their block periods, in every state of every run and at each turn. Each has the
/// next id and the turn's moment. Look at every recovery of its cluster that the audit has by then, with those that the
/// turn began before it. It is ended, and is acknowledged or began at least its own block period ago. Each has its
/// cluster's period by the scenario. Each was asked for in the turn, by a command that names the failed server or by a
/// scan whose analysis asks for it. Its entry has that server, its cluster's label, and its kind, by whether the book
/// has a source of it.
///
/// Except for a restart, which loads the kept rows, a turn adds no other recovery, drops none, and leaves each entry as
/// it was. The exceptions are that of its own job, which ends if the job is done or fails, and those of a cluster that
/// a command acknowledges. A restart that gets the rows by which all was kept keeps each, and ends the others as
/// interrupted.
pub fn recoveries_begin_apart()
    ensures apart { InEveryState AnyTurnBeginsApart }
    ensures periods { InEveryStateOf AnyTurnGivesPeriods }
    ensures aims { AnyTurnAims }
    ensures all { TurnsMakeAudits }
    ensures restart { InEveryStateOf RestartsKeepAll }
{}
