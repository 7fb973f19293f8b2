//! Laws of what is read of servers, of time, and of how often jobs may wait.

ghost use Rattle.run_laws.specs.CheckTables.{ChecksByTable, CodesByTable, EnablesBySet, PeriodsByTable, RowsByTable};
ghost use Rattle.run_laws.specs.Moments.{JobsRise, LastJobNeverSinks, NothingIsToCome, PassesTime};
ghost use Rattle.run_laws.specs.Readings.{DiscoveriesRead, InstancesStay, JobsStore, OpeningsGiveNumbers, PollsRead, PollsStore, ReadingsNeverSink, RestartsCountOn};
ghost use Rattle.run_laws.specs.Runs.{InEveryState};
ghost use Rattle.run_laws.specs.Hands.{PlansReturn};
ghost use Rattle.run_laws.specs.Leading.{PlansLeadAsTold};
ghost use Rattle.run_laws.specs.LinesHold.{PlansHold};
ghost use Rattle.run_laws.specs.Stopping.{PlansStartAgain};
ghost use Rattle.run_laws.specs.Tables.{AttachesBySet, AttachesByTable, CountsByInstances, CountsReplicas, EndsInTime, KeepsSixteen, RunsAllServers, ServersByTable, StatusesByTable, ThreadsByTable, WritesByTable};
ghost use Rattle.run_laws.specs.Waits.{BegunMayWait, JobsMayWait};
ghost use Rattle.run_laws.specs.Prelude.{Block, BookState, Bridge, Case, Instance as AnInstance, Moment as AMoment, Server as AServer, ServerNo as Number, State, Turn, World};
ghost use Rattle.std.specs.Prelude.{List, ℕ};

/// A poll, a discovery and a look of a job read what one status of the server has then, with the next read number, and
/// it is stored. The book has it, valid exactly if the server was reached, unless it has a later reading. A reading
/// that didn't reach its server keeps what was seen before. No instance goes back to an earlier reading except by a
/// restart. Only a restart and a command that forgets it take an instance out of the book. Such a command is refused as
/// long as a job has the instance's lease. After an opening no kept number is above those that were given. A restart
/// goes on with their count, and loads no number above the greatest of the rows that count.
pub fn readings_are_stored()
    ensures polls { PollsRead }
    ensures stores { PollsStore }
    ensures discoveries { DiscoveriesRead }
    ensures jobs { JobsStore }
    ensures never_sink { ReadingsNeverSink }
    ensures stay { InstancesStay }
    ensures openings { OpeningsGiveNumbers }
    ensures restarts { RestartsCountOn }
{}

/// Only a tick lets time pass, by its seconds; a restart never turns it back, and in no state of any run a recovery
/// began or ended later than now. The numbers of unended jobs rise up to that of the last job, which never sinks.
pub fn time_and_numbers_rise()
    ensures time { (s : State) (t : Turn) → PassesTime s t }
    ensures past { InEveryState NothingIsToCome }
    ensures jobs { InEveryState JobsRise }
    ensures last { LastJobNeverSinks }
{}

/// Each operation of each job of each run may wait exactly as often as the run allows, from the job's start on. So it
/// is for a plan, a regroup, a recovery, a takeover, and for what a scan begins. What a plan has stopped is started by
/// what is left of it, except what a stop of one replica stops. So nothing else is in its hands once only its lines are
/// left.
///
/// Each line of a done command that has a server below another holds of the servers after the job's last turn. The
/// server is attached to that source, and its applier is on, without a coordinate at which it is to stop.
pub fn jobs_wait_as_told()
    ensures begun { (s : State) → BegunMayWait s }
    ensures always { JobsMayWait }
    ensures returns { PlansReturn }
    ensures holds { PlansHold }
{}

/// The tables, row by row.
/// - The analysis counts a replica as replicating exactly if it was reached, its receiver is connected and its applier
///   is on.
/// - A ring keeps the latest 16 bridges. A downtime and a registration end at their moment.
/// - A round of a single command is a turn of its job, and each server fetches, applies and is polled.
/// - A write is refused by a server that is down or read-only. One that starts again starts a replica's threads. A
///   start, a stop and an attachment drop an end of the applier. By a coordinate auto position is off.
/// - A status that reaches its server reports its source, both coordinates, its applier, auto position and read_only as
///   they are. Its receiver is connected exactly if it is on, its source is up, and it reaches that one.
/// - The plan of each command except stop-replica starts each server again that it stops. Its last change of source
///   takes each server of its lines to the source that the line names.
/// - Each plan and takeover has the checks of the permission table. They refuse exactly what the table has, except
///   those of the forest, of GTID sets, of purged files and of missing marks, which aren't in it.
/// - An analysis gives the code that reports what was counted. A cluster has the block period of its first entry. The
///   plan of enable-gtid takes its instance below its source by GTIDs.
pub fn tables_hold_row_by_row()
    ensures counts { (i : AnInstance) → CountsReplicas i }
    ensures instances { (b : BookState) (n : Number) (i : AnInstance) → CountsByInstances b n i }
    ensures rings { (ring : List Bridge) (b : Bridge) → KeepsSixteen ring b }
    ensures ends { (b : BookState) (n : Number) (now : AMoment) → EndsInTime b n now }
    ensures rounds { (s : State) (job : ℕ) → RunsAllServers s job }
    ensures writes { WritesByTable }
    ensures starts { ServersByTable }
    ensures statuses { (w : World) (n : ℕ) (s : AServer) → StatusesByTable w n s }
    ensures threads { ThreadsByTable }
    ensures attaches { AttachesByTable }
    ensures attaches_by_set { AttachesBySet }
    ensures plans { PlansStartAgain }
    ensures leads { PlansLeadAsTold }
    ensures checks { (w : World) (b : BookState) (c : Case) → ChecksByTable w b c }
    ensures rows { RowsByTable }
    ensures codes { CodesByTable }
    ensures periods { (xs : List Block) (otherwise : ℕ) (cluster : List ℕ) →
        PeriodsByTable xs otherwise cluster }
    ensures enables { EnablesBySet }
{}
