//! The call that does what the command line asks, except for a run in threads.

ghost use Rattle.std.specs.Prelude.{◌≡◌, ◌≤◌, ◌⊎◌, ℕ, List, [], codes, map, IfSome, Ok};
ghost use Rattle.top_call.specs.Prelude.{AskOfRead, Consumes, Drawing, HasKeepersCause, IsDrawn, IsScenario, IsTaken, Rose};
ghost use Rattle.top_call.specs.Prelude.{TakesLine, Tells, across, names_of, task_of};
ghost use Rattle.top_call.specs.Ends.{AskToDraw, DrawEnds, EndsBy, EndsOf, EndsOver, FaultsOf, IfDrawn, IsComplete, IsGood, IsReported, IsUsage, NoneRose, ReadsWhole, FailsByKeeper, UsageOf, call, status_of};
ghost use Rattle.top_call.specs.Faults.{fault_text};
ghost use Rattle.top_call.specs.Reads.{OfRead};
ghost use Rattle.top_call.specs.Report.{ByReport, EndsAs, KeepsRows, WritesErr, WritesOut};
ghost use Rattle.top_call.specs.Promises.{Promises};

use crate::fault::fault_line;
use crate::instance_keeper_items::Keeper;
use crate::orch_base::{Sink, Source, write_all};
use crate::parsed::Parsed;
use crate::reading::{Stop, scenario_from};
use crate::scenarios_items::Scenario;
use crate::way::Way;
use command_line::{Drawing, Places, Usage};
use scenario_generator::{NotWritten, write_scenario};
use scenario_reader::Fault;
use std::alloc::Global;
use tasks::{Ending, task_of, task_report};

/// Writes a line, as far as the sink takes it.
pub fn close<E: Sink>(err: &mut E, line: &[u8])
    ensures took { TakesLine
        (across (E.written err.old) (E.faults err.old) (E.written err.new) (E.faults err.new))
        line.now }
    ensures later { E.faults err.old ≤ E.faults err.new }
{
    match write_all(err, line) {
        Ok(()) => {}
        Err(_) => {}
    }
}

// Does what the command line asks with the scenario, and writes the report.
fn task_ending<O: Sink, E: Sink, K: Keeper>(
    alloc: Global,
    places: &Places,
    scenario: &Scenario,
    out: &mut O,
    err: &mut E,
    keeper: &mut K,
) -> Ending
    requires words { IsTaken places.now }
    requires asks { AskOfRead places.now }
    requires scenario { IsScenario scenario.now }
    ensures tells { Tells (record {
      task = task_of places.now (names_of scenario.now);
      scenario = scenario.now;
      old = K.kept keeper.old;
      new = K.kept keeper.new;
    })
        (across (O.written out.old) (O.faults out.old) (O.written out.new) (O.faults out.new))
        (across (E.written err.old) (E.faults err.old) (E.written err.new) (E.faults err.new))
        result }
    ensures cause { HasKeepersCause (K.faults keeper.old) (K.faults keeper.new) result }
    ensures later { E.faults err.old ≤ E.faults err.new }
{
    let names = scenario.opening.names();
    match task_of(alloc, places, names) {
        Ok(task) => task_report(alloc, &task, names, scenario, out, err, keeper),
        Err(_) => Ending::Memory,
    }
}

// Does what the command line asks with the scenario.
fn report<O: Sink, E: Sink, K: Keeper>(
    alloc: Global,
    places: &Places,
    scenario: &Scenario,
    out: &mut O,
    err: &mut E,
    keeper: &mut K,
) -> Way
    requires words { IsTaken places.now }
    requires asks { AskOfRead places.now }
    requires scenario { IsScenario scenario.now }
    ensures ends { EndsOver places.now scenario.now (K.kept keeper.old) (K.kept keeper.new)
        (across (O.written out.old) (O.faults out.old) (O.written out.new) (O.faults out.new))
        (across (E.written err.old) (E.faults err.old) (E.written err.new) (E.faults err.new))
        result }
    ensures sink { result ≡ Way.Sink → Rose (O.faults out.old) (O.faults out.new)
        ⊎ Rose (E.faults err.old) (E.faults err.new) }
    ensures keeper { FailsByKeeper (K.faults keeper.old) (K.faults keeper.new) (status_of result) }
    ensures not_source { result ≡ Way.Source → ⊥ }
    ensures not_usage { result ≡ Way.Usage → ⊥ }
{
    match task_ending(alloc, places, scenario, out, err, keeper) {
        Ending::Written(refused) => Way::Reported(refused),
        Ending::Unwritten => {
            close(err, b"write fault\n");
            Way::Sink
        }
        Ending::Keeper => {
            close(err, b"keeper fault\n");
            Way::Keeper
        }
        Ending::Memory => {
            close(err, b"out of memory\n");
            Way::Memory
        }
    }
}

/// Writes the line of a scenario's fault, as far as the sink takes it.
pub fn close_fault<E: Sink>(alloc: Global, err: &mut E, fault: &Fault) -> Way
    ensures { ((result ≡ Way.Fault) × TakesLine
        (across (E.written err.old) (E.faults err.old) (E.written err.new) (E.faults err.new))
        (fault_text fault.now))
        ⊎ ((result ≡ Way.Memory) × TakesLine
        (across (E.written err.old) (E.faults err.old) (E.written err.new) (E.faults err.new))
        (codes "out of memory\n")) }
{
    match fault_line(alloc, fault) {
        Ok(line) => {
            close(err, &line);
            Way::Fault
        }
        Err(_) => {
            close(err, b"out of memory\n");
            Way::Memory
        }
    }
}

// Answers an accepted command line that asks something of a scenario that is read.
fn answer<S: Source, O: Sink, E: Sink, K: Keeper>(
    alloc: Global,
    places: &Places,
    source: &mut S,
    out: &mut O,
    err: &mut E,
    keeper: &mut K,
) -> Way
    requires words { IsTaken places.now }
    requires asks { AskOfRead places.now }
    ensures ends { EndsOf (Ok places.now) (S.left source.old) (K.kept keeper.old) (K.kept keeper.new)
        (across (O.written out.old) (O.faults out.old) (O.written out.new) (O.faults out.new))
        (across (E.written err.old) (E.faults err.old) (E.written err.new) (E.faults err.new))
        result }
    ensures not_usage { result ≡ Way.Usage → ⊥ }
    ensures source { result ≡ Way.Source → Rose (S.faults source.old) (S.faults source.new) }
    ensures sink { result ≡ Way.Sink → Rose (O.faults out.old) (O.faults out.new)
        ⊎ Rose (E.faults err.old) (E.faults err.new) }
    ensures keeper { FailsByKeeper (K.faults keeper.old) (K.faults keeper.new) (status_of result) }
    ensures read { IsReported result
        → IfSome (S.left source.old)
        (λ bytes. Consumes (S.left source.old) (S.left source.new) bytes) }
{
    match scenario_from(alloc, source) {
        Ok(scenario) => report(alloc, places, &scenario, out, err, keeper),
        Err(Stop::Memory) => {
            close(err, b"out of memory\n");
            Way::Memory
        }
        Err(Stop::Source) => {
            close(err, b"read fault\n");
            Way::Source
        }
        Err(Stop::Fault(fault)) => close_fault(alloc, err, &fault),
    }
}

// Draws a scenario, and writes it on out.
fn draw<O: Sink, E: Sink>(alloc: Global, drawing: Drawing, out: &mut O, err: &mut E) -> Way
    requires { IsDrawn drawing }
    ensures ends { DrawEnds drawing (status_of result)
        (across (O.written out.old) (O.faults out.old) (O.written out.new) (O.faults out.new))
        (across (E.written err.old) (E.faults err.old) (E.written err.new) (E.faults err.new)) }
    ensures way { (result ≡ Way.Drawn) ⊎ (result ≡ Way.Sink) ⊎ (result ≡ Way.Memory) }
{
    match write_scenario(alloc, drawing.seed, drawing.servers, drawing.turns, out) {
        Ok(()) => Way::Drawn,
        Err(NotWritten::Sink) => {
            close(err, b"write fault\n");
            Way::Sink
        }
        Err(NotWritten::Memory) => {
            close(err, b"out of memory\n");
            Way::Memory
        }
    }
}

/// Does what a command line asks, except for a run in threads. `orch_plain` answers its status.
pub fn respond<S: Source, O: Sink, E: Sink, K: Keeper>(
    alloc: Global,
    parsed: &Parsed,
    source: &mut S,
    out: &mut O,
    err: &mut E,
    keeper: &mut K,
) -> Way
    ensures ends { EndsOf parsed.now (S.left source.old) (K.kept keeper.old) (K.kept keeper.new)
        (across (O.written out.old) (O.faults out.old) (O.written out.new) (O.faults out.new))
        (across (E.written err.old) (E.faults err.old) (E.written err.new) (E.faults err.new))
        result }
    ensures usage { UsageOf parsed.now (status_of result) }
    ensures source { result ≡ Way.Source → Rose (S.faults source.old) (S.faults source.new) }
    ensures sink { result ≡ Way.Sink → Rose (O.faults out.old) (O.faults out.new)
        ⊎ Rose (E.faults err.old) (E.faults err.new) }
    ensures keeper { FailsByKeeper (K.faults keeper.old) (K.faults keeper.new) (status_of result) }
    ensures read { IsReported result
        → IfSome (S.left source.old)
        (λ bytes. Consumes (S.left source.old) (S.left source.new) bytes) }
    ensures drawn { IfDrawn parsed.now (λ d. DrawEnds d (status_of result)
        (across (O.written out.old) (O.faults out.old) (O.written out.new) (O.faults out.new))
        (across (E.written err.old) (E.faults err.old) (E.written err.new) (E.faults err.new))) }
    ensures unread { IfDrawn parsed.now (λ d. source.new ≡ source.old) }
    ensures unkept { IfDrawn parsed.now (λ d. keeper.new ≡ keeper.old) }
{
    match parsed.places() {
        Ok(places) => match places.drawing() {
            Some(drawing) => draw(alloc, drawing, out, err),
            None => answer(alloc, places, source, out, err, keeper),
        },
        Err(Usage::BadWords) => {
            close(err, b"usage\n");
            Way::Usage
        }
        Err(Usage::Memory) => {
            close(err, b"out of memory\n");
            Way::Memory
        }
    }
}

/// Does what the command line asks with the scenario that the source has. Writes the report on out and what went wrong
/// on err, and answers the program's status.
///
/// What orchestrator knows is in the row store: the run begins with its rows, and each change is kept before it is
/// made. If the command line asks to draw a scenario, that is written on out, and neither the source nor the row store
/// is called. It waits for no other thread: a command line with `live` is done as one with `run`. The status is:
///
/// - 0: the report is written, and no reply in it is refused or failed. Or a run's summary or a drawn scenario is
///   written.
/// - 1: the command line isn't accepted; `usage` on err.
/// - 2: the scenario has a fault; `scenario fault CODE NAME PATH` on err.
/// - 3: the source failed; `read fault` on err.
/// - 4: a sink failed that was to take the report, err before out; all turns were taken, or the row store failed, too;
///   `write fault` on err.
/// - 5: the row store failed; out took the replies of a run before that turn, which changed nothing; `keeper fault` on
///   err.
/// - 6: out of memory; out took a prefix of a run's replies, or of what is drawn; `out of memory` on err.
/// - 7: the report is written, and a reply in it is refused or failed; of a single command that reply is on err.
///
/// If the servers after a single command are asked for, they are on out, and what it is answered is on err, with 0 too.
/// If err fails in any other case than 4, it has a prefix of its line, and the status is the same.
pub fn orch_plain<S: Source, O: Sink, E: Sink, K: Keeper>(
    alloc: Global,
    words: &[Vec<u8>],
    scenario: &mut S,
    out: &mut O,
    err: &mut E,
    keeper: &mut K,
) -> u8
    // 1 exactly if the command line isn't accepted. 2 exactly if it is, asks something of a scenario that is read, and
    // that has a fault. Except for 3 and 6.
    ensures usage { IsUsage (map (λ w. w.items) words.now) result }
    ensures fault { FaultsOf (map (λ w. w.items) words.now) (S.left scenario.old) result }

    // 3, 4 and 5 only if a count of faults rose: the source's, a sink's, the row store's. That of the row store never
    // falls, and stays with 1, 2 and 3. 0 and 7 only if the source was read to its end, or the command line asks to
    // draw a scenario.
    ensures source { result ≡ 3 → Rose (S.faults scenario.old) (S.faults scenario.new) }
    ensures sink { result ≡ 4 → Rose (O.faults out.old) (O.faults out.new)
        ⊎ Rose (E.faults err.old) (E.faults err.new) }
    ensures keeper { FailsByKeeper (K.faults keeper.old) (K.faults keeper.new) result }
    ensures read { IfSome (S.left scenario.old) (λ bytes. ReadsWhole
        (map (λ w. w.items) words.now) bytes result (S.left scenario.old) (S.left scenario.new)) }

    // If it does, that is written, whatever the source has. Neither the source nor the row store is called.
    ensures drawn { (d : Drawing) → AskToDraw (map (λ w. w.items) words.now) d
        → DrawEnds d result
        (across (O.written out.old) (O.faults out.old) (O.written out.new) (O.faults out.new))
        (across (E.written err.old) (E.faults err.old) (E.written err.new) (E.faults err.new)) }
    ensures unread { (d : Drawing) → AskToDraw (map (λ w. w.items) words.now) d
        → scenario.new ≡ scenario.old }
    ensures unkept { (d : Drawing) → AskToDraw (map (λ w. w.items) words.now) d
        → keeper.new ≡ keeper.old }

    // What out and err took and what the row store has, by the status: exactly, whether the row store's rows are known
    // or not. It is about the source's bytes if they are known. Else it is about some bytes.
    ensures ends { OfRead (S.left scenario.old) (λ bytes.
        EndsBy (call (map (λ w. w.items) words.now) bytes (K.kept keeper.old) (K.kept keeper.new)
        (across (O.written out.old) (O.faults out.old) (O.written out.new) (O.faults out.new))
        (across (E.written err.old) (E.faults err.old) (E.written err.new) (E.faults err.new)))
        result) }

    // If the source's bytes and the row store's rows are known, all of it against the report. The report is a function
    // of the arguments, the bytes and the rows. That is the status, what out and err took, and the rows that are kept.
    ensures status { ByReport (map (λ w. w.items) words.now) (S.left scenario.old)
        (K.kept keeper.old) (λ rows r. EndsAs r result) }
    ensures out { ByReport (map (λ w. w.items) words.now) (S.left scenario.old) (K.kept keeper.old)
        (λ rows r. WritesOut r result
        (across (O.written out.old) (O.faults out.old) (O.written out.new) (O.faults out.new))) }
    ensures err { ByReport (map (λ w. w.items) words.now) (S.left scenario.old) (K.kept keeper.old)
        (λ rows r. WritesErr r result
        (across (E.written err.old) (E.faults err.old) (E.written err.new) (E.faults err.new))) }
    ensures kept { ByReport (map (λ w. w.items) words.now) (S.left scenario.old) (K.kept keeper.old)
        (λ rows r. KeepsRows r result rows (K.kept keeper.new)) }

    // If no count rose, the whole report of a good command line and good, known bytes is written, or memory ran out.
    ensures complete { IfSome (S.left scenario.old) (λ bytes.
        IsGood (map (λ w. w.items) words.now) bytes
        → NoneRose (S.faults scenario.old) (S.faults scenario.new) (K.faults keeper.old)
        (K.faults keeper.new)
        (across (O.written out.old) (O.faults out.old) (O.written out.new) (O.faults out.new))
        (across (E.written err.old) (E.faults err.old) (E.written err.new) (E.faults err.new))
        → IsComplete result) }

    // Whatever bytes the source has, even if they aren't known. This is what is promised for every run of the command
    // line's turns over the scenario that they are. It holds for the report's run too, whatever rows the row store
    // hands back.
    ensures promises { (bytes : List ℕ) → Promises (map (λ w. w.items) words.now) bytes }
{
    let parsed = Parsed::read(alloc, words);
    respond(alloc, &parsed, scenario, out, err, keeper).status()
}
