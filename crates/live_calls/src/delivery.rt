//! A live run, and what is written of it.

ghost use Rattle.live_calls.specs.Prelude.{HasKeepersCause, IsScenario, IsTaken, across, told_run, turns_in};
ghost use Rattle.live_calls.specs.Reports.{Delivers, LiveTells, run_report};

use crate::command_line::Places;
use crate::kept_rows_items::{Keeper, KeeperFault, Row};
use crate::orch_base::{Gate, Name, Sink};
use crate::orch_core_items::Engine;
use crate::rows::keep_rows;
use crate::scenarios_items::Scenario;
use crate::tasks::{Ending, journal_report};
use crate::turns::{Reply, Turn};
use live_desk::{Ended, live_to_end};
use schedules::schedule_text;
use std::alloc::Global;
use std::sync::Wait;
use std::thread::Threads;

/// So many turns a poller or a worker takes, and the driver beside the scenario's own.
const BUDGET: u32 = 10_000;

// Keeps the last rows by one call, and then writes the schedule and the report of its turns.
fn deliver<O: Sink, K: Keeper>(
    alloc: Global,
    names: &[Name],
    entries: &[(u32, Turn, Reply)],
    engine: &Engine,
    rows: Vec<Row>,
    out: &mut O,
    keeper: &mut K,
) -> Ending
    ensures delivers { Delivers
        (run_report names.now (turns_in entries.now)
        (told_run engine.now entries.now) rows.items (K.kept keeper.old))
        (K.kept keeper.old) (K.kept keeper.new)
        (across (O.written out.old) (O.faults out.old) (O.written out.new) (O.faults out.new))
        result }
    ensures cause { HasKeepersCause (K.faults keeper.old) (K.faults keeper.new) result }
{
    let mut line = Vec::new(alloc);
    let Ok(()) = schedule_text(entries, names, &mut line) else {
        return Ending::Memory;
    };
    match keep_rows(alloc, keeper, names, rows) {
        Ok(()) => journal_report(alloc, line, entries, engine, names, out),
        Err(KeeperFault::Failed) => Ending::Keeper,
        Err(KeeperFault::Memory) => Ending::Memory,
    }
}

/// Runs the scenario in threads, and keeps the last rows by one call. Then it writes the line of its schedule and the
/// report of the schedule's turns on out. If the row store fails nothing is written.
pub(crate) fn live_ending<R: Threads + Wait + Sync, G: Gate + Sync, O: Sink, K: Keeper>(
    rt: &R,
    alloc: Global,
    places: &Places,
    scenario: &Scenario,
    out: &mut O,
    keeper: &mut K,
    gate: &G,
) -> Ending
    requires words { IsTaken places.now }
    requires scenario { IsScenario scenario.now }
    ensures tells { LiveTells scenario.now places.now.wait
        (K.kept keeper.old) (K.kept keeper.new)
        (across (O.written out.old) (O.faults out.old) (O.written out.new) (O.faults out.new))
        result }
    ensures cause { HasKeepersCause (K.faults keeper.old) (K.faults keeper.new) result }
{
    let ran = live_to_end(
        rt,
        alloc,
        scenario,
        places.pollers,
        places.workers,
        BUDGET,
        places.wait,
        gate,
    );
    let Ok(ended) = ran else {
        return Ending::Memory;
    };
    let Ended {
        journal,
        engine,
        rows,
    } = ended;
    let names = scenario.opening.names();
    deliver(alloc, names, &journal.entries, &engine, rows, out, keeper)
}
