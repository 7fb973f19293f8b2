//! A live run: its threads, and the caller's end.

ghost use Rattle.std.specs.Prelude.{◌≡◌, ◌<◌, ◌^◌, IfOk, count_by, false};
ghost use Rattle.orch_core.specs.Scenarios.Scenarios.{IsScenario};
ghost use Rattle.live_desk.specs.Ends.{IsLive, rows_after, state_after};
ghost use Rattle.live_desk.specs.Entries.{is_of};

use crate::Desk;
use crate::cursor::is_command;
use crate::end::{Ended, Journal, desk_for};
use crate::orch_base::{Gate, Memory};
use crate::scenarios_items::Scenario;
use crate::tasks::{Shared, any_wanted, make_tasks, run_tasks};
use crate::turns::Turn;
use std::alloc::Global;
use std::sync::{Mutex, Wait};
use std::thread::Threads;

// How many of the turns are no command.
fn count_listed(turns: &[Turn]) -> usize
    ensures { result ≡ count_by (is_of false) turns.now }
{
    let mut count = 0;
    for t in turns {
        if !is_command(t) {
            count += 1;
        }
    }
    count
}

/// Runs a scenario in threads.
/// - One driver takes the scenario's turns that are no command, in order, and then fetch and apply of each server in
///   name order.
/// - A poller reads and stores the server that is due.
/// - A worker takes the next command, and then the turns of its job.
///
/// Each ends if nothing is left to do. A poller or a worker also ends after `budget` turns, and the driver after so
/// many more than its listed ones. After the join the caller, whose number is 0, takes what is left, and finishes all
/// jobs. The answer is the journal, the state after it, and the rows that are kept then. The journal is a run of the
/// scenario's opening without kept rows. `Err` means out of memory.
pub fn live_to_end<R: Threads + Wait + Sync, G: Gate + Sync>(
    rt: &R,
    alloc: Global,
    s: &Scenario,
    pollers: u32,
    workers: u32,
    budget: u32,
    wait: u32,
    gate: &G,
) -> Result<Ended, Memory>
    requires scenario { IsScenario s.now }
    requires pollers { pollers < 64 }
    requires workers { workers < 2 ^ 31 }
    ensures live { IfOk result (λ e. IsLive s.now wait e.journal.entries.items) }
    ensures rows { IfOk result (λ e.
        e.rows.items ≡ rows_after s.now wait e.journal.entries.items) }
    ensures state { IfOk result (λ e.
        e.engine ≡ state_after s.now wait e.journal.entries.items) }
{
    let desk = Mutex::new(Desk::make(alloc, s, wait)?);
    let mut tasks = make_tasks(alloc, pollers, workers)?;
    let shared = Shared {
        desk: &desk,
        gate,
        listed: count_listed(s.turns.as_slice()),
        budget,
    };
    run_tasks(rt, alloc, &shared, &mut tasks);
    if any_wanted(&tasks) {
        return Err(Memory);
    }
    let desk = desk_for(alloc, desk.into_inner(), s, wait)?;
    desk.finish(alloc)
}

/// A live run, as `live_to_end`'s: its journal alone. `Err` means out of memory.
pub fn live<R: Threads + Wait + Sync, G: Gate + Sync>(
    rt: &R,
    alloc: Global,
    s: &Scenario,
    pollers: u32,
    workers: u32,
    budget: u32,
    wait: u32,
    gate: &G,
) -> Result<Journal, Memory>
    requires scenario { IsScenario s.now }
    requires pollers { pollers < 64 }
    requires workers { workers < 2 ^ 31 }
    ensures { IfOk result (λ j. IsLive s.now wait j.entries.items) }
{
    let ended = live_to_end(rt, alloc, s, pollers, workers, budget, wait, gate)?;
    Ok(ended.journal)
}
