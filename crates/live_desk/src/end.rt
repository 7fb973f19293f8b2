//! The end of a live run: the caller takes what is left, and finishes the jobs.

ghost use Rattle.std.specs.Prelude.{◌≡◌, [], IfOk, OnOk, slice_index};
ghost use Rattle.orch_core.specs.Scenarios.Scenarios.{IsScenario};
ghost use Rattle.live_desk.specs.Entries.{entries_of};
ghost use Rattle.live_desk.specs.Ends.{IsLive, RunsOn, rows_after, state_after};

use crate::kept_rows_items::Row;
use crate::orch_base::Memory;
use crate::roles::Work;
use crate::rows::DeskRows;
use crate::scenarios_items::Scenario;
use crate::turns::{Reply, Turn};
use crate::{Desk, Pass};
use orch_core::{Engine, Orch, TurnFault};
use std::alloc::Global;

/// The caller's number.
const CALLER: u32 = 0;

/// The turns of a live run, each with the number of the one who took it and its reply, in order.
#[derive(Drop)]
pub struct Journal {
    pub entries: Vec<(u32, Turn, Reply)>,
}

/// How a live run ended: its turns, the state after them, and the rows that are kept then, in rising order.
#[derive(Drop)]
pub struct Ended {
    pub journal: Journal,
    pub engine: Engine,
    pub rows: Vec<Row>,
}

// The number of the one who took a turn; a turn for which nobody is listed is the caller's.
fn number_at(numbers: &[u32], at: usize) -> u32
    ensures { result ≡ slice_index numbers.now at }
{
    if at < numbers.len() {
        numbers[at]
    } else {
        CALLER
    }
}

// Each turn with the number of the one who took it.
fn entries_of(
    alloc: Global,
    numbers: &[u32],
    journal: Vec<(Turn, Reply)>,
) -> Result<Vec<(u32, Turn, Reply)>, Memory>
    ensures { IfOk result (λ v. v.items ≡ entries_of numbers.now journal.items) }
{
    let mut entries = Vec::with_capacity(alloc, journal.len())?;
    'turns: for (turn, reply) in journal {
        let by = number_at(numbers, entries.len());
        entries.push((by, turn, reply))?;
    }
    Ok(entries)
}

// Finishes all jobs by their rounds.
fn finish_jobs(alloc: Global, orch: &mut Orch, rows: &mut DeskRows) -> Result<(), Memory>
    ensures ran { OnOk result (RunsOn (record { rows = rows.old; state = orch.old })
        (record { rows = rows.new; state = orch.new })) }
    ensures ended { OnOk result (orch.new.state.jobs ≡ []) }
{
    'jobs: while let Some(job) = orch.open_jobs().first() {
        let id = job.id();
        // shows the proof over which servers the rounds go
        let _order = orch.order();
        match orch.finish(alloc, rows, id) {
            Ok(()) => {}
            Err(TurnFault::Memory) => return Err(Memory),
            Err(TurnFault::Keeper) => unreachable!(),
        }
    }
    Ok(())
}

/// The desk, if it is that of this scenario, whose jobs wait so often; else a new one.
pub(crate) fn desk_for(alloc: Global, desk: Desk, s: &Scenario, wait: u32) -> Result<Desk, Memory>
    requires { IsScenario s.now }
    ensures scenario { IfOk result (λ d. d.scenario ≡ s.now) }
    ensures wait { IfOk result (λ d. d.wait ≡ wait) }
{
    if desk.is_of(s, wait) {
        Ok(desk)
    } else {
        Desk::make(alloc, s, wait)
    }
}

impl Desk {
    // Takes the turns that are left of the scenario's and are no command.
    fn take_all_listed(&mut self, alloc: Global, pass: &mut Pass) -> Result<(), Memory>
        requires { pass.old.by ≡ 0 }
        ensures scenario { self.new.scenario ≡ self.old.scenario }
        ensures wait { self.new.wait ≡ self.old.wait }
        ensures by { pass.new.by ≡ 0 }
        ensures listed { OnOk result (self.new.listed ≡ []) }
    {
        'listed: while self.take_listed(alloc, pass)? {}
        Ok(())
    }

    // Takes the commands that are left of the scenario's.
    fn take_all_commands(&mut self, alloc: Global, pass: &mut Pass) -> Result<(), Memory>
        requires { self.old.listed ≡ [] }
        ensures scenario { self.new.scenario ≡ self.old.scenario }
        ensures wait { self.new.wait ≡ self.old.wait }
        ensures listed { OnOk result (self.new.listed ≡ []) }
        ensures commands { OnOk result (self.new.commands ≡ []) }
    {
        let mut work = Work::Free;
        'commands: while work != Work::Over {
            work = self.take_command(alloc, pass)?;
        }
        Ok(())
    }

    // Finishes the jobs, and gives the journal, the state and the kept rows.
    fn into_ended(self, alloc: Global) -> Result<Ended, Memory>
        requires commands { self.commands ≡ [] }
        requires listed { self.listed ≡ [] }
        ensures live { IfOk result (λ e.
            IsLive self.scenario self.wait e.journal.entries.items) }
        ensures rows { IfOk result (λ e.
            e.rows.items ≡ rows_after self.scenario self.wait e.journal.entries.items) }
        ensures state { IfOk result (λ e.
            e.engine ≡ state_after self.scenario self.wait e.journal.entries.items) }
    {
        let (mut orch, mut rows, numbers) = self.into_parts();
        finish_jobs(alloc, &mut orch, &mut rows)?;
        let kept = rows.copied(alloc)?;
        let (engine, journal) = orch.into_parts();
        let entries = entries_of(alloc, &numbers, journal)?;
        Ok(Ended {
            journal: Journal { entries },
            engine,
            rows: kept,
        })
    }

    /// Takes what is left of the scenario's turns, first those that are no command, then the commands. It finishes the
    /// jobs by their rounds, and gives the journal, the state and the kept rows. `Err` means out of memory.
    pub(crate) fn finish(self, alloc: Global) -> Result<Ended, Memory>
        ensures live { IfOk result (λ e.
            IsLive self.scenario self.wait e.journal.entries.items) }
        ensures rows { IfOk result (λ e.
            e.rows.items ≡ rows_after self.scenario self.wait e.journal.entries.items) }
        ensures state { IfOk result (λ e.
            e.engine ≡ state_after self.scenario self.wait e.journal.entries.items) }
    {
        let mut desk = self;
        let mut pass = Pass::new(alloc, CALLER);
        desk.take_all_listed(alloc, &mut pass)?;
        desk.take_all_commands(alloc, &mut pass)?;
        desk.into_ended(alloc)
    }
}
