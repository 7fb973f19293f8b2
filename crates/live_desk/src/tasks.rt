//! The threads of a live run: each takes its turns under the lock, one at a time.

ghost use Rattle.std.specs.Prelude.{◌≡◌, ◌<◌, ◌≤◌, ◌^◌, true};
ghost use Rattle.live_desk.specs.Tasks.{fits};

use crate::orch_base::{Gate, Memory};
use crate::roles::Work;
use crate::{Desk, Pass};
use std::alloc::Global;
use std::sync::{Mutex, Wait};
use std::thread;
use std::thread::Threads;

/// What a thread of a live run does.
#[derive(Clone, Copy, Debug, PartialEq, Eq)]
pub(crate) enum Role {
    /// It takes the listed turns, and then those of the servers.
    Driver,
    /// By this slot it reads the servers that are due.
    Poller(u32),
    /// It takes commands, and the turns of their jobs.
    Worker,
}

/// A thread of a live run: its number, what it does, and whether it wanted memory.
#[derive(Drop)]
pub(crate) struct Task {
    number: u32,
    role: Role,
    wanted: bool,
    ghost fit: { fits number role ≡ true },
}

/// What the threads of a live run share.
#[derive(Clone, Copy)]
pub(crate) struct Shared<'a, G> {
    pub(crate) desk: &'a Mutex<Desk>,
    pub(crate) gate: &'a G,
    /// How many of the scenario's turns are no command.
    pub(crate) listed: usize,
    /// How many turns a poller or a worker takes, and the driver beside the listed ones.
    pub(crate) budget: u32,
}

// A driver's turns, until nothing is left to do.
fn drive<R: Wait, G: Gate>(rt: &R, alloc: Global, shared: &Shared<'_, G>) -> Result<(), Memory> {
    let mut pass = Pass::new(alloc, 1);
    let turns = shared.listed.saturating_add(shared.budget as usize);
    for turn in 0..turns {
        shared.gate.pass(1);
        let step = turn.saturating_sub(shared.listed);
        if !shared.desk.lock(rt).drive(alloc, &mut pass, step)? {
            return Ok(());
        }
    }
    Ok(())
}

// A poller's turns, until nothing is left to do.
fn poll<R: Wait, G: Gate>(
    rt: &R,
    alloc: Global,
    shared: &Shared<'_, G>,
    number: u32,
    poller: u32,
) -> Result<(), Memory>
    requires number { 2 ≤ number }
    requires poller { poller < 64 }
{
    let mut pass = Pass::new(alloc, number);
    'turns: for turn in 0..shared.budget {
        shared.gate.pass(number);
        let stores = turn % 2 == 1;
        if !shared.desk.lock(rt).poll(alloc, &mut pass, poller, stores)? {
            return Ok(());
        }
    }
    Ok(())
}

// A worker's turns, until no command is left.
fn worker_turns<R: Wait, G: Gate>(
    rt: &R,
    alloc: Global,
    shared: &Shared<'_, G>,
    number: u32,
) -> Result<(), Memory>
    requires { 2 ≤ number }
{
    let mut pass = Pass::new(alloc, number);
    let mut job = None;
    'turns: for _ in 0..shared.budget {
        shared.gate.pass(number);
        match shared.desk.lock(rt).worker_turn(alloc, &mut pass, job)? {
            Work::Over => return Ok(()),
            Work::Free => job = None,
            Work::Busy(id) => job = Some(id),
        }
    }
    Ok(())
}

impl Task {
    fn new(number: u32, role: Role) -> Task
        requires { fits number role ≡ true }
    {
        Task {
            number,
            role,
            wanted: false,
        }
    }

    // Takes the thread's turns.
    fn run<R: Wait, G: Gate>(&mut self, rt: &R, alloc: Global, shared: &Shared<'_, G>) {
        let result = match self.role {
            Role::Driver => drive(rt, alloc, shared),
            Role::Poller(poller) => poll(rt, alloc, shared, self.number, poller),
            Role::Worker => worker_turns(rt, alloc, shared, self.number),
        };
        self.wanted = result.is_err();
    }
}

/// One driver, and so many pollers and workers. The caller's number is 0, the driver's 1, that of poller p is 1 + p,
/// and that of worker w is 1 + pollers + w.
pub(crate) fn make_tasks(alloc: Global, pollers: u32, workers: u32) -> Result<Vec<Task>, Memory>
    requires pollers { pollers < 64 }
    requires workers { workers < 2 ^ 31 }
{
    let mut tasks = Vec::new(alloc);
    tasks.push(Task::new(1, Role::Driver))?;
    'pollers: for poller in 1..pollers + 1 {
        tasks.push(Task::new(1 + poller, Role::Poller(poller)))?;
    }
    'workers: for worker in 1..workers + 1 {
        tasks.push(Task::new(1 + pollers + worker, Role::Worker))?;
    }
    Ok(tasks)
}

/// Runs the tasks, each in a thread of its own, and joins them.
pub(crate) fn run_tasks<R: Threads + Wait + Sync, G: Gate + Sync>(
    rt: &R,
    alloc: Global,
    shared: &Shared<'_, G>,
    tasks: &mut [Task],
) {
    let count = tasks.len();
    if count > 0 {
        thread::for_each_mut(
            rt,
            tasks,
            count,
            &|_, task: &mut Task| { task.run(rt, alloc, shared) },
        );
    }
}

/// Whether a thread wanted memory.
pub(crate) fn any_wanted(tasks: &[Task]) -> bool {
    tasks.iter().any(|task| task.wanted)
}
