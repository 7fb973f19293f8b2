//! The report of a task over a scenario.

ghost use Rattle.std.specs.Prelude.{◌≡◌, ◌≤◌, length};
ghost use Rattle.tasks.specs.Prelude.{IsScenario, names_of, nodes_of};
ghost use Rattle.tasks.specs.Asked.{IsAsked};
ghost use Rattle.tasks.specs.Endings.{HasKeepersCause, Stands, Tells};
ghost use Rattle.tasks.specs.Progress.{course_from, point};
ghost use Rattle.tasks.specs.Sinks.{across};
ghost use Rattle.tasks.specs.Stands.{AreNamedIn, AreTurnsIn};

use crate::dumped::dump_report;
use crate::instance_keeper_items::Keeper;
use crate::orch_base::{Name, Sink};
use crate::planned::plan_report;
use crate::progress::run_report;
use crate::scenarios_items::Scenario;
use crate::single::{command_report, unknown_report};
use crate::summary::summary_report;
use crate::turns::Turn;
use crate::{Asked, Ending, Task};
use orch_core::{Engine, TurnFault};
use std::alloc::Global;

// Takes the scenario's turns and the task's own, and writes the report.
fn asked_report<O: Sink, E: Sink, K: Keeper>(
    alloc: Global,
    task: &Task,
    names: &[Name],
    scenario: &Scenario,
    turns: &[Turn],
    engine: &mut Engine,
    out: &mut O,
    err: &mut E,
    keeper: &mut K,
) -> Ending
    requires turns { AreTurnsIn engine.old turns.now }
    requires named { AreNamedIn engine.old turns.now }
    requires asked { IsAsked (length engine.old.world.servers) task.now.asked }
    requires nodes { 1 ≤ nodes_of engine.old }
    ensures stands { Stands (course_from task.now names.now scenario.now
        turns.now
        (point (K.kept keeper.old) engine.old) (K.kept keeper.new))
        (across (O.written out.old) (O.faults out.old) (O.written out.new) (O.faults out.new))
        (across (E.written err.old) (E.faults err.old) (E.written err.new) (E.faults err.new))
        result }
    ensures cause { HasKeepersCause (K.faults keeper.old) (K.faults keeper.new) result }
    ensures later { E.faults err.old ≤ E.faults err.new }
{
    match &task.asked {
        Asked::Run => run_report(alloc, keeper, engine, turns, names, out),
        Asked::Summary => summary_report(alloc, keeper, engine, turns, out, err),
        Asked::Dump => dump_report(alloc, keeper, engine, scenario, turns, names, out, err),
        Asked::Turn(own) => command_report(
            alloc, keeper, engine, scenario, turns, own, task.extra, names, out, err,
        ),
        Asked::Plan(own) => plan_report(alloc, keeper, engine, turns, own, names, out, err),
        Asked::Unknown => unknown_report(
            alloc, keeper, engine, scenario, turns, task.extra, names, out, err,
        ),
        Asked::Nothing => unreachable!(),
    }
}

/// Opens a scenario, takes its turns and the task's own, and writes the report. `names` are the servers' names.
/// - A run: each reply's line on out as it comes, in pieces of 64 KiB and a line, and then the tables. In place of both
///   it can be its summary.
/// - The servers as a scenario on out, or on err why they can't be given so.
/// - A single command: its lines on out, or its refusal on err, and the tables if they are asked for. If the servers
///   after it are asked for, they are on out as a scenario, and all of its answer is on err. In place of that it can be
///   its plan.
///
/// Err is written before out. If a sink fails all turns are taken all the same. A run that a row store's fault cuts has
/// written the replies before that turn, anything else nothing. `Keeper` comes only if the row store's count of faults
/// rose; err's never falls.
pub fn task_report<O: Sink, E: Sink, K: Keeper>(
    alloc: Global,
    task: &Task,
    names: &[Name],
    scenario: &Scenario,
    out: &mut O,
    err: &mut E,
    keeper: &mut K,
) -> Ending
    requires scenario { IsScenario scenario.now }
    requires names { names.now ≡ names_of scenario.now }
    requires asked { IsAsked (length scenario.now.opening.servers) task.now.asked }
    ensures tells { Tells (record {
      task = task.now;
      scenario = scenario.now;
      old = K.kept keeper.old;
      new = K.kept keeper.new;
    })
        (across (O.written out.old) (O.faults out.old) (O.written out.new) (O.faults out.new))
        (across (E.written err.old) (E.faults err.old) (E.written err.new) (E.faults err.new))
        result }
    ensures cause { HasKeepersCause (K.faults keeper.old) (K.faults keeper.new) result }
    ensures later { E.faults err.old ≤ E.faults err.new }
{
    let mut engine = match Engine::make(alloc, scenario, keeper, task.waits) {
        Ok(engine) => engine,
        Err(TurnFault::Keeper) => return Ending::Keeper,
        Err(TurnFault::Memory) => return Ending::Memory,
    };
    let turns = scenario.turns.as_slice();
    asked_report(
        alloc,
        task,
        names,
        scenario,
        turns,
        &mut engine,
        out,
        err,
        keeper,
    )
}
