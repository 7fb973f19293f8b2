//! The plan of a single command, printed in place of carrying it out.

ghost use Rattle.std.specs.Prelude.{◌≡◌, ◌≤◌, ◌++◌, IfOk, OnOk};
ghost use Rattle.tasks.specs.Prelude.{act_reply, ground_by, nodes_of, straight_lines};
ghost use Rattle.tasks.specs.Endings.{HasKeepersCause};
ghost use Rattle.tasks.specs.Plans.{begun_state, ground_in, lasting, means_of, planned_in, planned_text, recovery_planned, straight};
ghost use Rattle.tasks.specs.Progress.{point};
ghost use Rattle.tasks.specs.Report.{plan_answer};
ghost use Rattle.tasks.specs.Singles.{Writes, view};
ghost use Rattle.tasks.specs.Sinks.{across};
ghost use Rattle.tasks.specs.Stands.{AreNamedIn, AreTurnsIn, IsCommandIn, PlanStands};

use crate::Ending;
use crate::commands::{Command, Route};
use crate::instance_keeper_items::{Book, Keeper};
use crate::nobody::Nobody;
use crate::node_claims::ClaimAnswer;
use crate::orch_base::{Memory, Name, ServerNo, Sink};
use crate::single::{Report, begun_by, claim_ahead, told_report, write_report};
use crate::turns::{Act, BoxedCommand, Reply, Turn};
use crate::unended_jobs_items::{Unended, find};
use orch_core::{Engine, TurnFault, means_of as regroup_means};
use plan_lines::{
    Ground, Means, Op, Purpose, has_branches, print_plan, recovery_plan, straight_lines,
};
use std::alloc::Global;

// Whose claim lasts, if the command would claim ahead in vain.
fn lasting(engine: &Engine) -> Option<Reply>
    requires { 1 ≤ nodes_of engine.now }
    ensures { result ≡ lasting engine.now }
{
    claim_ahead(engine)?;
    match engine.claims().answer(1, engine.now()) {
        ClaimAnswer::Taken { node, until } => Some(Reply::Taken { node, until }),
        ClaimAnswer::Held(_) => None,
    }
}

// The command's own turn, of which nobody keeps a row.
fn begin(alloc: Global, engine: &mut Engine, own: &BoxedCommand) -> Result<Reply, Memory>
    requires { IsCommandIn engine.old own.now }
    ensures reply { IfOk result (λ r. r ≡ act_reply engine.old (Act.Command own.now)) }
    ensures state { OnOk result (engine.new ≡ begun_state own.now engine.old) }
{
    let turn = Turn::Act(Act::Command(own.copy(alloc)?));
    let mut nobody = Nobody;
    match engine.turn(alloc, &mut nobody, &turn) {
        Ok(reply) => Ok(reply),
        Err(TurnFault::Memory) => Err(Memory),
        Err(TurnFault::Keeper) => unreachable!(),
    }
}

// How the replicas of a regroup go below the best of them. The distance of marks isn't given.
fn means_of(route: Route) -> Means
    ensures { result ≡ means_of route }
{
    match route {
        Route::Begins(planner) => regroup_means(planner, 0).unwrap_or(Means::Bridges),
        Route::Discovers
        | Route::Forgets
        | Route::Asks(_)
        | Route::Decides(_)
        | Route::Recovers
        | Route::TakesOver => Means::Bridges,
    }
}

// By what is planned.
fn ground(engine: &Engine) -> Ground<'_>
    ensures { ground_by result ≡ ground_in engine.now }
{
    Ground {
        world: engine.world(),
        book: engine.book(),
        moment: engine.now(),
    }
}

// A recovery for a purpose, by its instance.
fn print_recovery(
    alloc: Global,
    names: &[Name],
    by: &Ground<'_>,
    purpose: Purpose,
    means: Means,
    i: Option<ServerNo>,
    out: &mut Vec<u8>,
) -> Result<(), Memory>
    ensures { OnOk result (out.new.items ≡ out.old.items
        ++ planned_text names.now (recovery_planned (ground_by by.now) purpose means i)) }
{
    match i {
        Some(i) => {
            let lines = recovery_plan(alloc, by, purpose, means, i)?;
            print_plan(alloc, names, has_branches(purpose), &lines, out)
        }
        None => print_plan(alloc, names, false, &[], out),
    }
}

// A job that goes one way, by its operations.
fn print_straight(
    alloc: Global,
    names: &[Name],
    book: &Book,
    ops: &[Op],
    out: &mut Vec<u8>,
) -> Result<(), Memory>
    ensures { OnOk result (out.new.items ≡ out.old.items
        ++ planned_text names.now (straight (straight_lines book.now ops.now))) }
{
    let lines = straight_lines(alloc, book, ops)?;
    print_plan(alloc, names, false, &lines, out)
}

// What the job of a number plans, which the command began.
fn print_planned(
    alloc: Global,
    names: &[Name],
    engine: &Engine,
    command: Command,
    job: u64,
    out: &mut Vec<u8>,
) -> Result<(), Memory>
    ensures { OnOk result (out.new.items
        ≡ out.old.items ++ planned_text names.now (planned_in engine.now command job)) }
{
    let jobs = engine.open_jobs();
    let Some(at) = find(jobs, job) else {
        return print_plan(alloc, names, false, &[], out);
    };
    match &jobs[at] {
        Unended::Plan(job) => print_straight(alloc, names, engine.book(), job.left(), out),
        Unended::Recovery(job, _) => {
            let (by, means) = (ground(engine), means_of(Route::of(command.name)));
            print_recovery(alloc, names, &by, job.purpose(), means, command.i, out)
        }
    }
}

// The plan of the job that the command begins, or its reply. The engine is in no state for more turns then.
fn planned(
    alloc: Global,
    names: &[Name],
    engine: &mut Engine,
    own: &BoxedCommand,
) -> Result<Report, Memory>
    requires own { IsCommandIn engine.old own.now }
    requires nodes { 1 ≤ nodes_of engine.old }
    ensures { IfOk result (λ r. view r ≡ plan_answer own.now names.now engine.old) }
{
    let lasting = lasting(engine);
    let begun = begin(alloc, engine, own)?;
    let reply = lasting.unwrap_or(begun);
    let Some(job) = begun_by(&reply) else {
        return told_report(alloc, false, names, engine, &reply);
    };
    let mut out = Vec::new(alloc);
    print_planned(alloc, names, engine, own.as_turn().command, job, &mut out)?;
    Ok(Report {
        out,
        err: Vec::new(alloc),
        is_refused: false,
    })
}

// Writes the plan, or what is answered in its place.
fn write_planned<O: Sink, E: Sink>(
    alloc: Global,
    names: &[Name],
    engine: &mut Engine,
    own: &BoxedCommand,
    out: &mut O,
    err: &mut E,
) -> Ending
    requires own { IsCommandIn engine.old own.now }
    requires nodes { 1 ≤ nodes_of engine.old }
    ensures writes { Writes (plan_answer own.now names.now engine.old)
        (across (O.written out.old) (O.faults out.old) (O.written out.new) (O.faults out.new))
        (across (E.written err.old) (E.faults err.old) (E.written err.new) (E.faults err.new))
        result }
    ensures later { E.faults err.old ≤ E.faults err.new }
{
    match planned(alloc, names, engine, own) {
        Ok(report) => write_report(out, err, &report),
        Err(_) => Ending::Memory,
    }
}

/// Takes the scenario's turns. Then it writes the plan of the job that the command would begin on out. Or it writes
/// what the command is answered in its place: on err its refusal, or whose claim lasts. Nothing of the command's own is
/// kept, and nothing is claimed. After a row store's fault nothing is written.
pub(crate) fn plan_report<O: Sink, E: Sink, K: Keeper>(
    alloc: Global,
    keeper: &mut K,
    engine: &mut Engine,
    turns: &[Turn],
    own: &BoxedCommand,
    names: &[Name],
    out: &mut O,
    err: &mut E,
) -> Ending
    requires turns { AreTurnsIn engine.old turns.now }
    requires named { AreNamedIn engine.old turns.now }
    requires own { IsCommandIn engine.old own.now }
    requires nodes { 1 ≤ nodes_of engine.old }
    ensures stands { PlanStands own.now names.now turns.now
        (point (K.kept keeper.old) engine.old) (K.kept keeper.new)
        (across (O.written out.old) (O.faults out.old) (O.written out.new) (O.faults out.new))
        (across (E.written err.old) (E.faults err.old) (E.written err.new) (E.faults err.new))
        result }
    ensures cause { HasKeepersCause (K.faults keeper.old) (K.faults keeper.new) result }
    ensures later { E.faults err.old ≤ E.faults err.new }
{
    match engine.run(alloc, keeper, turns) {
        Ok(()) => write_planned(alloc, names, engine, own, out, err),
        Err(TurnFault::Keeper) => Ending::Keeper,
        Err(TurnFault::Memory) => Ending::Memory,
    }
}
