//! The servers that a run or a single command leads to, as a scenario.

ghost use Rattle.std.specs.Prelude.{◌≡◌, ◌≤◌, IfOk};
ghost use Rattle.tasks.specs.Endings.{HasKeepersCause};
ghost use Rattle.tasks.specs.Progress.{point};
ghost use Rattle.tasks.specs.Report.{dump_of, dumped_answer};
ghost use Rattle.tasks.specs.Singles.{Writes, view};
ghost use Rattle.tasks.specs.Sinks.{across};
ghost use Rattle.tasks.specs.Stands.{AreNamedIn, AreTurnsIn, DumpStands};

use crate::Ending;
use crate::commands::Refusal;
use crate::instance_keeper_items::Keeper;
use crate::orch_base::{Memory, Name, Sink};
use crate::scenarios_items::Scenario;
use crate::single::{Report, told_report, write_report};
use crate::turns::{Reply, Turn};
use crate::verdict::is_for_err;
use orch_core::{Engine, TurnFault};
use report_text::plain_text;
use scenario_dump::dump;
use std::alloc::Global;

// The servers as a scenario that begins now, or the refusal if a server with a source accepted a write.
fn dumped(
    alloc: Global,
    names: &[Name],
    scenario: &Scenario,
    engine: &Engine,
) -> Result<Report, Memory>
    ensures { IfOk result (λ r. view r ≡ dump_of names.now scenario.now engine.now) }
{
    let errant = engine.world().errant();
    if errant != 0 {
        let reply = Reply::Refused(Refusal::NotQuiet(errant));
        return told_report(alloc, false, names, engine, &reply);
    }
    Ok(Report {
        out: dump(alloc, engine.world(), scenario, engine.now())?,
        err: Vec::new(alloc),
        is_refused: false,
    })
}

/// What a command is answered, for err, and the servers as a scenario, for out. If they can't be given so, err takes
/// that refusal, too.
pub(crate) fn dumped_report(
    alloc: Global,
    names: &[Name],
    scenario: &Scenario,
    engine: &Engine,
    reply: &Reply,
) -> Result<Report, Memory>
    ensures { IfOk result (λ r. view r
        ≡ dumped_answer names.now scenario.now engine.now reply.now) }
{
    let mut told = Vec::new(alloc);
    plain_text(reply, names, &mut told)?;
    let mut servers = dumped(alloc, names, scenario, engine)?;
    told.append(&mut servers.err)?;
    Ok(Report {
        out: servers.out,
        err: told,
        is_refused: is_for_err(reply) || servers.is_refused,
    })
}

// Writes the servers as a scenario, or the refusal.
fn write_dump<O: Sink, E: Sink>(
    alloc: Global,
    names: &[Name],
    scenario: &Scenario,
    engine: &Engine,
    out: &mut O,
    err: &mut E,
) -> Ending
    ensures writes { Writes (dump_of names.now scenario.now engine.now)
        (across (O.written out.old) (O.faults out.old) (O.written out.new) (O.faults out.new))
        (across (E.written err.old) (E.faults err.old) (E.written err.new) (E.faults err.new))
        result }
    ensures later { E.faults err.old ≤ E.faults err.new }
{
    match dumped(alloc, names, scenario, engine) {
        Ok(report) => write_report(out, err, &report),
        Err(_) => Ending::Memory,
    }
}

/// Takes the turns, and writes the servers as a scenario on out, or on err the refusal if a server with a source
/// accepted a write. After a row store's fault nothing is written.
pub(crate) fn dump_report<O: Sink, E: Sink, K: Keeper>(
    alloc: Global,
    keeper: &mut K,
    engine: &mut Engine,
    scenario: &Scenario,
    turns: &[Turn],
    names: &[Name],
    out: &mut O,
    err: &mut E,
) -> Ending
    requires turns { AreTurnsIn engine.old turns.now }
    requires named { AreNamedIn engine.old turns.now }
    ensures stands { DumpStands names.now scenario.now turns.now
        (point (K.kept keeper.old) engine.old) (K.kept keeper.new)
        (across (O.written out.old) (O.faults out.old) (O.written out.new) (O.faults out.new))
        (across (E.written err.old) (E.faults err.old) (E.written err.new) (E.faults err.new))
        result }
    ensures cause { HasKeepersCause (K.faults keeper.old) (K.faults keeper.new) result }
    ensures later { E.faults err.old ≤ E.faults err.new }
{
    match engine.run(alloc, keeper, turns) {
        Ok(()) => write_dump(alloc, names, scenario, engine, out, err),
        Err(TurnFault::Keeper) => Ending::Keeper,
        Err(TurnFault::Memory) => Ending::Memory,
    }
}
