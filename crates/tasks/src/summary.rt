//! A run's summary, written at its end.

ghost use Rattle.std.specs.Prelude.{◌≡◌, ◌+◌, ◌<◌, ◌≤◌, ◌^◌, IfErr, IfOk};
ghost use Rattle.tasks.specs.Prelude.{HasTurnCause};
ghost use Rattle.tasks.specs.Endings.{HasKeepersCause};
ghost use Rattle.tasks.specs.Progress.{GivesUp, Tallies, point, with_reply};
ghost use Rattle.tasks.specs.Report.{summary_of, verdict_of};
ghost use Rattle.tasks.specs.Singles.{Writes};
ghost use Rattle.tasks.specs.Sinks.{across};
ghost use Rattle.tasks.specs.Stands.{AreNamedIn, AreTurnsIn, SummaryStands};

use crate::Ending;
use crate::instance_keeper_items::Keeper;
use crate::orch_base::Sink;
use crate::single::{Report, write_report};
use crate::turns::{Reply, Turn};
use crate::verdict::{Verdict, verdict_of};
use orch_core::{Engine, TurnFault};
use report_text::{Tally, summary};
use std::alloc::Global;

// With one more reply.
fn with_reply(tally: Tally, reply: &Reply) -> Tally
    requires turns { tally.turns + 1 < 2 ^ 64 }
    requires refused { tally.refused ≤ tally.turns }
    requires failed { tally.failed ≤ tally.turns }
    ensures { result ≡ with_reply tally (verdict_of reply.now) }
{
    let turns = tally.turns + 1;
    match verdict_of(reply) {
        Verdict::Neither | Verdict::Taken => Tally { turns, ..tally },
        Verdict::Refused => Tally {
            turns,
            refused: tally.refused + 1,
            ..tally
        },
        Verdict::Failed => Tally {
            turns,
            failed: tally.failed + 1,
            ..tally
        },
    }
}

// Takes the turns, and counts their replies.
fn count_turns<K: Keeper>(
    alloc: Global,
    keeper: &mut K,
    engine: &mut Engine,
    turns: &[Turn],
) -> Result<Tally, TurnFault>
    requires turns { AreTurnsIn engine.old turns.now }
    requires named { AreNamedIn engine.old turns.now }
    ensures ok { IfOk result (Tallies (point (K.kept keeper.old) engine.old) turns.now
        (point (K.kept keeper.new) engine.new)) }
    ensures err { IfErr result (GivesUp (point (K.kept keeper.old) engine.old) turns.now
        (K.kept keeper.new)) }
    ensures cause { HasTurnCause (K.faults keeper.old) (K.faults keeper.new) result }
{
    let mut tally = Tally {
        turns: 0,
        refused: 0,
        failed: 0,
    };
    for t in turns {
        let reply = engine.turn(alloc, keeper, t)?;
        tally = with_reply(tally, &reply);
    }
    Ok(tally)
}

// Writes the summary of these replies and of what they led to.
fn write_summary<O: Sink, E: Sink>(
    alloc: Global,
    engine: &Engine,
    tally: Tally,
    out: &mut O,
    err: &mut E,
) -> Ending
    ensures writes { Writes (summary_of tally engine.now)
        (across (O.written out.old) (O.faults out.old) (O.written out.new) (O.faults out.new))
        (across (E.written err.old) (E.faults err.old) (E.written err.new) (E.faults err.new))
        result }
    ensures later { E.faults err.old ≤ E.faults err.new }
{
    let recoveries = engine.audit().recoveries().len() as u64;
    let mut text = Vec::new(alloc);
    match summary(tally, engine.world(), recoveries, &mut text) {
        Ok(()) => {
            let report = Report {
                out: text,
                err: Vec::new(alloc),
                is_refused: false,
            };
            write_report(out, err, &report)
        }
        Err(_) => Ending::Memory,
    }
}

/// Takes the turns, and writes their summary on out. It takes no memory for replies: they are counted as they come.
/// After a row store's fault nothing is written.
pub(crate) fn summary_report<O: Sink, E: Sink, K: Keeper>(
    alloc: Global,
    keeper: &mut K,
    engine: &mut Engine,
    turns: &[Turn],
    out: &mut O,
    err: &mut E,
) -> Ending
    requires turns { AreTurnsIn engine.old turns.now }
    requires named { AreNamedIn engine.old turns.now }
    ensures stands { SummaryStands turns.now (point (K.kept keeper.old) engine.old)
        (K.kept keeper.new)
        (across (O.written out.old) (O.faults out.old) (O.written out.new) (O.faults out.new))
        (across (E.written err.old) (E.faults err.old) (E.written err.new) (E.faults err.new))
        result }
    ensures cause { HasKeepersCause (K.faults keeper.old) (K.faults keeper.new) result }
    ensures later { E.faults err.old ≤ E.faults err.new }
{
    match count_turns(alloc, keeper, engine, turns) {
        Ok(tally) => write_summary(alloc, engine, tally, out, err),
        Err(TurnFault::Keeper) => Ending::Keeper,
        Err(TurnFault::Memory) => Ending::Memory,
    }
}
