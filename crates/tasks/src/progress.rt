//! A run's report, written as the turns are taken.

ghost use Rattle.std.specs.Prelude.{◌≡◌, false, IfErr, OnErr, OnOk};
ghost use Rattle.tasks.specs.Prelude.{HasTurnCause};
ghost use Rattle.tasks.specs.Endings.{HasKeepersCause};
ghost use Rattle.tasks.specs.Progress.{Adds, EndsCut, EndsWhole, Follows, GaveUp, IsFresh, point};
ghost use Rattle.tasks.specs.Sinks.{Stays, across, taken};
ghost use Rattle.tasks.specs.Stands.{AreNamedIn, AreTurnsIn, RunStands};

use crate::Ending;
use crate::instance_keeper_items::Keeper;
use crate::orch_base::{Memory, Name, Sink};
use crate::pieces::Pieces;
use crate::turns::{Reply, Turn};
use crate::verdict::is_refused;
use orch_core::{Engine, TurnFault};
use report_text::PrintedNames;
use std::alloc::Global;

/// A run's report on its way to out, and whether a reply so far is refused or failed.
#[derive(Drop)]
pub(crate) struct Progress {
    pieces: Pieces,
    is_refused: bool,
}

impl Progress {
    fn new(alloc: Global) -> Progress
        ensures { IsFresh result }
    {
        Progress {
            pieces: Pieces::new(alloc),
            is_refused: false,
        }
    }

    /// It is after this text, which isn't written yet.
    pub(crate) fn behind(alloc: Global, head: Vec<u8>) -> Progress
        ensures held { result.pieces.held.items ≡ head.items }
        ensures unfailed { result.pieces.failed ≡ false }
        ensures unrefused { result.is_refused ≡ false }
    {
        Progress {
            pieces: Pieces::of(alloc, head),
            is_refused: false,
        }
    }

    /// Adds the line of a turn with its reply, by its number in the run.
    pub(crate) fn add<O: Sink>(
        &mut self,
        number: u64,
        t: &Turn,
        r: &Reply,
        names: &PrintedNames<'_>,
        out: &mut O,
    ) -> Result<(), Memory>
        ensures ok { OnOk result (Adds names.now number t.now r.now self.old self.new
            (taken (O.written out.old) (O.faults out.old))
            (taken (O.written out.new) (O.faults out.new))) }
        ensures err { OnErr result (Stays self.old.pieces self.new.pieces
            (taken (O.written out.old) (O.faults out.old))
            (taken (O.written out.new) (O.faults out.new))) }
    {
        self.pieces.add_reply(number, t, r, names, out)?;
        self.is_refused = self.is_refused || is_refused(r);
        Ok(())
    }

    /// The ending after all turns: the tables are written, and what is left of the report.
    pub(crate) fn end<O: Sink>(mut self, engine: &Engine, out: &mut O) -> Ending
        ensures { EndsWhole engine.now self (taken (O.written out.old) (O.faults out.old))
            (taken (O.written out.new) (O.faults out.new)) result }
    {
        let Ok(()) = self.pieces.add_tables(engine) else {
            return Ending::Memory;
        };
        self.pieces.hand_over(out);
        if self.pieces.has_failed() {
            Ending::Unwritten
        } else {
            Ending::Written(self.is_refused)
        }
    }

    // The ending after a row store's fault: what is left of the replies is written.
    fn cut<O: Sink>(mut self, out: &mut O) -> Ending
        ensures { EndsCut self (taken (O.written out.old) (O.faults out.old))
            (taken (O.written out.new) (O.faults out.new)) result }
    {
        self.pieces.hand_over(out);
        if self.pieces.has_failed() {
            Ending::Unwritten
        } else {
            Ending::Keeper
        }
    }
}

// Takes the turns, each with the line of its reply, to the first fault. If out fails the turns are taken all the same.
fn take_turns<O: Sink, K: Keeper>(
    alloc: Global,
    keeper: &mut K,
    engine: &mut Engine,
    turns: &[Turn],
    names: &PrintedNames<'_>,
    out: &mut O,
    progress: &mut Progress,
) -> Result<(), TurnFault>
    requires turns { AreTurnsIn engine.old turns.now }
    requires named { AreNamedIn engine.old turns.now }
    requires fresh { IsFresh progress.old }
    ensures ok { OnOk result (Follows names.now (point (K.kept keeper.old) engine.old) turns.now
        (point (K.kept keeper.new) engine.new)
        (across (O.written out.old) (O.faults out.old) (O.written out.new) (O.faults out.new))
        progress.new) }
    ensures err { IfErr result (GaveUp names.now (point (K.kept keeper.old) engine.old) turns.now
        (point (K.kept keeper.new) engine.new)
        (across (O.written out.old) (O.faults out.old) (O.written out.new) (O.faults out.new))
        progress.new) }
    ensures cause { HasTurnCause (K.faults keeper.old) (K.faults keeper.new) result }
{
    for (i, t) in turns.iter().enumerate() {
        let reply = engine.turn(alloc, keeper, t)?;
        progress.add(i as u64 + 1, t, &reply, names, out)?;
    }
    Ok(())
}

// The run's report, by the printed names.
fn printed_report<O: Sink, K: Keeper>(
    alloc: Global,
    keeper: &mut K,
    engine: &mut Engine,
    turns: &[Turn],
    names: &PrintedNames<'_>,
    out: &mut O,
) -> Ending
    requires turns { AreTurnsIn engine.old turns.now }
    requires named { AreNamedIn engine.old turns.now }
    ensures stands { RunStands names.now turns.now (point (K.kept keeper.old) engine.old)
        (K.kept keeper.new)
        (across (O.written out.old) (O.faults out.old) (O.written out.new) (O.faults out.new))
        result }
    ensures cause { HasKeepersCause (K.faults keeper.old) (K.faults keeper.new) result }
{
    let mut progress = Progress::new(alloc);
    match take_turns(alloc, keeper, engine, turns, names, out, &mut progress) {
        Ok(()) => progress.end(engine, out),
        Err(TurnFault::Keeper) => progress.cut(out),
        Err(TurnFault::Memory) => Ending::Memory,
    }
}

/// Takes the turns and writes each reply's line on out as it comes, in pieces, and after the last one the tables. If
/// out fails before the end, the turns that are left are taken all the same. After a row store's fault the replies
/// before that turn are written.
pub(crate) fn run_report<O: Sink, K: Keeper>(
    alloc: Global,
    keeper: &mut K,
    engine: &mut Engine,
    turns: &[Turn],
    names: &[Name],
    out: &mut O,
) -> Ending
    requires turns { AreTurnsIn engine.old turns.now }
    requires named { AreNamedIn engine.old turns.now }
    ensures stands { RunStands names.now turns.now (point (K.kept keeper.old) engine.old)
        (K.kept keeper.new)
        (across (O.written out.old) (O.faults out.old) (O.written out.new) (O.faults out.new))
        result }
    ensures cause { HasKeepersCause (K.faults keeper.old) (K.faults keeper.new) result }
{
    match PrintedNames::new(alloc, names) {
        Ok(names) => printed_report(alloc, keeper, engine, turns, &names, out),
        Err(_) => Ending::Memory,
    }
}
