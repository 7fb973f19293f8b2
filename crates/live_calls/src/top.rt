//! The top call.

ghost use Rattle.std.specs.Prelude.{◌≡◌, ◌⊎◌, ℕ, List, map, IfSome};
ghost use Rattle.live_calls.specs.Prelude.{AskToDraw, ByReport, Consumes, DrawEnds, Drawing, EndsAs, EndsBy, FailsByKeeper, FaultsOf, IfDrawn, IsComplete, IsGood};
ghost use Rattle.live_calls.specs.Prelude.{IsReported, IsUsage, KeepsRows, NoneRose, OfRead, Promises, ReadsWhole, Rose, UsageOf, WritesErr, WritesOut, across, call, status_of};
ghost use Rattle.live_calls.specs.Ends.{AskLive, IsPlain, LiveEndsBy, LiveEndsOf, LiveFaultsOf, PlainEndsOf, RunsAlone};
ghost use Rattle.live_calls.specs.Runs.{LiveGoesWell};

use crate::answering::answer;
use crate::command_line::Usage;
use crate::kept_rows_items::Keeper;
use crate::orch_base::{Gate, Sink, Source};
use std::alloc::Global;
use std::sync::Wait;
use std::thread::Threads;
use top_call::{Parsed, Way, close, respond};

// Does what a command line asks. `orch` answers its status.
fn orch_parsed<R: Threads + Wait + Sync, G: Gate + Sync, S: Source, O: Sink, E: Sink, K: Keeper>(
    rt: &R,
    alloc: Global,
    parsed: &Parsed,
    source: &mut S,
    out: &mut O,
    err: &mut E,
    keeper: &mut K,
    gate: &G,
) -> Way
    ensures live { LiveEndsOf parsed.now (S.left source.old)
        (K.kept keeper.old) (K.kept keeper.new)
        (across (O.written out.old) (O.faults out.old) (O.written out.new) (O.faults out.new))
        (across (E.written err.old) (E.faults err.old) (E.written err.new) (E.faults err.new))
        result }
    ensures ends { PlainEndsOf parsed.now (S.left source.old)
        (K.kept keeper.old) (K.kept keeper.new)
        (across (O.written out.old) (O.faults out.old) (O.written out.new) (O.faults out.new))
        (across (E.written err.old) (E.faults err.old) (E.written err.new) (E.faults err.new))
        result }
    ensures usage { UsageOf parsed.now (status_of result) }
    ensures source { result ≡ Way.Source → Rose (S.faults source.old) (S.faults source.new) }
    ensures sink { result ≡ Way.Sink → Rose (O.faults out.old) (O.faults out.new)
        ⊎ Rose (E.faults err.old) (E.faults err.new) }
    ensures keeper { FailsByKeeper (K.faults keeper.old) (K.faults keeper.new) (status_of result) }
    ensures read { IsReported result
        → IfSome (S.left source.old)
        (λ bytes. Consumes (S.left source.old) (S.left source.new) bytes) }
    ensures drawn { IfDrawn parsed.now (λ d. DrawEnds d (status_of result)
        (across (O.written out.old) (O.faults out.old) (O.written out.new) (O.faults out.new))
        (across (E.written err.old) (E.faults err.old) (E.written err.new) (E.faults err.new))) }
    ensures unread { IfDrawn parsed.now (λ d. source.new ≡ source.old) }
    ensures unkept { IfDrawn parsed.now (λ d. keeper.new ≡ keeper.old) }
{
    match parsed.places() {
        Ok(places) => {
            if places.is_live() {
                answer(rt, alloc, places, source, out, err, keeper, gate)
            } else {
                respond(alloc, parsed, source, out, err, keeper)
            }
        }
        Err(Usage::BadWords) => respond(alloc, parsed, source, out, err, keeper),
        Err(Usage::Memory) => {
            close(err, b"out of memory\n");
            Way::Memory
        }
    }
}

/// Does what the command line asks with the scenario that the source has. Writes the report on out and what went wrong
/// on err, and answers the program's status. A command line that doesn't name `live` is done as by `orch_plain`,
/// and waits for no other thread.
///
/// For `live`, the scenario is run by threads over a book in memory: a driver, pollers and workers. Each of them passes
/// the gate before each of its turns. Its last rows are then kept by one call, over those that the row store has. After
/// that out takes the line `schedule`, with the turns that were taken as one JSON list, and the report that `run` gives
/// of these turns. The status is:
///
/// - 0 and 7: the report is written; with 7 a reply in it is refused or failed.
/// - 1, 2 and 3: as `orch_plain`'s; nothing was run. That the scenario has several orchestrators is a fault of it too,
///   after all others.
/// - 4: a sink failed that was to take the report; the rows are kept; `write fault` on err.
/// - 5: the row store failed; nothing is kept or written; `keeper fault` on err.
/// - 6: out of memory, in any thread or after them; out took a prefix of the report; `out of memory` on err.
pub fn orch<R: Threads + Wait + Sync, G: Gate + Sync, S: Source, O: Sink, E: Sink, K: Keeper>(
    rt: &R,
    alloc: Global,
    words: &[Vec<u8>],
    scenario: &mut S,
    out: &mut O,
    err: &mut E,
    keeper: &mut K,
    gate: &G,
) -> u8
    // 1 exactly if the command line isn't accepted. 2 exactly if it is, asks something of a scenario that is read, and
    // that has a fault. Except for 3 and 6. For `live` several orchestrators are such a fault, after all others.
    ensures usage { IsUsage (map (λ w. w.items) words.now) result }
    ensures fault { IsPlain (map (λ w. w.items) words.now)
        → FaultsOf (map (λ w. w.items) words.now) (S.left scenario.old) result }
    ensures live_fault { AskLive (map (λ w. w.items) words.now)
        → LiveFaultsOf (S.left scenario.old) result }

    // 3, 4 and 5 only if a count of faults rose: the source's, a sink's, the row store's. That of the row store never
    // falls, and stays with 1, 2 and 3. 0 and 7 only if the source was read to its end, or the command line asks to
    // draw a scenario.
    ensures source { result ≡ 3 → Rose (S.faults scenario.old) (S.faults scenario.new) }
    ensures sink { result ≡ 4 → Rose (O.faults out.old) (O.faults out.new)
        ⊎ Rose (E.faults err.old) (E.faults err.new) }
    ensures keeper { FailsByKeeper (K.faults keeper.old) (K.faults keeper.new) result }
    ensures read { IfSome (S.left scenario.old) (λ bytes. ReadsWhole
        (map (λ w. w.items) words.now) bytes result (S.left scenario.old) (S.left scenario.new)) }

    // If it does, that is written, whatever the source has. Neither the source nor the row store is called.
    ensures drawn { (d : Drawing) → AskToDraw (map (λ w. w.items) words.now) d
        → DrawEnds d result
        (across (O.written out.old) (O.faults out.old) (O.written out.new) (O.faults out.new))
        (across (E.written err.old) (E.faults err.old) (E.written err.new) (E.faults err.new)) }
    ensures unread { (d : Drawing) → AskToDraw (map (λ w. w.items) words.now) d
        → scenario.new ≡ scenario.old }
    ensures unkept { (d : Drawing) → AskToDraw (map (λ w. w.items) words.now) d
        → keeper.new ≡ keeper.old }

    // What out and err took and what the row store has, by the status: exactly, whether the row store's rows are known
    // or not. It is about the source's bytes if they are known. Else it is about some bytes. If the command line names
    // `live`, there is a journal that has the scenario's commands, each once and in order, and its other turns in
    // order. No job is left in it. Out has the line of its schedule, and the report that `run` gives of these turns
    // over a book without rows.
    ensures live { AskLive (map (λ w. w.items) words.now) → OfRead (S.left scenario.old) (λ bytes.
        LiveEndsBy (call (map (λ w. w.items) words.now) bytes
        (K.kept keeper.old) (K.kept keeper.new)
        (across (O.written out.old) (O.faults out.old) (O.written out.new) (O.faults out.new))
        (across (E.written err.old) (E.faults err.old) (E.written err.new) (E.faults err.new)))
        result) }
    ensures ends { IsPlain (map (λ w. w.items) words.now) → OfRead (S.left scenario.old) (λ bytes.
        EndsBy (call (map (λ w. w.items) words.now) bytes (K.kept keeper.old) (K.kept keeper.new)
        (across (O.written out.old) (O.faults out.old) (O.written out.new) (O.faults out.new))
        (across (E.written err.old) (E.faults err.old) (E.written err.new) (E.faults err.new)))
        result) }

    // If it doesn't name `live`, and the source's bytes and the row store's rows are known, all of it against the
    // report. The report is a function of the arguments, the bytes and the rows. That is the status, what out and err
    // took, and the rows that are kept.
    ensures status { IsPlain (map (λ w. w.items) words.now) →
        ByReport (map (λ w. w.items) words.now) (S.left scenario.old)
        (K.kept keeper.old) (λ rows r. EndsAs r result) }
    ensures out { IsPlain (map (λ w. w.items) words.now) →
        ByReport (map (λ w. w.items) words.now) (S.left scenario.old) (K.kept keeper.old)
        (λ rows r. WritesOut r result
        (across (O.written out.old) (O.faults out.old) (O.written out.new) (O.faults out.new))) }
    ensures err { IsPlain (map (λ w. w.items) words.now) →
        ByReport (map (λ w. w.items) words.now) (S.left scenario.old) (K.kept keeper.old)
        (λ rows r. WritesErr r result
        (across (E.written err.old) (E.faults err.old) (E.written err.new) (E.faults err.new))) }
    ensures kept { IsPlain (map (λ w. w.items) words.now) →
        ByReport (map (λ w. w.items) words.now) (S.left scenario.old) (K.kept keeper.old)
        (λ rows r. KeepsRows r result rows (K.kept keeper.new)) }

    // If no count rose, the whole report of a good command line and good, known bytes is written, or memory ran out.
    ensures complete { IfSome (S.left scenario.old) (λ bytes.
        IsGood (map (λ w. w.items) words.now) bytes
        → RunsAlone (map (λ w. w.items) words.now) bytes
        → NoneRose (S.faults scenario.old) (S.faults scenario.new) (K.faults keeper.old)
        (K.faults keeper.new)
        (across (O.written out.old) (O.faults out.old) (O.written out.new) (O.faults out.new))
        (across (E.written err.old) (E.faults err.old) (E.written err.new) (E.faults err.new))
        → IsComplete result) }

    // Whatever bytes the source has, even if they aren't known, except in a live run. This is what is promised for
    // every run of the command line's turns over the scenario that they are. It holds for the report's run too,
    // whatever rows the row store hands back.
    ensures promises { (bytes : List ℕ) → Promises (map (λ w. w.items) words.now) bytes }

    // So it is in a live run, whatever turns its threads take.
    ensures well { (bytes : List ℕ) → LiveGoesWell (map (λ w. w.items) words.now) bytes }
{
    let parsed = Parsed::read(alloc, words);
    orch_parsed(rt, alloc, &parsed, scenario, out, err, keeper, gate).status()
}
