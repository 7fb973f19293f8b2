//! The report of a journal: of turns that were taken, with their replies.

ghost use Rattle.std.specs.Prelude.{IfErr, OnOk, OnErr, length};
ghost use Rattle.tasks.specs.Journals.{JournalStands, Told, ToldSome, told_in, told_run};
ghost use Rattle.tasks.specs.Sinks.{across, taken};

use crate::Ending;
use crate::orch_base::{Memory, Name, Sink};
use crate::progress::Progress;
use crate::turns::{Reply, Turn};
use orch_core::Engine;
use report_text::PrintedNames;
use std::alloc::Global;

// Adds the line of each turn with its reply.
fn add_entries<O: Sink>(
    entries: &[(u32, Turn, Reply)],
    names: &PrintedNames<'_>,
    progress: &mut Progress,
    out: &mut O,
) -> Result<(), Memory>
    ensures ok { OnOk result (Told names.now (told_in entries.now) (length entries.now)
        progress.old progress.new
        (taken (O.written out.old) (O.faults out.old))
        (taken (O.written out.new) (O.faults out.new))) }
    ensures err { OnErr result (ToldSome names.now (told_in entries.now)
        progress.old progress.new
        (taken (O.written out.old) (O.faults out.old))
        (taken (O.written out.new) (O.faults out.new))) }
{
    for (i, entry) in entries.iter().enumerate() {
        progress.add(i as u64 + 1, &entry.1, &entry.2, names, out)?;
    }
    Ok(())
}

// The report, by the printed names.
fn printed_journal<O: Sink>(
    alloc: Global,
    head: Vec<u8>,
    entries: &[(u32, Turn, Reply)],
    engine: &Engine,
    names: &PrintedNames<'_>,
    out: &mut O,
) -> Ending
    ensures { JournalStands head.items names.now (told_run engine.now entries.now)
        (across (O.written out.old) (O.faults out.old) (O.written out.new) (O.faults out.new))
        result }
{
    let mut progress = Progress::behind(alloc, head);
    match add_entries(entries, names, &mut progress, out) {
        Ok(()) => progress.end(engine, out),
        Err(_) => Ending::Memory,
    }
}

/// Writes what comes first, and after it the report of a run. It has the line of each of these turns, which were taken,
/// with its reply, in pieces. Then come the tables of the state that they led to. `names` are the servers' names.
pub fn journal_report<O: Sink>(
    alloc: Global,
    head: Vec<u8>,
    entries: &[(u32, Turn, Reply)],
    engine: &Engine,
    names: &[Name],
    out: &mut O,
) -> Ending
    ensures { JournalStands head.items names.now (told_run engine.now entries.now)
        (across (O.written out.old) (O.faults out.old) (O.written out.new) (O.faults out.new))
        result }
{
    match PrintedNames::new(alloc, names) {
        Ok(names) => printed_journal(alloc, head, entries, engine, &names, out),
        Err(_) => Ending::Memory,
    }
}
