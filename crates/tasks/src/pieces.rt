//! A text on its way to a sink.

ghost use Rattle.std.specs.Prelude.{◌≡◌, ◌++◌, [], OnOk, OnErr, false};
ghost use Rattle.tasks.specs.Prelude.{line_text};
ghost use Rattle.tasks.specs.Report.{tables_of};
ghost use Rattle.tasks.specs.Sinks.{Joins, Stays, taken};

use crate::asking_commands_items::recovery_lines;
use crate::orch_base::{Memory, Sink, write_all};
use crate::turns::{Reply, Turn};
use orch_core::Engine;
use report_text::{PrintedNames, reply_text_by, tables};
use std::alloc::Global;

/// A piece is handed over once it has so many bytes: 64 KiB.
const PIECE: usize = 65_536;

/// Appends the tables of the state that it is now, with its recoveries and its unended jobs; or nothing if memory runs
/// out.
pub(crate) fn add_tables(engine: &Engine, out: &mut Vec<u8>) -> Result<(), Memory>
    ensures ok { OnOk result (out.new.items ≡ out.old.items ++ tables_of engine.now) }
    ensures err { OnErr result (out.new.items ≡ out.old.items) }
{
    let alloc = *out.allocator();
    let recoveries = recovery_lines(alloc, engine.audit().recoveries())?;
    let mut jobs = Vec::new(alloc);
    for job in engine.open_jobs() {
        jobs.push(job.id())?;
    }
    tables(engine.world(), recoveries.as_slice(), &jobs, out)
}

/// A text on its way to a sink in pieces: what the sink hasn't got yet, whether the sink failed, and room for a line.
/// What is added after a fault is dropped.
#[derive(Drop)]
pub(crate) struct Pieces {
    held: Vec<u8>,
    failed: bool,
    line: Vec<u8>,
}

impl Pieces {
    /// No text yet.
    pub(crate) fn new(alloc: Global) -> Pieces
        ensures held { result.held.items ≡ [] }
        ensures failed { result.failed ≡ false }
    {
        Pieces {
            held: Vec::new(alloc),
            failed: false,
            line: Vec::new(alloc),
        }
    }

    /// This text, of which the sink hasn't been given anything yet.
    pub(crate) fn of(alloc: Global, held: Vec<u8>) -> Pieces
        ensures held { result.held.items ≡ held.items }
        ensures failed { result.failed ≡ false }
    {
        Pieces {
            held,
            failed: false,
            line: Vec::new(alloc),
        }
    }

    /// Whether the sink failed.
    pub(crate) fn has_failed(&self) -> bool
        ensures { result ≡ self.now.failed }
    {
        self.failed
    }

    /// Hands over what is waiting.
    pub(crate) fn hand_over<O: Sink>(&mut self, out: &mut O)
        ensures stays { Stays self.old self.new
            (taken (O.written out.old) (O.faults out.old))
            (taken (O.written out.new) (O.faults out.new)) }
        ensures held { self.new.failed ≡ false → self.new.held.items ≡ [] }
    {
        if self.failed {
            return;
        }
        self.failed = write_all(out, &self.held).is_err();
        self.held.clear();
    }

    /// Adds the line of a turn with its reply, by its number in the run. It hands over what is waiting once that is a
    /// piece. If memory runs out, the text is as it was.
    pub(crate) fn add_reply<O: Sink>(
        &mut self,
        number: u64,
        t: &Turn,
        r: &Reply,
        names: &PrintedNames<'_>,
        out: &mut O,
    ) -> Result<(), Memory>
        ensures ok { OnOk result (Joins (line_text names.now number t.now r.now) self.old self.new
            (taken (O.written out.old) (O.faults out.old))
            (taken (O.written out.new) (O.faults out.new))) }
        ensures err { OnErr result (Stays self.old self.new
            (taken (O.written out.old) (O.faults out.old))
            (taken (O.written out.new) (O.faults out.new))) }
    {
        if self.failed {
            return Ok(());
        }
        reply_text_by(number, t, r, names, &mut self.line, &mut self.held)?;
        if self.held.len() >= PIECE {
            self.hand_over(out);
        }
        Ok(())
    }

    /// Adds the tables of the state that it is now. If memory runs out, the text is as it was.
    pub(crate) fn add_tables(&mut self, engine: &Engine) -> Result<(), Memory>
        ensures ok { OnOk result (self.new.held.items
            ≡ self.old.held.items ++ tables_of engine.now) }
        ensures err { OnErr result (self.new.held.items ≡ self.old.held.items) }
        ensures failed { self.new.failed ≡ self.old.failed }
    {
        add_tables(engine, &mut self.held)
    }
}
