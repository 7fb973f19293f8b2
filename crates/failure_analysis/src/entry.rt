//! The analysis of a book.

ghost use Rattle.std.specs.Prelude.{◌≡◌, IfOk};
ghost use Rattle.failure_analysis.specs.Analysis.{analysis};
ghost use Rattle.failure_analysis.specs.Table.{code_of};
ghost use Rattle.failure_analysis.specs.Tallies.{counts_by, AreParts};

use crate::Memory;
use crate::code::{Counts, code_of};
use crate::orch_base::{Code, ServerNo, SourceState};
use crate::tally::{Tally, tallies};
use instance_keeper::{Book, Instance};
use std::alloc::Global;

/// The analysis of an instance.
#[derive(Clone, Copy, Debug, PartialEq, Eq)]
pub struct Entry {
    /// The instance.
    pub no: ServerNo,
    /// Its code.
    pub code: Code,
    /// What its code goes by.
    pub counts: Counts,
}

fn counts_by(instance: &Instance, tally: Tally) -> Counts
    ensures { result ≡ counts_by instance.now tally }
{
    Counts {
        has_source: instance.seen.source != SourceState::Without,
        valid: instance.valid,
        replicas: tally.replicas,
        valid_replicas: tally.valid,
        replicating: tally.replicating,
        lagging: tally.lagging,
    }
}

fn entry_of(no: ServerNo, instance: &Instance, tally: Tally) -> Entry
    requires { AreParts tally }
    ensures no { result.no ≡ no }
    ensures counts { result.counts ≡ counts_by instance.now tally }
    ensures code { result.code ≡ code_of result.counts }
{
    let counts = counts_by(instance, tally);
    Entry {
        no,
        code: code_of(counts),
        counts,
    }
}

/// One entry for each instance of the book, in name order. The time is linear in the number of servers. `Err` means out
/// of memory.
pub fn analyse(alloc: Global, book: &Book) -> Result<Vec<Entry>, Memory>
    ensures { IfOk result (λ entries. entries.items ≡ analysis book.now) }
{
    // shows the proof that each server has its place
    let _ = book.servers();
    let instances = book.instances(alloc)?;
    let tallies = tallies(alloc, book, &instances)?;
    let order = book.order();
    let mut entries = Vec::with_capacity(alloc, order.len())?;
    for no in order {
        if let Some(instance) = instances[no.0 as usize] {
            entries.push(entry_of(*no, instance, tallies[no.0 as usize]))?;
        }
    }
    Ok(entries)
}
