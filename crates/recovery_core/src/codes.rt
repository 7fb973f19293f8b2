//! The analysis of the instances of a book.

ghost use Rattle.std.specs.Prelude.{◌≡◌, ◌<◌, ◌==◌, All, IfOk, filter, find, length, option_map};
ghost use Rattle.recovery_core.specs.Prelude.{action_of};
ghost use Rattle.recovery_core.specs.Checks.{code_at};
ghost use Rattle.recovery_core.specs.Scans.{actionable_in, is_asked, IsEntryIn};

use crate::Memory;
use crate::failure_analysis::{Action, Entry, actionable, analyse};
use crate::instance_keeper_items::Book;
use crate::orch_base::{Code, ServerNo};
use std::alloc::Global;

// The code of a server among these entries.
fn code_in(entries: &[Entry], no: ServerNo) -> Option<Code>
    ensures { result ≡ option_map (λ e. e.code) (find (λ e. e.no.0 == no.0) entries.now) }
{
    let entry = entries.iter().find(|e| e.no.0 == no.0)?;
    Some(entry.code)
}

/// The code of a server: none of one that is no instance.
pub(crate) fn code_at(alloc: Global, book: &Book, no: ServerNo) -> Result<Option<Code>, Memory>
    requires { no.0 < length book.now.names }
    ensures { IfOk result (λ c. c ≡ code_at book.now no) }
{
    let entries = analyse(alloc, book)?;
    Ok(code_in(&entries, no))
}

// Whether a code asks for a recovery.
fn is_asked(code: Code) -> bool
    ensures { result ≡ is_asked (action_of code) }
{
    match actionable(code) {
        Action::MasterRecovery | Action::IntermediateRecovery => true,
        Action::Nothing => false,
    }
}

// Those of the entries whose code asks for a recovery.
fn asked(alloc: Global, entries: &[Entry]) -> Result<Vec<Entry>, Memory>
    ensures { IfOk result (λ v. v.items
        ≡ filter (λ e. is_asked (action_of e.code)) entries.now) }
{
    entries
        .iter()
        .copied()
        .filter(|e| is_asked(e.code))
        .collect(alloc)
}

/// The instances whose analysis asks for a recovery, in name order.
pub(crate) fn actionable_entries(alloc: Global, book: &Book) -> Result<Vec<Entry>, Memory>
    ensures list { IfOk result (λ v. v.items ≡ actionable_in book.now) }
    ensures entries { IfOk result (λ v. All (IsEntryIn book.now) v.items) }
{
    let entries = analyse(alloc, book)?;
    asked(alloc, &entries)
}
