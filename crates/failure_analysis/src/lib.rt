//! The analysis of the book: which of its servers failed, and how.
#![tactic(auto)]

mod code;
mod entry;
mod laws;
mod tally;

pub use code::{Action, Counts, actionable, code_of};
pub use entry::{Entry, analyse};
use instance_keeper::orch_base;
pub use laws::{each_instance_has_one_entry, one_row_applies, the_dead_are_recovered};
/// Out of memory.
pub use instance_keeper::orch_base::{Code, Memory};
