//! Sets of MySQL's global transaction identifiers (GTIDs): exact operations, grammar and printing
//! (MySQL 8.0 Reference Manual, "GTID Format and Storage").
#![tactic(auto)]

mod fault;
mod grammar;
mod interval;
mod print;
mod reserved;
mod set;
mod shared;

pub use fault::GtidFault;
pub use interval::{Interval, LARGEST};
pub use print::printed_reads;
pub use reserved::{ReservedSet, added_is_had};
pub use set::{GtidSet, count_is_pairs, same_sets};
/// Out of memory.
pub use std::alloc::AllocError as Memory;
