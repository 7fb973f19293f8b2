//! Which clusters a recovery may touch: filters over a cluster's name and alias, and patterns over a text.
#![tactic(auto)]

mod fault;
mod filter;
mod filters;
mod judge;
mod pattern;

pub use fault::FilterFault;
pub use filters::Filters;
pub use judge::Judged;
pub use pattern::{Pattern, Search};
/// Out of memory.
pub use std::alloc::AllocError as Memory;
