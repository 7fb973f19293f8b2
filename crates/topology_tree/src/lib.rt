//! The forest that a list of sources makes: parents, children in order, what is below what, and walks.
#![tactic(auto)]

mod forest;
mod laws;
mod links;
mod loops;

pub use forest::Forest;
pub use laws::{forests_are_computed, sources_have_one_forest, walks_list_their_tree};
/// Out of memory.
pub use std::alloc::AllocError as Memory;
