//! The lists of operations of which plans are made.
#![tactic(auto)]

mod ends;
mod lists;
mod parts;

pub use ends::{ended_by_name, finished, following, moved, moved_each};
pub use lists::{autos, matchings, unders, ups};
use operations::{commands, orch_base};
/// Out of memory.
pub use operations::orch_base::Memory;
pub use parts::{again, again_auto, asking, auto, matching, restarted, swap, under, up};
