//! Which drained replica is promoted, which one takes its place, and which go below it, at which coordinate of its
//! binary log.
#![tactic(auto)]

mod choice;
mod drained;
mod groups;
mod laws;

pub use choice::{better, most_advanced};
pub use drained::Drained;
pub use groups::{Group, Groups, Lines, group_of, split};
use instance_keeper::{binlog_coords_items, orch_base};
pub use laws::{
    better_is_the_first, most_advanced_is_the_first, orders_are_total, ranks_go_by_rule_first,
};
/// Out of memory.
pub use instance_keeper::orch_base::Memory;
