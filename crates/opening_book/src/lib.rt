//! What orchestrator knows when it begins: the book of the kept rows that count, and of what the servers show.
#![tactic(auto)]

mod audit;
mod counting;
mod laws;
mod opening;

pub use audit::{beyond_instances, last_id, latest_recovery, loaded_audit};
pub use counting::{GREATEST_ID, counted, counted_in_order, last_read, latest_moment};
use instance_keeper::orch_base;
pub use laws::{
    kept_rows_follow_the_audit, kept_rows_follow_the_book, openings_count_readings,
    recoveries_are_no_rows_of_the_book,
};
pub use opening::{loading, open_book, opening_changes};
/// Out of memory.
pub use instance_keeper::orch_base::Memory;
