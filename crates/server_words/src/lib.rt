//! What is asked of servers, what happens to them, and what they answer: plain types.
#![tactic(auto)]

mod answers;
mod attach;
mod changes;
mod plain;
mod status;

pub use answers::{ApplyAnswer, FetchAnswer, PurgeAnswer, RotateAnswer, Unreachable, WriteAnswer};
pub use attach::{AttachFault, Spot};
pub use binlog_coords::orch_base;
pub use changes::{Ask, Event, Link, Threads};
pub use gtid_sets;
pub use plain::Plain;
pub use status::{Status, StatusFault};

/// What is passed on of `binlog_coords`.
pub mod binlog_coords_items {
    pub use binlog_coords::{Coord, LogIndex, Next, print_coord, printed_reads, read_coord};
}
