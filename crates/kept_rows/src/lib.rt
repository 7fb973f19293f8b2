//! The rows that are kept of what orchestrator knows, and the row store that keeps them (orchestrator's documentation,
//! "Backend database").
#![tactic(auto)]

mod boxed;
mod keeper;
mod laws;
mod memory;
mod observation;
mod recovery;
mod row;
mod servers;

pub use keeper::{Keeper, KeeperFault};
pub use laws::{
    last_row_stands, recoveries_are_kept, rows_are_a_map, same_look_ups_same_rows, sort_keys_differ,
};
pub use memory::{MemKeeper, row_map};
pub use observation::{Instance, Observation};
pub use server_words::{binlog_coords_items, gtid_sets, orch_base};
/// Out of memory.
pub use recovery::{Recovery, RecoveryRow};
pub use row::{Candidate, Change, Downtime, Key, Row, Table};
pub use server_words::orch_base::{CauseName, Ending, Kind, Memory, Rule};
/// What one status of a server shows.
pub use server_words::Status as Seen;

/// What is passed on of `server_words`.
pub mod server_words_items {
    pub use server_words::{
        ApplyAnswer, Ask, AttachFault, FetchAnswer, Link, PurgeAnswer, RotateAnswer, Spot, Status,
        StatusFault, Threads, WriteAnswer,
    };
}
