//! What orchestrator knows of its servers: the book of what was last seen, with bridges and leases. Beside it are the
//! rows that are kept of it and their row store (orchestrator's documentation).
#![tactic(auto)]

mod book;
mod bridge;
mod had;
mod laws;
mod lease;
mod server_list;

pub use book::{Book, StoreAnswer};
pub use bridge::{Bridge, bridge_in};
pub use kept_rows::{binlog_coords_items, gtid_sets, orch_base, server_words_items};
/// The rows and their row store.
pub use kept_rows::{
    Candidate, Change, Downtime, Instance, Keeper, KeeperFault, Key, MemKeeper, Observation,
    Recovery, RecoveryRow, Row, Seen, Table, last_row_stands, recoveries_are_kept, row_map,
    rows_are_a_map, same_look_ups_same_rows, sort_keys_differ,
};
pub use laws::{had_rows_change_nothing, instances_are_rows, rows_follow_the_book};
pub use lease::LeaseFault;
/// Out of memory.
pub use kept_rows::orch_base::{CauseName, Code, Ending, Kind, Memory, Rule};

/// What is passed on of `kept_rows`.
pub mod kept_rows_items {
    pub use kept_rows::{
        CauseName, Change, Ending, Keeper, KeeperFault, Kind, MemKeeper, Recovery, Row,
        last_row_stands, row_map,
    };
}
