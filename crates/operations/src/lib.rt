//! Jobs as definitions: operations, plans and what a turn does.
#![tactic(auto)]

mod laws;
mod matching;
mod op;
mod sight;
mod step;

pub use commands;
pub use instance_keeper::{
    binlog_coords_items, gtid_sets, kept_rows_items, orch_base, server_words_items,
};
pub use laws::{jobs_end, jobs_stay_in_range, turns_are_allowed};
pub use matching::{Match, MatchFault};
pub use op::{Aim, Crossing, Op};
pub use server_model;
pub use sight::{Position, Sight};
pub use step::JobStep;

/// What is passed on of `instance_keeper`.
pub mod instance_keeper_items {
    pub use instance_keeper::{
        Book, Bridge, Candidate, Change, Downtime, Instance, Keeper, KeeperFault, Key, MemKeeper,
        Observation, Recovery, RecoveryRow, Row, Seen, StoreAnswer, Table,
    };
}
