//! Scenarios: the servers as they begin and the turns that follow, which of them can be run, and how much room a run
//! takes.
#![tactic(auto)]

mod blocks;
mod filters;
mod labels;
mod room;
mod same;
mod scenario;

pub use blocks::{Block, Blocks};
pub use commands;
pub use commands::Answers;
pub use filters::{Alias, Aliases, ClusterFilters, FilterList, Texts};
pub use hook_texts;
pub use hook_texts::{Hook, HookList, Hooks, SharedHooks};
pub use labels::{ByLabel, Labelled};
pub use openings;
pub use server_words::{binlog_coords_items, orch_base};
pub use turns;
/// Out of memory.
pub use scenario::{Rules, Scenario, Turns};
pub use server_words::orch_base::Memory;
pub use turns::{Act, BoxedCommand, Step, Turn};

/// What is passed on of `server_words`.
pub mod server_words_items {
    pub use server_words::{
        ApplyAnswer, Ask, AttachFault, FetchAnswer, Link, PurgeAnswer, RotateAnswer, Spot, Status,
        StatusFault, Threads, WriteAnswer,
    };
}
