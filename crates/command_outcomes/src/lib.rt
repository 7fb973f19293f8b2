//! What a command or a scan comes to: what it answers, which job it begins, and what it makes of the book, the audit
//! and the jobs. It is only computed here. Nothing is changed.
#![tactic(auto)]

mod command;
mod configuration;
mod jobs;
mod reading;
mod recovering;
mod regrouping;
mod telling;

pub use book_commands;
pub use command::{Beginning, Numbers, Outcome, Recoveries, Update, outcome_of};
pub use configuration::Configuration;
pub use jobs::{job, means_of, permit};
pub use reading::read_server;
pub use recovering::scan_by;
pub use recovery_core;
pub use recovery_core::{
    PermitFault, audit_log, binlog_coords_items, commands, gtid_sets, instance_keeper_items,
    kept_rows_items, operations_items, orch_base, server_model,
};
use recovery_core::{book_views, permission_items, topology_tree};
pub use regrouping::RegroupJob;
pub use scenarios::{openings, turns};
use unended_jobs::{hook_texts, job_plans, recovery_hooks, recovery_plans_items, recovery_turns};
/// Out of memory.
pub use unended_jobs::orch_base::Memory;

/// What is passed on of `asking_commands`.
pub mod asking_commands_items {
    pub use asking_commands::recovery_lines;
}

/// What is passed on of `scenarios`.
pub mod scenarios_items {
    pub use scenarios::{Alias, Aliases, ClusterFilters, FilterList, Scenario, Texts, Turns};
}

/// What is passed on of `unended_jobs`.
pub mod unended_jobs_items {
    pub use unended_jobs::{
        Docket, FoundJob, Unended, UnendedLook, answer, find, others_over, round_over, take_turn,
    };
}
