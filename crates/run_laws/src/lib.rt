//! Laws over the definitions of the run, beside it. They are about what single turns and openings leave, and what holds
//! for every run over a scenario's servers. They are also about what orchestrator knows through it, and what commands
//! and scans answer and begin.
#![tactic(auto)]

mod answering;
mod blocks;
mod claims;
mod flights;
mod keeping;
mod knowing;
mod logging;
mod replicas;
mod runs;
mod steps;

pub use answering::{commands_answer_by_the_table, scans_tell_each_try};
pub use blocks::begins_keep_the_block;
pub use claims::{claims_pass_alone, one_orchestrator_is_active};
pub use flights::{
    every_quiet_state_is_sound, every_state_is_held, jobs_keep_to_their_leases,
    jobs_leave_fewer_turns, turns_are_passages,
};
pub use keeping::kept_rows_follow;
pub use knowing::{
    jobs_wait_as_told, readings_are_stored, tables_hold_row_by_row, time_and_numbers_rise,
};
pub use logging::{every_audit_is_apart, recoveries_begin_apart};
pub use orch_core::{
    binlog_coords_items, gtid_sets, instance_keeper_items, kept_rows_items, orch_base,
    scenarios_items, turns,
};
pub use replicas::begins_name_replicas_once;
pub use runs::{
    every_quiet_state_is_safe, every_state_is_placed, full_never_comes, own_turns_are_turns,
    quiet_runs_were_quiet, skipped_never_comes,
};
pub use steps::{openings_are_flights, openings_are_ready, turns_are_flown, turns_leave_all_ready};

/// What is passed on of `orch_core`.
pub mod orch_core_items {
    pub use orch_core::Engine;
}
