//! The recoveries of every run: what each turn leaves of them, and in which turn each began. Then what its lost
//! replicas were lost for, and what it owes its replicas when it is done.
#![tactic(auto)]

mod finished;
mod runs;
mod steps;

pub use finished::{
    facts_are_true, finished_recoveries_end_their_entries, finished_recoveries_owe_nothing,
    recoveries_tell_all_hooks,
};
pub use run_laws::{
    binlog_coords_items, gtid_sets, instance_keeper_items, kept_rows_items, orch_base,
    orch_core_items, scenarios_items, turns,
};
pub use runs::{
    recoveries_began, recoveries_finish_well, recoveries_have_true_facts, recoveries_look_first,
    recoveries_tell_hooks_in_runs,
};
pub use steps::{
    openings_cover, recoveries_come_of_those_begun, turns_begin_jobs_once, turns_cover,
};
