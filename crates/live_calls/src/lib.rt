//! The top call: it does all that the command line asks, a run in threads too.
#![tactic(auto)]

mod answering;
mod delivery;
mod laws;
mod reading;
mod rows;
mod top;

pub use laws::{dumps_are_of_what_is_left, refused_commands_leave_the_state, schedules_run_alike};
pub use top::orch;
pub use top_call::{command_line, instance_keeper_items, orch_base};
use top_call::{kept_rows_items, orch_core_items, scenario_values, scenarios_items, tasks, turns};

/// What is passed on of `top_call`.
pub mod top_call_items {
    pub use top_call::{Way, close};
}
