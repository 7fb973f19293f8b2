//! The call that does all that the command line asks with a scenario, except for a run in threads.
#![tactic(auto)]

mod fault;
mod parsed;
mod reading;
mod top;
mod way;

pub use command_line;
pub use parsed::Parsed;
pub use reading::{Stop, scenario_from, stop_by};
pub use recovery_runs::{
    binlog_coords_items, gtid_sets, instance_keeper_items, kept_rows_items, orch_base,
    orch_core_items, scenarios_items, turns,
};
pub use scenario_reader::scenario_values;
pub use tasks;
pub use top::{close, close_fault, orch_plain, respond};
pub use way::Way;
