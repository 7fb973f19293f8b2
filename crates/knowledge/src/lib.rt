//! What orchestrator knows, and how it changes: a change is kept first, by a call of the row store that may fail, and
//! then made.
#![tactic(auto)]

mod closing;
mod fault;
mod keep;
mod knowledge;
mod replies;

pub use closing::{Closing, close_entry, closing_of, keep_turn};
pub use command_outcomes::{
    asking_commands_items, audit_log, binlog_coords_items, commands, gtid_sets,
    instance_keeper_items, kept_rows_items, openings, orch_base, scenarios_items, server_model,
    turns, unended_jobs_items,
};
use command_outcomes::{book_commands, operations_items, recovery_core};
pub use fault::TurnFault;
pub use keep::{given_rows, keep_some, store_slot};
pub use knowledge::Knowledge;
pub use replies::{Replies, copied, plain};

/// What is passed on of `command_outcomes`.
pub mod command_outcomes_items {
    pub use command_outcomes::{
        Configuration, Numbers, Outcome, means_of, outcome_of, read_server, scan_by,
    };
}
