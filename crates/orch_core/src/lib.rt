//! A run over the servers, turn by turn: the world that the turns made, what orchestrator knows, and what each turn
//! answered.
#![tactic(auto)]

mod claiming;
mod engine;
mod exchanging;
mod nodes;
mod opening;
mod orch;
mod polls;

pub use engine::Engine;
pub use knowledge::command_outcomes_items::{Configuration, means_of};
pub use knowledge::commands::{
    Answers, Command, CommandName, CommandTurn, Found, Keys, Line, Lines, Refusal, StateWord,
};
pub use knowledge::scenarios_items::{
    Alias, Aliases, ClusterFilters, FilterList, Scenario, Texts, Turns,
};
pub use knowledge::turns::{Act, BoxedCommand, BoxedFailure, Failure, Reply, Step, Turn};
pub use knowledge::{
    TurnFault, asking_commands_items, binlog_coords_items, commands, gtid_sets,
    instance_keeper_items, kept_rows_items, orch_base, scenarios_items, turns, unended_jobs_items,
};
use knowledge::{audit_log, command_outcomes_items, openings, server_model};
pub use node_claims;
pub use orch::Orch;
