//! A row store in a database file (orchestrator's documentation, "Backend database"), and the choice between it and a
//! row store in memory.
#![tactic(auto)]

mod backend;
mod fault;
mod sql;
mod texts;

pub use backend::Backend;
use kept_rows::orch_base;
pub use sql::SqlKeeper;
