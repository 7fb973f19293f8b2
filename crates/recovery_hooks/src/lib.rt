//! The hooks of one recovery: which is due, and which lines those that ran have (orchestrator's documentation,
//! "Recovery hooks").
#![tactic(auto)]

mod laws;
mod lines;
mod run;

pub use laws::{all_hooks_run, hooks_run_in_order};
/// Out of memory.
pub use orch_base::Memory;
pub use run::HookRun;
