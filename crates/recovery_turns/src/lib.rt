//! Recoveries as jobs: what a turn of one does, looked up before it.
#![tactic(auto)]

mod beginning;
mod boxed;
mod changes;
mod decided;
mod deciding;
mod job_parts;
mod look;
mod next;
mod progress;
mod recovery;
mod telling;
mod turn;

pub use boxed::BoxedLook;
pub use look::RecoveryLook;
pub use recovery::RecoveryJob;
use recovery_plans::{
    commands, instance_keeper_items, operations_items, orch_base, server_model, server_words_items,
};
/// Out of memory.
pub use recovery_plans::orch_base::Memory;
