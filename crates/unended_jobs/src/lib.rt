//! Jobs that aren't ended: the operations of a plan, or what is done with the replicas of a server; and the turn of
//! either, looked up and done. Also how one is found among them, and the rounds by which it is run to its end.
#![tactic(auto)]

mod docket;
mod hooking;
mod jobs;
mod laws;
mod look;
mod rounds;
mod unended;

pub use docket::Docket;
pub use hook_texts;
pub use job_plans;
pub use jobs::{FoundJob, answer, find, take_turn};
pub use laws::unended_jobs_go_on;
pub use look::{Place, UnendedLook};
pub use recovery_hooks;
pub use recovery_plans::orch_base;
use recovery_plans::{commands, instance_keeper_items, operations_items, server_model};
pub use recovery_turns;
pub use rounds::{others_over, round_over};
pub use unended::Unended;
/// Out of memory.
pub use recovery_plans::orch_base::Memory;

/// What is passed on of `recovery_plans`.
pub mod recovery_plans_items {
    pub use recovery_plans::{Means, Purpose};
}
