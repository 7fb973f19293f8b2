//! A live run: a driver, pollers and workers take their turns over one lock.
#![tactic(auto)]

mod cursor;
mod desk;
mod end;
mod live_run;
mod pass;
mod roles;
mod rows;
mod tasks;
mod threads;

pub use desk::Desk;
pub use end::{Ended, Journal};
pub use live_run::{live, live_to_end};
use orch_core::{kept_rows_items, orch_base, scenarios_items, turns};
pub use pass::Pass;
