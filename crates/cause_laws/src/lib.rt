//! Laws of why jobs fail, and of what they have in their hands.
#![tactic(auto)]

mod courses;
mod events;
mod hands;

pub use courses::{undisturbed_jobs_are_done, waits_are_spent_last};
pub use events::{jobs_fail_for_what_befell, turns_do_one_operation};
pub use hands::hands_are_what_is_left_stopped;
