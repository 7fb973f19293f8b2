//! Turns, and what they answer.
#![tactic(auto)]

mod reply;
mod same;
mod turn;

pub use reply::{BoxedFailure, Failure, Reply};
use server_words::orch_base;
pub use turn::{Act, BoxedCommand, Step, Turn};
