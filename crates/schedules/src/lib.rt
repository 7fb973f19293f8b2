//! Schedules as text: turns in the scenario's own form.
#![tactic(auto)]

mod command;
mod schedule;
mod turn;
mod words;

use scenarios::{commands, orch_base, server_words_items, turns};
pub use schedule::schedule_text;
