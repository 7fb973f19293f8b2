//! The turns of a scenario's JSON text, command turns among them, and the turns that they mean.
#![tactic(auto)]

mod command;
mod expansion;
mod keys;
mod laws;
mod pattern;
mod patterns;
mod turn_forms;
mod word;

pub use command::command_in;
pub use expansion::{ListedTurn, expanded, in_order, printed_of};
pub use laws::{read_commands_are_sound, read_turns_are_sound};
pub use pattern::{found, printed_names};
pub use patterns::Patterns;
use scenarios::{commands, openings, orch_base, server_words_items};
pub use turn_forms::each_turn;
pub use word::Word;
