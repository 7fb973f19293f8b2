//! The command line, read over `clap`.
#![tactic(auto)]

mod command;
mod laws;
mod options;
mod parts;
mod usage;
mod value;
mod words;

pub use command::{Own, is_taken_word};
pub use laws::taken_words_are_sound;
pub use parts::{Drawing, Places};
pub use usage::Usage;
pub use words::places;
/// Out of memory.
pub use orch_base::Memory;
