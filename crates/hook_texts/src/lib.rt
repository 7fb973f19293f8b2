//! The hooks of recoveries, and the texts that they are given.
#![tactic(auto)]

mod expanding;
mod hooks;
mod laws;
mod values;

pub use expanding::expand;
pub use hooks::{Hook, HookList, Hooks, SharedHooks};
pub use laws::{other_texts_stay, placeholders_give_values, texts_are_read_part_by_part};
pub use values::{Placeholder, Values};
