//! Reads scenarios: the scenario that bytes are, or the first fault of the walk over them, with its place.
#![tactic(auto)]

mod aliases;
mod answers;
mod blocks;
mod filters;
mod flaws;
mod head;
mod hooks;
mod opening;
mod walk;

pub use aliases::aliases_in;
pub use answers::answered;
pub use filters::{FilterTexts, filters_in, no_filters};
pub use head::Head;
pub use opening::{listed_count, opening_in};
pub use scenario_servers;
pub use scenario_turns;
pub use scenario_turns::{ListedTurn, Word};
pub use scenario_values;
pub use scenario_values::{Fault, FaultCode, Path, ReadFault};
use scenarios::hook_texts;
pub use scenarios::{binlog_coords_items, commands, openings, orch_base};
pub use walk::{read, read_is_sound, too_long};

/// What is passed on of `scenarios`.
pub mod scenarios_items {
    pub use scenarios::{Alias, Aliases, ClusterFilters, FilterList, Scenario, Texts, Turns};
}
