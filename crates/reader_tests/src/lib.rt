//! Tests of the calls that read scenarios, their values, servers and commands, and the command line. There is one of
//! each call with ample memory, and what no run of the program has. What runs have is in the repository's cases.
#![tactic(auto)]

use scenario_reader::{
    binlog_coords_items, commands, openings, orch_base, scenario_servers, scenario_turns,
    scenario_values, scenarios_items,
};

#[cfg(test)]
mod keys;
#[cfg(test)]
mod servers;
#[cfg(test)]
mod values;
#[cfg(test)]
mod walk;
#[cfg(test)]
mod words;
