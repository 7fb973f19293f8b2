//! Tests of live runs: what no clause has of their threads.
#![tactic(auto)]

#[cfg(test)]
mod live;
#[cfg(test)]
mod meeting;

use orch_core::{commands, orch_base, scenarios_items, turns};
