//! Tests of the top call over objects in memory: the worked examples, what sources, sinks and row stores that fail make
//! of it, and kept rows.
#![tactic(auto)]

#[cfg(test)]
mod calls;
#[cfg(test)]
mod every_call;
#[cfg(test)]
mod examples;
#[cfg(test)]
mod examples_more;
#[cfg(test)]
mod examples_moves;
#[cfg(test)]
mod examples_recoveries;
#[cfg(test)]
mod examples_refused;
#[cfg(test)]
mod failing;
#[cfg(test)]
mod files;
#[cfg(test)]
mod keeping;

use top_call::{binlog_coords_items, gtid_sets, instance_keeper_items, orch_base};
