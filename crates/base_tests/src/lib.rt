//! Tests of the lowest crates: names, coordinates, GTID sets, filters, forests, the order of servers, drawn scenarios,
//! hooks' texts, claims.
#![tactic(auto)]

#[cfg(test)]
mod claims;
#[cfg(test)]
mod coords;
#[cfg(test)]
mod filters;
#[cfg(test)]
mod forest;
#[cfg(test)]
mod generator;
#[cfg(test)]
mod in_memory;
#[cfg(test)]
mod names;
#[cfg(test)]
mod order;
#[cfg(test)]
mod placeholders;
#[cfg(test)]
mod sets;

use binlog_coords::orch_base;
