//! Tests of the book: its rows and row stores, the rows that count, what commands ask of it, and what operators decide.
#![tactic(auto)]

#[cfg(test)]
mod asking;
#[cfg(test)]
mod counting;
#[cfg(test)]
mod deciding;
#[cfg(test)]
mod keeping;
#[cfg(test)]
mod loading;
#[cfg(test)]
mod rows;

use instance_keeper::{binlog_coords_items, gtid_sets, orch_base};
