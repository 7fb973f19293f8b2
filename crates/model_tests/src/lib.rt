//! Tests of the modelled servers and of jobs: openings, exchanges and matches as rows of data, and a job's turns.
#![tactic(auto)]

#[cfg(test)]
mod exchanges;
#[cfg(test)]
mod given;
#[cfg(test)]
mod jobs;
#[cfg(test)]
mod matching;
#[cfg(test)]
mod servers;
#[cfg(test)]
mod starts;

use operations::{binlog_coords_items, commands, gtid_sets, orch_base, server_model};
