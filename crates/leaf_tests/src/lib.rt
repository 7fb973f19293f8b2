//! Tests of the analysis, the rules of promotion and the audit.
#![tactic(auto)]

#[cfg(test)]
mod analysis;
#[cfg(test)]
mod audit;
#[cfg(test)]
mod promotion;

use instance_keeper::{binlog_coords_items, gtid_sets, kept_rows_items, orch_base};
