//! Openings that tests make: whether servers are listed as an opening wants them.
#![tactic(auto)]

mod listed;

pub use listed::{are_apart, are_listed, are_servers};
