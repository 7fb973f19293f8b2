//! The world that an opening opens.
#![tactic(auto)]

mod making;
mod world;

use server_words::{binlog_coords_items, orch_base};
pub use world::OpenedWorld;
