//! The world that a run led to as a scenario's text, by which another run can begin.
#![tactic(auto)]

mod files;
mod histories;
mod laws;
mod server;
mod values;
mod whole;

pub use laws::{dumps_read_as_json, small_dumps_are_known};
use scenarios::{binlog_coords_items, openings, orch_base};
pub use whole::dump;
