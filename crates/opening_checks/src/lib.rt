//! The check of an opening: whether a scenario's servers have a flaw, and the value that is to blame for the first one.
#![tactic(auto)]

mod check;
mod fault;
mod files;
mod flaws;
mod kin;
mod kin_row;
mod opening;
mod places;
mod source_logs;

use binlog_coords::orch_base;
pub use fault::{FlawedValue, OpeningFault};
pub use opening::CheckedOpening;
