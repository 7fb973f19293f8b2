//! The servers as a scenario gives them, before any turn: what each has executed, and whether they are `Sound`.
#![tactic(auto)]

mod histories;
mod init;
mod laws;
mod logs;
mod opening;
mod part;

use binlog_coords::orch_base;
pub use histories::{count_of, executed_by, history_at, listed_history, parts_of, source_no};
pub use init::ServerInit;
pub use laws::checked_openings_are_sound;
pub use logs::{laid_history, laid_log, log_of};
pub use opening::{Flaw, Opening};
pub use part::{Counts, Part, Parts, transactions};
