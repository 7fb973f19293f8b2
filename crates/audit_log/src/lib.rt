//! The audit of recoveries, and when another recovery of a cluster may begin.
#![tactic(auto)]

mod audit;
mod extended;
mod held;
mod index;
mod laws;
mod loading;
mod one;
mod periods;
mod view;
mod walks;

pub use audit::Audit;
pub use extended::Extended;
pub use held::Held;
use kept_rows::orch_base;
pub use laws::{
    audits_stay_apart, begins_are_apart, kept_recoveries_make_an_audit, restarts_end_recoveries,
};
pub use loading::{loaded_by, recoveries_in};
/// Out of memory.
pub use kept_rows::orch_base::Memory;
pub use one::is_unended;
pub use periods::Periods;
pub use view::AuditView;
