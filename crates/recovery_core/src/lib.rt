//! What refuses recoveries and takeovers, how they begin, by hand and by a scan, and how their entries in the audit end
//! (orchestrator's documentation, "Topology recovery").
#![tactic(auto)]

mod ask;
mod attempt;
mod begun;
mod checks;
mod codes;
mod ending;
mod groups;
mod laws;
mod recoveries;
mod scanning;
mod stage;
mod takeover;
mod takeovers;
mod tries;

pub use ask::{Ask, try_begin};
pub use attempt::Attempt;
pub use audit_log;
pub use begun::Begun;
pub use ending::{ending_of, is_acknowledged};
use failure_analysis;
pub use laws::{
    begins_keep_audits_apart, endings_close_entries, refused_tries_begin_nothing,
    scans_begin_in_turn, tries_can_begin,
};
pub use permission::{
    PermitFault, binlog_coords_items, book_views, commands, gtid_sets, instance_keeper_items,
    kept_rows_items, operations_items, orch_base, server_model, topology_tree,
};
pub use recoveries::{permit_recovery, recovery_purpose, recovery_servers, refusal_by_code};
pub use scanning::{Terms, scan};
pub use stage::Scan;
pub use takeovers::{followers_of, permit_takeover};
/// Out of memory.
pub use permission::orch_base::Memory;

/// What is passed on of `permission`.
pub mod permission_items {
    pub use permission::{Case, Lead, PermitFault, looks_at, replicas_but, source, unknown_in};
}
