//! The commands that take servers below another one if their logs match (Pseudo-GTID). It has what refuses each, of
//! which servers its job takes the leases, and the plans of those whose operations are known before.
#![tactic(auto)]

mod command;
mod permits;
mod plans;

pub use command::pseudo_command;
use permission::{
    book_views, commands, instance_keeper_items, operations_items, orch_base, server_model,
    topology_tree,
};
/// Out of memory.
pub use permission::PermitFault;
pub use permission::orch_base::Memory;
pub use permits::{lead_of, permit, permit_kind};
pub use plans::{is_planned, ops_of, plan};
