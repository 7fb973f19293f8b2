//! The commands that take servers below another one by whatever path, and the one that sets a server's replicas in
//! order. It has what refuses each, of which servers its job takes the leases, and the plans of the first.
#![tactic(auto)]

mod command;
mod permits;
mod plans;
mod ways;

pub use command::regroup_command;
pub use permission::PermitFault;
use permission::{
    book_views, commands, instance_keeper_items, operations_items, orch_base, server_model,
    topology_tree,
};
pub use permits::{lead_of, permit, permit_kind};
pub use plans::{is_planned, ops_of, plan};
/// Out of memory.
pub use permission::orch_base::Memory;
/// How a drained replica goes below the promoted one.
pub use promotion_rules::Group;
/// Drained replicas by how they go below the promoted one.
pub use promotion_rules::Groups;
/// What is known of the promoted one.
pub use promotion_rules::Lines;
/// Which drained replicas follow the promoted one, and at which coordinate of its binary log.
pub use promotion_rules::split;
