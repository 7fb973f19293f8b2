//! The commands that move or change servers by coordinates: what refuses each, and its plan.
#![tactic(auto)]

mod command;
mod permits;
mod plans;

pub use command::coords_command;
use permission::{
    book_views, commands, instance_keeper_items, operations_items, orch_base, server_model,
    topology_tree,
};
/// Out of memory.
pub use permission::PermitFault;
pub use permission::orch_base::Memory;
pub use permits::{lead_of, permit, permit_kind};
pub use plans::{ops_of, plan};
