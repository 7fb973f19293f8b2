//! The commands that move servers by GTIDs, or have them find their places by them: what refuses each, and its plan.
#![tactic(auto)]

mod command;
mod permits;
mod plans;

pub use command::gtid_command;
use permission::{
    commands, instance_keeper_items, operations_items, orch_base, server_model, topology_tree,
};
/// Out of memory.
pub use permission::PermitFault;
pub use permission::orch_base::Memory;
pub use permits::{lead_of, permit, permit_kind};
pub use plans::{ops_of, plan};
