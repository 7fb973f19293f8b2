//! Servers by their names.
#![tactic(auto)]

mod laws;
mod order;

pub use laws::servers_stand_in_name_order;
/// Out of memory.
pub use orch_base::Memory;
pub use order::{in_name_order, ranks};
