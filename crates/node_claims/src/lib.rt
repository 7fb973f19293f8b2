//! Claims of several nodes that share the kept rows: which of them may act.
#![tactic(auto)]

mod claims;
mod laws;

pub use claims::{ClaimAnswer, Claims, ReleaseAnswer};
pub use laws::{
    claims_wait_for_the_end, one_node_is_active, other_nodes_stay, releases_free_the_claim,
};
/// Out of memory.
pub use orch_base::Memory;
