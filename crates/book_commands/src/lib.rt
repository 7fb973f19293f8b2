//! What an operator's decisions answer, and what they make of what is known: downtimes, registrations of candidates,
//! the switch of recoveries, and acknowledgements (orchestrator's documentation, "Topology recovery").
#![tactic(auto)]

mod decided;
mod deciding;

pub use decided::{Decided, Effect};
pub use deciding::{decide, rows_of};
use instance_keeper::orch_base;
/// Out of memory.
pub use instance_keeper::orch_base::Memory;
