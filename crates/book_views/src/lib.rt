//! Views of a book: its instances' sources and replicas, and a server's place in the forest of sources.
#![tactic(auto)]

mod forest;
mod sources;

pub use forest::{book_forest, is_below, parent, server_at};
use instance_keeper::orch_base;
/// Out of memory.
pub use instance_keeper::orch_base::Memory;
pub use sources::{is_instance, label_at, replicas, seen_source};
