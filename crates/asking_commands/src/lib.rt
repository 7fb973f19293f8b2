//! What the commands that only ask the book or the audit answer.
#![tactic(auto)]

mod analysis;
mod answers;
mod labels;
mod listing;
mod recoveries;
mod trees;

pub use analysis::replication_analysis;
pub use answers::{AnswerFault, answer, permit};
use instance_keeper::{kept_rows_items, orch_base};
pub use labels::clusters;
pub use listing::{
    all_instances, find, global_switch, switch_line, which_cluster, which_cluster_instances,
    which_master, which_replicas,
};
pub use recoveries::recovery_lines;
pub use trees::topology;
/// Out of memory.
pub use instance_keeper::orch_base::Memory;
