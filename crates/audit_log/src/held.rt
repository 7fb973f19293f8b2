//! What holds a recovery back.

use crate::orch_base::Moment;

/// Why no recovery of a cluster may begin.
#[derive(Clone, Copy, Debug, PartialEq, Eq)]
pub enum Held {
    /// The cluster's recovery of this id isn't ended.
    Unended(u64),
    /// A recovery of the cluster isn't acknowledged and began within its own block period.
    Blocked {
        /// The last one that does.
        id: u64,
        /// The first moment at which it no longer does: that of its begin and its block period.
        until: Moment,
    },
}
