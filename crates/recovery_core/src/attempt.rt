//! A recovery that is tried.

use crate::orch_base::Moment;

/// What is known of an attempt to begin a recovery, beside the book, the audit and the servers' settings.
#[derive(Clone, Copy, Debug, PartialEq, Eq)]
pub struct Attempt {
    /// Whether the failed server's cluster passes the filters of recoveries of masters.
    pub by_master: bool,
    /// Whether it passes those of recoveries of intermediate masters.
    pub by_intermediate: bool,
    /// Whether recoveries are enabled.
    pub enabled: bool,
    /// Whether an operator asks for it: then the switch, downtimes and filters make no difference.
    pub by_hand: bool,
    /// For how many seconds the recovery blocks others of its cluster once it is begun, unless it is acknowledged. It
    /// is the period of its cluster, at most 1,000,000,000.
    pub block: u64,
    /// The present moment.
    pub now: Moment,
}
