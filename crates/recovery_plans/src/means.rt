//! How the others go below the chosen one.

/// How the others go below the chosen one of the replicas.
#[derive(Clone, Copy, Debug, PartialEq, Eq)]
pub enum Means {
    /// By GTIDs if they are used, else by bridges.
    Bridges,
    /// By matches of their logs (Pseudo-GTID), whose marks are the transactions with a number that is divisible by
    /// this.
    Matches(u64),
}
