//! What a recovery is for.

use crate::orch_base::ServerNo;

/// What a recovery is for.
#[derive(Clone, Copy, Debug, PartialEq, Eq)]
pub enum Purpose {
    /// The replicas of a server are gathered below the most advanced of them.
    Regroup,
    /// A dead master: the most advanced of its replicas takes its place.
    Master,
    /// A dead intermediate master: its replicas go below this server, its source.
    Intermediate(ServerNo),
    /// A master gives its place to this replica.
    Takeover(ServerNo),
}
