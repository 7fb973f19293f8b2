//! Block periods.

ghost use Rattle.std.specs.Prelude.{◌≡◌, ℕ, List};

use crate::orch_base::ServerNo;

/// The block periods of clusters, by their labels (orchestrator's documentation, "Blocking, acknowledgements,
/// anti-flapping").
pub trait Periods {
    ghost period_of: { Self → List ℕ → ℕ };

    /// For how many seconds from its begin a recovery of this cluster blocks others. If the server is in the cluster,
    /// the answer takes constant time. It takes no memory.
    fn period(&self, server: ServerNo, cluster: &str) -> u64
        ensures { result ≡ period_of self.now cluster.now };
}
