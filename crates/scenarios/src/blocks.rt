//! The block periods of single clusters, from the scenario.

ghost use Rattle.std.specs.Prelude.{◌≡◌};
ghost use Rattle.scenarios.specs.Blocks.{period_in};
ghost use Rattle.scenarios.specs.Labels.{block_label, entry_at, seconds_of};

use crate::labels::{ByLabel, Labelled, is_below};
use crate::orch_base::{OwnedText, Same, ServerNo};

/// A cluster's label, and how long recoveries of the cluster block the next one (RecoveryPeriodBlockSeconds).
pub struct Block {
    /// 1 to 261 bytes.
    pub cluster: OwnedText,
    /// At most 1,000,000,000.
    pub seconds: u64,
}

impl Drop for Block {
    fn drop(self) {
        let Block {
            cluster: _cluster,
            seconds: _,
        } = self;
    }
}

impl Same for Block {
    fn is_same(&self, other: &Block) -> bool {
        self.cluster.is_same(&other.cluster) && self.seconds == other.seconds
    }
}

impl Labelled for Block {
    ghost label_of = { block_label };

    fn label(&self) -> &str {
        self.cluster.as_str()
    }

    fn count_below(entries: &[Block], label: &str) -> usize {
        entries.partition_point(|own| is_below(own.cluster.as_str(), label))
    }
}

// The block period of the entry at this place, and else this one.
fn seconds_at(blocks: &[Block], block: u64, at: Option<usize>) -> u64
    ensures { result ≡ seconds_of block (entry_at blocks.now at) }
{
    match at {
        Some(at) => match blocks.get(at) {
            Some(own) => own.seconds,
            None => block,
        },
        None => block,
    }
}

/// Block periods by the bytes of their clusters' labels, which contracts see as that list. Copies share it.
pub type Blocks = ByLabel<Block>;

impl ByLabel<Block> {
    /// The block period of a cluster in seconds: its own, if it has one, and else `block`. It takes no memory. The time
    /// grows with the list's logarithm if the labels rise, and with the list if they don't.
    #[tactic(auto, using(crate::proofs::Places::period_found))]
    pub fn period(&self, block: u64, cluster: &str) -> u64
        ensures { result ≡ period_in self.now block cluster.now }
    {
        seconds_at(self.as_slice(), block, self.place(cluster))
    }

    /// The same for a cluster that a server is expected in. It takes constant time if its place was looked up.
    #[tactic(auto, using(crate::proofs::Places::period_found))]
    pub fn period_at(&self, block: u64, server: ServerNo, cluster: &str) -> u64
        ensures { result ≡ period_in self.now block cluster.now }
    {
        seconds_at(self.as_slice(), block, self.place_at(server, cluster))
    }
}
