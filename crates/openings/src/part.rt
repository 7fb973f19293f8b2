//! Histories and flush points as a scenario lists them.

ghost use Rattle.std.specs.Prelude.{◌≡◌, ◌<◌, ◌^◌};
ghost use Rattle.openings.specs.Listed.{transactions};

use crate::orch_base::{Listed, Same, ServerNo};

/// A run of transactions of one origin and size in a history.
#[derive(Clone, Copy, Debug, PartialEq, Eq)]
pub struct Part {
    /// The server that took them from clients.
    pub origin: ServerNo,
    /// The bytes that each takes in a log: 1 to 1,000,000.
    pub size: u32,
    /// How many they are: 1 to 4,000,000.
    pub count: u64,
}

impl Same for Part {
    fn is_same(&self, other: &Part) -> bool {
        self == other
    }
}

/// A history as a list of parts, which contracts see as that list.
pub type Parts = Listed<Part>;

/// Numbers of transactions, which contracts see as that list: after so many of them the log was flushed.
pub type Counts = Listed<u64>;

/// How many transactions the parts have.
pub fn transactions(parts: &[Part]) -> u64
    requires { transactions parts.now < 2 ^ 64 }
    ensures { result ≡ transactions parts.now }
{
    parts.iter().map(|p| p.count).sum()
}
