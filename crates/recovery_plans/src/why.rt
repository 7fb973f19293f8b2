//! Why a replica isn't below the new source.

use crate::commands::Lost;
use crate::orch_base::ServerNo;
use crate::server_words_items::Spot;

/// Why a replica wasn't matched with its new source, or not attached to it by the match.
#[derive(Clone, Copy, Debug, PartialEq, Eq)]
pub enum Miss {
    /// This one of the two wasn't reached.
    Unreachable(ServerNo),
    /// A thread of the replica was on.
    Running,
    /// The replica was expected at one position and found at another.
    Interfered { expected: Spot, found: Spot },
    /// The replica would have been below itself.
    Loop,
    /// It was to go on in a file that its new source has purged, which keeps its log from this one on.
    Purged(u32),
    /// Its log has no mark, or the new source's log lacks the last one.
    NoMark,
    /// Its log differs from the new source's at this entry, counted from 1.
    Mismatch(u64),
}

/// Why a replica isn't below the new source.
#[derive(Clone, Copy, Debug, PartialEq, Eq)]
pub enum Why {
    /// It is lost.
    Lost(Lost),
    /// It wasn't matched or attached. Its position is unchanged.
    Unmatched(Miss),
}
