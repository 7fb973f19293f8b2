//! Lines of plans.

use crate::orch_base::ServerNo;
use operations::Op;

/// What a plan expects if it does an operation.
#[derive(Clone, Copy, Debug, PartialEq, Eq)]
pub enum Expect {
    /// What the operation itself expects.
    AsTold,
    /// The server that is read is below this one.
    Below(ServerNo),
    /// The server that is read has no source.
    Root,
    /// The server isn't reached, so that the operation isn't answered.
    Away,
    /// A replica isn't reached, and is lost for that.
    Gone,
    /// The server that is detached finds its place by GTIDs (SOURCE_AUTO_POSITION).
    AttachedByAuto,
    /// So does the one that is attached again.
    DetachedByAuto,
    /// The coordinate at which it goes below this server is found by hand, in that one's log.
    ByHand(ServerNo),
    /// The same of one that has executed less than this server, its sibling.
    Behind(ServerNo),
}

/// Why a replica is lost before anything was found.
#[derive(Clone, Copy, Debug, PartialEq, Eq)]
pub enum Apart {
    /// It has executed less than the other.
    Behind,
    /// It has executed more than the other.
    Ahead,
    /// It has executed what the other lacks, so the change below it is refused.
    Refused,
    /// No pair of the other's coordinates is kept at its position.
    Unpaired,
}

/// A line of a plan. Only the first kind sends something.
#[derive(Drop)]
pub enum Line {
    /// An operation, and what is expected there.
    Does(Op, Expect),
    /// The server is chosen before the other, which has executed no more. If `less` is set, it has executed less.
    Chosen {
        no: ServerNo,
        before: ServerNo,
        less: bool,
    },
    /// The replica is lost, beside the other.
    Lost {
        no: ServerNo,
        beside: ServerNo,
        apart: Apart,
    },
}
