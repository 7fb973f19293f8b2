//! What a turn answers, and once more for a journal.

ghost use Rattle.std.specs.Prelude.{◌≡◌, IfOk, None, Some, if◌then◌else◌, true};
ghost use Rattle.knowledge.specs.Replies.{AreReply};
ghost use Rattle.command_outcomes.specs.Turns.Plain.{is_plain};

use crate::orch_base::Memory;
use crate::turns::Reply;
use std::alloc::Global;

/// What a turn answers.
#[derive(Drop)]
pub struct Replies {
    /// The reply.
    pub told: Reply,
    /// Once more for a journal, if one is written.
    pub written: Option<Reply>,
}

/// A reply that has nothing on the heap, and once more for a journal, if it is written.
pub fn plain(reply: Reply, written: bool) -> Replies
    requires { is_plain reply ≡ true }
    ensures { AreReply written reply result }
{
    let again = if written { Some(reply.again()) } else { None };
    Replies {
        told: reply,
        written: again,
    }
}

/// The reply's copy for a journal, if it is written. `Err` means out of memory.
pub fn copied(alloc: Global, reply: &Reply, written: bool) -> Result<Option<Reply>, Memory>
    ensures { IfOk result (λ r. r ≡ (if written then Some reply.now else None)) }
{
    if written {
        Ok(Some(reply.copy(alloc)?))
    } else {
        Ok(None)
    }
}
