//! What a recovery is asked to begin with.

ghost use Rattle.std.specs.Prelude.{◌≡◌, ◌<◌, ◌≤◌, ◌-◌, ◌^◌, All, IfOk, IsTrue, length};
ghost use Rattle.recovery_core.specs.Prelude.{Gives, book_forest, is_within, permit_fault};
ghost use Rattle.recovery_core.specs.Asks.{attempt_by, try_of};

use crate::attempt::Attempt;
use crate::audit_log::Audit;
use crate::commands::Refusal;
use crate::instance_keeper_items::Book;
use crate::orch_base::{Kind, Moment, ServerNo};
use crate::server_model::World;
use crate::takeover::try_takeover;
use crate::topology_tree::Forest;
use crate::tries::try_recovery;
use crate::{Begun, PermitFault};
use std::alloc::Global;

/// With what the recovery of a server, or the takeover of its place, is asked to begin. Moments are at most 2^63.
#[derive(Clone, Copy)]
pub struct Ask<'a> {
    /// The world: only the servers' settings are read.
    pub world: &'a World,
    /// The book that it goes by, of the servers of this world.
    pub book: &'a Book,
    /// The forest of this book.
    pub forest: &'a Forest,
    /// The recoveries that were begun.
    pub audit: &'a Audit,
    /// Whether the failed server's cluster passes the filters of recoveries of masters.
    pub by_master: bool,
    /// Whether it passes those of recoveries of intermediate masters.
    pub by_intermediate: bool,
    /// Whether recoveries are enabled.
    pub enabled: bool,
    /// Whether an operator asks for it: then the switch, downtimes and filters make no difference.
    pub by_hand: bool,
    /// `Takeover` for the takeover of a master's place. Any other recovery is of the kind of its failed server.
    pub kind: Option<Kind>,
    /// The failed server, or the master that is to give up its place.
    pub failed: ServerNo,
    /// The replica that is to take the master's place.
    pub designated: Option<ServerNo>,
    /// For how many seconds it blocks others of its cluster once it is begun, unless it is acknowledged. It is the
    /// period of its cluster, at most 1,000,000,000.
    pub block: u64,
    /// How often each of its operations may wait.
    pub wait: u32,
    /// The number of its job.
    pub job: u64,
    /// The present moment.
    pub moment: Moment,
}

impl Ask<'_> {
    // What its checks go by, beside the book, the audit and the servers' settings.
    pub(crate) fn attempt(&self) -> Attempt
        ensures { result ≡ attempt_by self.now }
    {
        Attempt {
            by_master: self.by_master,
            by_intermediate: self.by_intermediate,
            enabled: self.enabled,
            by_hand: self.by_hand,
            block: self.block,
            now: self.moment,
        }
    }
}

/// What begins as it is asked for, or the refusal of the lowest number that applies. It changes nothing: the caller
/// takes the leases and begins the entry in the audit in the same turn. `Memory` comes, too, if the audit has no id
/// left.
pub fn try_begin(alloc: Global, ask: &Ask<'_>) -> Result<Begun, PermitFault>
    requires failed { ask.now.failed.0 < length ask.now.book.now.names }
    requires designated { IsTrue (is_within (length ask.now.book.now.names) ask.now.designated) }
    requires forest { ask.now.forest.now ≡ book_forest ask.now.book.now }
    requires begun { All (λ r. r.begun.0 ≤ 2 ^ 63) ask.now.audit.now.audit.recoveries }
    ensures begins { Gives (λ x. x) permit_fault result (try_of ask.now) }
    ensures room { IfOk result (λ x. x.entry.id < 2 ^ 64 - 1) }
{
    match ask.kind {
        None | Some(Kind::Master | Kind::Intermediate) => try_recovery(alloc, ask),
        Some(Kind::Takeover) => match ask.designated {
            Some(designated) => try_takeover(alloc, ask, designated),
            None => Err(PermitFault::Refused(Refusal::UnknownInstance)),
        },
    }
}
