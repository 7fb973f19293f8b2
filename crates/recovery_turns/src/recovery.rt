//! A recovery as a job.

ghost use Rattle.std.specs.Prelude.{◌≡◌};
ghost use Rattle.recovery_turns.specs.Prelude.{option_copied, seen_of};

use crate::instance_keeper_items::Bridge;
use crate::job_parts::JobParts;
use crate::operations_items::Position;
use crate::orch_base::ServerNo;
use job_plans::JobView;
use recovery_plans::{Means, Outcome, Purpose, Stage, Stopped, Task};
use std::marker::Model;

/// What is done with the replicas of a server that failed, or that gives up its place.
pub struct RecoveryJob {
    pub(crate) purpose: Purpose,
    // How the others go.
    pub(crate) means: Means,
    // Its operations are those that are left of the stage.
    pub(crate) core: JobParts,
    pub(crate) stage: Stage,
    // What is to do, in order, and how many of these tasks are begun.
    pub(crate) queue: Vec<Task>,
    pub(crate) begun: usize,
    // The server that failed, or gives up its place.
    pub(crate) failed: ServerNo,
    // Its replicas, and those that the lines report, both in name order.
    pub(crate) replicas: Vec<ServerNo>,
    pub(crate) order: Vec<ServerNo>,
    // The replicas that are drained, and of which nothing is decided yet.
    pub(crate) drained: Vec<Stopped>,
    // The new source of the others.
    pub(crate) chosen: Option<ServerNo>,
    // The position at which a designated replica stopped.
    pub(crate) lead: Option<Bridge>,
    // The drained ones that might have been chosen.
    pub(crate) eligible: Vec<Stopped>,
    // Whether a better one is still to be looked for.
    pub(crate) swaps: bool,
    // What it comes to so far.
    pub(crate) outcome: Outcome,
}

impl Drop for RecoveryJob {
    fn drop(self) {
        let RecoveryJob {
            purpose: _purpose,
            means: _means,
            core: _core,
            stage: _stage,
            queue: _queue,
            begun: _,
            failed: _,
            replicas: _replicas,
            order: _order,
            drained: _drained,
            chosen: _,
            lead: _,
            eligible: _eligible,
            swaps: _,
            outcome: _outcome,
        } = self;
    }
}

impl Model for RecoveryJob {
    ghost use Rattle.recovery_plans.specs.Recoveries.{Recovery};

    ghost Value = { Recovery };

    ghost use Rattle.recovery_turns.specs.RecoveriesBy.{HasRoom, recovery_of};

    ghost view = { recovery_of };

    ghost invariant = { HasRoom };
}

impl RecoveryJob {
    /// What it is for.
    pub fn purpose(&self) -> Purpose
        ensures { result ≡ self.now.purpose }
    {
        self.purpose
    }

    /// The new source: none if none is known.
    pub fn promoted(&self) -> Option<ServerNo>
        ensures { result ≡ self.now.outcome.promoted }
    {
        self.outcome.promoted
    }

    /// What it comes to so far: which server is promoted, who follows, and who is lost. It takes no memory.
    pub fn outcome(&self) -> &Outcome
        ensures promoted { result.now.promoted ≡ self.now.outcome.promoted }
        ensures followers { result.now.followers.items ≡ self.now.outcome.followers }
        ensures lost { result.now.lost.items ≡ self.now.outcome.lost }
    {
        &self.outcome
    }

    /// The number of its job.
    pub fn id(&self) -> u64
        ensures { result ≡ self.now.core.id }
    {
        self.core.id
    }

    // Its job as its turn is looked up.
    pub(crate) fn job(&self) -> JobView<'_>
        ensures { result ≡ self.now.core }
    {
        JobView {
            id: self.core.id,
            wait: self.core.wait,
            waited: self.core.waited,
            ops: &self.core.ops[self.core.done..],
            seen: &self.core.seen,
            more: &[],
            matches: &self.core.matches,
            hands: &self.core.hands,
        }
    }

    // The latest that was seen of a server.
    pub(crate) fn sight(&self, no: ServerNo) -> Option<&Position>
        ensures { option_copied result ≡ seen_of self.now.core.seen no.0 }
    {
        self.job().sight(no)
    }
}
