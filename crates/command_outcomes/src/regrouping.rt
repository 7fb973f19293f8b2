//! A regroup as a job.

ghost use Rattle.std.specs.Prelude.{◌≡◌, IfOk, None, OnErr, OnOk, length};
ghost use Rattle.command_outcomes.specs.Prelude.{CanTake, IsNamedRecovery, foretold, no_docket, run, taken};
ghost use Rattle.command_outcomes.specs.Jobs.{regroup_with};

use crate::book_views::replicas;
use crate::instance_keeper_items::{Book, Observation};
use crate::operations_items::JobStep;
use crate::orch_base::{Memory, Moment, ServerNo};
use crate::recovery_plans_items::{Means, Purpose};
use crate::recovery_turns::{BoxedLook, RecoveryJob};
use crate::server_model::World;
use std::alloc::Global;
use std::marker::Model;
use unended_jobs::{Docket, Unended};

/// The replicas of an instance go below the one of them that is furthest on. Contracts see it as a recovery for that
/// purpose.
#[derive(Drop)]
pub struct RegroupJob {
    job: RecoveryJob,
}

impl Model for RegroupJob {
    ghost use Rattle.unended_jobs.specs.RecoveryPlans.Recoveries.{Recovery};

    ghost Value = { Recovery };

    ghost view = { λ a. a.job };
}

impl RegroupJob {
    /// The regroup of an instance's replicas by some means, as the job of this number, whose operations may wait so
    /// often each. `Err` means out of memory.
    pub fn make(
        alloc: Global,
        book: &Book,
        instance: ServerNo,
        means: Means,
        id: u64,
        wait: u32,
    ) -> Result<RegroupJob, Memory>
        ensures { IfOk result (λ r. r ≡ regroup_with book.now means id wait instance) }
    {
        let replicas = replicas(alloc, book, instance)?;
        let order = replicas.to_vec(alloc)?;
        let purpose = Purpose::Regroup;
        Ok(RegroupJob {
            job: RecoveryJob::make(alloc, purpose, means, id, wait, instance, replicas, order)?,
        })
    }

    /// What the next turn does on this world and with this book, and observes with this read number at this moment. It
    /// changes nothing. The servers that the regroup names are there, and the book is of these servers. `Err` means out
    /// of memory.
    pub fn look(
        &self,
        alloc: Global,
        world: &World,
        book: &Book,
        read: u64,
        moment: Moment,
    ) -> Result<BoxedLook, Memory>
        requires named { IsNamedRecovery (length world.now.servers) self.now }
        requires known { length book.now.names ≡ length world.now.servers }
        ensures step { IfOk result (λ l. l.step
            ≡ (taken world.now book.now read moment self.now).step) }
        ensures observation { IfOk result (λ l. l.observation
            ≡ (taken world.now book.now read moment self.now).observation) }
        ensures turn { IfOk result (λ l. foretold self.now l
            ≡ taken world.now book.now read moment self.now) }
        ensures can { IfOk result (CanTake world.now self.now) }
    {
        self.job.look(alloc, world, book, read, moment)
    }

    /// Does what was looked up on this regroup and this world, and hands on what the look foretold. If memory runs out,
    /// nothing has changed. That comes only if the regroup goes on and nothing is observed.
    pub fn turn(
        &mut self,
        alloc: Global,
        world: &mut World,
        look: BoxedLook,
    ) -> Result<(JobStep, Option<Observation>), Memory>
        requires { CanTake world.old self.old look }
        ensures regroup { OnOk result (self.new ≡ (foretold self.old look).recovery) }
        ensures world { OnOk result (world.new ≡ run world.old (foretold self.old look).exchanges) }
        ensures told { IfOk result (λ r. r ≡ (look.step, look.observation)) }
        ensures unchanged { OnErr result ((self.new ≡ self.old) × (world.new ≡ world.old)) }
        ensures memory { OnErr result ((look.step ≡ JobStep.Going) × (look.observation ≡ None)) }
    {
        self.job.turn(alloc, world, look)
    }

    /// As an unended job, which has no entry in the audit and runs no hooks. It takes no memory.
    pub fn into_unended(self) -> Unended
        ensures { result ≡ Unended.Recovery self no_docket }
    {
        Unended::Recovery(self.job, Docket::none())
    }
}
