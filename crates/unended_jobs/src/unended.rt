//! A job that isn't ended.

ghost use Rattle.std.specs.Prelude.{◌≡◌, IfOk, None, OnErr, OnOk, length};
ghost use Rattle.unended_jobs.specs.Prelude.{run};
ghost use Rattle.unended_jobs.specs.Looks.{CanGo, foretold, observation_of, step_of};
ghost use Rattle.unended_jobs.specs.Unended.{IsReady, flown, number_of};

use crate::hooking::look_with_hooks;
use crate::instance_keeper_items::{Book, Observation};
use crate::operations_items::JobStep;
use crate::orch_base::Moment;
use crate::server_model::World;
use crate::{Docket, Memory, UnendedLook};
use job_plans::Job;
use recovery_turns::RecoveryJob;
use std::alloc::Global;

/// A job that isn't ended.
#[derive(Drop)]
pub enum Unended {
    /// The operations of a plan, one after another.
    Plan(Job),
    /// What is done with the replicas of a server, and what goes with it.
    Recovery(RecoveryJob, Docket),
}

impl Unended {
    /// The job's number.
    pub fn id(&self) -> u64
        ensures { result ≡ number_of self.now }
    {
        match self {
            Unended::Plan(job) => job.id(),
            Unended::Recovery(recovery, _) => recovery.id(),
        }
    }

    /// What the next turn does on this world and with this book, and observes with this read number at this moment. It
    /// changes nothing. The servers that the job names are there, and the book is of these servers. `Err` means out of
    /// memory.
    pub fn look(
        &self,
        alloc: Global,
        world: &World,
        book: &Book,
        read: u64,
        moment: Moment,
    ) -> Result<UnendedLook, Memory>
        requires ready { IsReady (length world.now.servers) self.now }
        requires known { length book.now.names ≡ length world.now.servers }
        ensures step { IfOk result (λ l. step_of l
            ≡ (flown world.now book.now read moment self.now).step) }
        ensures observation { IfOk result (λ l. observation_of l
            ≡ (flown world.now book.now read moment self.now).observation) }
        ensures turn { IfOk result (λ l. foretold self.now l
            ≡ flown world.now book.now read moment self.now) }
        ensures can { IfOk result (CanGo world.now self.now) }
    {
        Ok(match self {
            Unended::Plan(job) => UnendedLook::Plan(job.look(alloc, world, read, moment)?),
            Unended::Recovery(recovery, docket) => {
                look_with_hooks(alloc, recovery, docket, world, book, read, moment)?
            }
        })
    }

    /// Does what was looked up on this job and this world, and hands on what the look foretold. If memory runs out,
    /// nothing has changed. That comes only if the job goes on and nothing is observed.
    pub fn turn(
        &mut self,
        alloc: Global,
        world: &mut World,
        look: UnendedLook,
    ) -> Result<(JobStep, Option<Observation>), Memory>
        requires { CanGo world.old self.old look }
        ensures job { OnOk result (self.new ≡ (foretold self.old look).next) }
        ensures world { OnOk result (world.new ≡ run world.old (foretold self.old look).exchanges) }
        ensures told { IfOk result (λ r. r ≡ (step_of look, observation_of look)) }
        ensures unchanged { OnErr result ((self.new ≡ self.old) × (world.new ≡ world.old)) }
        ensures memory { OnErr result ((step_of look ≡ JobStep.Going)
            × (observation_of look ≡ None)) }
    {
        match (self, look) {
            (Unended::Plan(job), UnendedLook::Plan(look)) => job.turn(alloc, world, look),
            (Unended::Recovery(recovery, docket), UnendedLook::Recovery(look)) => {
                let told = recovery.turn(alloc, world, look)?;
                docket.check();
                Ok(told)
            }
            (Unended::Recovery(_, docket), UnendedLook::Hook(step, place)) => {
                docket.run(place);
                Ok((step, None))
            }
            (Unended::Plan(_), UnendedLook::Recovery(_) | UnendedLook::Hook(_, _))
            | (Unended::Recovery(_, _), UnendedLook::Plan(_)) => unreachable!(),
        }
    }
}
