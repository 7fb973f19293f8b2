//! What orchestrator knows, and what a command or a scan makes of it.

ghost use Rattle.std.specs.Prelude.{◌≡◌, ◌<◌, ◌≤◌, ◌+◌, ◌-◌, ◌^◌, ◌∷◌, [], if◌then◌else◌, IfOk, None, OnOk, Some, length, vec_len, vec_capacity};
ghost use Rattle.command_outcomes.specs.RecoveryCore.Begun.{BeginInTurn, CanBegin};
ghost use Rattle.command_outcomes.specs.RecoveryCore.Scans.{HasRoom};
ghost use Rattle.knowledge.specs.Kept.{Keeps};
ghost use Rattle.knowledge.specs.Knowing.{HasRoomFor, IsEffect, IsUpdate, MayTake, updated};
ghost use Rattle.command_outcomes.specs.Ids.{LeavesIds};
ghost use Rattle.knowledge.specs.KnowingBy.{known};

use crate::audit_log::Audit;
use crate::book_commands::Effect;
use crate::instance_keeper_items::{Book, Keeper};
use crate::orch_base::Memory;
use crate::recovery_core::Begun;
use crate::turns::Reply;
use crate::unended_jobs_items::{Docket, Unended};
use crate::{TurnFault, copied, keep_some};
use command_outcomes::{Beginning, Outcome, Recoveries, Update};
use std::alloc::Global;

/// What orchestrator knows.
#[derive(Drop)]
pub struct Knowledge {
    /// The instances, with what was read of them, and the leases of jobs.
    pub book: Book,
    /// The recoveries that were begun.
    pub audit: Audit,
    /// The unended jobs, by rising number.
    pub jobs: Vec<Unended>,
    /// The number of the last job that was begun, 0 for none.
    pub last_job: u64,
}

impl Knowledge {
    // The job's leases are taken, and it joins the others.
    fn join(&mut self, beginning: Beginning)
        requires list { MayTake self.old.book beginning.list }
        requires room { vec_len self.old.jobs < vec_capacity self.old.jobs }
        ensures { known self.new ≡ updated (known self.old) (Update.Begins beginning) }
    {
        let Beginning { list, job } = beginning;
        let number = job.id();
        self.jobs.push_reserved(job);
        self.last_job = number;
        let _ = self.book.take_leases(&list, number);
    }

    // A recovery's leases are taken, its entry joins the audit, and its job the others.
    fn join_recovery(&mut self, begun: Begun)
        requires can { CanBegin (length self.old.book.names) self.old.book.leases
            self.old.audit.audit self.old.last_job begun }
        requires id { begun.entry.id < 2 ^ 64 - 1 }
        requires room { vec_len self.old.jobs < vec_capacity self.old.jobs }
        requires spare { 1 ≤ self.old.audit.spare }
        ensures known { known self.new ≡ updated (known self.old)
            (Update.Recovers (begun ∷ [])) }
        ensures spare { self.new.audit.spare + 1 ≡ self.old.audit.spare }
        ensures capacity { vec_capacity self.new.jobs ≡ vec_capacity self.old.jobs }
        ensures length { vec_len self.new.jobs ≡ vec_len self.old.jobs + 1 }
    {
        let (list, job, entry, hooks) = begun.into_parts();
        let number = job.id();
        let docket = Docket {
            entry: Some(entry.id),
            hooks,
        };
        self.jobs.push_reserved(Unended::Recovery(job, docket));
        self.audit.begin(entry);
        self.last_job = number;
        let _ = self.book.take_leases(&list, number);
    }

    fn join_all(&mut self, recoveries: Recoveries)
        requires update { BeginInTurn (length self.old.book.names) self.old.book.leases
            self.old.audit.audit self.old.last_job recoveries }
        requires ids { HasRoom recoveries }
        requires room { vec_len self.old.jobs + length recoveries ≤ vec_capacity self.old.jobs }
        requires spare { length recoveries ≤ self.old.audit.spare }
        ensures { known self.new ≡ updated (known self.old) (Update.Recovers recoveries) }
    {
        for begun in recoveries.into_vec() {
            self.join_recovery(begun);
        }
    }

    fn decide_so(&mut self, effect: Effect)
        requires { IsEffect self.old.book effect }
        ensures { known self.new ≡ updated (known self.old) (Update.Decides effect) }
    {
        match effect {
            Effect::Stays => {}
            Effect::Change(change) => self.book.set(change),
            Effect::Acks(cluster) => {
                let _ = self.audit.ack(cluster.as_str());
            }
        }
    }

    // Makes room for the jobs that begin, and for the entries of recoveries. The audit gets its index before its first
    // recovery. `Err` means out of memory.
    fn make_room(&mut self, alloc: Global, update: &Update) -> Result<(), Memory>
        ensures room { OnOk result (HasRoomFor
            (vec_capacity self.new.jobs - vec_len self.new.jobs) self.new.audit.spare update.now) }
        ensures known { known self.new ≡ known self.old }
    {
        match update {
            Update::Stays | Update::Change(_) | Update::Discovery(_) | Update::Decides(_) => {}
            Update::Begins(_) => self.jobs.reserve(1)?,
            Update::Recovers(recoveries) => {
                let count = recoveries.as_slice().len();
                self.jobs.reserve(count)?;
                if self.audit.recoveries().is_empty() {
                    self.audit.index(alloc)?;
                }
                self.audit.reserve_for(count)?;
            }
        }
        Ok(())
    }

    /// Keeps the changes of an outcome, if there are any, when there is room for what it makes of what is known. It
    /// returns the reply for a journal, if one is written. `Keeper` comes only if the row store's count of faults rose.
    pub fn keep_outcome<K: Keeper>(
        &mut self,
        alloc: Global,
        keeper: &mut K,
        outcome: &Outcome,
        written: bool,
    ) -> Result<Option<Reply>, TurnFault>
        ensures reply { IfOk result
            (λ r. r ≡ (if written then Some outcome.now.reply else None)) }
        ensures room { OnOk result (HasRoomFor
            (vec_capacity self.new.jobs - vec_len self.new.jobs) self.new.audit.spare
            outcome.now.book) }
        ensures known { known self.new ≡ known self.old }
        ensures keeps { Keeps K.kept K.faults keeper.old keeper.new outcome.now.rows.items result }
    {
        let reply = copied(alloc, &outcome.reply, written)?;
        self.make_room(alloc, &outcome.book)?;
        keep_some(alloc, keeper, self.book.names(), &outcome.rows)?;
        Ok(reply)
    }

    /// Makes of what is known what a command or a scan makes of it. It takes no memory.
    pub fn update(&mut self, update: Update)
        requires update { IsUpdate (known self.old) update }
        requires ids { LeavesIds update }
        requires room { HasRoomFor (vec_capacity self.old.jobs - vec_len self.old.jobs)
            self.old.audit.spare update }
        ensures { known self.new ≡ updated (known self.old) update }
    {
        match update {
            Update::Stays => {}
            Update::Change(change) => self.book.set(change),
            Update::Discovery(o) => self.book.discover(o),
            Update::Decides(effect) => self.decide_so(effect),
            Update::Begins(beginning) => self.join(beginning),
            Update::Recovers(recoveries) => self.join_all(recoveries),
        }
    }
}
