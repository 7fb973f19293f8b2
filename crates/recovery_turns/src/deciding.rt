//! What is decided at the start of a turn.

ghost use Rattle.std.specs.Prelude.{◌≡◌, ◌<◌, ◌∷◌, ◌++◌, [], if◌then◌else◌, All, IfOk, IfSome, None, OnOk, Some, drop, filter, length, map};
ghost use Rattle.recovery_turns.specs.Prelude.{Task as ATask, by_task, choose, chosen_of, closing, expels, ground_by, hand, hand_over, releases};
ghost use Rattle.recovery_turns.specs.Prelude.{sort, why_of};
ghost use Rattle.recovery_turns.specs.Deciding.{IsBusy, decided_on};

use crate::RecoveryJob;
use crate::commands::Lost;
use crate::decided::Decided;
use crate::operations_items::Op;
use crate::orch_base::{Memory, ServerNo};
use recovery_parts::{
    Ground, chosen_of, divide, expels, leaders, lose_all, releases, way_below, without,
};
use recovery_plans::{Stage, Stopped, Task, Why};
use std::alloc::Global;

fn push_if(tasks: &mut Vec<Task>, given: bool, task: Task) -> Result<(), Memory>
    ensures { OnOk result (tasks.new.items
        ≡ tasks.old.items ++ (if given then task ∷ [] else [])) }
{
    if given {
        tasks.push(task)?;
    }
    Ok(())
}

impl Decided {
    // The chosen one is promoted, and the others go below it or are lost.
    fn promote(
        &mut self,
        alloc: Global,
        of: &RecoveryJob,
        by: &Ground<'_>,
        drained: &[Stopped],
        chosen: Stopped,
    ) -> Result<(), Memory>
        requires idle { self.old.work ≡ None }
        requires chosen { chosen.no.0 < length by.now.book.now.names }
        requires drained { All (λ s. s.no.0 < length by.now.book.now.names) drained.now }
        requires same { drained.now ≡ (decided_on of.now self.old).drained }
        ensures value { OnOk result (decided_on of.now self.new
            ≡ choose (ground_by by.now) (decided_on of.now self.old) (Some chosen)) }
        ensures idle { self.new.work ≡ None }
    {
        let others = without(alloc, drained, chosen.no)?;
        let mut queue = divide(
            alloc,
            by,
            of.means,
            of.failed,
            &chosen,
            &others,
            &mut self.lost,
        )?;
        queue.extend_from_slice(self.tasks(of))?;
        self.eligible = Some(leaders(alloc, by, drained)?);
        self.queue = Some(queue);
        self.begun = 0;
        self.handed = of.drained.len();
        self.chosen = Some(chosen.no);
        self.promoted = Some(chosen.no);
        Ok(())
    }

    // None may be promoted, and each drained one is lost.
    fn leave(
        &mut self,
        alloc: Global,
        of: &RecoveryJob,
        by: &Ground<'_>,
        drained: &[Stopped],
    ) -> Result<(), Memory>
        requires idle { self.old.work ≡ None }
        requires same { drained.now ≡ (decided_on of.now self.old).drained }
        ensures value { OnOk result (decided_on of.now self.new
            ≡ choose (ground_by by.now) (decided_on of.now self.old) None) }
        ensures idle { self.new.work ≡ None }
    {
        lose_all(by.world, drained, &mut self.lost)?;
        self.queue = Some(Vec::new(alloc));
        self.begun = 0;
        self.handed = of.drained.len();
        self.chosen = None;
        self.promoted = None;
        Ok(())
    }

    // Which of the drained ones is promoted.
    pub(crate) fn choose(
        &mut self,
        alloc: Global,
        of: &RecoveryJob,
        by: &Ground<'_>,
    ) -> Result<(), Memory>
        requires idle { self.old.work ≡ None }
        requires drained { All (λ s. s.no.0 < length by.now.book.now.names)
            (decided_on of.now self.old).drained }
        ensures value { OnOk result (decided_on of.now self.new
            ≡ choose (ground_by by.now) (decided_on of.now self.old)
            (chosen_of (ground_by by.now) of.now.failed (decided_on of.now self.old).drained)) }
        ensures idle { self.new.work ≡ None }
    {
        let drained = self.drained(of);
        match chosen_of(alloc, by, of.failed, drained)? {
            None => self.leave(alloc, of, by, drained),
            Some(chosen) => self.promote(alloc, of, by, drained, chosen),
        }
    }

    // The next of the drained replicas that has a way below the successor goes there; those before it are lost.
    fn hand(
        &mut self,
        alloc: Global,
        of: &RecoveryJob,
        by: &Ground<'_>,
        successor: ServerNo,
    ) -> Result<(), Memory>
        requires idle { self.old.work ≡ None }
        requires known { of.now.failed.0 < length by.now.book.now.names }
        requires task { (decided_on of.now self.old).queue
            ≡ Task.Handing ∷ drop 1 (decided_on of.now self.old).queue }
        ensures value { OnOk result (decided_on of.now self.new
            ≡ hand (ground_by by.now) successor (record (decided_on of.now self.old)
            { queue = drop 1 (decided_on of.now self.old).queue })
            (decided_on of.now self.old).drained) }
        ensures busy { OnOk result (IsBusy self.new.work) }
    {
        let Some(first) = self.drained(of).first().copied() else {
            return self.pop(of);
        };
        self.handed = self.handed.checked_add(1).ok_or(Memory)?;
        let way = way_below(by, &self.job(of), of.failed, successor, &first);
        match way {
            Some(way) => self.go(alloc, of, first.no, way),
            None => {
                self.lose(of, first.no, Why::Lost(Lost::Behind(first.exec)))?;
                self.hand(alloc, of, by, successor)
            }
        }
    }

    // The drained ones go below the successor, one after another.
    pub(crate) fn hand_over(
        &mut self,
        alloc: Global,
        of: &RecoveryJob,
        by: &Ground<'_>,
    ) -> Result<(), Memory>
        requires idle { self.old.work ≡ None }
        requires known { of.now.failed.0 < length by.now.book.now.names }
        requires task { (decided_on of.now self.old).queue
            ≡ Task.Handing ∷ drop 1 (decided_on of.now self.old).queue }
        ensures value { OnOk result (decided_on of.now self.new
            ≡ by_task (ground_by by.now) (record (decided_on of.now self.old)
            { queue = drop 1 (decided_on of.now self.old).queue }) Task.Handing) }
        ensures busy { OnOk result (IsBusy self.new.work) }
    {
        match self.chosen {
            None => self.pop(of),
            Some(successor) => self.hand(alloc, of, by, successor),
        }
    }

    // Why a replica is lost.
    fn why_of(&self, of: &RecoveryJob, no: ServerNo) -> Option<Why>
        ensures { result ≡ why_of (decided_on of.now self.now).outcome.lost no }
    {
        let replica = self.lost_one(of, no)?;
        Some(replica.why)
    }

    fn expelling(&self, alloc: Global, of: &RecoveryJob) -> Result<Vec<Task>, Memory>
        ensures { IfOk result (λ v. v.items ≡ map ATask.Expelling (filter (λ n. expels
            of.now.purpose (why_of (decided_on of.now self.now).outcome.lost n))
            of.now.replicas)) }
    {
        let mut tasks = Vec::new(alloc);
        for no in &of.replicas {
            let given = expels(of.purpose, self.why_of(of, *no));
            push_if(&mut tasks, given, Task::Expelling(*no))?;
        }
        Ok(tasks)
    }

    fn releasing(&self, alloc: Global, of: &RecoveryJob) -> Result<Vec<Task>, Memory>
        ensures { IfOk result (λ v. v.items ≡ map ATask.Releasing (filter (λ n. releases
            of.now.purpose (why_of (decided_on of.now self.now).outcome.lost n))
            of.now.replicas)) }
    {
        let mut tasks = Vec::new(alloc);
        for no in &of.replicas {
            let given = releases(of.purpose, self.why_of(of, *no));
            push_if(&mut tasks, given, Task::Releasing(*no))?;
        }
        Ok(tasks)
    }

    // What is done with the lost.
    pub(crate) fn sort(&mut self, alloc: Global, of: &RecoveryJob) -> Result<(), Memory>
        requires idle { self.old.work ≡ None }
        ensures value { OnOk result (decided_on of.now self.new
            ≡ sort (decided_on of.now self.old)) }
        ensures idle { self.new.work ≡ None }
    {
        let mut queue = self.expelling(alloc, of)?;
        let mut released = self.releasing(alloc, of)?;
        queue.append(&mut released)?;
        queue.extend_from_slice(self.tasks(of))?;
        self.queue = Some(queue);
        self.begun = 0;
        Ok(())
    }

    // Nothing more is changed: this operation, if there is one, and the lines.
    pub(crate) fn close(
        &mut self,
        alloc: Global,
        of: &RecoveryJob,
        mut ops: Vec<Op>,
    ) -> Result<(), Memory>
        requires idle { self.old.work ≡ None }
        ensures value { OnOk result (decided_on of.now self.new
            ≡ closing (decided_on of.now self.old) ops.items) }
        ensures busy { OnOk result (IsBusy self.new.work) }
    {
        let lines = self.result_lines(alloc, of)?;
        ops.push(Op::Finish(lines.copy_each(alloc)?))?;
        self.begin(of, Stage::Close(lines), ops);
        Ok(())
    }
}
