//! What is next, if no operation is left.

ghost use Rattle.std.specs.Prelude.{◌≡◌, ◌<◌, All, IfOk, None, OnOk, Some, drop, length, map};
ghost use Rattle.recovery_turns.specs.Prelude.{IsNamedRecovery, at_last, better_of, by_task, crown, decided, ground_by};
ghost use Rattle.recovery_turns.specs.Prelude.{look_at, once, rejoin, stuck, swap, swap_by, swap_or_crown, yield};
ghost use Rattle.recovery_turns.specs.Deciding.{IsBusy, decided_on};

use crate::RecoveryJob;
use crate::decided::Decided;
use crate::operations_items::{Crossing, Op};
use crate::orch_base::{Memory, ServerNo};
use recovery_parts::{Ground, better_of, drain, level, one, room, two};
use recovery_plans::{Purpose, Stage, Task};
use std::alloc::Global;

impl Decided {
    // The better one that was found comes first.
    fn swap_by(
        &mut self,
        alloc: Global,
        of: &RecoveryJob,
        promoted: ServerNo,
        better: Option<ServerNo>,
    ) -> Result<(), Memory>
        requires idle { self.old.work ≡ None }
        ensures value { OnOk result (decided_on of.now self.new
            ≡ swap_by (decided_on of.now self.old) promoted better) }
        ensures busy { OnOk result (IsBusy self.new.work) }
    {
        if let Some(q) = better {
            let ops = level(room(alloc)?, promoted, q);
            self.begin(of, Stage::Level(promoted, q), ops);
        }
        Ok(())
    }

    // A better one is looked for among the followers.
    fn swap(&mut self, alloc: Global, of: &RecoveryJob, by: &Ground<'_>) -> Result<(), Memory>
        requires idle { self.old.work ≡ None }
        requires named { IsNamedRecovery (length by.now.book.now.names)
            (decided_on of.now self.old) }
        requires master { of.now.purpose ≡ Purpose.Master }
        ensures value { OnOk result (decided_on of.now self.new
            ≡ swap (ground_by by.now) (decided_on of.now self.old)
            (decided_on of.now self.old).chosen) }
        ensures busy { OnOk result (IsBusy self.new.work) }
    {
        match self.chosen {
            None => Ok(()),
            Some(promoted) => {
                let better = better_of(alloc, by, of.failed, promoted, &of.outcome.followers)?;
                self.swap_by(alloc, of, promoted, better)
            }
        }
    }

    // The chosen one loses its source and takes writes.
    fn crown(&mut self, alloc: Global, of: &RecoveryJob) -> Result<(), Memory>
        requires idle { self.old.work ≡ None }
        ensures value { OnOk result (decided_on of.now self.new
            ≡ crown (decided_on of.now self.old) (decided_on of.now self.old).chosen) }
        ensures busy { OnOk result (IsBusy self.new.work) }
    {
        if let Some(no) = self.chosen {
            let ops = two(room(alloc)?, Op::Reset(no), Op::ReadOnly(no, false));
            self.begin(of, Stage::Crown(no), ops);
        }
        Ok(())
    }

    // A better one is looked for once, and then the chosen one is crowned.
    fn swap_or_crown(
        &mut self,
        alloc: Global,
        of: &RecoveryJob,
        by: &Ground<'_>,
    ) -> Result<(), Memory>
        requires idle { self.old.work ≡ None }
        requires named { IsNamedRecovery (length by.now.book.now.names)
            (decided_on of.now self.old) }
        requires master { of.now.purpose ≡ Purpose.Master }
        ensures value { OnOk result (decided_on of.now self.new
            ≡ swap_or_crown (ground_by by.now) (decided_on of.now self.old)
            (decided_on of.now self.old).swaps) }
        ensures busy { OnOk result (IsBusy self.new.work) }
    {
        if self.swaps {
            self.swaps = false;
            self.swap(alloc, of, by)
        } else {
            self.crown(alloc, of)
        }
    }

    // The chosen one is started.
    fn rejoin(&mut self, alloc: Global, of: &RecoveryJob) -> Result<(), Memory>
        requires idle { self.old.work ≡ None }
        ensures value { OnOk result (decided_on of.now self.new
            ≡ rejoin (decided_on of.now self.old) (decided_on of.now self.old).chosen) }
        ensures busy { OnOk result (IsBusy self.new.work) }
    {
        match self.chosen {
            None => Ok(()),
            Some(no) => self.close(alloc, of, one(room(alloc)?, Op::Start(no))),
        }
    }

    // What comes last.
    fn end(&mut self, alloc: Global, of: &RecoveryJob, by: &Ground<'_>) -> Result<(), Memory>
        requires idle { self.old.work ≡ None }
        requires named { IsNamedRecovery (length by.now.book.now.names)
            (decided_on of.now self.old) }
        ensures value { OnOk result (decided_on of.now self.new
            ≡ at_last (ground_by by.now) (decided_on of.now self.old) of.now.purpose) }
        ensures busy { OnOk result (IsBusy self.new.work) }
    {
        match of.purpose {
            Purpose::Regroup => self.rejoin(alloc, of),
            Purpose::Master => self.swap_or_crown(alloc, of, by),
            Purpose::Intermediate(_) => self.close(alloc, of, Vec::new(alloc)),
            Purpose::Takeover(_) => Ok(()),
        }
    }

    // Nothing is left to do, and there is no new source.
    fn give_up(&mut self, alloc: Global, of: &RecoveryJob)
        requires idle { self.old.work ≡ None }
        ensures value { decided_on of.now self.new ≡ stuck (decided_on of.now self.old) }
        ensures idle { self.new.work ≡ None }
    {
        self.queue = Some(Vec::new(alloc));
        self.begun = 0;
        self.chosen = None;
    }

    // A replica is read before it comes to the position at which the designated one stopped.
    fn look_at(&mut self, alloc: Global, of: &RecoveryJob, no: ServerNo) -> Result<(), Memory>
        requires idle { self.old.work ≡ None }
        ensures value { OnOk result (decided_on of.now self.new
            ≡ look_at (decided_on of.now self.old) no of.now.lead) }
        ensures busy { OnOk result (IsBusy self.new.work) }
    {
        match of.lead {
            None => {
                self.give_up(alloc, of);
                Ok(())
            }
            Some(lead) => { self.begin_one(alloc, of, Stage::Look(no, lead), Op::Status(no, None)) }
        }
    }

    // The designated replica loses its source, which goes below it.
    fn give_place(&mut self, alloc: Global, of: &RecoveryJob) -> Result<(), Memory>
        requires idle { self.old.work ≡ None }
        ensures value { OnOk result (decided_on of.now self.new
            ≡ yield (decided_on of.now self.old) of.now.lead) }
        ensures busy { OnOk result (IsBusy self.new.work) }
    {
        let Some(lead) = of.lead else {
            self.give_up(alloc, of);
            return Ok(());
        };
        let (m, d) = (of.failed, lead.no);
        let ops = two(room(alloc)?, Op::Reset(d), Op::Cross(Crossing::About, m, d));
        self.begin_by(alloc, of, lead, Stage::Yield(m, d), ops);
        Ok(())
    }

    // A task that was the next one begins, or is decided.
    fn take(
        &mut self,
        alloc: Global,
        of: &RecoveryJob,
        by: &Ground<'_>,
        task: Task,
    ) -> Result<(), Memory>
        requires idle { self.old.work ≡ None }
        requires named { IsNamedRecovery (length by.now.book.now.names)
            (decided_on of.now self.old) }
        requires other { task ≡ Task.Handing → ⊥ }
        ensures value { OnOk result (decided_on of.now self.new
            ≡ by_task (ground_by by.now) (decided_on of.now self.old) task) }
        ensures busy { OnOk result (IsBusy self.new.work) }
    {
        match task {
            Task::Reading(no) => {
                self.begin_one(alloc, of, Stage::Read(no), Op::Status(no, None))
            }
            Task::Draining(no) => {
                let ops = drain(room(alloc)?, no);
                self.begin(of, Stage::Drain(no), ops);
                Ok(())
            }
            Task::Choosing => self.choose(alloc, of, by),
            Task::Handing => unreachable!(),
            Task::Moving(no, way) => self.go(alloc, of, no, way),
            Task::Sorting => self.sort(alloc, of),
            Task::Expelling(no) => { self.begin_one(alloc, of, Stage::Expel(no), Op::Detach(no)) }
            Task::Releasing(no) => { self.begin_one(alloc, of, Stage::Release(no), Op::Start(no)) }
            Task::Trailing(no) => self.look_at(alloc, of, no),
            Task::Yielding => self.give_place(alloc, of),
        }
    }

    // The next task, if no operation is left.
    fn decide_once(
        &mut self,
        alloc: Global,
        of: &RecoveryJob,
        by: &Ground<'_>,
    ) -> Result<(), Memory>
        requires busy { IsBusy self.old.work }
        requires named { IsNamedRecovery (length by.now.book.now.names)
            (decided_on of.now self.old) }
        ensures value { OnOk result (decided_on of.now self.new
            ≡ once (ground_by by.now) (decided_on of.now self.old)) }
        ensures busy { OnOk result (IsBusy self.new.work) }
    {
        if self.work.is_some() || of.core.done < of.core.ops.len() {
            return Ok(());
        }
        let Some(task) = self.next(of) else {
            return self.end(alloc, of, by);
        };
        if task == Task::Handing {
            return self.hand_over(alloc, of, by);
        }
        self.pop(of)?;
        self.take(alloc, of, by, task)
    }

    // At most four decisions follow one another.
    pub(crate) fn decide(
        &mut self,
        alloc: Global,
        of: &RecoveryJob,
        by: &Ground<'_>,
    ) -> Result<(), Memory>
        requires idle { self.old.work ≡ None }
        requires named { IsNamedRecovery (length by.now.book.now.names)
            (decided_on of.now self.old) }
        ensures { OnOk result (decided_on of.now self.new
            ≡ decided (ground_by by.now) (decided_on of.now self.old)) }
    {
        self.decide_once(alloc, of, by)?;
        self.decide_once(alloc, of, by)?;
        self.decide_once(alloc, of, by)?;
        self.decide_once(alloc, of, by)
    }
}
