//! The turn of a recovery.

ghost use Rattle.std.specs.Prelude.{◌≡◌, ◌<◌, ◌≤◌, ◌+◌, ◌++◌, IfOk, None, OnErr, OnOk, drop, length, vec_capacity};
ghost use Rattle.recovery_turns.specs.Prelude.{option_map, run};
ghost use Rattle.recovery_turns.specs.Deciding.{Fits, decided_on, list_on, settled_on};
ghost use Rattle.recovery_turns.specs.Looks.{CanEnd, CanTake, after_then, foretold};
ghost use Rattle.recovery_turns.specs.RecoveriesBy.{IsRoomy, room_for};

use crate::decided::{Decided, Work};
use crate::instance_keeper_items::Observation;
use crate::look::Then;
use crate::operations_items::JobStep;
use crate::orch_base::Memory;
use crate::server_model::World;
use crate::{BoxedLook, RecoveryJob, RecoveryLook};
use recovery_parts::perform;
use recovery_plans::{LostReplica, Task};
use std::alloc::Global;

// So many of the first are gone.
#[tactic(auto, using(crate::proofs::Skipped::one_less))]
fn skip<T: Drop>(list: &mut Vec<T>, count: usize)
    ensures items { list.new.items ≡ drop count list.old.items }
    ensures capacity { vec_capacity list.new ≡ vec_capacity list.old }
{
    if list.len() <= count {
        list.clear();
    } else if 0 < count {
        let _ = list.remove(0);
        skip(list, count - 1);
    }
}

impl RecoveryJob {
    // Another queue takes the place of the present one or none does, and so many of its tasks are begun.
    fn take_queue(&mut self, queue: Option<Vec<Task>>, begun: usize)
        ensures { self.new ≡ record self.old {
          queue = drop begun
              (list_on self.old.queue (option_map (λ v. v.items) queue));
        } }
    {
        if let Some(queue) = queue {
            self.queue = queue;
            self.begun = 0;
        }
        self.begun += begun.min(self.queue.len() - self.begun);
    }

    // So many of the drained ones are decided.
    fn take_drained(&mut self, handed: usize)
        ensures { self.new ≡ record self.old { drained = drop handed self.old.drained } }
    {
        skip(&mut self.drained, handed);
    }

    // These are lost, too.
    fn take_lost(&mut self, mut more: Vec<LostReplica>)
        requires { length self.old.outcome.lost + length more.items
            < room_for self.old.replicas }
        ensures { self.new ≡ record self.old {
          outcome = record self.old.outcome
              { lost = self.old.outcome.lost ++ more.items };
        } }
    {
        if self.outcome.lost.append(&mut more).is_err() {
            unreachable!();
        }
    }

    // What was decided is so, except for the stage that begins.
    fn settle(&mut self, decided: Decided) -> Option<Work>
        requires { Fits self.old decided }
        ensures value { self.new ≡ settled_on self.old decided }
        ensures work { result ≡ decided.work }
    {
        let Decided {
            queue,
            begun,
            handed,
            chosen,
            eligible,
            swaps,
            promoted,
            lost,
            work,
        } = decided;
        self.take_queue(queue, begun);
        self.take_drained(handed);
        self.take_lost(lost);
        self.chosen = chosen;
        if let Some(eligible) = eligible {
            self.eligible = eligible;
        }
        self.swaps = swaps;
        self.outcome.promoted = promoted;
        work
    }

    // What was decided is so.
    fn adopt(&mut self, decided: Decided)
        requires { Fits self.old decided }
        ensures { self.new ≡ decided_on self.old decided }
    {
        if let Some(Work { stage, ops, seen }) = self.settle(decided) {
            if let Some(sight) = seen {
                self.see(sight);
            }
            self.begin_stage(stage, ops);
        }
    }

    // What comes after the decisions, if it goes on.
    fn go_ahead(&mut self, alloc: Global, then: Option<Then>)
        requires room { IsRoomy 2 self.old }
        requires matches { length self.old.core.matches < room_for self.old.replicas }
        requires hands { length self.old.core.hands < room_for self.old.replicas }
        requires can { CanEnd self.old then }
        ensures { self.new ≡ after_then self.old then }
    {
        match then {
            None => {}
            Some(Then::Follow(act, ending, ops, lines)) => {
                self.go_on(act);
                let waiting = self.core.waited != 0;
                self.progress(alloc, ending, waiting, ops, lines);
            }
            Some(Then::Bear(fate, ops)) => self.bear(alloc, fate, ops),
        }
    }

    /// Does what was looked up on this recovery and this world, and hands on what the look foretold. If memory runs
    /// out, nothing has changed. That comes only if the recovery goes on and nothing is observed.
    pub fn turn(
        &mut self,
        alloc: Global,
        world: &mut World,
        look: BoxedLook,
    ) -> Result<(JobStep, Option<Observation>), Memory>
        requires { CanTake world.old self.old look }
        ensures recovery { OnOk result (self.new ≡ (foretold self.old look).recovery) }
        ensures world { OnOk result (world.new ≡ run world.old (foretold self.old look).exchanges) }
        ensures told { IfOk result (λ r. r ≡ (look.step, look.observation)) }
        ensures unchanged { OnErr result ((self.new ≡ self.old) × (world.new ≡ world.old)) }
        ensures memory { OnErr result ((look.step ≡ JobStep.Going) × (look.observation ≡ None)) }
    {
        let RecoveryLook {
            step,
            observation,
            doing,
            decided,
            then,
        } = look.into_look();
        perform(alloc, world, doing)?;
        self.adopt(decided);
        match &step {
            JobStep::Going => self.go_ahead(alloc, then),
            JobStep::Done(_) | JobStep::Failed(_, _) => self.end_job(),
        }
        Ok((step, observation))
    }
}
