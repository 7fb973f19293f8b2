//! What the decisions at the start of a turn make of a recovery.

ghost use Rattle.std.specs.Prelude.{◌≡◌, ◌<◌, ◌==◌, ◌∷◌, [], IsTrue, None, OnOk, Some, drop, find, length};
ghost use Rattle.recovery_turns.specs.Prelude.{loses, moving, option_copied, working};
ghost use Rattle.recovery_turns.specs.Deciding.{Fits, IsBusy, IsFirst, decided_on, seen_by, sights_of};

use crate::RecoveryJob;
use crate::instance_keeper_items::Bridge;
use crate::operations_items::{Op, Sight};
use crate::orch_base::{Memory, ServerNo};
use job_plans::JobView;
use recovery_parts::{moving, one, room, sight_of};
use recovery_plans::{LostReplica, Stage, Stopped, Task, Way, Why};
use std::alloc::Global;
use std::slice::from_ref;

/// A stage that begins.
#[derive(Drop)]
pub(crate) struct Work {
    pub(crate) stage: Stage,
    pub(crate) ops: Vec<Op>,
    /// What was seen of what it goes by.
    pub(crate) seen: Option<Sight>,
}

/// What the decisions at the start of a turn make of a recovery.
#[derive(Drop)]
pub(crate) struct Decided {
    /// The queue that takes the place of the present one.
    pub(crate) queue: Option<Vec<Task>>,
    /// How many of its tasks are begun or decided.
    pub(crate) begun: usize,
    /// How many of the drained ones are decided.
    pub(crate) handed: usize,
    pub(crate) chosen: Option<ServerNo>,
    pub(crate) eligible: Option<Vec<Stopped>>,
    pub(crate) swaps: bool,
    pub(crate) promoted: Option<ServerNo>,
    /// The replicas that are lost beside those that were.
    pub(crate) lost: Vec<LostReplica>,
    /// The stage that begins, if one does.
    pub(crate) work: Option<Work>,
}

// A list except for so many of its first.
fn rest<T>(list: &[T], from: usize) -> &[T]
    ensures { result.now ≡ drop from list.now }
{
    if from < list.len() {
        &list[from..]
    } else {
        &[]
    }
}

fn lost_at(list: &[LostReplica], no: ServerNo) -> Option<&LostReplica>
    ensures { option_copied result ≡ find (λ l. l.no.0 == no.0) list.now }
{
    list.iter().find(|l| l.no.0 == no.0)
}

fn lost_in(list: &[LostReplica], no: ServerNo) -> Option<LostReplica>
    ensures { result ≡ find (λ l. l.no.0 == no.0) list.now }
{
    lost_at(list, no).copied()
}

impl RecoveryJob {
    // Nothing is decided yet.
    pub(crate) fn undecided(&self, alloc: Global) -> Decided
        ensures value { decided_on self.now result ≡ self.now }
        ensures idle { result.work ≡ None }
    {
        Decided {
            queue: None,
            begun: 0,
            handed: 0,
            chosen: self.chosen,
            eligible: None,
            swaps: self.swaps,
            promoted: self.outcome.promoted,
            lost: Vec::new(alloc),
            work: None,
        }
    }

    // Whether there is room for what is decided, and for what a turn adds then: the room that was reserved for each
    // replica is enough.
    pub(crate) fn fits(&self, decided: &Decided) -> bool
        ensures { IsTrue result → Fits self.now decided.now }
    {
        let room = self.replicas.len() + 8;
        self.core.seen.len() < room
            && decided.sights().len() + 2 <= room - self.core.seen.len()
            && self.core.matches.len() < room
            && self.core.hands.len() < room
            && self.drained.len() < room
            && self.outcome.followers.len() < room
            && self.outcome.lost.len() < room
            && decided.lost.len() < room - self.outcome.lost.len()
    }
}

impl Decided {
    // The job of the recovery that is decided so.
    pub(crate) fn job<'a>(&'a self, of: &'a RecoveryJob) -> JobView<'a>
        ensures { result ≡ (decided_on of.now self.now).core }
    {
        match &self.work {
            None => of.job(),
            Some(work) => JobView {
                id: of.core.id,
                wait: of.core.wait,
                waited: 0,
                ops: &work.ops,
                seen: &of.core.seen,
                more: self.sights(),
                matches: &of.core.matches,
                hands: &of.core.hands,
            },
        }
    }

    // What was seen of what the stage that begins goes by.
    fn sights(&self) -> &[Sight]
        ensures { result.now ≡ sights_of self.now.work }
    {
        match &self.work {
            None => &[],
            Some(work) => match &work.seen {
                None => &[],
                Some(sight) => from_ref(sight),
            },
        }
    }

    // The stage of the recovery that is decided so.
    pub(crate) fn stage<'a>(&'a self, of: &'a RecoveryJob) -> &'a Stage
        ensures { result.now ≡ (decided_on of.now self.now).stage }
    {
        match &self.work {
            None => &of.stage,
            Some(work) => &work.stage,
        }
    }

    // The entry of a replica that is lost.
    pub(crate) fn lost_one(&self, of: &RecoveryJob, no: ServerNo) -> Option<LostReplica>
        ensures { result ≡ find (λ l. l.no.0 == no.0) (decided_on of.now self.now).outcome.lost }
    {
        match lost_in(&of.outcome.lost, no) {
            Some(replica) => Some(replica),
            None => lost_in(&self.lost, no),
        }
    }

    // The tasks that are still to do.
    pub(crate) fn tasks<'a>(&'a self, of: &'a RecoveryJob) -> &'a [Task]
        ensures { result.now ≡ (decided_on of.now self.now).queue }
    {
        match &self.queue {
            None => rest(rest(&of.queue, of.begun), self.begun),
            Some(queue) => rest(queue, self.begun),
        }
    }

    // The drained ones of which nothing is decided yet.
    pub(crate) fn drained<'a>(&self, of: &'a RecoveryJob) -> &'a [Stopped]
        ensures { result.now ≡ (decided_on of.now self.now).drained }
    {
        rest(&of.drained, self.handed)
    }

    // The next task.
    pub(crate) fn next(&self, of: &RecoveryJob) -> Option<Task>
        ensures { IsFirst (decided_on of.now self.now).queue result }
    {
        self.tasks(of).first().copied()
    }

    // The next task is begun. Its place has a number: there is no room for more tasks.
    pub(crate) fn pop(&mut self, of: &RecoveryJob) -> Result<(), Memory>
        requires idle { self.old.work ≡ None }
        ensures value { OnOk result (decided_on of.now self.new ≡ record
            (decided_on of.now self.old) { queue = drop 1 (decided_on of.now self.old).queue }) }
        ensures idle { self.new.work ≡ None }
    {
        self.begun = self.begun.checked_add(1).ok_or(Memory)?;
        Ok(())
    }

    // A replica is left.
    pub(crate) fn lose(&mut self, of: &RecoveryJob, no: ServerNo, why: Why) -> Result<(), Memory>
        requires idle { self.old.work ≡ None }
        ensures value { OnOk result (decided_on of.now self.new
            ≡ loses (decided_on of.now self.old) no why) }
        ensures idle { self.new.work ≡ None }
    {
        self.lost.push(LostReplica {
            no,
            why,
            detached: false,
        })?;
        Ok(())
    }

    // A stage begins, with its operations.
    pub(crate) fn begin(&mut self, of: &RecoveryJob, stage: Stage, ops: Vec<Op>)
        requires idle { self.old.work ≡ None }
        requires some { 0 < length ops.items }
        ensures value { decided_on of.now self.new
            ≡ working (decided_on of.now self.old) stage ops.items }
        ensures busy { IsBusy self.new.work }
    {
        self.work = Some(Work {
            stage,
            ops,
            seen: None,
        });
    }

    // A stage of one operation begins.
    pub(crate) fn begin_one(
        &mut self,
        alloc: Global,
        of: &RecoveryJob,
        stage: Stage,
        op: Op,
    ) -> Result<(), Memory>
        requires idle { self.old.work ≡ None }
        ensures value { OnOk result (decided_on of.now self.new
            ≡ working (decided_on of.now self.old) stage (op ∷ [])) }
        ensures busy { OnOk result (IsBusy self.new.work) }
    {
        let ops = one(room(alloc)?, op);
        self.begin(of, stage, ops);
        Ok(())
    }

    // A stage begins, with its operations, which go by a bridge.
    pub(crate) fn begin_by(
        &mut self,
        alloc: Global,
        of: &RecoveryJob,
        bridge: Bridge,
        stage: Stage,
        ops: Vec<Op>,
    )
        requires idle { self.old.work ≡ None }
        requires some { 0 < length ops.items }
        ensures value { decided_on of.now self.new ≡ working
            (seen_by (decided_on of.now self.old) bridge) stage ops.items }
        ensures busy { IsBusy self.new.work }
    {
        let seen = Some(sight_of(alloc, bridge));
        self.work = Some(Work { stage, ops, seen });
    }

    // A replica goes its way.
    pub(crate) fn go(
        &mut self,
        alloc: Global,
        of: &RecoveryJob,
        no: ServerNo,
        way: Way,
    ) -> Result<(), Memory>
        requires idle { self.old.work ≡ None }
        ensures value { OnOk result (decided_on of.now self.new
            ≡ moving (decided_on of.now self.old) no way) }
        ensures busy { OnOk result (IsBusy self.new.work) }
    {
        let ops = moving(room(alloc)?, no, way);
        let stage = Stage::Move(no, way);
        match way {
            Way::Down(bridge) | Way::Up(bridge) => self.begin_by(alloc, of, bridge, stage, ops),
            Way::Auto { to: _, exec: _ }
            | Way::Match {
                to: _,
                exec: _,
                every: _,
            } => self.begin(of, stage, ops),
        }
        Ok(())
    }
}
