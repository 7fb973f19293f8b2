//! A job.

ghost use Rattle.std.specs.Prelude.{◌≡◌, ◌<◌, ◌+◌, ◌↔◌, [], None, IfOk, OnOk, OnErr, IsTrue, length, true, is_some};
ghost use Rattle.job_plans.specs.Prelude.{IsAutoTarget, IsNamed, Request as Requesting, after, ended, hands_after, job_with, next, option_copied};
ghost use Rattle.job_plans.specs.Prelude.{run, saw_at, seen_of as latest_of, turned, turns_left, with_match};
ghost use Rattle.job_plans.specs.Acts.{foretold, exchanges_of, rest_of, CanTurn};

use crate::act::Act;
use crate::instance_keeper_items::Observation;
use crate::looks::latest;
use crate::orch_base::{Memory, Moment, ServerNo};
use crate::server_model::World;
use crate::server_words_items::{Ask, AttachFault};
use crate::turns::{change_hands, keep, restart};
use crate::{JobView, Look};
use operations::{JobStep, Match, Op, Position, Sight};
use std::alloc::Global;
use std::marker::Model;

/// A plan's operations, of which some are done, and what was seen on the way.
pub struct Job {
    id: u64,
    // How many waits one operation has.
    wait: u32,
    ops: Vec<Op>,
    // How many of them are done.
    done: usize,
    seen: Vec<Sight>,
    matches: Vec<Match>,
    waited: u32,
    // The servers that it stopped and hasn't started.
    hands: Vec<ServerNo>,
}

impl Drop for Job {
    fn drop(self) {
        let Job {
            id: _,
            wait: _,
            ops: _ops,
            done: _,
            seen: _seen,
            matches: _matches,
            waited: _,
            hands: _hands,
        } = self;
    }
}

impl Model for Job {
    ghost use Rattle.operations.specs.Jobs.{Job as JobState};

    ghost Value = { JobState };

    ghost use Rattle.job_plans.specs.JobsBy.{job_of, HasRoom};

    ghost view = { job_of };

    ghost invariant = { HasRoom };
}

impl Job {
    /// A job of this number and these operations, each of which may wait so often. `Err` means out of memory.
    pub fn make(alloc: Global, id: u64, ops: Vec<Op>, wait: u32) -> Result<Job, Memory>
        ensures { IfOk result (λ j. j ≡ job_with id wait ops.items) }
    {
        let seen = Vec::with_capacity(alloc, ops.len())?;
        Ok(Job {
            id,
            wait,
            ops,
            done: 0,
            seen,
            matches: Vec::new(alloc),
            waited: 0,
            hands: Vec::new(alloc),
        })
    }

    /// The job's number.
    pub fn id(&self) -> u64
        ensures { result ≡ self.now.id }
    {
        self.id
    }

    /// The operations that are left.
    pub fn left(&self) -> &[Op]
        ensures { result.now ≡ self.now.ops }
    {
        &self.ops[self.done..]
    }

    /// Whether no operation is left.
    pub fn is_ended(&self) -> bool
        ensures { IsTrue result ↔ (self.now.ops ≡ []) }
    {
        self.left().is_empty()
    }

    /// How many turns the job has at most before it ends: one more than its waits for each operation that is left, less
    /// the waits so far.
    pub fn turns_left(&self) -> u128
        ensures { result ≡ turns_left self.now }
    {
        let each = u128::from(self.wait) + 1;
        let left = self.left().len() as u128;
        (each * left).saturating_sub(u128::from(self.waited))
    }

    /// The job as its turn is looked up.
    pub fn view(&self) -> JobView<'_>
        ensures { result ≡ self.now }
    {
        JobView {
            id: self.id,
            wait: self.wait,
            waited: self.waited,
            ops: self.left(),
            seen: &self.seen,
            more: &[],
            matches: &self.matches,
            hands: &self.hands,
        }
    }

    // The latest that was seen of a server.
    fn sight(&self, no: ServerNo) -> Option<&Position>
        ensures { option_copied result ≡ latest_of self.now.seen no.0 }
    {
        latest(&self.seen, no)
    }

    /// What the next turn does on this world, and observes with this read number at this moment. It changes nothing.
    /// The servers that the job names are there. An attachment that can't be made is passed over. `Err` means out of
    /// memory.
    pub fn look(
        &self,
        alloc: Global,
        world: &World,
        read: u64,
        moment: Moment,
    ) -> Result<Look, Memory>
        requires named { IsNamed (length world.now.servers) self.now }
        ensures step { IfOk result (λ l. l.step ≡ (turned world.now read moment self.now).step) }
        ensures observation { IfOk result (λ l. l.observation
            ≡ (turned world.now read moment self.now).observation) }
        ensures turn { IfOk result (λ l. foretold self.now l
            ≡ turned world.now read moment self.now) }
        ensures can { IfOk result (CanTurn world.now self.now) }
    {
        self.view().look(alloc, world, read, moment)
    }
}

impl Job {
    // The operation is done.
    fn pass(&mut self)
        requires { 0 < length self.old.ops }
        ensures { self.new ≡ next self.old (rest_of self.old) }
    {
        self.done += 1;
        self.waited = 0;
    }

    // The operation is done, and this was seen.
    fn pass_with(&mut self, sight: Sight)
        requires { 0 < length self.old.ops }
        ensures { self.new ≡ next (saw_at self.old sight.no sight.seen) (rest_of self.old) }
    {
        keep(&mut self.seen, sight);
        self.done += 1;
        self.waited = 0;
    }

    // The operation is done, and this match was found.
    fn pass_found(&mut self, found: Match) -> Result<(), Memory>
        requires { 0 < length self.old.ops }
        ensures ok { OnOk result (self.new ≡
            next (with_match self.old found) (rest_of self.old)) }
        ensures err { OnErr result (self.new ≡ self.old) }
    {
        self.matches.push(found)?;
        self.done += 1;
        self.waited = 0;
        Ok(())
    }

    // This was seen in one more wait.
    fn wait_with(&mut self, sight: Sight) -> Result<(), Memory>
        requires { self.old.waited + 1 < self.old.wait }
        ensures ok { OnOk result (self.new ≡ record (saw_at self.old sight.no sight.seen)
            { waited = self.old.waited + 1 }) }
        ensures err { OnErr result (self.new ≡ self.old) }
    {
        self.seen.reserve(self.ops.len() - self.done + 1)?;
        keep(&mut self.seen, sight);
        self.waited += 1;
        Ok(())
    }

    // The job ends: no operation is left, and nothing is in its hands.
    fn end(&mut self)
        ensures { self.new ≡ ended self.old }
    {
        self.done = self.ops.len();
        self.hands.clear();
    }

    // The job after this was asked of a server.
    fn follow_asking(&mut self, no: ServerNo, ask: Ask) -> Result<(), Memory>
        requires { 0 < length self.old.ops }
        ensures ok { OnOk result (self.new ≡ record (next self.old (rest_of self.old))
            { hands = hands_after self.old.hands no ask }) }
        ensures err { OnErr result (self.new ≡ self.old) }
    {
        self.hands.reserve(1)?;
        change_hands(&mut self.hands, no, ask);
        self.done += 1;
        self.waited = 0;
        Ok(())
    }

    // Asks this of a server.
    fn pass_asking(&mut self, world: &mut World, no: ServerNo, ask: Ask) -> Result<(), Memory>
        requires server { no.0 < length world.old.servers }
        requires some { 0 < length self.old.ops }
        ensures ok { OnOk result (self.new ≡ record (next self.old (rest_of self.old))
            { hands = hands_after self.old.hands no ask }) }
        ensures world { OnOk result (world.new ≡ after world.old (Requesting no.0 ask)) }
        ensures err { OnErr result ((self.new ≡ self.old) × (world.new ≡ world.old)) }
    {
        self.follow_asking(no, ask)?;
        let _ = world.ask(no, ask);
        Ok(())
    }

    // The server goes below another by the set that was seen of it.
    fn pass_by_set(
        &mut self,
        alloc: Global,
        world: &mut World,
        no: ServerNo,
        to: ServerNo,
    ) -> Result<(), Memory>
        requires server { no.0 < length world.old.servers }
        requires target { IsAutoTarget world.old to.0 }
        requires some { 0 < length self.old.ops }
        requires seen { is_some (latest_of self.old.seen to.0) ≡ true }
        ensures job { OnOk result (self.new ≡ next self.old (rest_of self.old)) }
        ensures world { OnOk result (world.new ≡ run world.old (exchanges_of self.old
            (Act.Auto no to))) }
        ensures err { OnErr result ((self.new ≡ self.old) × (world.new ≡ world.old)) }
    {
        let Some(seen) = self.sight(to) else {
            unreachable!();
        };
        match world.attach_auto(alloc, no, &seen.set, to) {
            Err(AttachFault::Memory) => return Err(Memory),
            Ok(())
            | Err(
                AttachFault::Unreachable
                | AttachFault::Running(_)
                | AttachFault::Interfered(_, _)
                | AttachFault::Loop
                | AttachFault::Errant(_)
                | AttachFault::Purged(_),
            ) => {}
        }
        self.pass();
        Ok(())
    }

    /// Does what was looked up on this job and this world, and hands on what the look foretold. If memory runs out,
    /// nothing has changed. That comes only if the job goes on and nothing is observed.
    pub fn turn(
        &mut self,
        alloc: Global,
        world: &mut World,
        look: Look,
    ) -> Result<(JobStep, Option<Observation>), Memory>
        requires { CanTurn world.old self.old look }
        ensures job { OnOk result (self.new ≡ (foretold self.old look).job) }
        ensures world { OnOk result (world.new ≡ run world.old (foretold self.old look).exchanges) }
        ensures told { IfOk result (λ r. r ≡ (look.step, look.observation)) }
        ensures unchanged { OnErr result ((self.new ≡ self.old) × (world.new ≡ world.old)) }
        ensures memory { OnErr result ((look.step ≡ JobStep.Going) × (look.observation ≡ None)) }
    {
        let Look {
            step,
            observation,
            act,
        } = look;
        match act {
            Act::Fail => {
                restart(world, &self.hands);
                self.end();
            }
            Act::End => self.end(),
            Act::Pass => self.pass(),
            Act::Keep(sight) => self.pass_with(sight),
            Act::Found(found) => self.pass_found(found)?,
            Act::Wait(sight) => self.wait_with(sight)?,
            Act::Ask(no, ask) => self.pass_asking(world, no, ask)?,
            Act::Attach(no, expect, to, at) => {
                let _ = world.attach_at(no, expect, to, at);
                self.pass();
            }
            Act::Auto(no, to) => self.pass_by_set(alloc, world, no, to)?,
        }
        Ok((step, observation))
    }
}
