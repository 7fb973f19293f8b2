//! The turns of a driver, a poller and a worker: each is one turn of the desk.

ghost use Rattle.std.specs.Prelude.{◌≡◌, ◌≢◌, ◌⊎◌, ◌<◌, ◌≤◌, [], true, false, IfOk, OnErr, None, length};
ghost use Rattle.orch_core.specs.Scenarios.ValidTurns.{IsTurn, NamesOneOf};
ghost use Rattle.live_desk.specs.Desks.{IsIdle, IsNextOf};
ghost use Rattle.live_desk.specs.Kinds.{is_replication};
ghost use Rattle.live_desk.specs.Roles.{IsDrive, IsPoll, TakesOrEnds, Works};

use crate::orch_base::{Copied, Memory};
use crate::turns::{Act, Reply, Step, Turn};
use crate::{Desk, Pass};
use std::alloc::Global;

/// What a worker has to do next.
#[derive(Clone, Copy, Debug, PartialEq, Eq)]
pub(crate) enum Work {
    /// Nothing: no command is left.
    Over,
    /// The next command.
    Free,
    /// The job of this number goes on.
    Busy(u64),
}

// What a worker has to do after its command's reply.
fn after_command(reply: &Reply) -> Work
    ensures { result ≢ Work.Over }
{
    if let Reply::Begun(job) = reply {
        return Work::Busy(*job);
    }
    Work::Free
}

// What a worker has to do after its job's reply.
fn after_job(job: u64, reply: &Reply) -> Work
    ensures { (result ≡ Work.Free) ⊎ (result ≡ Work.Busy job) }
{
    if let Reply::Going = reply {
        return Work::Busy(job);
    }
    Work::Free
}

impl Desk {
    /// Takes the scenario's next turn that is no command, and answers whether there was one.
    pub(crate) fn take_listed(&mut self, alloc: Global, pass: &mut Pass) -> Result<bool, Memory>
        ensures took { IfOk result (TakesOrEnds self.old pass.old.by
            (λ t. IsNextOf false t self.old.listed) (self.old.listed ≡ []) self.new) }
        ensures err { OnErr result (self.new ≡ self.old) }
        ensures by { pass.new.by ≡ pass.old.by }
    {
        let Some(t) = self.next_listed() else {
            return Ok(false);
        };
        let t = t.copy(alloc)?;
        self.turn(alloc, pass, t)?;
        Ok(true)
    }

    /// The turn of the driver: the next listed one while one is left, and then those of the servers in name order. It
    /// answers whether anything was left to do.
    pub(crate) fn drive(
        &mut self,
        alloc: Global,
        pass: &mut Pass,
        step: usize,
    ) -> Result<bool, Memory>
        ensures took { IfOk result (TakesOrEnds self.old pass.old.by
            (IsDrive self.old) (IsIdle self.old) self.new) }
        ensures err { OnErr result (self.new ≡ self.old) }
        ensures by { pass.new.by ≡ pass.old.by }
    {
        if self.next_listed().is_some() {
            return self.take_listed(alloc, pass);
        }
        if self.idle() {
            return Ok(false);
        }
        let t = self.replication(step);
        self.turn(alloc, pass, t)?;
        Ok(true)
    }

    // Fetch and apply of each server in name order, and from the first one again.
    fn replication(&self, step: usize) -> Turn
        ensures turn { IsTurn (length self.now.scenario.opening.servers) result }
        ensures named { NamesOneOf self.now.scenario.nodes result }
        ensures replicates { is_replication result ≡ true }
    {
        let order = self.order();
        let no = order[step / 2 % order.len()];
        if step % 2 == 0 {
            Turn::Step(Step::Fetch(no))
        } else {
            Turn::Step(Step::Apply(no))
        }
    }

    // What a poller does: it reads the server that is due, or stores what it read.
    fn polling(&self, poller: u32, stores: bool) -> Turn
        requires { poller < 64 }
        ensures turn { IsTurn (length self.now.scenario.opening.servers) result }
        ensures named { NamesOneOf self.now.scenario.nodes result }
        ensures polls { IsPoll self.now poller stores result }
    {
        if stores {
            Turn::Act(Act::PollStore(poller))
        } else {
            Turn::Act(Act::PollRead(poller, self.due()))
        }
    }

    /// The turn of a poller: it reads the server that is due, or stores what it read. It answers whether anything was
    /// left to do.
    pub(crate) fn poll(
        &mut self,
        alloc: Global,
        pass: &mut Pass,
        poller: u32,
        stores: bool,
    ) -> Result<bool, Memory>
        requires number { 2 ≤ pass.old.by }
        requires poller { poller < 64 }
        ensures took { IfOk result (TakesOrEnds self.old pass.old.by
            (IsPoll self.old poller stores) (IsIdle self.old) self.new) }
        ensures err { OnErr result (self.new ≡ self.old) }
        ensures by { pass.new.by ≡ pass.old.by }
    {
        if self.idle() {
            return Ok(false);
        }
        let t = self.polling(poller, stores);
        self.turn(alloc, pass, t)?;
        Ok(true)
    }

    /// Takes the scenario's next command, and returns what it comes to.
    pub(crate) fn take_command(&mut self, alloc: Global, pass: &mut Pass) -> Result<Work, Memory>
        ensures took { IfOk result (Works self.old pass.old.by None self.new) }
        ensures err { OnErr result (self.new ≡ self.old) }
        ensures by { pass.new.by ≡ pass.old.by }
    {
        let Some(t) = self.next_command() else {
            return Ok(Work::Over);
        };
        let t = t.copy(alloc)?;
        let reply = self.turn(alloc, pass, t)?;
        Ok(after_command(&reply))
    }

    /// The turn of a worker: of its job, or else the next command.
    pub(crate) fn worker_turn(
        &mut self,
        alloc: Global,
        pass: &mut Pass,
        job: Option<u64>,
    ) -> Result<Work, Memory>
        requires { 2 ≤ pass.old.by }
        ensures took { IfOk result (Works self.old pass.old.by job self.new) }
        ensures err { OnErr result (self.new ≡ self.old) }
        ensures by { pass.new.by ≡ pass.old.by }
    {
        let Some(id) = job else {
            return self.take_command(alloc, pass);
        };
        let reply = self.turn(alloc, pass, Turn::Act(Act::Job(id)))?;
        Ok(after_job(id, &reply))
    }
}
