//! A job as its turn is looked up.

ghost use Rattle.std.specs.Prelude.{◌≡◌, ◌<◌, ◌+◌, ◌↔◌, Some, None, IfOk, IsTrue, length, true};
ghost use Rattle.job_plans.specs.Prelude.{IsNamed, after_attach, after_until, after_wait, after_wait_by, aim_of, bridge_at, by_deed, by_match};
ghost use Rattle.job_plans.specs.Prelude.{by_set, crossing_of, deed_of, holds_seen as holds_all, is_named, is_reached as reaches, match_found};
ghost use Rattle.job_plans.specs.Prelude.{option_copied, same_again, seen_in, seen_of as latest_of, settles, status as status_of, turned, until_by};
ghost use Rattle.job_plans.specs.Acts.{foretold, rest_of, CanTurn, IsNext, MayLook, Tells};

use crate::Look;
use crate::act::Act;
use crate::binlog_coords_items::Coord;
use crate::commands::{Cause, Lines};
use crate::instance_keeper_items::Bridge;
use crate::looks::{
    cause_by, done, failed, going, holds_seen, is_reached, is_settled, latest, latest_of_more,
    look_ask, look_attach, look_bridge, look_match, look_status, passed, position_of, read_by,
    takes_sets, watch,
};
use crate::orch_base::{Memory, Moment, ServerNo, SourceState};
use crate::server_model::World;
use crate::server_words_items::{Ask, AttachFault, Spot, Status, Threads};
use operations::{Aim, Crossing, Match, Op, Position, Sight};
use std::alloc::Global;
use std::marker::Model;

/// A job as its turn is looked up: its parts, borrowed from wherever they are.
#[derive(Drop)]
pub struct JobView<'a> {
    /// The job's number.
    pub id: u64,
    /// How many waits one operation has.
    pub wait: u32,
    /// How many waits the operation that is due has had.
    pub waited: u32,
    /// The operations that are left.
    pub ops: &'a [Op],
    /// The latest that was seen of each server.
    pub seen: &'a [Sight],
    /// What was seen after that, in order.
    pub more: &'a [Sight],
    /// The matches that were found, the latest as the last.
    pub matches: &'a [Match],
    /// The servers that the job stopped and hasn't started.
    pub hands: &'a [ServerNo],
}

impl<'a> Model for JobView<'a> {
    ghost use Rattle.operations.specs.Jobs.{Job as JobState};

    ghost Value = { JobState };

    ghost use Rattle.job_plans.specs.JobsSeen.{job_seen};

    ghost view = { job_seen };
}

impl<'a> JobView<'a> {
    /// The operation that is due.
    pub fn due(&self) -> Option<&'a Op>
        ensures { IsNext self.now (option_copied result) }
    {
        self.ops.first()
    }

    /// The latest that was seen of a server.
    pub fn sight(&self, no: ServerNo) -> Option<&'a Position>
        ensures { option_copied result ≡ latest_of self.now.seen no.0 }
    {
        match latest_of_more(self.more, no) {
            Some(seen) => Some(seen),
            None => latest(self.seen, no),
        }
    }

    // How far an aim is.
    fn aim(&self, aim: Aim) -> Option<Coord>
        ensures { result ≡ aim_of self.now.seen aim }
    {
        match aim {
            Aim::EndOf(no) => match self.sight(no) {
                None => None,
                Some(seen) => seen.own_end,
            },
            Aim::ExecOf(no) => match self.sight(no) {
                None => None,
                Some(seen) => Some(seen.exec),
            },
        }
    }

    // The coordinate to which the server is to go, if it was seen before it.
    fn until(&self, no: ServerNo, aim: Aim) -> Option<Coord>
        ensures { result ≡ until_by (latest_of self.now.seen no.0) (aim_of self.now.seen aim) }
    {
        match (self.sight(no), self.aim(aim)) {
            (Some(seen), Some(to)) => {
                if to.is_at_or_before(seen.exec) {
                    None
                } else {
                    Some(to)
                }
            }
            _ => None,
        }
    }

    fn look_until(&self, alloc: Global, world: &World, no: ServerNo, aim: Aim) -> Look
        requires server { no.0 < length world.now.servers }
        requires due { MayLook world.now self.now }
        ensures { Tells world.now self.now (after_until world.now self.now (rest_of self.now) no
            (until_by (latest_of self.now.seen no.0) (aim_of self.now.seen aim))) result }
    {
        match self.until(no, aim) {
            None => passed(),
            Some(to) => look_ask(alloc, world, no, Ask::StartUntil(to)),
        }
    }

    // Whether one more wait is left after this one.
    fn may_wait(&self) -> bool
        ensures { IsTrue result ↔ (self.now.waited + 1 < self.now.wait) }
    {
        self.wait.saturating_sub(self.waited) > 1
    }

    // A wait in which this was seen: it is over, or is due again, or was the last one.
    fn look_wait(
        &self,
        alloc: Global,
        world: &World,
        no: ServerNo,
        seen: Status,
        reached: bool,
    ) -> Look
        requires due { MayLook world.now self.now }
        ensures { Tells world.now self.now (after_wait_by self.now
            (rest_of self.now) no seen reached) result }
    {
        let seen = position_of(seen);
        if reached {
            going(None, Act::Keep(Sight { no, seen }))
        } else if self.may_wait() {
            going(None, Act::Wait(Sight { no, seen }))
        } else {
            failed(alloc, Cause::WaitSpent(no), None)
        }
    }
}

impl<'a> JobView<'a> {
    fn look_await(
        &self,
        alloc: Global,
        world: &World,
        no: ServerNo,
        aim: Aim,
    ) -> Result<Look, Memory>
        requires server { no.0 < length world.now.servers }
        requires due { MayLook world.now self.now }
        ensures { IfOk result (Tells world.now self.now (after_wait self.now (rest_of self.now) no
            (λ s. reaches (aim_of self.now.seen aim) s.exec) (seen_in
            (status_of world.now no.0)))) }
    {
        let Some(seen) = watch(alloc, world, no)? else {
            return Ok(failed(alloc, Cause::Unreachable(no), None));
        };
        let reached = is_reached(self.aim(aim), seen.exec);
        Ok(self.look_wait(alloc, world, no, seen, reached))
    }

    fn look_await_set(
        &self,
        alloc: Global,
        world: &World,
        no: ServerNo,
        of: ServerNo,
    ) -> Result<Look, Memory>
        requires server { no.0 < length world.now.servers }
        requires due { MayLook world.now self.now }
        ensures { IfOk result (Tells world.now self.now (after_wait self.now (rest_of self.now) no
            (holds_all (latest_of self.now.seen of.0)) (seen_in (status_of world.now no.0)))) }
    {
        let Some(seen) = watch(alloc, world, no)? else {
            return Ok(failed(alloc, Cause::Unreachable(no), None));
        };
        let reached = holds_seen(self.sight(of), &seen);
        Ok(self.look_wait(alloc, world, no, seen, reached))
    }

    fn look_settle(&self, alloc: Global, world: &World, no: ServerNo) -> Result<Look, Memory>
        requires server { no.0 < length world.now.servers }
        requires due { MayLook world.now self.now }
        ensures { IfOk result (Tells world.now self.now (after_wait self.now (rest_of self.now) no
            (settles self.now) (seen_in (status_of world.now no.0)))) }
    {
        let Some(seen) = watch(alloc, world, no)? else {
            return Ok(failed(alloc, Cause::Unreachable(no), None));
        };
        let over = is_settled(&seen) || !self.may_wait();
        Ok(self.look_wait(alloc, world, no, seen, over))
    }

    /// The bridge that was seen of a server: none if it doesn't log or has no source.
    pub fn bridge(&self, no: ServerNo) -> Option<Bridge>
        ensures { result ≡ bridge_at no (latest_of self.now.seen no.0) }
    {
        let seen = self.sight(no)?;
        let own = seen.own_end?;
        match seen.source {
            SourceState::Attached(source) | SourceState::Detached(source) => Some(Bridge {
                no,
                source,
                own,
                exec: seen.exec,
            }),
            SourceState::Without => None,
        }
    }

    fn look_cross(
        &self,
        alloc: Global,
        world: &World,
        crossing: Crossing,
        a: ServerNo,
        b: ServerNo,
    ) -> Result<Look, Memory>
        requires server { a.0 < length world.now.servers }
        requires due { MayLook world.now self.now }
        ensures { IfOk result (Tells world.now self.now (after_attach world.now self.now
            (rest_of self.now) a (crossing_of self.now.seen crossing a b))) }
    {
        match self.bridge(read_by(crossing, a, b)) {
            None => Ok(passed()),
            Some(bridge) => look_bridge(alloc, world, crossing, a, bridge),
        }
    }

    fn look_same(&self, alloc: Global, world: &World, no: ServerNo) -> Result<Look, Memory>
        requires server { no.0 < length world.now.servers }
        requires due { MayLook world.now self.now }
        ensures { IfOk result (Tells world.now self.now (after_attach world.now self.now
            (rest_of self.now) no (same_again no (latest_of self.now.seen no.0)))) }
    {
        let Some(seen) = self.sight(no) else {
            return Ok(passed());
        };
        match seen.source {
            SourceState::Without => Ok(passed()),
            SourceState::Attached(source) | SourceState::Detached(source) => {
                let exec = seen.exec;
                look_attach(alloc, world, no, Spot::At(source, exec), source, exec)
            }
        }
    }

    fn look_auto(
        &self,
        alloc: Global,
        world: &World,
        no: ServerNo,
        to: ServerNo,
    ) -> Result<Look, Memory>
        requires server { no.0 < length world.now.servers }
        requires due { MayLook world.now self.now }
        ensures { IfOk result (Tells world.now self.now (after_attach world.now self.now
            (rest_of self.now) no (by_set no to (latest_of self.now.seen to.0)))) }
    {
        let Some(seen) = self.sight(to) else {
            return Ok(passed());
        };
        if !takes_sets(world, to) {
            return Ok(passed());
        }
        match world.test_attach_auto(alloc, no, &seen.set, to) {
            Ok(()) => Ok(going(None, Act::Auto(no, to))),
            Err(AttachFault::Memory) => Err(Memory),
            Err(fault) => Ok(failed(alloc, cause_by(alloc, no, fault)?, None)),
        }
    }

    // The latest match that was found of two servers.
    fn found(&self, no: ServerNo, to: ServerNo) -> Option<&'a Match>
        ensures { option_copied result ≡ match_found self.now.matches no to }
    {
        self.matches
            .iter()
            .rev()
            .find(|m| m.no.0 == no.0 && m.to.0 == to.0)
    }

    fn look_by_match(
        &self,
        alloc: Global,
        world: &World,
        no: ServerNo,
        to: ServerNo,
    ) -> Result<Look, Memory>
        requires server { no.0 < length world.now.servers }
        requires due { MayLook world.now self.now }
        ensures { IfOk result (Tells world.now self.now (after_attach world.now self.now
            (rest_of self.now) no (by_match no to (match_found self.now.matches no to)))) }
    {
        match self.found(no, to) {
            None => Ok(passed()),
            Some(found) => look_attach(alloc, world, no, found.spot, to, found.at),
        }
    }

    // What the next turn does, by the operation that is due.
    fn look_at(
        &self,
        alloc: Global,
        world: &World,
        op: &Op,
        read: u64,
        moment: Moment,
    ) -> Result<Look, Memory>
        requires named { is_named (length world.now.servers) (deed_of op.now) ≡ true }
        requires due { MayLook world.now self.now }
        ensures { IfOk result (Tells world.now self.now (by_deed world.now read moment self.now
            (rest_of self.now) (deed_of op.now))) }
    {
        match op {
            Op::Status(no, from) => look_status(alloc, world, *no, *from, read, moment),
            Op::Stop(no) => Ok(look_ask(alloc, world, *no, Ask::Stop(Threads::Both))),
            Op::StopReceiver(no) => Ok(look_ask(alloc, world, *no, Ask::Stop(Threads::Receiver))),
            Op::Start(no) => Ok(look_ask(alloc, world, *no, Ask::Start)),
            Op::Reset(no) => Ok(look_ask(alloc, world, *no, Ask::Reset)),
            Op::Detach(no) => Ok(look_ask(alloc, world, *no, Ask::Detach)),
            Op::Reattach(no) => Ok(look_ask(alloc, world, *no, Ask::Reattach)),
            Op::ReadOnly(no, on) => Ok(look_ask(alloc, world, *no, Ask::SetReadOnly(*on))),
            Op::Until(no, aim) => Ok(self.look_until(alloc, world, *no, *aim)),
            Op::Await(no, aim) => self.look_await(alloc, world, *no, *aim),
            Op::AwaitSet(no, of) => self.look_await_set(alloc, world, *no, *of),
            Op::Settle(no) => self.look_settle(alloc, world, *no),
            Op::Cross(crossing, a, b) => self.look_cross(alloc, world, *crossing, *a, *b),
            Op::Same(no) => self.look_same(alloc, world, *no),
            Op::Auto(no, to) => self.look_auto(alloc, world, *no, *to),
            Op::Match(no, to, every) => Ok(look_match(alloc, world, *no, *to, *every)),
            Op::CrossMatch(no, to) => self.look_by_match(alloc, world, *no, *to),
            Op::Finish(lines) => Ok(done(lines.copy_each(alloc)?)),
        }
    }

    /// What the next turn does on this world, and observes with this read number at this moment. It changes nothing.
    /// The servers that the job names are there. An attachment that can't be made is passed over. `Err` means out of
    /// memory.
    pub fn look(
        &self,
        alloc: Global,
        world: &World,
        read: u64,
        moment: Moment,
    ) -> Result<Look, Memory>
        requires named { IsNamed (length world.now.servers) self.now }
        ensures step { IfOk result (λ l. l.step ≡ (turned world.now read moment self.now).step) }
        ensures observation { IfOk result (λ l. l.observation
            ≡ (turned world.now read moment self.now).observation) }
        ensures turn { IfOk result (λ l. foretold self.now l
            ≡ turned world.now read moment self.now) }
        ensures can { IfOk result (CanTurn world.now self.now) }
    {
        match self.due() {
            None => Ok(done(Lines::new(Vec::new(alloc)))),
            Some(op) => self.look_at(alloc, world, op, read, moment),
        }
    }
}
