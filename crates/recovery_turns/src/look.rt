//! What the next turn of a recovery does.

ghost use Rattle.std.specs.Prelude.{◌≡◌, ◌≤◌, IfOk, List, None, Some, length, map, true, vec_capacity};
ghost use Rattle.recovery_turns.specs.Prelude.{CanFollow, IsNamedRecovery, IsSpare as IsSpareJob, Line as ALine, Recovery as ARecovery};
ghost use Rattle.recovery_turns.specs.Prelude.{ServerNo as Number, back_by, back_told, bar_by, bar_told, exchange_of, exchanges_of as made_by};
ghost use Rattle.recovery_turns.specs.Prelude.{fails, fate, goes_back, job_after, last_exchanges, met, moved, option_copied, seen_of, settled, taken};
ghost use Rattle.recovery_turns.specs.Prelude.{takes_memory, undone, with_seen};
ghost use Rattle.recovery_turns.specs.Deciding.{decided_on};
ghost use Rattle.recovery_turns.specs.Looks.{CanEnd, CanTake, IsSpare, foretold};
ghost use Rattle.recovery_turns.specs.Steps.{IsTold};
ghost use Rattle.recovery_turns.specs.Turnings.{ending_at, going_by, looked_by};

use crate::commands::{Cause, Lines};
use crate::decided::Decided;
use crate::instance_keeper_items::{Book, Observation};
use crate::operations_items::{JobStep, Op, Position, Sight};
use crate::orch_base::{Memory, Moment, ServerNo, SourceState};
use crate::progress::LastLines;
use crate::server_model::World;
use crate::server_words_items::{Ask, Spot};
use crate::{BoxedLook, RecoveryJob};
use job_plans::{Act, JobView, Look, has_place};
use recovery_parts::{
    Back, Bar, Change, Doing, Fate, Ground, Info, doing_of, ends, fate_of, info_of, only, room,
    then_starts,
};
use recovery_plans::{Purpose, Stage};
use std::alloc::Global;

/// What comes after the decisions of a turn after which a recovery goes on.
#[derive(Drop)]
pub(crate) enum Then {
    /// The job follows what was looked up, by an operation that ends the stage or doesn't. It has room for the
    /// operations of the stage that may begin, and the last lines if they may be needed.
    Follow(Act, bool, Vec<Op>, Option<LastLines>),
    /// An operation failed; with room for the operations of the stage that may begin.
    Bear(Fate, Vec<Op>),
}

/// What the next turn of a recovery does and answers, on the world and with the book on which it was looked up.
#[derive(Drop)]
pub struct RecoveryLook {
    /// What the turn answers.
    pub step: JobStep,
    /// What the turn observes for the book, if it reads a status.
    pub observation: Option<Observation>,
    // What it does to servers.
    pub(crate) doing: Doing,
    // What is decided first, and what comes after that.
    pub(crate) decided: Decided,
    pub(crate) then: Option<Then>,
}

// The latest that is seen of a server after this was seen.
fn kept<'a>(job: &JobView<'a>, sight: &'a Sight, no: ServerNo) -> Option<&'a Position>
    ensures { option_copied result ≡ seen_of
        (with_seen job.now.seen sight.now.no sight.now.seen) no.0 }
{
    if sight.no.0 == no.0 {
        Some(&sight.seen)
    } else {
        job.sight(no)
    }
}

// The latest that is seen of a server after an act.
fn seen_after<'a>(job: &JobView<'a>, act: &'a Act, no: ServerNo) -> Option<&'a Position>
    ensures { option_copied result ≡ seen_of (job_after job.now act.now).seen no.0 }
{
    match act {
        Act::Keep(sight) => kept(job, sight, no),
        Act::Wait(sight) => kept(job, sight, no),
        Act::Fail
        | Act::End
        | Act::Pass
        | Act::Found(_)
        | Act::Ask(_, _)
        | Act::Attach(_, _, _, _)
        | Act::Auto(_, _) => job.sight(no),
    }
}

impl RecoveryLook {
    /// The promoted server if the turn ends the job.
    pub fn promoted(&self) -> Option<ServerNo>
        ensures { (r : ARecovery) (lines : List ALine) → self.now.step ≡ JobStep.Done lines →
            result ≡ (foretold r self.now).recovery.outcome.promoted }
    {
        self.decided.promoted
    }
}

// A designated replica goes back below its master and is started.
fn going_back(
    alloc: Global,
    world: &World,
    job: &JobView<'_>,
    m: ServerNo,
    d: ServerNo,
) -> Result<Vec<Change>, Memory>
    ensures { IfOk result (λ v. map exchange_of v.items ≡ goes_back world.now job.now.seen m d) }
{
    let mut changes = Vec::with_capacity(alloc, 3)?;
    if let Some(bridge) = job.bridge(d) {
        if has_place(world, bridge.source, bridge.exec) {
            let spot = Spot::OwnEnd(bridge.own);
            changes.push(Change::Attach(d, spot, bridge.source, bridge.exec))?;
        }
    }
    changes.push(Change::Ask(d, Ask::Start))?;
    changes.push(Change::Ask(m, Ask::SetReadOnly(false)))?;
    Ok(changes)
}

// The way back of a takeover of this master.
fn way_back(
    alloc: Global,
    world: &World,
    job: &JobView<'_>,
    master: ServerNo,
    back: Back,
) -> Result<Vec<Change>, Memory>
    ensures { IfOk result (λ v. map exchange_of v.items
        ≡ back_by world.now job.now.seen master (back_told back)) }
{
    match back {
        Back::Nowhere => Ok(Vec::new(alloc)),
        Back::Writes => only(alloc, Change::Ask(master, Ask::SetReadOnly(false))),
        Back::Whole(m, d) => going_back(alloc, world, job, m, d),
    }
}

// Why what is seen ends a recovery of this failed server.
fn barred_by(job: &JobView<'_>, act: &Act, bar: Bar, failed: ServerNo) -> Option<Cause>
    ensures { result ≡ bar_by (bar_told bar) failed (job_after job.now act.now).seen }
{
    match bar {
        Bar::Never => None,
        Bar::Reached => Some(Cause::Reachable(failed)),
        Bar::Sourced(m) => {
            let source = seen_after(job, act, m)?.source;
            match source {
                SourceState::Without => None,
                SourceState::Attached(_) | SourceState::Detached(_) => {
                    Some(Cause::Moved(m, source))
                }
            }
        }
    }
}

impl Decided {
    // The way back of one that fails.
    fn undone(&self, alloc: Global, of: &RecoveryJob, world: &World) -> Result<Vec<Change>, Memory>
        ensures { IfOk result (λ v. map exchange_of v.items ≡ undone world.now of.now.purpose
            (decided_on of.now self.now).core.seen of.now.failed
            (decided_on of.now self.now).stage) }
    {
        match of.purpose {
            Purpose::Regroup | Purpose::Master | Purpose::Intermediate(_) => Ok(Vec::new(alloc)),
            Purpose::Takeover(_) => {
                let back = info_of(self.stage(of)).back;
                way_back(alloc, world, &self.job(of), of.failed, back)
            }
        }
    }

    // What it does if it fails: it goes its way back, and starts each server that it stopped and hasn't started.
    fn last_changes(
        &self,
        alloc: Global,
        of: &RecoveryJob,
        world: &World,
    ) -> Result<Vec<Change>, Memory>
        ensures { IfOk result (λ v. map exchange_of v.items
            ≡ last_exchanges world.now (decided_on of.now self.now)) }
    {
        let back = self.undone(alloc, of, world)?;
        then_starts(alloc, back, self.job(of).hands)
    }

    // It fails.
    fn fail(
        self,
        alloc: Global,
        of: &RecoveryJob,
        world: &World,
        cause: Cause,
        observation: Option<Observation>,
    ) -> Result<BoxedLook, Memory>
        ensures turn { IfOk result (λ l. foretold of.now l
            ≡ fails world.now (decided_on of.now self) cause observation) }
        ensures spare { IfOk result IsSpare }
        ensures ends { IfOk result (λ l. CanEnd (decided_on of.now l.decided) l.then) }
    {
        let changes = self.last_changes(alloc, of, world)?;
        let look = RecoveryLook {
            step: JobStep::Failed(cause, Lines::new(Vec::new(alloc))),
            observation,
            doing: Doing::Each(changes),
            decided: self,
            then: None,
        };
        BoxedLook::new(alloc, look)
    }

    // The last lines, if they may be needed once the stage is another.
    fn last_lines(&self, alloc: Global, of: &RecoveryJob) -> Result<Option<LastLines>, Memory>
        ensures { IfOk result (λ o. (n : Number) → moved (decided_on of.now self.now).stage
            ≡ Stage.Opened n → IsTold (decided_on of.now self.now) o) }
    {
        let Info { next, .. } = info_of(self.stage(of));
        if let Stage::Opened(_) = next {
            let stage = self.result_lines(alloc, of)?;
            let told = stage.copy_each(alloc)?;
            return Ok(Some(LastLines { stage, told }));
        }
        Ok(None)
    }

    // Its job goes on.
    fn go_on(
        self,
        alloc: Global,
        of: &RecoveryJob,
        world: &World,
        ending: bool,
        observation: Option<Observation>,
        act: Act,
    ) -> Result<BoxedLook, Memory>
        requires follow { CanFollow (decided_on of.now self).core act }
        requires spare { takes_memory act ≡ true → observation ≡ None }
        ensures turn { IfOk result (λ l. foretold of.now l ≡ going_by world.now
            (decided_on of.now self) ending observation
            (made_by (decided_on of.now self).core act)
            (job_after (decided_on of.now self).core act)) }
        ensures spare { IfOk result IsSpare }
        ensures ends { IfOk result (λ l. CanEnd (decided_on of.now l.decided) l.then) }
    {
        let bar = info_of(self.stage(of)).bar;
        if let Some(cause) = barred_by(&self.job(of), &act, bar, of.failed) {
            return self.fail(alloc, of, world, cause, observation);
        }
        let doing = doing_of(alloc, &self.job(of), &act)?;
        let lines = self.last_lines(alloc, of)?;
        let look = RecoveryLook {
            step: JobStep::Going,
            observation,
            doing,
            decided: self,
            then: Some(Then::Follow(act, ending, room(alloc)?, lines)),
        };
        BoxedLook::new(alloc, look)
    }

    // An operation fails.
    fn meet(
        self,
        alloc: Global,
        of: &RecoveryJob,
        world: &World,
        cause: Cause,
        observation: Option<Observation>,
    ) -> Result<BoxedLook, Memory>
        ensures turn { IfOk result (λ l. foretold of.now l ≡ met world.now
            (decided_on of.now self) cause observation (fate world.now of.now.purpose
            (decided_on of.now self).stage cause)) }
        ensures spare { IfOk result IsSpare }
        ensures ends { IfOk result (λ l. CanEnd (decided_on of.now l.decided) l.then) }
    {
        let failing = info_of(self.stage(of)).failing;
        let fate = fate_of(world, of.purpose, failing, &cause);
        match fate {
            Fate::Fails => return self.fail(alloc, of, world, cause, observation),
            Fate::Drops
            | Fate::Loses(_, _)
            | Fate::Frees(_, _)
            | Fate::Releases(_)
            | Fate::Returns(_, _) => {}
        }
        let look = RecoveryLook {
            step: JobStep::Going,
            observation,
            doing: Doing::Each(Vec::new(alloc)),
            decided: self,
            then: Some(Then::Bear(fate, room(alloc)?)),
        };
        BoxedLook::new(alloc, look)
    }

    // What it makes of its job's turn, whose operation ends the stage or doesn't.
    fn by_look(
        self,
        alloc: Global,
        of: &RecoveryJob,
        world: &World,
        ending: bool,
        look: Look,
    ) -> Result<BoxedLook, Memory>
        requires follow { CanFollow (decided_on of.now self).core look.act }
        requires spare { IsSpareJob look.step look.observation look.act }
        ensures turn { IfOk result (λ l. foretold of.now l
            ≡ looked_by world.now (decided_on of.now self) ending look) }
        ensures spare { IfOk result IsSpare }
        ensures ends { IfOk result (λ l. CanEnd (decided_on of.now l.decided) l.then) }
    {
        let Look {
            step,
            observation,
            act,
        } = look;
        match step {
            JobStep::Going => self.go_on(alloc, of, world, ending, observation, act),
            JobStep::Failed(cause, _) => self.meet(alloc, of, world, cause, observation),
            JobStep::Done(lines) => {
                let look = RecoveryLook {
                    step: JobStep::Done(lines),
                    observation: None,
                    doing: Doing::Each(Vec::new(alloc)),
                    decided: self,
                    then: None,
                };
                BoxedLook::new(alloc, look)
            }
        }
    }

    // Whether the operation that is due ends the stage: none if none is due.
    fn ending(&self, of: &RecoveryJob) -> Option<bool>
        ensures { result ≡ ending_at (decided_on of.now self.now)
            (decided_on of.now self.now).core.ops }
    {
        let job = self.job(of);
        let op = job.due()?;
        Some(ends(self.stage(of), op))
    }

    // The turn of one whose decisions are made.
    fn settle(
        self,
        alloc: Global,
        of: &RecoveryJob,
        world: &World,
        read: u64,
        moment: Moment,
    ) -> Result<BoxedLook, Memory>
        requires { IsNamedRecovery (length world.now.servers) (decided_on of.now self) }
        ensures turn { IfOk result (λ l. foretold of.now l
            ≡ settled world.now read moment (decided_on of.now self)) }
        ensures spare { IfOk result IsSpare }
        ensures ends { IfOk result (λ l. CanEnd (decided_on of.now l.decided) l.then) }
    {
        let Some(ending) = self.ending(of) else {
            return self.fail(alloc, of, world, Cause::NoCandidate, None);
        };
        let look = self.job(of).look(alloc, world, read, moment)?;
        self.by_look(alloc, of, world, ending, look)
    }
}

impl RecoveryJob {
    /// What the next turn does on this world and with this book, and observes with this read number at this moment. It
    /// changes nothing. The servers that the recovery names are there, and the book is of these servers. `Err` means
    /// out of memory.
    pub fn look(
        &self,
        alloc: Global,
        world: &World,
        book: &Book,
        read: u64,
        moment: Moment,
    ) -> Result<BoxedLook, Memory>
        requires named { IsNamedRecovery (length world.now.servers) self.now }
        requires known { length book.now.names ≡ length world.now.servers }
        ensures step { IfOk result (λ l. l.step
            ≡ (taken world.now book.now read moment self.now).step) }
        ensures observation { IfOk result (λ l. l.observation
            ≡ (taken world.now book.now read moment self.now).observation) }
        ensures turn { IfOk result (λ l. foretold self.now l
            ≡ taken world.now book.now read moment self.now) }
        ensures can { IfOk result (CanTake world.now self.now) }
    {
        let mut decided = self.undecided(alloc);
        let by = Ground {
            world,
            book,
            moment,
        };
        decided.decide(alloc, self, &by)?;
        let look = decided.settle(alloc, self, world, read, moment)?;
        if self.fits(&look.as_look().decided) {
            Ok(look)
        } else {
            Err(Memory)
        }
    }
}
