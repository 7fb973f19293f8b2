//! A stage that is done, or whose operation failed.

ghost use Rattle.std.specs.Prelude.{◌≡◌, ◌≤◌, vec_capacity};
ghost use Rattle.recovery_turns.specs.Prelude.{ServerNo as Number, borne, closing, completed, fate_told, follows, frees, gathered, halted, idle};
ghost use Rattle.recovery_turns.specs.Prelude.{is_below, last_looks, lead_under, looked, made_of, made_told, moved, moving, seen_of, swapped};
ghost use Rattle.recovery_turns.specs.Deciding.{seen_by};
ghost use Rattle.recovery_turns.specs.RecoveriesBy.{IsRoomy};
ghost use Rattle.recovery_turns.specs.Steps.{IsTold, progressed_by, stepped_by};

use crate::RecoveryJob;
use crate::commands::{Lines, Lost};
use crate::instance_keeper_items::Bridge;
use crate::operations_items::{Crossing, Op, Position};
use crate::orch_base::{ServerNo, SourceState};
use recovery_parts::{
    Fate, Info, Made, info_of, moving, one, shut, sight_of, spot_seen, three, trail, two,
};
use recovery_plans::{Purpose, Stage, Stopped, Way, Why};
use std::alloc::Global;

/// The lines of a recovery that is done, twice: for its stage and its last operation.
#[derive(Drop)]
pub(crate) struct LastLines {
    pub(crate) stage: Lines,
    pub(crate) told: Lines,
}

// Whether a server was seen with this source.
fn is_below(seen: &Position, failed: ServerNo) -> bool
    ensures { result ≡ is_below seen.now failed }
{
    match seen.source {
        SourceState::Without => false,
        SourceState::Attached(no) | SourceState::Detached(no) => no.0 == failed.0,
    }
}

// What was seen of a designated replica, if it is below the master.
fn lead_under(master: ServerNo, bridge: Option<Bridge>) -> Option<Bridge>
    ensures { result ≡ lead_under master bridge }
{
    let bridge = bridge?;
    (bridge.source.0 == master.0).then_some(bridge)
}

impl RecoveryJob {
    // A replica that was stopped is drained if its source is the failed server, and is lost else.
    fn judge(&mut self, no: ServerNo)
        requires { IsRoomy 1 self.old }
        ensures { self.new ≡ completed self.old (Stage.Judged no) }
    {
        let Some(seen) = self.sight(no) else {
            self.lose(no, Why::Lost(Lost::Unreachable));
            return self.idle();
        };
        let (exec, own_end, source) = (seen.exec, seen.own_end, seen.source);
        if is_below(seen, self.failed) {
            self.drain(Stopped { no, exec, own_end });
        } else {
            self.lose(no, Why::Lost(Lost::Moved(spot_seen(source, exec))));
        }
        self.idle();
    }

    // A replica is below its source.
    fn join(&mut self, no: ServerNo, source: ServerNo)
        requires { IsRoomy 1 self.old }
        ensures { self.new ≡ idle (follows self.old no source) }
    {
        self.follow(no, source);
        self.idle();
    }

    // A lost one is detached.
    fn expel(&mut self, no: ServerNo)
        ensures { self.new ≡ completed self.old (Stage.Expelled no) }
    {
        self.mark(no);
        self.idle();
    }

    // The better one takes the promoted one's place.
    fn swap_places(&mut self, p: ServerNo, q: ServerNo)
        requires { IsRoomy 1 self.old }
        ensures { self.new ≡ swapped self.old p q }
    {
        self.follow(p, q);
        self.outcome.promoted = Some(q);
    }

    // Keeps the position at which the designated replica stopped.
    fn gather(&mut self, d: ServerNo)
        ensures { self.new ≡ idle (gathered self.old d) }
    {
        self.lead = lead_under(self.failed, self.job().bridge(d));
        self.idle();
    }

    // What was seen of a bridge's server is what was seen when the bridge was taken.
    fn see_bridge(&mut self, alloc: Global, bridge: Bridge)
        requires { IsRoomy 1 self.old }
        ensures { self.new ≡ seen_by self.old bridge }
    {
        self.see(sight_of(alloc, bridge));
    }

    // A replica goes below the server of a bridge.
    fn go_down(&mut self, alloc: Global, no: ServerNo, bridge: Bridge, ops: Vec<Op>)
        requires room { IsRoomy 1 self.old }
        requires ops { 8 ≤ vec_capacity ops }
        ensures { self.new ≡ moving self.old no (Way.Down bridge) }
    {
        self.see_bridge(alloc, bridge);
        let way = Way::Down(bridge);
        self.begin_stage(Stage::Move(no, way), moving(ops, no, way));
    }

    // A lost one is started at once.
    fn free(&mut self, no: ServerNo, why: Why, ops: Vec<Op>)
        requires room { IsRoomy 1 self.old }
        requires ops { 8 ≤ vec_capacity ops }
        ensures { self.new ≡ frees self.old no why }
    {
        self.lose(no, why);
        self.begin_stage(Stage::Release(no), one(ops, Op::Start(no)));
    }

    // A replica of the master goes to the position at which the designated one stopped. One that is elsewhere is lost.
    fn pass_look(&mut self, alloc: Global, no: ServerNo, lead: Bridge, ops: Vec<Op>)
        requires room { IsRoomy 1 self.old }
        requires ops { 8 ≤ vec_capacity ops }
        ensures { self.new ≡ looked self.old no lead (seen_of self.old.core.seen no.0) }
    {
        let Some(seen) = self.sight(no) else {
            self.lose(no, Why::Lost(Lost::Unreachable));
            return self.idle();
        };
        let spot = spot_seen(seen.source, seen.exec);
        if is_below(seen, self.failed) {
            self.see_bridge(alloc, lead);
            self.begin_stage(Stage::Trail(no, lead), trail(ops, no, lead.no));
        } else {
            self.lose(no, Why::Lost(Lost::Moved(spot)));
            self.idle();
        }
    }

    // A replica at the position of the designated one goes below it. Another is lost as `behind`.
    fn halt(&mut self, alloc: Global, no: ServerNo, lead: Bridge, ops: Vec<Op>)
        requires room { IsRoomy 1 self.old }
        requires ops { 8 ≤ vec_capacity ops }
        ensures { self.new ≡ halted self.old no lead (seen_of self.old.core.seen no.0) }
    {
        let Some(seen) = self.sight(no) else {
            return self.free(no, Why::Lost(Lost::Unreachable), ops);
        };
        let exec = seen.exec;
        if exec == lead.exec {
            self.go_down(alloc, no, lead, ops);
        } else {
            self.free(no, Why::Lost(Lost::Behind(exec)), ops);
        }
    }

    // The new source takes writes: nothing more is changed, and the lines are given after the last readings.
    fn pass_open(&mut self, no: ServerNo, ops: Vec<Op>, lines: Option<LastLines>)
        requires ops { 8 ≤ vec_capacity ops }
        requires told { IsTold self.old lines }
        ensures { self.new ≡ closing self.old (last_looks self.old self.old.purpose no) }
    {
        let Some(LastLines { stage, told }) = lines else {
            unreachable!();
        };
        let last = Op::Finish(told);
        let ops = match self.purpose {
            Purpose::Regroup | Purpose::Master | Purpose::Intermediate(_) => {
                two(ops, Op::Status(no, None), last)
            }
            Purpose::Takeover(_) => {
                three(
                    ops,
                    Op::Status(self.failed, None),
                    Op::Status(no, None),
                    last,
                )
            }
        };
        self.begin_stage(Stage::Close(stage), ops);
    }

    // The better one, which has the promoted one's place, takes writes.
    fn pass_swap(&mut self, p: ServerNo, q: ServerNo, ops: Vec<Op>)
        requires room { IsRoomy 1 self.old }
        requires ops { 8 ≤ vec_capacity ops }
        ensures { self.new ≡ completed self.old (Stage.Swapped p q) }
    {
        self.swap_places(p, q);
        self.begin_stage(
            Stage::Open(q),
            two(ops, Op::Start(p), Op::ReadOnly(q, false)),
        );
    }

    // The designated replica, below which its master is, takes writes.
    fn pass_switch(&mut self, m: ServerNo, d: ServerNo, ops: Vec<Op>)
        requires room { IsRoomy 1 self.old }
        requires ops { 8 ≤ vec_capacity ops }
        ensures { self.new ≡ completed self.old (Stage.Switched m d) }
    {
        self.follow(m, d);
        self.begin_stage(Stage::Open(d), one(ops, Op::ReadOnly(d, false)));
    }

    // What the end of a stage makes.
    fn complete(&mut self, alloc: Global, made: Made, ops: Vec<Op>, lines: Option<LastLines>)
        requires room { IsRoomy 1 self.old }
        requires ops { 8 ≤ vec_capacity ops }
        requires told { (n : Number) → made ≡ Made.Opened n → IsTold self.old lines }
        ensures { self.new ≡ made_of self.old (made_told made) }
    {
        match made {
            Made::Nothing => self.idle(),
            Made::Judged(n) => self.judge(n),
            Made::Follows(n, p) => self.join(n, p),
            Made::Marked(n) => self.expel(n),
            Made::Gathered(d) => self.gather(d),
            Made::Swapped(p, q) => self.pass_swap(p, q, ops),
            Made::Opened(n) => self.pass_open(n, ops, lines),
            Made::Met(m, d) => self.begin_stage(Stage::Shut(m, d), shut(ops, m, d)),
            Made::Looked(n, lead) => self.pass_look(alloc, n, lead, ops),
            Made::Halted(n, lead) => self.halt(alloc, n, lead, ops),
            Made::Switched(m, d) => self.pass_switch(m, d, ops),
        }
    }

    // The stage changes if its last operation is done.
    fn step(&mut self, ending: bool)
        ensures { self.new ≡ stepped_by self.old ending }
    {
        if ending {
            let Info { next, .. } = info_of(&self.stage);
            self.follow_no_more(info_of(&next).leaves);
            self.enter(next);
        }
    }

    // An operation is done, which ended its stage or not; or it is one more wait.
    pub(crate) fn progress(
        &mut self,
        alloc: Global,
        ending: bool,
        waiting: bool,
        ops: Vec<Op>,
        lines: Option<LastLines>,
    )
        requires room { IsRoomy 1 self.old }
        requires ops { 8 ≤ vec_capacity ops }
        requires told { (n : Number) → moved self.old.stage ≡ Stage.Opened n
            → IsTold self.old lines }
        ensures { self.new ≡ progressed_by self.old ending waiting }
    {
        if waiting {
            return;
        }
        self.step(ending);
        if self.core.done == self.core.ops.len() {
            let made = info_of(&self.stage).made;
            self.complete(alloc, made, ops, lines);
        }
    }

    // What becomes of it if an operation fails and it goes on.
    pub(crate) fn bear(&mut self, alloc: Global, fate: Fate, ops: Vec<Op>)
        requires room { IsRoomy 1 self.old }
        requires ops { 8 ≤ vec_capacity ops }
        ensures { self.new ≡ borne self.old (fate_told fate) }
    {
        match fate {
            Fate::Fails => {}
            Fate::Drops => self.begin_stage(Stage::Idle, Vec::new(alloc)),
            Fate::Loses(no, why) => {
                self.lose(no, why);
                self.begin_stage(Stage::Idle, Vec::new(alloc));
            }
            Fate::Frees(no, why) => self.free(no, why, ops),
            Fate::Releases(q) => self.begin_stage(Stage::Release(q), one(ops, Op::Start(q))),
            Fate::Returns(p, q) => {
                let back = Op::Cross(Crossing::Back, q, p);
                self.begin_stage(Stage::Return(p, q), two(ops, back, Op::Start(q)));
            }
        }
    }
}
