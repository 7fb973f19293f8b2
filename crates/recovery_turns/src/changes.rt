//! Single changes of a recovery, for each of which there is room.

ghost use Rattle.std.specs.Prelude.{◌≡◌, ◌<◌, ◌∷◌, ◌++◌, [], length, map, vec_capacity};
ghost use Rattle.recovery_turns.specs.Prelude.{CanFollow, ended, expelled, follows, follows_no_more, idle, job_after, loses, marked, saw_at};
ghost use Rattle.recovery_turns.specs.Prelude.{without_follower, working};
ghost use Rattle.recovery_turns.specs.RecoveriesBy.{room_for};

use crate::RecoveryJob;
use crate::operations_items::{Op, Sight};
use crate::orch_base::ServerNo;
use job_plans::Act;
use recovery_plans::{Follower, LostReplica, Stage, Stopped, Why};

// A replica follows no more.
fn let_go(followers: &mut Vec<Follower>, no: ServerNo)
    ensures items { followers.new.items ≡ without_follower followers.old.items no }
    ensures capacity { vec_capacity followers.new ≡ vec_capacity followers.old }
{
    let number = no.0;
    followers.retain(|x| !(x.no.0 == number));
}

fn mark(replica: &mut LostReplica, no: ServerNo)
    ensures { replica.new ≡ marked no replica.old }
{
    if replica.no.0 == no.0 {
        replica.detached = true;
    }
}

// This one of the lost is detached.
#[tactic(auto, using(crate::proofs::Marked::mapped_step, crate::proofs::Marked::mapped_all))]
fn mark_all(lost: &mut Vec<LostReplica>, no: ServerNo)
    ensures items { lost.new.items ≡ map (marked no) lost.old.items }
    ensures capacity { vec_capacity lost.new ≡ vec_capacity lost.old }
{
    for replica in lost.iter_mut() {
        mark(replica, no);
    }
}

impl RecoveryJob {
    // A stage begins, with its operations.
    pub(crate) fn begin_stage(&mut self, stage: Stage, ops: Vec<Op>)
        ensures { self.new ≡ working self.old stage ops.items }
    {
        self.core.ops = ops;
        self.core.done = 0;
        self.core.waited = 0;
        self.stage = stage;
    }

    // The stage is another one.
    pub(crate) fn enter(&mut self, stage: Stage)
        ensures { self.new ≡ record self.old { stage = stage } }
    {
        self.stage = stage;
    }

    pub(crate) fn idle(&mut self)
        ensures { self.new ≡ idle self.old }
    {
        self.stage = Stage::Idle;
    }

    // Its job follows what was looked up on it.
    pub(crate) fn go_on(&mut self, act: Act)
        requires can { CanFollow self.old.core act }
        requires seen { length self.old.core.seen < room_for self.old.replicas }
        requires matches { length self.old.core.matches < room_for self.old.replicas }
        requires hands { length self.old.core.hands < room_for self.old.replicas }
        ensures { self.new ≡ record self.old { core = job_after self.old.core act } }
    {
        self.core.follow(act);
    }

    // Its job ends.
    pub(crate) fn end_job(&mut self)
        ensures { self.new ≡ record self.old { core = ended self.old.core } }
    {
        self.core.end();
    }

    // This is the latest that was seen of a server.
    pub(crate) fn see(&mut self, sight: Sight)
        requires { length self.old.core.seen < room_for self.old.replicas }
        ensures { self.new ≡ record self.old
            { core = saw_at self.old.core sight.no sight.seen } }
    {
        self.core.see(sight);
    }

    // A replica is drained.
    pub(crate) fn drain(&mut self, stopped: Stopped)
        requires { length self.old.drained < room_for self.old.replicas }
        ensures { self.new ≡ record self.old { drained = self.old.drained ++ stopped ∷ [] } }
    {
        self.drained.push_reserved(stopped);
    }

    // A replica is left.
    pub(crate) fn lose(&mut self, no: ServerNo, why: Why)
        requires { length self.old.outcome.lost < room_for self.old.replicas }
        ensures { self.new ≡ loses self.old no why }
    {
        let replica = LostReplica {
            no,
            why,
            detached: false,
        };
        self.outcome.lost.push_reserved(replica);
    }

    // A replica is below a source.
    pub(crate) fn follow(&mut self, no: ServerNo, source: ServerNo)
        requires { length self.old.outcome.followers < room_for self.old.replicas }
        ensures { self.new ≡ follows self.old no source }
    {
        self.outcome
            .followers
            .push_reserved(Follower { no, source });
    }

    // A replica has lost its source.
    pub(crate) fn follow_no_more(&mut self, no: Option<ServerNo>)
        ensures { self.new ≡ follows_no_more self.old no }
    {
        match no {
            None => {}
            Some(no) => let_go(&mut self.outcome.followers, no),
        }
    }

    // A lost one is detached.
    pub(crate) fn mark(&mut self, no: ServerNo)
        ensures { self.new ≡ expelled self.old no }
    {
        mark_all(&mut self.outcome.lost, no);
    }
}
