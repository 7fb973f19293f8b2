//! The turns of several orchestrators over the same kept rows.

ghost use Rattle.std.specs.Prelude.{◌≡◌, ⊤, IfOk, true, length};
ghost use Rattle.orch_core.specs.Prelude.{AreReply, IsAct, IsNode, is_plain};
ghost use Rattle.orch_core.specs.Runs.{engine};
ghost use Rattle.orch_core.specs.Keeping.{Takes, claimless};
ghost use Rattle.orch_core.specs.Nodes.{claimed};

use crate::claiming::{claim_reply, held_changes, passes_to, release_changes, release_reply};
use crate::instance_keeper_items::Keeper;
use crate::orch_base::Moment;
use crate::{Act, Engine, Reply, Turn, TurnFault};
use knowledge::{Replies, keep_some, plain};
use node_claims::ClaimAnswer;
use std::alloc::Global;

impl Engine {
    /// What one of several orchestrators does, if it remembers that it is active; else it forgets its claim.
    pub(crate) fn act_as<K: Keeper>(
        &mut self,
        alloc: Global,
        keeper: &mut K,
        node: u32,
        act: &Act,
        written: bool,
    ) -> Result<Replies, TurnFault>
        requires node { IsNode self.old.claims node }
        requires act { IsAct (length self.old.world.servers) act.now }
        ensures { Takes engine (λ s. s) K.kept K.faults keeper.old keeper.new
            self.old (Turn.As node act.now) self.new (AreReply written) result }
    {
        if !self.claims.may_act(node, self.moment) {
            return Ok(plain(Reply::Lapsed, written));
        }
        self.act(alloc, keeper, act, written)
    }

    /// The node's claim is kept first, and if it passes from another one orchestrator starts again, by the same call.
    pub(crate) fn claim<K: Keeper>(
        &mut self,
        alloc: Global,
        keeper: &mut K,
        node: u32,
    ) -> Result<Reply, TurnFault>
        requires { IsNode self.old.claims node }
        ensures plain { IfOk result (λ r. is_plain r ≡ true) }
        ensures takes { Takes engine (λ s. s) K.kept K.faults keeper.old keeper.new
            self.old (Turn.Claim node) self.new (λ r said. said ≡ r) result }
    {
        let now = self.moment;
        let answer = self.claims.answer(node, now);
        let ClaimAnswer::Held(until) = answer else {
            return Ok(claim_reply(answer));
        };
        self.keep_claim(alloc, keeper, node, until)?;
        self.claims.claim(node, now);
        self.last_holder = Some(node);
        Ok(claim_reply(answer))
    }

    // Keeps a claim that the node holds until this moment, and starts again if it passes from another one.
    fn keep_claim<K: Keeper>(
        &mut self,
        alloc: Global,
        keeper: &mut K,
        node: u32,
        until: Moment,
    ) -> Result<(), TurnFault>
        requires { claimed self.old node ≡ ClaimAnswer.Held until }
        ensures takes { Takes claimless (λ s. s) K.kept K.faults keeper.old keeper.new
            self.old (Turn.Claim node) self.new (λ r said. ⊤) result }
        ensures claims { self.new.claims ≡ self.old.claims }
        ensures holder { self.new.last_holder ≡ self.old.last_holder }
    {
        let changes = held_changes(alloc, self.claims.kept(), node, until)?;
        if passes_to(self.last_holder, node) {
            return self.start_again(alloc, keeper, changes);
        }
        keep_some(alloc, keeper, self.knowledge.book.names(), &changes)
    }

    /// The node's claim is given back: its row is removed first.
    pub(crate) fn release<K: Keeper>(
        &mut self,
        alloc: Global,
        keeper: &mut K,
        node: u32,
    ) -> Result<Reply, TurnFault>
        requires { IsNode self.old.claims node }
        ensures plain { IfOk result (λ r. is_plain r ≡ true) }
        ensures takes { Takes engine (λ s. s) K.kept K.faults keeper.old keeper.new
            self.old (Turn.Release node) self.new (λ r said. said ≡ r) result }
    {
        let changes = release_changes(alloc, self.claims.kept(), node)?;
        keep_some(alloc, keeper, self.knowledge.book.names(), &changes)?;
        Ok(release_reply(self.claims.release(node, self.moment)))
    }
}
