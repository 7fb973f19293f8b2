//! The claim that is kept, and what each node remembers of its own (orchestrator's documentation, "Orchestrator high
//! availability": of several nodes over one database one is active).

use crate::Memory;
use orch_base::Moment;
use std::alloc::Global;
use std::marker::Model;

/// How long a claim lasts, in seconds.
const CLAIM_SECONDS: u64 = 60;

/// What a node is answered that claims to be the active one.
#[derive(Clone, Copy, Debug, PartialEq, Eq)]
pub enum ClaimAnswer {
    /// Another node's claim lasts.
    Taken {
        /// That node, counted from 1.
        node: u32,
        /// The first moment at which its claim no longer lasts.
        until: Moment,
    },
    /// The claim is the node's, up to this moment, at which it no longer lasts.
    Held(Moment),
}

/// What a node is answered that gives its claim back.
#[derive(Clone, Copy, Debug, PartialEq, Eq)]
pub enum ReleaseAnswer {
    /// The kept claim isn't its own.
    NotHeld,
    /// No claim is kept any more.
    Released,
}

/// The kept claim, and until when each node remembers that it is active. A node is active as long as it remembers a
/// moment that hasn't come. It remembers by itself, so it may act without a look at the kept claim.
pub struct Claims {
    kept: Option<(u32, Moment)>,
    remembered: Vec<Option<Moment>>,
}

impl Drop for Claims {
    fn drop(self) {
        let Claims {
            kept: _kept,
            remembered: _remembered,
        } = self;
    }
}

impl Model for Claims {
    ghost use Rattle.node_claims.specs.Claims.{ClaimState};

    ghost Value = { ClaimState };

    ghost view = { λ c. record { kept = c.kept; remembered = c.remembered.items } };
}

impl Claims {
    ghost use Rattle.std.specs.Prelude.{◌≡◌, ◌==◌, ◌≤◌, ◌^◌, IfOk, IsTrue, length};
    ghost use Rattle.node_claims.specs.Claims.{active, after_act, after_claim, after_release, claim_answer, made, may_act, release_answer, remembered_by, IsNode};

    /// So many nodes, 1 to 16, of which none remembers anything, and the claim that is kept. `Err` means out of memory.
    pub fn make(alloc: Global, nodes: u32, kept: Option<(u32, Moment)>) -> Result<Claims, Memory>
        requires some { 1 ≤ nodes }
        requires few { nodes ≤ 16 }
        ensures { IfOk result (λ c. c ≡ made nodes kept) }
    {
        Ok(Claims {
            kept,
            remembered: vec![in alloc; None; nodes as usize]?,
        })
    }

    // Until when a node remembers that it is active.
    fn remembered_by(&self, node: u32) -> Option<Moment>
        ensures { result ≡ remembered_by self.now node }
    {
        let place = node.checked_sub(1)?;
        *self.remembered.get(place as usize)?
    }

    /// What the node, counted from 1, would be answered that claims to be the active one. Nothing changes. Moments are
    /// at most 2^63. It takes no memory.
    pub fn answer(&self, node: u32, now: Moment) -> ClaimAnswer
        requires early { now.0 ≤ 2 ^ 63 }
        ensures answer { result ≡ claim_answer self.now node now.0 }
    {
        if let Some((other, until)) = self.kept {
            if other != node && now < until {
                return ClaimAnswer::Taken { node: other, until };
            }
        }
        ClaimAnswer::Held(Moment(now.0 + CLAIM_SECONDS))
    }

    /// Claims that the node, counted from 1, is the active one: `Taken` exactly if the kept claim is another node's and
    /// lasts. Nothing has changed then. Else `Held`: the claim of 60 seconds from now on is kept and remembered, and
    /// what other nodes remember stays. Moments are at most 2^63. It takes no memory.
    pub fn claim(&mut self, node: u32, now: Moment) -> ClaimAnswer
        requires node { IsNode self.old node }
        requires early { now.0 ≤ 2 ^ 63 }
        ensures answer { result ≡ claim_answer self.old node now.0 }
        ensures after { self.new ≡ after_claim self.old node now.0 }
    {
        let answer = self.answer(node, now);
        if let ClaimAnswer::Held(until) = answer {
            self.kept = Some((node, until));
            self.remembered[(node - 1) as usize] = Some(until);
        }
        answer
    }

    /// Gives the node's claim back: `NotHeld` exactly if the kept claim isn't its own. Nothing has changed then. Else
    /// no claim is kept, and the node remembers nothing. It takes no memory.
    pub fn release(&mut self, node: u32, _now: Moment) -> ReleaseAnswer
        requires { IsNode self.old node }
        ensures answer { result ≡ release_answer self.old node }
        ensures after { self.new ≡ after_release self.old node }
    {
        match self.kept {
            Some((other, _)) if other == node => {
                self.kept = None;
                self.remembered[(node - 1) as usize] = None;
                ReleaseAnswer::Released
            }
            Some(_) | None => ReleaseAnswer::NotHeld,
        }
    }

    /// Whether the node may act: exactly if it remembers a moment that hasn't come; else it remembers nothing from now
    /// on. It doesn't look at the kept claim, and takes no memory.
    pub fn may_act(&mut self, node: u32, now: Moment) -> bool
        requires { IsNode self.old node }
        ensures answer { result ≡ may_act self.old node now.0 }
        ensures after { self.new ≡ after_act self.old node now.0 }
    {
        let lasts = self.remembered_by(node).is_some_and(|until| now < until);
        if !lasts {
            self.remembered[(node - 1) as usize] = None;
        }
        lasts
    }

    /// Whether there is one node alone. It takes no memory.
    pub fn is_alone(&self) -> bool
        ensures { result ≡ (length self.now.remembered == 1) }
    {
        self.remembered.len() == 1
    }

    /// The kept claim: its node, counted from 1, and the first moment at which it no longer lasts. It takes no memory.
    pub fn kept(&self) -> Option<(u32, Moment)>
        ensures { result ≡ self.now.kept }
    {
        self.kept
    }

    /// The active node: the one whose claim is kept, if it remembers a moment that hasn't come. It takes no memory.
    pub fn active(&self, now: Moment) -> Option<u32>
        ensures { result ≡ active self.now now.0 }
    {
        let (node, _) = self.kept?;
        if self.remembered_by(node).is_some_and(|until| now < until) {
            Some(node)
        } else {
            None
        }
    }
}
