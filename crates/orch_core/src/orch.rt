//! A run with the journal of its turns.

ghost use Rattle.std.specs.Prelude.{◌≡◌, ◌<◌, ◌≤◌, ◌^◌, [], All, IfOk, IfErr, OnOk, is_ok, length, map};
ghost use Rattle.orch_core.specs.Prelude.{AreReadWithin, HasTurnCause, IsScenario, IsTurn, NamesOneOf, Rise, active, by_name, is_open, without_job};
ghost use Rattle.orch_core.specs.Due.{IsDue};
ghost use Rattle.orch_core.specs.Rounds.{Finished, WasCutShort};
ghost use Rattle.orch_core.specs.States.{IsState, nodes_of};
ghost use Rattle.orch_core.specs.Runs.{recorder};
ghost use Rattle.orch_core.specs.Keeping.{Ran, Takes, WasCutOff};
ghost use Rattle.orch_core.specs.Starts.{StartsBy, kept_at_start};

use crate::audit_log::Audit;
use crate::instance_keeper_items::{Book, Keeper};
use crate::orch_base::{Copied, Moment, ServerNo};
use crate::polls::{first_least, make_polls, note_poll};
use crate::server_model::World;
use crate::unended_jobs_items::{Unended, round_over};
use crate::{Engine, Reply, Scenario, Turn, TurnFault};
use std::alloc::Global;
use std::marker::Model;

/// The servers of a scenario after some turns, the moment, what orchestrator knows, and the journal: each turn so far
/// with its reply, in order.
pub struct Orch {
    engine: Engine,
    journal: Vec<(Turn, Reply)>,
    // for each server the place in the journal, from 1, of its last poll-read turn, or 0
    polls: Vec<u64>,
}

impl Drop for Orch {
    fn drop(self) {
        let Orch {
            engine: _engine,
            journal: _journal,
            polls: _polls,
        } = self;
    }
}

impl Model for Orch {
    ghost use Rattle.orch_core.specs.Runs.{Recorded};

    ghost Value = { Recorded };

    ghost use Rattle.orch_core.specs.OrchBy.{recorded_of, KeepsPolls};

    ghost view = { recorded_of };

    ghost invariant = { KeepsPolls };
}

impl Orch {
    /// The opening state of a scenario, by the rows that the row store hands back, as `Engine::make`'s, and an empty
    /// journal. `Keeper` comes only if the row store's count of faults rose. After it, and after `Memory`, the kept
    /// rows are as before.
    pub fn make<K: Keeper>(
        alloc: Global,
        s: &Scenario,
        keeper: &mut K,
        wait: u32,
    ) -> Result<Orch, TurnFault>
        requires { IsScenario s.now }
        ensures ok { IfOk result (λ o. StartsBy (K.kept keeper.old) s.now wait o.state) }
        ensures journal { IfOk result (λ o. o.journal ≡ []) }
        ensures kept { K.kept keeper.new ≡ kept_at_start (is_ok result) (K.kept keeper.old) s.now }
        ensures cause { HasTurnCause (K.faults keeper.old) (K.faults keeper.new) result }
        ensures servers { IfOk result
            (λ o. length o.state.world.servers ≡ length s.now.opening.servers) }
        ensures nodes { IfOk result (λ o. nodes_of o.state ≡ s.now.nodes) }
        ensures reads { IfOk result (λ o. AreReadWithin o.state.reads o.state.book) }
    {
        let polls = make_polls(alloc, s.opening.servers().len())?;
        let engine = Engine::make(alloc, s, keeper, wait)?;
        Ok(Orch {
            engine,
            journal: Vec::new(alloc),
            polls,
        })
    }

    /// One turn, which joins the journal with its reply. What it changes of the kept rows is kept first, and a refused
    /// command changes nothing. `Keeper` comes only if the row store's count of faults rose, at a turn that calls the
    /// row store. After it, and after `Memory`, nothing has changed. The row store is called only if orchestrator
    /// starts again or a kept row changes.
    pub fn turn<K: Keeper>(
        &mut self,
        alloc: Global,
        keeper: &mut K,
        t: Turn,
    ) -> Result<Reply, TurnFault>
        requires turn { IsTurn (length self.old.state.world.servers) t }
        requires named { NamesOneOf (nodes_of self.old.state) t }
        ensures { Takes recorder (λ r. r.state) K.kept K.faults keeper.old keeper.new
            self.old t self.new (λ r said. said ≡ r) result }
    {
        self.journal.reserve(1)?;
        let replies = self.engine.replies(alloc, keeper, &t, true)?;
        let written = replies.written.unwrap();
        note_poll(&mut self.polls, self.journal.len() as u64 + 1, &t);
        self.journal.push_reserved((t, written));
        Ok(replies.told)
    }

    /// All of the turns, in order, to the first fault. After it the turns before the one that gave up are done, and
    /// nothing of that one or of those after it.
    pub fn run<K: Keeper>(
        &mut self,
        alloc: Global,
        keeper: &mut K,
        turns: &[Turn],
    ) -> Result<(), TurnFault>
        requires turns { All (IsTurn (length self.old.state.world.servers)) turns.now }
        requires named { All (NamesOneOf (nodes_of self.old.state)) turns.now }
        ensures ok { OnOk result (Ran recorder (K.kept keeper.old) self.old turns.now
            (K.kept keeper.new) self.new) }
        ensures err { IfErr result (λ e.
            WasCutOff recorder (K.kept keeper.old) self.old turns.now
            (K.kept keeper.new) self.new e) }
        ensures cause { HasTurnCause (K.faults keeper.old) (K.faults keeper.new) result }
        ensures servers { length self.new.state.world.servers ≡ length
            self.old.state.world.servers }
        ensures nodes { nodes_of self.new.state ≡ nodes_of self.old.state }
    {
        for t in turns {
            self.turn(alloc, keeper, t.copy(alloc)?)?;
        }
        Ok(())
    }

    /// Rounds until the job has ended, as `Engine::finish`'s. Each of their turns joins the journal with its reply. The
    /// other jobs stay as they are. `Keeper` and `Memory` as `run`'s.
    pub fn finish<K: Keeper>(
        &mut self,
        alloc: Global,
        keeper: &mut K,
        job: u64,
    ) -> Result<(), TurnFault>
        ensures ok { OnOk result (Finished recorder (λ r. r.state) (K.kept keeper.old) self.old job
            (K.kept keeper.new) self.new) }
        ensures others { OnOk result
            (self.new.state.jobs ≡ without_job self.old.state.jobs job) }
        ensures err { IfErr result (λ e.
            WasCutShort recorder (λ r. r.state) (K.kept keeper.old) self.old job
            (K.kept keeper.new) self.new e) }
        ensures cause { HasTurnCause (K.faults keeper.old) (K.faults keeper.new) result }
        ensures servers { length self.new.state.world.servers ≡ length
            self.old.state.world.servers }
        ensures nodes { nodes_of self.new.state ≡ nodes_of self.old.state }
    {
        if !self.is_open(job) {
            return Ok(());
        }
        // shows the proof what holds of the state
        self.shows_state();
        let Ok(turns) = round_over(alloc, self.engine.book().order(), job) else {
            return Err(TurnFault::Memory);
        };
        'rounds: while self.is_open(job) {
            self.shows_state();
            if let Err(fault) = self.run(alloc, keeper, &turns) {
                return Err(fault);
            }
        }
        Ok(())
    }

    fn shows_state(&self)
        ensures { IsState self.now.state }
    {
        self.engine.shows_state();
    }

    /// Whether there is an unended job of this number.
    pub fn is_open(&self, job: u64) -> bool
        ensures { result ≡ is_open self.now.state.jobs job }
    {
        self.engine.is_open(job)
    }

    /// The unended jobs, by rising number.
    pub fn open_jobs(&self) -> &[Unended]
        ensures jobs { result.now ≡ self.now.state.jobs }
        ensures rising { Rise 0 result.now self.now.state.last_job }
    {
        self.engine.open_jobs()
    }

    /// Each turn so far with its reply, in order.
    pub fn journal(&self) -> &[(Turn, Reply)]
        ensures { result.now ≡ self.now.journal }
    {
        &self.journal
    }

    /// The state and the journal, separately. It takes no memory.
    pub fn into_parts(self) -> (Engine, Vec<(Turn, Reply)>)
        ensures state { result.0 ≡ self.state }
        ensures journal { result.1.items ≡ self.journal }
    {
        let Orch {
            engine,
            journal,
            polls: _polls,
        } = self;
        (engine, journal)
    }

    /// The servers' numbers in name order, of which there is at least one.
    pub fn order(&self) -> &[ServerNo]
        ensures order { result.now ≡ by_name self.now.state.book.names }
        ensures within { All (λ n. n.0 < length self.now.state.world.servers) result.now }
        ensures some { 0 < length result.now }
    {
        // shows the proof what holds of the state
        self.shows_state();
        self.engine.book().order()
    }

    /// The server with the least number among those that had no poll-read turn yet. If each had one, the server whose
    /// last poll-read turn is the earliest. It takes no memory.
    pub fn due(&self) -> ServerNo
        ensures { IsDue (length self.now.state.world.servers)
            (map (λ e. e.0) self.now.journal) result.0 }
    {
        ServerNo(first_least(&self.polls) as u32)
    }

    /// The moment that it is now: at most 2^63.
    pub fn now(&self) -> Moment
        ensures value { result.0 ≡ self.now.state.moment }
        ensures within { result.0 ≤ 2 ^ 63 }
    {
        self.engine.now()
    }

    /// The active one of several orchestrators: who remembers that its claim lasts. There is no other.
    pub fn active(&self) -> Option<u32>
        ensures { result ≡ active self.now.state.claims self.now.state.moment }
    {
        self.engine.claims().active(self.engine.now())
    }

    /// The servers as they are now.
    pub fn world(&self) -> &World
        ensures { result.now ≡ self.now.state.world }
    {
        self.engine.world()
    }

    /// What orchestrator knows now.
    pub fn book(&self) -> &Book
        ensures { result.now ≡ self.now.state.book }
    {
        self.engine.book()
    }

    /// The recoveries that were begun, each at 2^63 at the latest.
    pub fn audit(&self) -> &Audit
        ensures audit { result.now.audit ≡ self.now.state.audit }
        ensures begun { All (λ r. r.begun.0 ≤ 2 ^ 63) result.now.audit.recoveries }
    {
        self.engine.audit()
    }
}
