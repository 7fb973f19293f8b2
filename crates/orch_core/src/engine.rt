//! The machine of a run: the servers, the moment, and what orchestrator knows, one turn after another. It writes no
//! journal.

ghost use Rattle.std.specs.Prelude.{◌≡◌, ◌<◌, ◌≤◌, ◌^◌, ◌∷◌, All, Some, None, IfOk, IfErr, OnOk, OnErr, true, if◌then◌else◌, is_ok, length, slice_get};
ghost use Rattle.orch_core.specs.Prelude.{AreReadWithin, AreReply, HasTurnCause, IsAct, IsCommand, IsStep, IsTurn, Keeps, LeavesIds, NamesOneOf, Rise, is_open, is_plain};
ghost use Rattle.orch_core.specs.Prelude.{job_at, outcome as outcome_in, pollers};
ghost use Rattle.orch_core.specs.Polls.{numbers_of};
ghost use Rattle.orch_core.specs.Replies.{act_reply, reply_of, step_reply};
ghost use Rattle.orch_core.specs.Runs.{engine};
ghost use Rattle.orch_core.specs.Keeping.{StepsTo, Takes, kept_by, kept_with};
ghost use Rattle.orch_core.specs.Settling.{CanSettle, settled};
ghost use Rattle.orch_core.specs.States.{IsState, nodes_of};

use crate::audit_log::Audit;
use crate::claiming::{holder_of, kept_claim};
use crate::command_outcomes_items::{Numbers, Outcome, outcome_of, read_server, scan_by};
use crate::exchanging::{exchange, later, read_reply};
use crate::instance_keeper_items::{Book, Change, Keeper, Observation};
use crate::opening::{book_of, complete, configure, empty_slots, make_slots};
use crate::orch_base::{Memory, Moment, ServerNo};
use crate::server_model::World;
use crate::unended_jobs_items::{FoundJob, Unended, find, others_over, take_turn};
use crate::{Act, BoxedCommand, Configuration, Reply, Scenario, Step, Turn, TurnFault};
use knowledge::{
    Knowledge, Replies, close_entry, closing_of, copied, given_rows, keep_some, keep_turn, plain,
    store_slot,
};
use node_claims::Claims;
use opening_book::{
    GREATEST_ID, beyond_instances, counted, counted_in_order, last_id, last_read, latest_moment,
    latest_recovery, loaded_audit, loading,
};
use std::alloc::Global;
use std::marker::Model;
use world_openings::OpenedWorld;

/// The servers of a scenario after some turns, the moment, and what orchestrator knows.
pub struct Engine {
    world: World,
    pub(crate) moment: Moment,
    pub(crate) knowledge: Knowledge,
    slots: Vec<Option<Observation>>,
    reads: u64,
    configuration: Configuration,
    pub(crate) claims: Claims,
    pub(crate) last_holder: Option<u32>,
}

impl Drop for Engine {
    fn drop(self) {
        let Engine {
            world: _world,
            moment: _,
            knowledge: _knowledge,
            slots: _slots,
            reads: _,
            configuration: _configuration,
            claims: _claims,
            last_holder: _,
        } = self;
    }
}

impl Model for Engine {
    ghost use Rattle.orch_core.specs.States.{State};

    ghost Value = { State };

    ghost use Rattle.orch_core.specs.EngineBy.{state_of, IsStateInside};

    ghost view = { state_of };

    ghost invariant = { IsStateInside };
}

fn is_number(_number: u64)
    ensures { _number < 2 ^ 64 }
{}

fn is_bound(_wait: u32)
    ensures { _wait < 2 ^ 32 }
{}

impl Engine {
    ghost use Rattle.orch_core.specs.After.{after_read, after_step, after_tick};

    // A step that happens to a server.
    fn exchange(&mut self, x: Step) -> Reply
        requires { IsStep (length self.old.world.servers) x }
        ensures reply { result ≡ step_reply self.old.world x }
        ensures plain { is_plain result ≡ true }
        ensures ok { self.new ≡ after_step self.old x }
        ensures servers { length self.new.world.servers ≡ length self.old.world.servers }
        ensures nodes { nodes_of self.new ≡ nodes_of self.old }
    {
        exchange(&mut self.world, x)
    }

    // So many seconds pass.
    fn tick(&mut self, seconds: u64) -> Reply
        ensures reply { result ≡ reply_of self.old (Turn.Tick seconds) }
        ensures plain { is_plain result ≡ true }
        ensures ok { self.new ≡ after_tick self.old seconds }
    {
        self.moment = later(self.moment, seconds);
        Reply::Now(self.moment)
    }

    // Makes the sets of GTIDs that a server's statuses share. `Err` means out of memory.
    fn settle_sets(&mut self, alloc: Global, no: ServerNo) -> Result<(), Memory>
        requires { no.0 < length self.old.world.servers }
        ensures { self.new ≡ self.old }
    {
        self.world.settle(alloc, no)
    }

    // Reads a server into a poller's slot.
    fn read_slot(&mut self, alloc: Global, poller: u32, no: ServerNo) -> Result<Reply, Memory>
        requires poller { poller < pollers }
        requires server { no.0 < length self.old.world.servers }
        ensures reply { IfOk result (λ r. r ≡ act_reply self.old (Act.PollRead poller no)) }
        ensures plain { IfOk result (λ r. is_plain r ≡ true) }
        ensures ok { OnOk result (self.new ≡ after_read self.old poller no) }
        ensures err { OnErr result (self.new ≡ self.old) }
    {
        if self.knowledge.book.instance(no).is_none() {
            return Ok(Reply::Unknown);
        }
        let read = self.reads.saturating_add(1);
        let o = read_server(alloc, &self.world, no, read, self.moment)?;
        let reply = read_reply(&o);
        self.slots[poller as usize] = Some(o);
        self.reads = read;
        Ok(reply)
    }

    fn poll_read(&mut self, alloc: Global, poller: u32, no: ServerNo) -> Result<Reply, Memory>
        requires poller { poller < pollers }
        requires server { no.0 < length self.old.world.servers }
        ensures reply { IfOk result (λ r. r ≡ act_reply self.old (Act.PollRead poller no)) }
        ensures plain { IfOk result (λ r. is_plain r ≡ true) }
        ensures ok { OnOk result (self.new ≡ after_read self.old poller no) }
        ensures err { OnErr result (self.new ≡ self.old) }
    {
        self.settle_sets(alloc, no)?;
        self.read_slot(alloc, poller, no)
    }

    fn poll_store<K: Keeper>(
        &mut self,
        alloc: Global,
        keeper: &mut K,
        poller: u32,
    ) -> Result<Reply, TurnFault>
        requires { poller < pollers }
        ensures plain { IfOk result (λ r. is_plain r ≡ true) }
        ensures takes { Takes engine (λ s. s) K.kept K.faults keeper.old keeper.new
            self.old (Turn.Act (Act.PollStore poller)) self.new (λ r said. said ≡ r) result }
    {
        store_slot(
            alloc,
            keeper,
            &mut self.knowledge.book,
            &mut self.slots[poller as usize],
        )
    }

    #[inline(never)]
    fn restart<K: Keeper>(&mut self, alloc: Global, keeper: &mut K) -> Result<Reply, TurnFault>
        ensures reply { IfOk result (λ r. r ≡ act_reply self.old Act.Restart) }
        ensures plain { IfOk result (λ r. is_plain r ≡ true) }
        ensures ok { OnOk result (StepsTo engine
            (K.kept keeper.old) self.old (Turn.Act Act.Restart) self.new) }
        ensures err { OnErr result (self.new ≡ self.old) }
        ensures kept { K.kept keeper.new ≡ kept_by engine (is_ok result) (K.kept keeper.old)
            self.old (Turn.Act Act.Restart) }
        ensures cause { HasTurnCause (K.faults keeper.old) (K.faults keeper.new) result }
        ensures servers { length self.new.world.servers ≡ length self.old.world.servers }
        ensures nodes { nodes_of self.new ≡ nodes_of self.old }
    {
        self.start_again(alloc, keeper, Vec::new(alloc))?;
        Ok(Reply::Done)
    }

    /// Orchestrator starts again; these changes are kept with its own, after them.
    pub(crate) fn start_again<K: Keeper>(
        &mut self,
        alloc: Global,
        keeper: &mut K,
        mut more: Vec<Change>,
    ) -> Result<(), TurnFault>
        ensures ok { OnOk result (StepsTo engine
            (K.kept keeper.old) self.old (Turn.Act Act.Restart) self.new) }
        ensures err { OnErr result (self.new ≡ self.old) }
        ensures kept { K.kept keeper.new ≡ kept_with more.items (is_ok result)
            (K.kept keeper.old) self.old }
        ensures cause { HasTurnCause (K.faults keeper.old) (K.faults keeper.new) result }
        ensures servers { length self.new.world.servers ≡ length self.old.world.servers }
        ensures nodes { nodes_of self.new ≡ nodes_of self.old }
    {
        let next = self.knowledge.audit.next();
        let given = given_rows(alloc, keeper, self.knowledge.book.names())?;
        let rows = counted_in_order(self.knowledge.book.servers(), next - 1, given);
        let others = beyond_instances(&rows);
        let mut audit = loaded_audit(alloc, &self.configuration, others, next)?;
        let moment = latest_recovery(self.moment, audit.recoveries());
        let mut changes = loading(alloc, &self.configuration, others, &audit, moment)?;
        changes.append(&mut more)?;
        keep_some(alloc, keeper, self.knowledge.book.names(), &changes)?;
        audit.close(moment);
        self.knowledge.book.reload(rows);
        self.knowledge.audit = audit;
        self.moment = moment;
        empty_slots(&mut self.slots);
        self.knowledge.jobs.clear();
        Ok(())
    }

    fn numbers(&self) -> Numbers
        ensures { result ≡ numbers_of self.now }
    {
        Numbers {
            reads: self.reads,
            last_job: self.knowledge.last_job,
            wait: self.configuration.wait,
            every: self.configuration.every,
            moment: self.moment,
        }
    }

    // The turn of the job of a number: the rows of what it observes and of the entry that ends are kept first.
    #[inline(never)]
    fn job<K: Keeper>(
        &mut self,
        alloc: Global,
        keeper: &mut K,
        id: u64,
        written: bool,
    ) -> Result<Replies, TurnFault>
        ensures { Takes engine (λ s. s) K.kept K.faults keeper.old keeper.new
            self.old (Turn.Act (Act.Job id)) self.new (AreReply written) result }
    {
        match find(&self.knowledge.jobs, id) {
            None => Ok(plain(Reply::NoJob, written)),
            Some(at) => self.job_at(alloc, keeper, FoundJob { at, id }, written),
        }
    }

    fn job_at<K: Keeper>(
        &mut self,
        alloc: Global,
        keeper: &mut K,
        found: FoundJob,
        written: bool,
    ) -> Result<Replies, TurnFault>
        requires at { found.at < length self.old.jobs }
        requires id { job_at self.old.jobs found.id ≡ slice_get self.old.jobs found.at }
        ensures { Takes engine (λ s. s) K.kept K.faults keeper.old keeper.new
            self.old (Turn.Act (Act.Job found.id)) self.new (AreReply written) result }
    {
        let read = self.reads.saturating_add(1);
        let job = &self.knowledge.jobs[found.at];
        let look = job.look(alloc, &self.world, &self.knowledge.book, read, self.moment)?;
        let closing = closing_of(job, &look);
        let replies = keep_turn(
            alloc,
            keeper,
            &self.knowledge.book,
            &self.knowledge.audit,
            self.moment,
            &look,
            closing,
            written,
        )?;
        take_turn(
            alloc,
            &mut self.knowledge.jobs,
            &mut self.world,
            &mut self.knowledge.book,
            &mut self.reads,
            found,
            look,
        )?;
        close_entry(&mut self.knowledge.audit, self.moment, closing);
        Ok(replies)
    }

    // Does a command: what it changes of the kept rows is kept first.
    #[inline(never)]
    fn command<K: Keeper>(
        &mut self,
        alloc: Global,
        keeper: &mut K,
        t: &BoxedCommand,
        written: bool,
    ) -> Result<Replies, TurnFault>
        requires { IsCommand (length self.old.world.servers) t.now }
        ensures { Takes engine (λ s. s) K.kept K.faults keeper.old keeper.new
            self.old (Turn.Act (Act.Command t.now)) self.new (AreReply written) result }
    {
        // shows the proof what holds of the book
        let _ = self.knowledge.book.servers();
        let numbers = self.numbers();
        // shows the proof that the number is in its range
        is_bound(numbers.wait);
        let outcome = outcome_of(
            alloc,
            &self.world,
            &self.knowledge.book,
            &self.knowledge.audit,
            &self.configuration,
            numbers,
            t.as_turn(),
        )?;
        self.settle(alloc, keeper, outcome, written)
    }

    // Tries the recoveries for which the analysis asks: the entries of those that begin are kept first.
    #[inline(never)]
    fn scan<K: Keeper>(
        &mut self,
        alloc: Global,
        keeper: &mut K,
        written: bool,
    ) -> Result<Replies, TurnFault>
        ensures { Takes engine (λ s. s) K.kept K.faults keeper.old keeper.new
            self.old (Turn.Act Act.Scan) self.new (AreReply written) result }
    {
        // shows the proof what holds of the book
        let _ = self.knowledge.book.servers();
        let numbers = self.numbers();
        let outcome = scan_by(
            alloc,
            &self.world,
            &self.knowledge.book,
            &self.knowledge.audit,
            &self.configuration,
            numbers,
        )?;
        self.settle(alloc, keeper, outcome, written)
    }

    // Keeps what an outcome changes of the kept rows, and then makes of the state what it makes of it.
    fn settle<K: Keeper>(
        &mut self,
        alloc: Global,
        keeper: &mut K,
        outcome: Outcome,
        written: bool,
    ) -> Result<Replies, TurnFault>
        requires outcome { CanSettle self.old (outcome_in outcome) }
        requires ids { LeavesIds outcome.book }
        ensures reply { IfOk result (λ r. AreReply written outcome.reply r) }
        ensures ok { OnOk result (self.new ≡ settled self.old (outcome_in outcome)) }
        ensures err { OnErr result (self.new ≡ self.old) }
        ensures keeps { Keeps K.kept K.faults keeper.old keeper.new outcome.rows.items result }
    {
        let written = self
            .knowledge
            .keep_outcome(alloc, keeper, &outcome, written)?;
        self.knowledge.update(outcome.book);
        // shows the proof that the number is in its range
        is_number(self.knowledge.last_job);
        self.reads = outcome.reads;
        Ok(Replies {
            told: outcome.reply,
            written,
        })
    }
}

impl Engine {
    ghost use Rattle.orch_core.specs.Keeping.{Ran, WasCutOff};
    ghost use Rattle.orch_core.specs.Rounds.{FinishedBy, WasCutShort};
    ghost use Rattle.knowledge.specs.Scenarios.Scenarios.{IsScenario};
    ghost use Rattle.orch_core.specs.Starts.{StartsBy, kept_at_start};

    /// The opening state of a scenario, by the rows that the row store hands back.
    /// - Its servers are as they begin.
    /// - Its book has the rows that count, and the known servers of which there are none. It has the bridges of these
    ///   servers' statuses and the scenario's registrations.
    /// - Its recoveries are those of these rows, each unended one ended as interrupted.
    ///
    /// A job is to wait at most `wait` times. Each server gets room for all transactions of the listed histories and
    /// one more for each write turn. It gets room for the longest list of flush points and one more new file for each
    /// rotate turn.
    ///
    /// What there is beyond the rows is kept first. If there is nothing beyond them, only the rows are asked for.
    /// `Keeper` comes only if the row store's count of faults rose. After it, and after `Memory`, the kept rows are as
    /// before. No instance has a greater read number than the count of readings.
    pub fn make<K: Keeper>(
        alloc: Global,
        s: &Scenario,
        keeper: &mut K,
        wait: u32,
    ) -> Result<Engine, TurnFault>
        requires { IsScenario s.now }
        ensures ok { IfOk result (λ e. StartsBy (K.kept keeper.old) s.now wait e) }
        ensures kept { K.kept keeper.new ≡ kept_at_start (is_ok result) (K.kept keeper.old) s.now }
        ensures cause { HasTurnCause (K.faults keeper.old) (K.faults keeper.new) result }
        ensures reads { IfOk result (λ e. AreReadWithin e.reads e.book) }
        ensures servers { IfOk result (λ e. length e.world.servers ≡ length s.now.opening.servers) }
        ensures nodes { IfOk result (λ e. nodes_of e ≡ s.now.nodes) }
    {
        let world = World::make(alloc, &s.opening, s.room(), s.flushes())?;
        let mut book = book_of(alloc, s.opening.servers())?;
        let slots = make_slots(alloc)?;
        let configuration = configure(alloc, s, wait)?;
        let given = given_rows(alloc, keeper, book.names())?;
        let next = last_id(&given) + 1;
        let rows = counted(alloc, book.servers(), GREATEST_ID, given)?;
        let moment = latest_moment(s.moment, &rows);
        let mut audit = loaded_audit(alloc, &configuration, &rows, next)?;
        let recoveries = loading(alloc, &configuration, &rows, &audit, moment)?;
        let kept = kept_claim(&rows);
        let reads = last_read(&rows);
        let claims = Claims::make(alloc, s.nodes, kept)?;
        book.reload(rows);
        let book = complete(alloc, keeper, &world, moment, book, s, recoveries)?;
        audit.close(moment);
        let knowledge = Knowledge {
            book,
            audit,
            jobs: Vec::new(alloc),
            last_job: 0,
        };
        Ok(Engine {
            world,
            moment,
            knowledge,
            slots,
            reads,
            configuration,
            claims,
            last_holder: holder_of(kept),
        })
    }

    /// What orchestrator does, with its reply once more if it is written.
    #[inline(always)]
    pub(crate) fn act<K: Keeper>(
        &mut self,
        alloc: Global,
        keeper: &mut K,
        act: &Act,
        written: bool,
    ) -> Result<Replies, TurnFault>
        requires { IsAct (length self.old.world.servers) act.now }
        ensures { Takes engine (λ s. s) K.kept K.faults keeper.old keeper.new
            self.old (Turn.Act act.now) self.new (AreReply written) result }
    {
        match act {
            Act::PollRead(poller, no) => Ok(plain(self.poll_read(alloc, *poller, *no)?, written)),
            Act::PollStore(poller) => Ok(plain(self.poll_store(alloc, keeper, *poller)?, written)),
            Act::Command(t) => self.command(alloc, keeper, t, written),
            Act::Job(id) => self.job(alloc, keeper, *id, written),
            Act::Scan => self.scan(alloc, keeper, written),
            Act::Restart => Ok(plain(self.restart(alloc, keeper)?, written)),
        }
    }

    /// One turn, with its reply once more if it is written.
    pub(crate) fn replies<K: Keeper>(
        &mut self,
        alloc: Global,
        keeper: &mut K,
        t: &Turn,
        written: bool,
    ) -> Result<Replies, TurnFault>
        requires turn { IsTurn (length self.old.world.servers) t.now }
        requires named { NamesOneOf (nodes_of self.old) t.now }
        ensures { Takes engine (λ s. s) K.kept K.faults keeper.old keeper.new
            self.old t.now self.new (AreReply written) result }
    {
        match t {
            Turn::Step(x) => Ok(plain(self.exchange(*x), written)),
            Turn::Tick(seconds) => Ok(plain(self.tick(*seconds), written)),
            Turn::Act(act) => self.act(alloc, keeper, act, written),
            Turn::As(node, act) => self.act_as(alloc, keeper, *node, act, written),
            Turn::Claim(node) => Ok(plain(self.claim(alloc, keeper, *node)?, written)),
            Turn::Release(node) => Ok(plain(self.release(alloc, keeper, *node)?, written)),
        }
    }

    /// One turn. What it changes of the kept rows is kept first, and a refused command changes nothing. `Keeper` comes
    /// only if the row store's count of faults rose, at a turn that calls the row store. After it, and after `Memory`,
    /// nothing has changed. The row store is called only if orchestrator starts again or a kept row changes.
    pub fn turn<K: Keeper>(
        &mut self,
        alloc: Global,
        keeper: &mut K,
        t: &Turn,
    ) -> Result<Reply, TurnFault>
        requires turn { IsTurn (length self.old.world.servers) t.now }
        requires named { NamesOneOf (nodes_of self.old) t.now }
        ensures { Takes engine (λ s. s) K.kept K.faults keeper.old keeper.new
            self.old t.now self.new (λ r said. said ≡ r) result }
    {
        let replies = self.replies(alloc, keeper, t, false)?;
        Ok(replies.told)
    }

    /// All of the turns, in order, to the first fault. After it the turns before the one that gave up are done, and
    /// nothing of that one or of those after it. No turn takes memory that outlives it, except for what the servers and
    /// the book have.
    pub fn run<K: Keeper>(
        &mut self,
        alloc: Global,
        keeper: &mut K,
        turns: &[Turn],
    ) -> Result<(), TurnFault>
        requires turns { All (IsTurn (length self.old.world.servers)) turns.now }
        requires named { All (NamesOneOf (nodes_of self.old)) turns.now }
        ensures ok { OnOk result (Ran engine (K.kept keeper.old) self.old turns.now
            (K.kept keeper.new) self.new) }
        ensures err { IfErr result (λ e.
            WasCutOff engine (K.kept keeper.old) self.old turns.now
            (K.kept keeper.new) self.new e) }
        ensures cause { HasTurnCause (K.faults keeper.old) (K.faults keeper.new) result }
        ensures servers { length self.new.world.servers ≡ length self.old.world.servers }
        ensures nodes { nodes_of self.new ≡ nodes_of self.old }
    {
        for t in turns {
            self.turn(alloc, keeper, t)?;
        }
        Ok(())
    }

    // One round of a job: the job's turn, which answers so, and then the others.
    fn round<K: Keeper>(
        &mut self,
        alloc: Global,
        keeper: &mut K,
        job: u64,
        others: &[Turn],
    ) -> Result<Reply, TurnFault>
        requires turns { All (IsTurn (length self.old.world.servers)) others.now }
        requires named { All (NamesOneOf (nodes_of self.old)) others.now }
        ensures reply { IfOk result (λ r. r ≡ reply_of self.old (Turn.Act (Act.Job job))) }
        ensures ok { OnOk result (Ran engine (K.kept keeper.old) self.old
            (Turn.Act (Act.Job job) ∷ others.now) (K.kept keeper.new) self.new) }
        ensures err { IfErr result (λ e.
            WasCutOff engine (K.kept keeper.old) self.old (Turn.Act (Act.Job job) ∷ others.now)
            (K.kept keeper.new) self.new e) }
        ensures cause { HasTurnCause (K.faults keeper.old) (K.faults keeper.new) result }
        ensures servers { length self.new.world.servers ≡ length self.old.world.servers }
        ensures nodes { nodes_of self.new ≡ nodes_of self.old }
    {
        let reply = self.turn(alloc, keeper, &Turn::Act(Act::Job(job)))?;
        self.run(alloc, keeper, others)?;
        Ok(reply)
    }

    /// Rounds until the job has ended; none if it isn't open. It answers what the job's last turn answered.
    ///
    /// A round is one turn of the job, then fetch and apply on each server in name order. Last come a poll-read and a
    /// poll-store by poller 0 of each server in name order. There are at most as many rounds as the job has turns left.
    /// They run to the first fault, as `run` does. Beside what the servers and the book have, they take memory for one
    /// round only.
    pub fn finish<K: Keeper>(
        &mut self,
        alloc: Global,
        keeper: &mut K,
        job: u64,
    ) -> Result<Option<Reply>, TurnFault>
        ensures ok { IfOk result (FinishedBy (K.kept keeper.old) self.old job
            (K.kept keeper.new) self.new) }
        ensures err { IfErr result (λ e.
            WasCutShort engine (λ s. s) (K.kept keeper.old) self.old job
            (K.kept keeper.new) self.new e) }
        ensures cause { HasTurnCause (K.faults keeper.old) (K.faults keeper.new) result }
        ensures servers { length self.new.world.servers ≡ length self.old.world.servers }
        ensures nodes { nodes_of self.new ≡ nodes_of self.old }
    {
        let mut told = None;
        if !self.is_open(job) {
            return Ok(told);
        }
        // shows the proof what holds of the state
        self.shows_state();
        let Ok(others) = others_over(alloc, self.knowledge.book.order()) else {
            return Err(TurnFault::Memory);
        };
        'rounds: while self.is_open(job) {
            self.shows_state();
            match self.round(alloc, keeper, job, &others) {
                Ok(reply) => told = Some(reply),
                Err(fault) => return Err(fault),
            }
        }
        Ok(told)
    }

    pub(crate) fn shows_state(&self)
        ensures { IsState self.now }
    {
        let _reads = self.reads;
    }

    /// Whether there is an unended job of this number.
    pub fn is_open(&self, job: u64) -> bool
        ensures { result ≡ is_open self.now.jobs job }
    {
        find(&self.knowledge.jobs, job).is_some()
    }

    /// The unended jobs, by rising number.
    pub fn open_jobs(&self) -> &[Unended]
        ensures jobs { result.now ≡ self.now.jobs }
        ensures rising { Rise 0 result.now self.now.last_job }
    {
        &self.knowledge.jobs
    }

    /// The moment that it is now: at most 2^63.
    pub fn now(&self) -> Moment
        ensures value { result.0 ≡ self.now.moment }
        ensures within { result.0 ≤ 2 ^ 63 }
    {
        self.moment
    }

    /// The servers as they are now.
    pub fn world(&self) -> &World
        ensures { result.now ≡ self.now.world }
    {
        &self.world
    }

    /// What orchestrator knows now.
    pub fn book(&self) -> &Book
        ensures { result.now ≡ self.now.book }
    {
        &self.knowledge.book
    }

    /// Which of several orchestrators claims to be the active one, and what each remembers.
    pub fn claims(&self) -> &Claims
        ensures { result.now ≡ self.now.claims }
    {
        &self.claims
    }

    /// The recoveries that were begun, each at 2^63 at the latest.
    pub fn audit(&self) -> &Audit
        ensures audit { result.now.audit ≡ self.now.audit }
        ensures begun { All (λ r. r.begun.0 ≤ 2 ^ 63) result.now.audit.recoveries }
    {
        &self.knowledge.audit
    }
}
