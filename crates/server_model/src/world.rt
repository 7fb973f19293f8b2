//! The world of servers.

ghost use Rattle.std.specs.Prelude.{◌≡◌, ◌+◌, ◌<◌, ◌≤◌, true, length, Some, IfOk, IsSomeAnd, option_and_then, option_map, slice_get};
ghost use Rattle.server_model.specs.Prelude.{Gives, option_copied};
ghost use Rattle.server_model.specs.Worlds.{server_at};
ghost use Rattle.server_model.specs.Gtids.{attach_auto_answer, after_attach_auto, attach_fault, auto_coord, shown, status as status_of_server, status_fault, uuids, IsAutoTarget};
ghost use Rattle.server_model.specs.Exchanges.{write_answer, after_write, fetch_step, fetch_answer, after_fetch, attached_at, apply_step, apply_answer, after_apply, IsReady};
ghost use Rattle.server_model.specs.Attach.{attach_answer, after_attach, IsTarget};
ghost use Rattle.server_model.specs.Desk.{ask as ask_of, befall, can_reach, desk_answer, rotate_answer, after_rotate};
ghost use Rattle.server_model.specs.Plains.{plain_of, log_of, logged};
ghost use Rattle.server_model.specs.Purging.{after_purge, purge_answer};
ghost use Rattle.server_model.specs.Standing.{world_with, CanStand};

use crate::attach::{attach_decision, chain_meets, first_kept, purged_answer};
use crate::binlog_coords_items::{Coord, LogIndex, Next};
use crate::gtid_sets::{GtidSet, ReservedSet};
use crate::gtids::{
    auto_readiness, executed_sets, held_len, keep_gtid, keep_gtids, kept_coord, purged_len,
    purged_sets, settle, uuid_of,
};
use crate::orch_base::{Memory, ServerNo, Settings, SourceState, Txn};
use crate::own::own_counts;
use crate::purging::kept_from;
use crate::status::{above, status_of};
use crate::steps::{
    applier_step, apply_answer, errant_writes, fetch_answer, is_applying, is_reachable, is_reached,
    is_receiving, own_of, receiver_step,
};
use crate::{
    ApplyAnswer, ApplyStep, Ask, AttachFault, Event, FetchAnswer, FetchStep, Link, Plain,
    PurgeAnswer, RotateAnswer, Server, Spot, Status, StatusFault, Threads, Unreachable,
    WriteAnswer,
};
use std::alloc::Global;
use std::marker::Model;

/// All servers.
pub struct World {
    servers: Vec<Server>,
    // How many transactions of its own each server has executed.
    own: Vec<u64>,
    // The GTIDs of what each server has executed, if they are used.
    executed: Vec<ReservedSet>,
    // The GTIDs of what is in the purged files of each server's log, if they are used.
    purged: Vec<ReservedSet>,
    gtid: bool,
    errant: u64,
}

impl Drop for World {
    fn drop(self) {
        let World {
            servers: _servers,
            own: _own,
            executed: _executed,
            purged: _purged,
            gtid: _,
            errant: _,
        } = self;
    }
}

impl Model for World {
    ghost use Rattle.server_model.specs.Worlds.{World as WorldState};

    ghost Value = { WorldState };

    ghost use Rattle.server_model.specs.WorldsBy.{world_of, IsKeptInside};

    ghost view = { world_of };

    ghost invariant = { IsKeptInside };
}

impl World {
    /// The world of these servers, before any exchange: at most 1,000, by their numbers from 0. Each has room for the
    /// transactions and calls of `rotate` that its history and its log have room for. `Err` means out of memory.
    pub fn of(alloc: Global, servers: Vec<Server>, gtid: bool) -> Result<World, Memory>
        requires { CanStand servers.items }
        ensures { IfOk result (λ w. w ≡ world_with servers.items gtid) }
    {
        let own = own_counts(alloc, &servers)?;
        let executed = executed_sets(alloc, &servers, gtid)?;
        let purged = purged_sets(alloc, &servers, gtid)?;
        Ok(World {
            servers,
            own,
            executed,
            purged,
            gtid,
            errant: 0,
        })
    }

    /// How many servers there are: at most 1,000.
    pub fn servers(&self) -> u32
        ensures { result ≡ length self.now.servers }
    {
        self.servers.len() as u32
    }

    /// The settings of a server.
    pub fn settings(&self, no: ServerNo) -> &Settings
        requires { no.0 < length self.now.servers }
        ensures { option_map (λ s. s.settings) (server_at self.now no.0) ≡ Some result.now }
    {
        let s = &self.servers[no.0 as usize];
        &s.settings
    }

    /// Whether the servers use GTIDs.
    pub fn gtid(&self) -> bool
        ensures { result ≡ self.now.gtid }
    {
        self.gtid
    }

    /// How many writes were accepted by servers with a source.
    pub fn errant(&self) -> u64
        ensures { result ≡ self.now.errant }
    {
        self.errant
    }

    /// How many transactions a server has executed.
    pub fn executed(&self, no: ServerNo) -> u64
        requires { no.0 < length self.now.servers }
        ensures { option_map (λ s. length s.history.txns) (server_at self.now no.0) ≡ Some result }
    {
        let s = &self.servers[no.0 as usize];
        s.log.len()
    }

    /// The transaction of this index, from 0, among those that a server has executed.
    pub fn transaction(&self, no: ServerNo, k: u64) -> Txn
        requires server { no.0 < length self.now.servers }
        requires within { IsSomeAnd (server_at self.now no.0) (λ s. k < length s.history.txns) }
        ensures { option_and_then (λ s. slice_get s.history.txns k) (server_at self.now no.0)
            ≡ Some result }
    {
        let s = &self.servers[no.0 as usize];
        s.log.txn(k).unwrap()
    }

    /// What the tables print of a server, reachable or not.
    pub fn plain(&self, no: ServerNo) -> Plain
        requires { no.0 < length self.now.servers }
        ensures { option_map plain_of (server_at self.now no.0) ≡ Some result }
    {
        let s = &self.servers[no.0 as usize];
        Plain {
            up: s.up,
            desk: s.desk,
            feed: s.feed,
            read_only: s.read_only,
            source: s.source,
            exec: s.exec,
            read: s.read,
            auto: s.auto,
            receiver: s.receiver,
            applier: s.applier,
            until: s.until,
            first: s.first,
        }
    }

    /// The binary log of a server; None exactly for a server that doesn't log.
    pub fn log(&self, no: ServerNo) -> Option<&LogIndex>
        requires { no.0 < length self.now.servers }
        ensures { option_map log_of (server_at self.now no.0) ≡ Some (option_copied result) }
    {
        let s = &self.servers[no.0 as usize];
        if s.settings.logs { Some(&s.log) } else { None }
    }

    /// An ordinary client's transaction of this size, 1 to 1,000,000 bytes.
    pub fn write(&mut self, no: ServerNo, size: u32) -> WriteAnswer
        requires server { no.0 < length self.old.servers }
        requires some { 0 < size }
        requires size { size ≤ 1000000 }
        ensures answer { result ≡ write_answer no.0 (server_at self.old no.0) }
        ensures world { self.new ≡ after_write self.old no.0 size (server_at self.old no.0) result }
    {
        let n = no.0 as usize;
        let s = &mut self.servers[n];
        if !s.up {
            return WriteAnswer::Down;
        }
        if s.read_only {
            return WriteAnswer::ReadOnly;
        }
        if s.log.room() <= s.log.len() {
            return WriteAnswer::Full;
        }
        let seq = self.own[n] + 1;
        self.own[n] = seq;
        let executed = &mut self.executed[n];
        keep_gtid(executed, self.gtid, s.settings.uuid, seq);
        self.errant += errant_writes(s);
        s.take(Txn {
            origin: no,
            seq,
            size,
        });
        WriteAnswer::Done(seq)
    }

    /// The receiver of a replica reads one step of its source's log.
    pub fn fetch(&mut self, no: ServerNo) -> FetchAnswer
        requires { no.0 < length self.old.servers }
        ensures answer { result ≡ fetch_answer (fetch_step self.old (server_at self.old no.0)) }
        ensures world { self.new ≡
            after_fetch self.old no.0 (server_at self.old no.0)
            (fetch_step self.old (server_at self.old no.0)) }
    {
        let step = self.fetch_step(no);
        let r = &mut self.servers[no.0 as usize];
        r.receive(step);
        fetch_answer(step)
    }

    fn fetch_step(&self, no: ServerNo) -> FetchStep
        requires { no.0 < length self.now.servers }
        ensures { result ≡ fetch_step self.now (server_at self.now no.0) }
    {
        let r = &self.servers[no.0 as usize];
        if !is_receiving(r) {
            return FetchStep::Halt;
        }
        match self.source_of(r) {
            None => FetchStep::Unlinked,
            Some(s) => receiver_step(r, s),
        }
    }

    /// The applier of a replica executes one step of its relay log.
    pub fn apply(&mut self, no: ServerNo) -> ApplyAnswer
        requires { no.0 < length self.old.servers }
        ensures answer { result ≡ apply_answer (apply_step self.old (server_at self.old no.0)) }
        ensures world { self.new ≡
            after_apply self.old no.0 (server_at self.old no.0)
            (apply_step self.old (server_at self.old no.0)) }
    {
        let step = self.apply_step(no);
        let n = no.0 as usize;
        let r = &mut self.servers[n];
        r.apply(step);
        if let ApplyStep::Execute(t, _) = step {
            self.own[n] += own_of(no, t);
            let uuid = uuid_of(&self.servers, t.origin);
            let executed = &mut self.executed[n];
            keep_gtid(executed, self.gtid, uuid, t.seq);
        }
        apply_answer(step)
    }

    fn apply_step(&self, no: ServerNo) -> ApplyStep
        requires { no.0 < length self.now.servers }
        ensures step { result ≡ apply_step self.now (server_at self.now no.0) }
        ensures ready { IsReady (server_at self.now no.0) result }
    {
        let n = no.0 as usize;
        let r = &self.servers[n];
        if !is_applying(r) {
            return ApplyStep::Halt;
        }
        if is_reached(r) {
            return ApplyStep::ForgetUntil;
        }
        match self.source_of(r) {
            None => ApplyStep::Idle,
            Some(s) => applier_step(self.gtid, r, s, &self.servers, &self.executed[n]),
        }
    }

    // The server that a replica is attached to.
    fn source_of(&self, r: &Server) -> Option<&Server>
        ensures { option_copied result ≡ attached_at self.now r.now.source }
    {
        match r.source {
            SourceState::Attached(m) => self.servers.get(m.0 as usize),
            SourceState::Without | SourceState::Detached(_) => None,
        }
    }

    /// Stops the named threads (STOP REPLICA). `Unreachable` exactly if the server is down or its desk link is cut.
    pub fn stop(&mut self, no: ServerNo, which: Threads) -> Result<(), Unreachable>
        requires { no.0 < length self.old.servers }
        ensures answer { result ≡ desk_answer (server_at self.old no.0) }
        ensures world { self.new ≡ (ask_of self.old no.0 (Ask.Stop which)).1 }
    {
        self.ask(no, Ask::Stop(which))
    }

    /// Starts both threads of an attached server and forgets how far its applier was to go (START REPLICA).
    /// `Unreachable` as `stop`'s.
    pub fn start(&mut self, no: ServerNo) -> Result<(), Unreachable>
        requires { no.0 < length self.old.servers }
        ensures answer { result ≡ desk_answer (server_at self.old no.0) }
        ensures world { self.new ≡ (ask_of self.old no.0 Ask.Start).1 }
    {
        self.ask(no, Ask::Start)
    }

    /// Starts both threads of an attached server; its applier is to stop at the coordinate (START REPLICA UNTIL).
    /// `Unreachable` as `stop`'s.
    pub fn start_until(&mut self, no: ServerNo, to: Coord) -> Result<(), Unreachable>
        requires { no.0 < length self.old.servers }
        ensures answer { result ≡ desk_answer (server_at self.old no.0) }
        ensures world { self.new ≡ (ask_of self.old no.0 (Ask.StartUntil to)).1 }
    {
        self.ask(no, Ask::StartUntil(to))
    }

    /// Detaches an attached server: it keeps its source, with its threads off and its relay log empty. `Unreachable` as
    /// `stop`'s.
    pub fn detach(&mut self, no: ServerNo) -> Result<(), Unreachable>
        requires { no.0 < length self.old.servers }
        ensures answer { result ≡ desk_answer (server_at self.old no.0) }
        ensures world { self.new ≡ (ask_of self.old no.0 Ask.Detach).1 }
    {
        self.ask(no, Ask::Detach)
    }

    /// Attaches a detached server to its source again, with its threads off. `Unreachable` as `stop`'s.
    pub fn reattach(&mut self, no: ServerNo) -> Result<(), Unreachable>
        requires { no.0 < length self.old.servers }
        ensures answer { result ≡ desk_answer (server_at self.old no.0) }
        ensures world { self.new ≡ (ask_of self.old no.0 Ask.Reattach).1 }
    {
        self.ask(no, Ask::Reattach)
    }

    /// Takes a server's source away, with its relay log (RESET REPLICA ALL). `Unreachable` as `stop`'s.
    pub fn reset(&mut self, no: ServerNo) -> Result<(), Unreachable>
        requires { no.0 < length self.old.servers }
        ensures answer { result ≡ desk_answer (server_at self.old no.0) }
        ensures world { self.new ≡ (ask_of self.old no.0 Ask.Reset).1 }
    {
        self.ask(no, Ask::Reset)
    }

    /// Makes a server read-only or writable (`read_only`). `Unreachable` as `stop`'s.
    pub fn set_read_only(&mut self, no: ServerNo, on: bool) -> Result<(), Unreachable>
        requires { no.0 < length self.old.servers }
        ensures answer { result ≡ desk_answer (server_at self.old no.0) }
        ensures world { self.new ≡ (ask_of self.old no.0 (Ask.SetReadOnly on)).1 }
    {
        self.ask(no, Ask::SetReadOnly(on))
    }

    /// Does what orchestrator asks of a server. `Unreachable` exactly if the server is down or its desk link is cut.
    /// Then nothing changes.
    pub fn ask(&mut self, no: ServerNo, ask: Ask) -> Result<(), Unreachable>
        requires { no.0 < length self.old.servers }
        ensures answer { result ≡ desk_answer (server_at self.old no.0) }
        ensures world { self.new ≡ (ask_of self.old no.0 ask).1 }
    {
        let s = &mut self.servers[no.0 as usize];
        if !is_reachable(s) {
            return Err(Unreachable);
        }
        s.ask(ask);
        Ok(())
    }

    /// The server goes down.
    pub fn fail(&mut self, no: ServerNo)
        requires { no.0 < length self.old.servers }
        ensures { self.new ≡ befall self.old no.0 Event.Fail }
    {
        self.befall(no, Event::Fail);
    }

    /// A down server is up again. If it is attached, its threads start. An up one doesn't change.
    pub fn heal(&mut self, no: ServerNo)
        requires { no.0 < length self.old.servers }
        ensures { self.new ≡ befall self.old no.0 Event.Heal }
    {
        self.befall(no, Event::Heal);
    }

    /// The link of the server is cut.
    pub fn cut_link(&mut self, no: ServerNo, link: Link)
        requires { no.0 < length self.old.servers }
        ensures { self.new ≡ befall self.old no.0 (Event.Cut link) }
    {
        self.befall(no, Event::Cut(link));
    }

    /// The link of the server is joined again.
    pub fn join_link(&mut self, no: ServerNo, link: Link)
        requires { no.0 < length self.old.servers }
        ensures { self.new ≡ befall self.old no.0 (Event.Join link) }
    {
        self.befall(no, Event::Join(link));
    }

    fn befall(&mut self, no: ServerNo, event: Event)
        requires { no.0 < length self.old.servers }
        ensures { self.new ≡ befall self.old no.0 event }
    {
        let s = &mut self.servers[no.0 as usize];
        s.befall(event);
    }

    /// The next file of a server's binary log begins (FLUSH BINARY LOGS).
    pub fn rotate(&mut self, no: ServerNo) -> RotateAnswer
        requires { no.0 < length self.old.servers }
        ensures answer { result ≡ rotate_answer (server_at self.old no.0) }
        ensures world { self.new ≡ after_rotate self.old no.0 (server_at self.old no.0) result }
    {
        let s = &mut self.servers[no.0 as usize];
        if !s.up {
            return RotateAnswer::Down;
        }
        if !s.settings.logs {
            return RotateAnswer::NotLogging;
        }
        if s.log.flushes_left() == 0 {
            return RotateAnswer::Full;
        }
        s.rotate();
        let end = s.log.end();
        RotateAnswer::Done(end)
    }

    /// Purges the files of a server's binary log before this one, from 1 on (PURGE BINARY LOGS). It purges no file that
    /// an active replica of the server is reading, nor a later one. A file that is purged already changes nothing. The
    /// time is that of the servers and of the transactions that are purged. It takes no memory.
    pub fn purge(&mut self, no: ServerNo, file: u32) -> PurgeAnswer
        requires { no.0 < length self.old.servers }
        ensures answer { result ≡ purge_answer self.old no.0 file (server_at self.old no.0) }
        ensures world { self.new ≡ after_purge self.old no.0 (server_at self.old no.0) result }
    {
        let s = &self.servers[no.0 as usize];
        if !s.up {
            return PurgeAnswer::Down;
        }
        if !s.settings.logs {
            return PurgeAnswer::NotLogging;
        }
        if s.log.files() < file {
            return PurgeAnswer::NoFile;
        }
        let first = kept_from(&self.servers, no, file, s);
        self.keep_from(no, first);
        PurgeAnswer::Done(first)
    }

    // The log of a server that logs is kept from this file on, which it has.
    fn keep_from(&mut self, no: ServerNo, first: u32)
        requires server { no.0 < length self.old.servers }
        requires logs { IsSomeAnd (server_at self.old no.0) (λ s. s.settings.logs ≡ true) }
        requires file { IsSomeAnd (server_at self.old no.0)
            (λ s. (s.first ≤ first) × (first ≤ s.log.log.files)) }
        ensures { self.new ≡
            after_purge self.old no.0 (server_at self.old no.0) (PurgeAnswer.Done first) }
    {
        let n = no.0 as usize;
        let s = &mut self.servers[n];
        let from = purged_len(s);
        s.first = first;
        let to = purged_len(s);
        let s = &self.servers[n];
        let purged = &mut self.purged[n];
        keep_gtids(purged, self.gtid, &self.servers, &s.log, from, to);
    }

    /// Attaches a server that is at the expected position to `to`, a server that logs. `at` has a place in its log, and
    /// its file isn't purged. The server's threads are off then, and its relay log is empty. Nothing changes if it
    /// answers a fault.
    pub fn attach_at(
        &mut self,
        no: ServerNo,
        expect: Spot,
        to: ServerNo,
        at: Coord,
    ) -> Result<(), AttachFault>
        requires server { no.0 < length self.old.servers }
        requires target { IsTarget self.old to.0 at }
        ensures answer { result ≡
            attach_answer self.old no.0 expect to.0 at (server_at self.old no.0) }
        ensures world { self.new ≡
            after_attach self.old no.0 to at (server_at self.old no.0) result }
    {
        match self.test_attach_at(no, expect, to, at) {
            Err(fault) => return Err(fault),
            Ok(()) => {}
        }
        let s = &mut self.servers[no.0 as usize];
        s.attach(to, at);
        Ok(())
    }

    /// What `attach_at` would answer now. It changes nothing.
    pub fn test_attach_at(
        &self,
        no: ServerNo,
        expect: Spot,
        to: ServerNo,
        at: Coord,
    ) -> Result<(), AttachFault>
        requires server { no.0 < length self.now.servers }
        requires target { IsTarget self.now to.0 at }
        ensures { result ≡ attach_answer self.now no.0 expect to.0 at (server_at self.now no.0) }
    {
        let loops = chain_meets(&self.servers, to.0, no.0);
        let first = first_kept(&self.servers, to);
        attach_decision(&self.servers[no.0 as usize], expect, loops, first, at)
    }

    /// Whether orchestrator reaches a server: it is up, and its desk link is joined.
    pub fn is_reached(&self, no: ServerNo) -> bool
        requires { no.0 < length self.now.servers }
        ensures { result ≡ can_reach (server_at self.now no.0) }
    {
        is_reachable(&self.servers[no.0 as usize])
    }

    /// Makes the sets of a server that its statuses share, until what it has executed or purged changes. It takes time
    /// in their size, unless they are made. `Err` means out of memory.
    #[tactic(auto, using(crate::proofs::Settled::settled))]
    pub fn settle(&mut self, alloc: Global, no: ServerNo) -> Result<(), Memory>
        requires { no.0 < length self.old.servers }
        ensures { self.new ≡ self.old }
    {
        settle(alloc, &mut self.executed, no)?;
        settle(alloc, &mut self.purged, no)
    }

    /// What a status would show of a server, reached or not. It takes time in the size of the server's executed set,
    /// unless `settle` made it. `Err` means out of memory.
    pub fn shows(&self, alloc: Global, no: ServerNo) -> Result<Status, Memory>
        requires { no.0 < length self.now.servers }
        ensures { IfOk result (λ s. shown self.now no.0 ≡ Some s) }
    {
        let n = no.0 as usize;
        let s = &self.servers[n];
        let set = self.executed[n].copy(alloc)?;
        let purged = self.purged[n].copy(alloc)?;
        Ok(status_of(s, above(&self.servers, s), set, purged))
    }

    /// What orchestrator sees of a server in one exchange: `Unreachable` exactly if the server is down or its desk link
    /// is cut. It takes time in the size of the server's executed set, unless `settle` made it.
    pub fn status(&self, alloc: Global, no: ServerNo) -> Result<Status, StatusFault>
        requires { no.0 < length self.now.servers }
        ensures { Gives (λ s. s) status_fault result (status_of_server self.now no.0) }
    {
        if !self.is_reached(no) {
            return Err(StatusFault::Unreachable);
        }
        Ok(self.shows(alloc, no)?)
    }

    /// Attaches a server to `to`, a server that logs, by the GTIDs that were observed of it, if GTIDs are used.
    /// `Errant` has what the server has executed and isn't among them. The server goes on at the end of the longest
    /// prefix of the source's log that it has executed, with its threads off. Nothing changes if it answers a fault.
    pub fn attach_auto(
        &mut self,
        alloc: Global,
        no: ServerNo,
        observed: &GtidSet,
        to: ServerNo,
    ) -> Result<(), AttachFault>
        requires server { no.0 < length self.old.servers }
        requires target { IsAutoTarget self.old to.0 }
        ensures answer { Gives (λ t. t) attach_fault result
            (attach_auto_answer self.old no.0 observed.now to.0 (server_at self.old no.0)) }
        ensures world { self.new ≡
            after_attach_auto self.old no.0 to (server_at self.old no.0) result }
    {
        let at = self.auto_place(alloc, no, observed, to)?;
        let s = &mut self.servers[no.0 as usize];
        s.attach_auto(to, at);
        Ok(())
    }

    /// What `attach_auto` would answer now. It changes nothing.
    pub fn test_attach_auto(
        &self,
        alloc: Global,
        no: ServerNo,
        observed: &GtidSet,
        to: ServerNo,
    ) -> Result<(), AttachFault>
        requires server { no.0 < length self.now.servers }
        requires target { IsAutoTarget self.now to.0 }
        ensures { Gives (λ t. t) attach_fault result
            (attach_auto_answer self.now no.0 observed.now to.0 (server_at self.now no.0)) }
    {
        self.auto_place(alloc, no, observed, to)?;
        Ok(())
    }

    // The coordinate at which a server goes on under the source, or why it can't be attached by the set.
    fn auto_place(
        &self,
        alloc: Global,
        no: ServerNo,
        observed: &GtidSet,
        to: ServerNo,
    ) -> Result<Coord, AttachFault>
        requires server { no.0 < length self.now.servers }
        requires target { IsAutoTarget self.now to.0 }
        ensures answer { Gives (λ c. tt) attach_fault result
            (attach_auto_answer self.now no.0 observed.now to.0 (server_at self.now no.0)) }
        ensures place { IfOk result (λ c.
            option_map (λ r. auto_coord (uuids self.now) r (server_at self.now to.0))
            (server_at self.now no.0)
            ≡ Some c) }
    {
        let n = no.0 as usize;
        let loops = chain_meets(&self.servers, to.0, no.0);
        auto_readiness(&self.servers[n], loops)?;
        let errant = self.executed[n].minus(alloc, observed)?;
        if !errant.is_empty() {
            return Err(AttachFault::Errant(errant));
        }
        let source = &self.servers[to.0 as usize];
        let held = held_len(&self.servers, &self.executed[n], &source.log);
        purged_answer(held < purged_len(source), source.first)?;
        Ok(kept_coord(source, source.log.coord_after(held)))
    }

    /// The transaction of this index, from 0, in the kept files of a server's binary log. `None` exactly if the server
    /// doesn't log, its history ends before it, or its file is purged. `Unreachable` as `status` does. It takes no
    /// memory.
    pub fn logged(&self, no: ServerNo, k: u64) -> Result<Option<Txn>, Unreachable>
        requires { no.0 < length self.now.servers }
        ensures { result ≡ logged self.now no.0 k }
    {
        let s = &self.servers[no.0 as usize];
        if !is_reachable(s) {
            return Err(Unreachable);
        }
        if !s.settings.logs || k < purged_len(s) {
            return Ok(None);
        }
        Ok(s.log.txn(k))
    }
}
