//! One server.

use crate::binlog_coords_items::{Coord, LogIndex, Next};
use crate::orch_base::{ServerNo, Settings, SourceState, Txn};
use crate::steps::is_attached;
use crate::{ApplyStep, Ask, Event, FetchStep, Link, Threads};
use std::marker::Model;

/// A server: what it has executed, its log, and its position in its source's log.
pub struct Server {
    pub settings: Settings,
    /// What it has executed, and its own binary log. One that doesn't log keeps this list, too, and shows an empty log.
    pub log: LogIndex,
    /// The first file that its log keeps: those before it are purged. 1 before any purge.
    pub first: u32,
    pub source: SourceState,
    /// How far its applier has executed its source's log.
    pub exec: Coord,
    /// How far its receiver has read its source's log.
    pub read: Coord,
    /// Whether it finds its place by GTIDs (SOURCE_AUTO_POSITION).
    pub auto: bool,
    /// Whether its receiver is on.
    pub receiver: bool,
    /// Whether its applier is on.
    pub applier: bool,
    /// How far the applier is to go before it stops (START REPLICA UNTIL).
    pub until: Option<Coord>,
    pub read_only: bool,
    pub up: bool,
    /// Whether orchestrator reaches the server.
    pub desk: bool,
    /// Whether the server reaches its source.
    pub feed: bool,
}

impl Drop for Server {
    fn drop(self) {
        let Server {
            settings: _settings,
            log: _log,
            first: _,
            source: _,
            exec: _,
            read: _,
            auto: _,
            receiver: _,
            applier: _,
            until: _,
            read_only: _,
            up: _,
            desk: _,
            feed: _,
        } = self;
    }
}

impl Model for Server {
    ghost use Rattle.server_model.specs.Server.{Server as ServerState};

    ghost Value = { ServerState };

    ghost use Rattle.server_model.specs.ServerBy.{server_of};

    ghost view = { server_of };
}

impl Server {
    ghost use Rattle.std.specs.Prelude.{◌≡◌, ◌+◌, ◌<◌, ◌≤◌, true, length, Some};
    ghost use Rattle.server_model.specs.Exchanges.{took, IsReady};
    ghost use Rattle.server_model.specs.Steps.{applier_did, receiver_did};
    ghost use Rattle.server_model.specs.Attach.{attached_to};
    ghost use Rattle.server_model.specs.Gtids.{attached_auto};
    ghost use Rattle.server_model.specs.Desk.{stopped, started, detached, reattached, without_source, asked, with_link, healed, befallen, rotated};

    /// The history takes the transaction, and so does the log of a server that logs.
    pub(crate) fn take(&mut self, t: Txn)
        requires room { length self.old.history.txns < self.old.history.room }
        requires some { 0 < t.size }
        requires size { t.size ≤ 1000000 }
        ensures { self.new ≡ took self.old t }
    {
        self.log.push_txn(t);
    }

    /// The receiver does its step.
    pub(crate) fn receive(&mut self, step: FetchStep)
        ensures { self.new ≡ receiver_did step self.old }
    {
        match step {
            FetchStep::Take(Next::Entry(_, to) | Next::Rotate(to)) => {
                self.read = to;
            }
            FetchStep::Refuse(_) => {
                self.receiver = false;
            }
            FetchStep::Halt | FetchStep::Unlinked | FetchStep::Take(Next::End) => {}
        }
    }

    /// The applier does its step.
    pub(crate) fn apply(&mut self, step: ApplyStep)
        requires { IsReady (Some self.old) step }
        ensures { self.new ≡ applier_did step self.old }
    {
        match step {
            ApplyStep::Halt | ApplyStep::Idle | ApplyStep::NoRoom => {}
            ApplyStep::ForgetUntil => {
                self.applier = false;
                self.until = None;
            }
            ApplyStep::Pass(to) | ApplyStep::Skip(to) => {
                self.exec = to;
            }
            ApplyStep::Execute(t, to) => {
                self.take(t);
                self.exec = to;
            }
        }
    }

    fn stop(&mut self, which: Threads)
        ensures { self.new ≡ stopped which self.old }
    {
        match which {
            Threads::Both => {
                self.receiver = false;
                self.applier = false;
                self.until = None;
            }
            Threads::Receiver => {
                self.receiver = false;
            }
            Threads::Applier => {
                self.applier = false;
                self.until = None;
            }
        }
    }

    fn start(&mut self, until: Option<Coord>)
        ensures { self.new ≡ started until self.old }
    {
        if is_attached(self.source) {
            self.receiver = true;
            self.applier = true;
            self.until = until;
        }
    }

    fn detach(&mut self)
        ensures { self.new ≡ detached self.old }
    {
        if let SourceState::Attached(source) = self.source {
            self.source = SourceState::Detached(source);
            self.receiver = false;
            self.applier = false;
            self.read = self.exec;
            self.until = None;
        }
    }

    fn reattach(&mut self)
        ensures { self.new ≡ reattached self.old }
    {
        if let SourceState::Detached(source) = self.source {
            self.source = SourceState::Attached(source);
            self.receiver = false;
            self.applier = false;
        }
    }

    fn reset(&mut self)
        ensures { self.new ≡ without_source self.old }
    {
        let start = Coord { file: 1, pos: 4 };
        self.source = SourceState::Without;
        self.receiver = false;
        self.applier = false;
        self.exec = start;
        self.read = start;
        self.auto = false;
        self.until = None;
    }

    /// Does what orchestrator asks.
    pub(crate) fn ask(&mut self, ask: Ask)
        ensures { self.new ≡ asked ask self.old }
    {
        match ask {
            Ask::Stop(which) => self.stop(which),
            Ask::Start => self.start(None),
            Ask::StartUntil(to) => self.start(Some(to)),
            Ask::Detach => self.detach(),
            Ask::Reattach => self.reattach(),
            Ask::Reset => self.reset(),
            Ask::SetReadOnly(on) => {
                self.read_only = on;
            }
        }
    }

    /// Attaches the server to `to` at `at`, with its threads off.
    pub(crate) fn attach(&mut self, to: ServerNo, at: Coord)
        ensures { self.new ≡ attached_to to at self.old }
    {
        self.source = SourceState::Attached(to);
        self.exec = at;
        self.read = at;
        self.auto = false;
        self.until = None;
        self.receiver = false;
        self.applier = false;
    }

    /// Attaches the server to `to` at `at`, with its threads off, to find its place by GTIDs from then on.
    pub(crate) fn attach_auto(&mut self, to: ServerNo, at: Coord)
        ensures { self.new ≡ attached_auto to at self.old }
    {
        self.attach(to, at);
        self.auto = true;
    }

    fn set_link(&mut self, link: Link, on: bool)
        ensures { self.new ≡ with_link link on self.old }
    {
        match link {
            Link::Desk => {
                self.desk = on;
            }
            Link::Feed => {
                self.feed = on;
            }
        }
    }

    fn heal(&mut self)
        ensures { self.new ≡ healed self.old }
    {
        if self.up {
            return;
        }
        let is_attached = is_attached(self.source);
        self.up = true;
        self.until = None;
        self.receiver = is_attached || self.receiver;
        self.applier = is_attached || self.applier;
    }

    /// Takes what happens to the server.
    pub(crate) fn befall(&mut self, event: Event)
        ensures { self.new ≡ befallen event self.old }
    {
        match event {
            Event::Fail => {
                self.up = false;
            }
            Event::Heal => self.heal(),
            Event::Cut(link) => self.set_link(link, false),
            Event::Join(link) => self.set_link(link, true),
        }
    }

    /// The next file of the log of a server that logs begins.
    pub(crate) fn rotate(&mut self)
        requires logs { self.old.settings.logs ≡ true }
        requires flushes { 0 < self.old.log.flushes }
        ensures { self.new ≡ rotated self.old }
    {
        self.log.rotate();
    }
}
