//! What a test asks of a server, and what it is answered.

ghost use Rattle.std.specs.Prelude.{◌≡◌, ◌<◌, length};

use crate::binlog_coords_items::Coord;
use crate::gtid_sets::GtidSet;
use crate::orch_base::{IoState, ServerNo, SourceState, Txn};
use crate::server_model::{
    ApplyAnswer, AttachFault, FetchAnswer, Link, Plain, PurgeAnswer, Spot, Status, StatusFault,
    Threads, Unreachable, World, WriteAnswer,
};
use std::alloc::Global;

/// An exchange with a server, or a question about it.
#[derive(Clone, Copy)]
pub enum Step {
    Write(u32),
    Fetch,
    Apply,
    Stop(Threads),
    Start,
    StartUntil(Coord),
    /// From the expected position, to the server at the coordinate.
    AttachAt(Spot, ServerNo, Coord),
    /// To the server, by the set that its status shows.
    AttachAuto(ServerNo),
    Cut(Link),
    Join(Link),
    /// The files of its log before this one.
    Purge(u32),
    /// The transaction of this index, from 0, in its log.
    Logged(u64),
    Status,
    /// What a status would show, reached or not.
    Shows,
    Plain,
    Executed,
    /// The end of its log.
    End,
    /// How many errant writes there are at all servers.
    Errant,
}

/// A set of GTIDs: how many it holds, and whether the first two of server 1 and the first one of server 3.
#[derive(Clone, Copy, PartialEq, Eq)]
pub struct Gtids(pub u128, pub [bool; 3]);

/// A status.
#[derive(Clone, Copy, PartialEq, Eq)]
pub struct Seen {
    pub own_end: Option<Coord>,
    pub source: SourceState,
    pub exec: Coord,
    pub read: Coord,
    pub auto: bool,
    pub io: IoState,
    pub sql: bool,
    pub read_only: bool,
    pub set: Gtids,
    pub first: u32,
    pub purged: Gtids,
}

/// What a step answers.
#[derive(Clone, Copy, PartialEq, Eq)]
pub enum Answer {
    Wrote(WriteAnswer),
    Fetched(FetchAnswer),
    Applied(ApplyAnswer),
    Done,
    Unreachable,
    Running(Spot),
    Interfered(Spot, Spot),
    Loop,
    Errant(Gtids),
    /// The first file that the new source keeps.
    Gone(u32),
    Purged(PurgeAnswer),
    Logs(Option<Txn>),
    Saw(Seen),
    Is(Plain),
    Count(u64),
    Ends(Option<Coord>),
    Memory,
    /// The step can't be taken at this server, or what tests it answers otherwise.
    Unfit,
}

fn held(set: &GtidSet) -> Gtids {
    Gtids(
        set.count(),
        [set.contains(1, 1), set.contains(1, 2), set.contains(3, 1)],
    )
}

fn saw(status: &Status) -> Answer {
    Answer::Saw(Seen {
        own_end: status.own_end,
        source: status.source,
        exec: status.exec,
        read: status.read,
        auto: status.auto,
        io: status.io,
        sql: status.sql,
        read_only: status.read_only,
        set: held(&status.set),
        first: status.first,
        purged: held(&status.purged),
    })
}

fn status(alloc: Global, world: &World, no: ServerNo) -> Answer
    requires { no.0 < length world.now.servers }
{
    match world.status(alloc, no) {
        Ok(status) => saw(&status),
        Err(StatusFault::Unreachable) => Answer::Unreachable,
        Err(StatusFault::Memory) => Answer::Memory,
    }
}

fn shows(alloc: Global, world: &World, no: ServerNo) -> Answer
    requires { no.0 < length world.now.servers }
{
    match world.shows(alloc, no) {
        Ok(status) => saw(&status),
        Err(_) => Answer::Memory,
    }
}

fn end(world: &World, no: ServerNo) -> Answer
    requires { no.0 < length world.now.servers }
{
    match world.log(no) {
        Some(log) => Answer::Ends(Some(log.end())),
        None => Answer::Ends(None),
    }
}

fn write(world: &mut World, no: ServerNo, size: u32) -> Answer
    requires { no.0 < length world.old.servers }
{
    if size < 1 || size > 1_000_000 {
        return Answer::Unfit;
    }
    Answer::Wrote(world.write(no, size))
}

fn asked(answer: Result<(), Unreachable>) -> Answer {
    match answer {
        Ok(()) => Answer::Done,
        Err(Unreachable) => Answer::Unreachable,
    }
}

fn attached(answer: Result<(), AttachFault>) -> Answer {
    match answer {
        Ok(()) => Answer::Done,
        Err(AttachFault::Unreachable) => Answer::Unreachable,
        Err(AttachFault::Running(at)) => Answer::Running(at),
        Err(AttachFault::Interfered(expected, found)) => Answer::Interfered(expected, found),
        Err(AttachFault::Loop) => Answer::Loop,
        Err(AttachFault::Errant(set)) => Answer::Errant(held(&set)),
        Err(AttachFault::Purged(first)) => Answer::Gone(first),
        Err(AttachFault::Memory) => Answer::Memory,
    }
}

// What the attachment answers, if it answers what it would have answered.
fn attach_at(world: &mut World, no: ServerNo, expect: Spot, to: ServerNo, at: Coord) -> Answer
    requires { no.0 < length world.old.servers }
{
    if to.0 >= world.servers() {
        return Answer::Unfit;
    }
    let place = match world.log(to) {
        Some(log) => log.place(at),
        None => None,
    };
    if place.is_none() {
        return Answer::Unfit;
    }
    let would = attached(world.test_attach_at(no, expect, to, at));
    let does = attached(world.attach_at(no, expect, to, at));
    if would == does { does } else { Answer::Unfit }
}

fn logged(world: &World, no: ServerNo, k: u64) -> Answer
    requires { no.0 < length world.now.servers }
{
    match world.logged(no, k) {
        Ok(txn) => Answer::Logs(txn),
        Err(Unreachable) => Answer::Unreachable,
    }
}

// What the attachment answers, if it answers what it would have answered.
fn attach_by(
    alloc: Global,
    world: &mut World,
    no: ServerNo,
    observed: &GtidSet,
    to: ServerNo,
) -> Answer
    requires { no.0 < length world.old.servers }
{
    if to.0 >= world.servers() || !world.gtid() || world.log(to).is_none() {
        return Answer::Unfit;
    }
    let would = attached(world.test_attach_auto(alloc, no, observed, to));
    let does = attached(world.attach_auto(alloc, no, observed, to));
    if would == does { does } else { Answer::Unfit }
}

fn attach_auto(alloc: Global, world: &mut World, no: ServerNo, to: ServerNo) -> Answer
    requires { no.0 < length world.old.servers }
{
    if to.0 >= world.servers() {
        return Answer::Unfit;
    }
    match world.status(alloc, to) {
        Ok(status) => attach_by(alloc, world, no, &status.set, to),
        Err(_) => Answer::Unfit,
    }
}

/// Takes a step at a server.
pub fn take(alloc: Global, world: &mut World, no: ServerNo, step: Step) -> Answer {
    if no.0 >= world.servers() {
        return Answer::Unfit;
    }
    match step {
        Step::Write(size) => write(world, no, size),
        Step::Fetch => Answer::Fetched(world.fetch(no)),
        Step::Apply => Answer::Applied(world.apply(no)),
        Step::Stop(which) => asked(world.stop(no, which)),
        Step::Start => asked(world.start(no)),
        Step::StartUntil(to) => asked(world.start_until(no, to)),
        Step::AttachAt(expect, to, at) => attach_at(world, no, expect, to, at),
        Step::AttachAuto(to) => attach_auto(alloc, world, no, to),
        Step::Cut(link) => {
            world.cut_link(no, link);
            Answer::Done
        }
        Step::Join(link) => {
            world.join_link(no, link);
            Answer::Done
        }
        Step::Purge(file) => Answer::Purged(world.purge(no, file)),
        Step::Logged(k) => logged(world, no, k),
        Step::Status => status(alloc, world, no),
        Step::Shows => shows(alloc, world, no),
        Step::Plain => Answer::Is(world.plain(no)),
        Step::Executed => Answer::Count(world.executed(no)),
        Step::End => end(world, no),
        Step::Errant => Answer::Count(world.errant()),
    }
}
