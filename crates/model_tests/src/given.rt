//! Servers as tests give them, and the openings and worlds of such servers.

ghost use Rattle.std.specs.Prelude.{◌≡◌, ◌≤◌, IfSome, IsTrue, length};
ghost use Rattle.openings.specs.Listed.{transactions as transactions_of};
ghost use Rattle.openings.specs.Servers.{parts_of};
ghost use Rattle.world_openings.specs.Opening.{Fits};

use crate::binlog_coords_items::Coord;
use crate::orch_base::{Memory, Name, OwnedText, ServerNo, Settings, Version};
use crate::server_model::World;
use made_openings::are_listed;
use opening_checks::{CheckedOpening, OpeningFault};
use openings::{Counts, Opening, Part, Parts, ServerInit, parts_of};
use std::alloc::Global;
use std::test::Fail;
use world_openings::OpenedWorld;

/// A server of a test. All are of one cluster.
#[derive(Clone, Copy)]
pub struct Given {
    pub name: &'static str,
    /// Whether it has a binary log.
    pub logs: bool,
    /// The bytes that a file of its log holds.
    pub limit: u64,
    /// What it has executed, if it has no source.
    pub history: &'static [Part],
    /// After how many of its transactions its log was flushed.
    pub flushes: &'static [u64],
    /// The first file that its log keeps.
    pub purged: u32,
    pub source: Option<ServerNo>,
    /// How many of its source's transactions it has executed.
    pub executed: u64,
    pub at: Option<Coord>,
    pub read: Option<Coord>,
    pub detached: bool,
    pub read_only: bool,
}

/// A server without a source.
pub const MASTER: Given = Given {
    name: "m",
    logs: true,
    limit: 1_073_741_824,
    history: &[],
    flushes: &[],
    purged: 1,
    source: None,
    executed: 0,
    at: None,
    read: None,
    detached: false,
    read_only: false,
};

/// A replica of the first server.
pub const REPLICA: Given = Given {
    name: "r",
    source: Some(ServerNo(0)),
    read_only: true,
    ..MASTER
};

fn settings(alloc: Global, n: u32, given: &Given) -> Result<Settings, Fail> {
    Ok(Settings {
        name: Name::read(alloc, given.name)?,
        uuid: u128::from(n) + 1,
        server_id: 1,
        version: Version {
            major: 8,
            minor: 0,
            patch: 36,
        },
        cluster: OwnedText::new(String::from_str(alloc, "m:3306")?),
        logs: given.logs,
        limit: given.limit,
        dc: OwnedText::new(String::new(alloc)),
    })
}

// What a server without a source lists as its history.
fn history(alloc: Global, given: &Given) -> Result<Option<Parts>, Memory> {
    if given.source.is_some() {
        return Ok(None);
    }
    Ok(Some(Parts::new(Vec::from_slice(alloc, given.history)?)))
}

// The server of this number.
fn init(alloc: Global, n: u32, given: &Given) -> Result<ServerInit, Fail> {
    let flushes = Counts::new(Vec::from_slice(alloc, given.flushes)?);
    Ok(ServerInit {
        settings: settings(alloc, n, given)?,
        read_only: given.read_only,
        up: true,
        desk: true,
        feed: true,
        history: history(alloc, given)?,
        source: given.source,
        executed: given.executed,
        at: given.at,
        read: given.read,
        io: !given.detached,
        sql: !given.detached,
        auto: false,
        detached: given.detached,
        until: None,
        flushes,
        purged: given.purged,
    })
}

fn inits(alloc: Global, given: &[Given]) -> Result<Vec<ServerInit>, Fail> {
    let mut inits = Vec::new(alloc);
    let mut n: u32 = 0;
    for server in given {
        inits.push(init(alloc, n, server)?)?;
        n = n.saturating_add(1);
    }
    Ok(inits)
}

/// What the check of these servers answers. `Err` fails the test.
pub fn checked(
    alloc: Global,
    given: &[Given],
    gtid: bool,
) -> Result<Result<Opening, OpeningFault>, Fail> {
    let servers = inits(alloc, given)?;
    if !are_listed(&servers, gtid) {
        return Err(Fail::from("the servers aren't listed as an opening wants them"));
    }
    Ok(Opening::check(alloc, servers, gtid))
}

// How many transactions the parts have.
fn count(parts: &[Part]) -> Option<u64>
    ensures { IfSome result (λ n. n ≡ transactions_of parts.now) }
{
    let mut count: u64 = 0;
    for part in parts {
        count = count.checked_add(part.count)?;
    }
    Some(count)
}

fn is_within(init: &ServerInit, room: u64, flushes: u64) -> bool
    ensures history { IsTrue result → transactions_of (parts_of init.now) ≤ room }
    ensures flush_points { IsTrue result → length init.now.flushes ≤ flushes }
{
    match count(parts_of(init)) {
        None => false,
        Some(count) => count <= room && init.flushes.as_slice().len() as u64 <= flushes,
    }
}

fn fits(opening: &Opening, room: u64, flushes: u64) -> bool
    ensures { IsTrue result → Fits opening.now room flushes }
{
    for init in opening.servers() {
        if !is_within(init, room, flushes) {
            return false;
        }
    }
    true
}

/// The world of these servers, each with room for so many transactions and flushes. `Err` fails the test.
pub fn world_of(
    alloc: Global,
    given: &[Given],
    gtid: bool,
    room: u64,
    flushes: u64,
) -> Result<World, Fail> {
    let opening = checked(alloc, given, gtid)??;
    if !fits(&opening, room, flushes) || room > 1000 || flushes > 1000 {
        return Err(Fail::from("the servers don't fit"));
    }
    Ok(World::make(alloc, &opening, room, flushes)?)
}
