//! The book and the world of the tests.

ghost use Rattle.std.specs.Prelude.{◌≤◌, All, length};
ghost use Rattle.openings.specs.Listed.{transactions};
ghost use Rattle.openings.specs.Servers.{parts_of};

use crate::binlog_coords_items::Coord;
use crate::gtid_sets::GtidSet;
use crate::instance_keeper_items::{Book, Instance, Row};
use crate::orch_base::{
    IoState, Moment, Name, OwnedText, ServerNo, Settings, SourceState, Version,
};
use crate::server_model::World;
use crate::server_words_items::Status;
use made_openings::are_listed;
use opening_checks::CheckedOpening;
use openings::{Counts, Opening, ServerInit, parts_of};
use std::alloc::Global;
use std::process::Abort;
use std::test::*;
use world_openings::OpenedWorld;

// Each server's number and name, the source that was seen, whether it has a binary log, and whether it was seen to find
// its place by GTIDs. `a` is its own source, and `l`, which has no log, is that of `k`.
const SERVERS: [(u32, &str, SourceState, bool, bool); 9] = [
    (0, "m", SourceState::Without, true, false),
    (1, "s", SourceState::Attached(ServerNo(0)), true, false),
    (2, "r", SourceState::Attached(ServerNo(1)), true, false),
    (3, "d", SourceState::Attached(ServerNo(0)), true, false),
    (4, "a", SourceState::Attached(ServerNo(4)), true, false),
    (5, "f", SourceState::Attached(ServerNo(0)), true, true),
    (6, "l", SourceState::Attached(ServerNo(0)), false, false),
    (7, "k", SourceState::Attached(ServerNo(6)), true, false),
    (8, "j", SourceState::Attached(ServerNo(7)), true, false),
];

fn settings(alloc: Global, no: u32, name: &str, logs: bool) -> Result<Settings, Fail> {
    Ok(Settings {
        name: Name::read(alloc, name)?,
        uuid: u128::from(no) + 1,
        server_id: no,
        version: Version {
            major: 8,
            minor: 0,
            patch: 36,
        },
        cluster: OwnedText::new(String::from_str(alloc, "m:3306")?),
        logs,
        limit: 1_073_741_824,
        dc: OwnedText::new(String::new(alloc)),
    })
}

// A server without a source, and without a transaction: no permit reads more than its settings.
fn init(alloc: Global, settings: Settings) -> ServerInit {
    ServerInit {
        settings,
        read_only: false,
        up: true,
        desk: true,
        feed: true,
        history: None,
        source: None,
        executed: 0,
        at: None,
        read: None,
        io: true,
        sql: true,
        auto: false,
        detached: false,
        until: None,
        flushes: Counts::new(Vec::new(alloc)),
        purged: 1,
    }
}

fn row(alloc: Global, no: u32, source: SourceState, auto: bool) -> Row {
    let at = Coord { file: 1, pos: 4 };
    Row::Instance(Instance {
        no: ServerNo(no),
        read: 0,
        moment: Moment(0),
        valid: true,
        seen: Status {
            own_end: Some(at),
            source,
            exec: at,
            read: at,
            auto,
            io: IoState::Yes,
            sql: true,
            read_only: true,
            set: GtidSet::empty(alloc),
            first: 1,
            purged: GtidSet::empty(alloc),
        },
    })
}

/// The book of the servers.
pub(crate) fn book(rt: &impl Abort, alloc: Global) -> Result<Book, Fail> {
    let mut all = Vec::new(alloc);
    let mut rows = Vec::new(alloc);
    for (no, name, source, logs, auto) in &SERVERS {
        all.push(settings(alloc, *no, name, *logs)?)?;
        rows.push(row(alloc, *no, *source, *auto))?;
    }
    assert!(rt; all.len() <= 1000);
    Ok(Book::make(alloc, &all, &rows)?)
}

// Asserts that the servers have no transaction and no flush point.
fn assert_empty(rt: &impl Abort, servers: &[ServerInit])
    ensures histories { All (λ i. transactions (parts_of i) ≤ 0) servers.now }
    ensures flush_points { All (λ i. length i.flushes ≤ 2) servers.now }
{
    for server in servers {
        assert!(rt; parts_of(server).is_empty() && server.flushes.as_slice().is_empty());
    }
}

/// The world of the servers, none of which has a source or a transaction there. It has room for two new files of each
/// log.
pub(crate) fn world(rt: &impl Abort, alloc: Global, gtid: bool) -> Result<World, Fail> {
    let mut inits = Vec::new(alloc);
    for (no, name, _, logs, _) in &SERVERS {
        inits.push(init(alloc, settings(alloc, *no, name, *logs)?))?;
    }
    assert!(rt; are_listed(&inits, gtid));
    let opening = Opening::check(alloc, inits, gtid)?;
    assert_empty(rt, opening.servers());
    Ok(World::make(alloc, &opening, 0, 2)?)
}
