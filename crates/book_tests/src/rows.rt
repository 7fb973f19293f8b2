//! Rows as data, and books of them.

ghost use Rattle.std.specs.Prelude.{◌≡◌, ◌<◌, ◌^◌, IfOk, length};

use crate::binlog_coords_items::Coord;
use crate::gtid_sets::GtidSet;
use crate::orch_base::{
    Ending, IoState, Kind, Memory, Moment, Name, OwnedText, Rule, ServerNo, Settings, SourceState,
    Version,
};
use audit_log::Periods;
use instance_keeper::{Book, Candidate, Downtime, Instance, RecoveryRow, Row, Seen};
use std::alloc::{AllocError, Global};

/// A row, its server by number.
#[derive(Clone, Copy)]
pub(crate) enum Given {
    /// A server's source, the number of its reading and the moment of it.
    Instance(u32, SourceState, u64, u64),
    /// The moments at which a server's downtime was asked for and ends.
    Downtime(u32, u64, u64),
    /// A server's rule, and the moment at which its registration ends.
    Candidate(u32, Rule, u64),
    /// A recovery's id, its begin, end and outcome. Its block period is an hour.
    Recovery(u64, u64, Option<u64>, Ending),
    /// The id, end, outcome and block period of a recovery that began at 0.
    Blocking(u64, Option<u64>, Ending, Option<u64>),
    Switch(bool),
    /// The node that is active, and the moment at which its claim ends.
    Claim(u32, u64),
}

/// One block period for all clusters.
#[derive(Clone, Copy)]
pub(crate) struct OnePeriod(pub(crate) u64);

impl Periods for OnePeriod {
    ghost period_of = { λ p _. p.0 };

    fn period(&self, _server: ServerNo, _cluster: &str) -> u64 {
        self.0
    }
}

pub(crate) fn label(alloc: Global, text: &str) -> Result<OwnedText, Memory> {
    Ok(OwnedText::new(String::from_str(alloc, text)?))
}

/// What is seen of a server whose own log ends at the start of this file.
pub(crate) fn seen(alloc: Global, source: SourceState, file: u32) -> Seen {
    let start = Coord { file: 1, pos: 4 };
    Seen {
        own_end: Some(Coord { file, pos: 4 }),
        source,
        exec: start,
        read: start,
        auto: false,
        io: IoState::Yes,
        sql: true,
        read_only: false,
        set: GtidSet::empty(alloc),
        first: 1,
        purged: GtidSet::empty(alloc),
    }
}

/// An instance that was reached, with its own log's end in file 2.
pub(crate) fn instance(
    alloc: Global,
    no: u32,
    source: SourceState,
    read: u64,
    moment: u64,
) -> Instance {
    Instance {
        no: ServerNo(no),
        read,
        moment: Moment(moment),
        valid: true,
        seen: seen(alloc, source, 2),
    }
}

fn downtime(alloc: Global, no: u32, begun: u64, until: u64) -> Result<Row, Memory> {
    let owner = label(alloc, "amy")?;
    Ok(Row::Downtime(Downtime {
        no: ServerNo(no),
        begun: Moment(begun),
        until: Moment(until),
        owner,
        reason: label(alloc, "disk")?,
    }))
}

fn recovery(
    alloc: Global,
    id: u64,
    begun: u64,
    ended: Option<u64>,
    outcome: Ending,
    block: Option<u64>,
) -> Result<Row, Memory> {
    Ok(Row::Recovery(RecoveryRow {
        id,
        cluster: label(alloc, "m:3306")?,
        kind: Kind::Master,
        failed: ServerNo(0),
        begun: Moment(begun),
        ended: ended.map(Moment),
        outcome,
        acked: false,
        block,
    }))
}

pub(crate) fn row(alloc: Global, given: Given) -> Result<Row, Memory> {
    match given {
        Given::Instance(no, source, read, moment) => {
            Ok(Row::Instance(instance(alloc, no, source, read, moment)))
        }
        Given::Downtime(no, begun, until) => downtime(alloc, no, begun, until),
        Given::Candidate(no, rule, until) => Ok(Row::Candidate(Candidate {
            no: ServerNo(no),
            rule,
            until: Moment(until),
        })),
        Given::Recovery(id, begun, ended, outcome) => {
            recovery(alloc, id, begun, ended, outcome, Some(3600))
        }
        Given::Blocking(id, ended, outcome, block) => {
            recovery(alloc, id, 0, ended, outcome, block)
        }
        Given::Switch(enabled) => Ok(Row::Switch(enabled)),
        Given::Claim(node, until) => Ok(Row::Active {
            node,
            until: Moment(until),
        }),
    }
}

pub(crate) fn rows(alloc: Global, given: &[Given]) -> Result<Vec<Row>, Memory> {
    let mut rows = Vec::new(alloc);
    for one in given {
        rows.push(row(alloc, *one)?)?;
    }
    Ok(rows)
}

fn is_row(alloc: Global, there: &Row, given: Given) -> Result<bool, Memory> {
    let want = row(alloc, given)?;
    let same = there.is_same(&want);
    drop(want);
    Ok(same)
}

/// Whether these are the rows that are given, in their order.
pub(crate) fn are_rows(alloc: Global, rows: &[Row], given: &[Given]) -> Result<bool, Memory> {
    for (row, one) in rows.iter().zip(given) {
        if !is_row(alloc, row, *one)? {
            return Ok(false);
        }
    }
    Ok(rows.len() == given.len())
}

// A name that reads.
fn name(alloc: Global, text: &str) -> Result<Name, Memory> {
    match Name::read(alloc, text) {
        Ok(name) => Ok(name),
        Err(_fault) => Err(AllocError),
    }
}

fn server(alloc: Global, text: &str, cluster: &str) -> Result<Settings, Memory> {
    let name = name(alloc, text)?;
    Ok(Settings {
        name,
        uuid: 1,
        server_id: 1,
        version: Version {
            major: 8,
            minor: 0,
            patch: 36,
        },
        cluster: label(alloc, cluster)?,
        logs: true,
        limit: 4096,
        dc: label(alloc, "")?,
    })
}

/// Servers by their names and clusters.
pub(crate) fn settings(alloc: Global, servers: &[(&str, &str)]) -> Result<Vec<Settings>, Memory>
    ensures { IfOk result (λ v. length v.items ≡ length servers.now) }
{
    let mut settings = Vec::new(alloc);
    for (name, cluster) in servers {
        settings.push(server(alloc, name, cluster)?)?;
    }
    Ok(settings)
}

/// The book of these servers and rows.
pub(crate) fn book(alloc: Global, servers: &[(&str, &str)], given: &[Given]) -> Result<Book, Memory>
    requires { length servers.now < 2 ^ 32 }
{
    let settings = settings(alloc, servers)?;
    let rows = rows(alloc, given)?;
    Book::make(alloc, &settings, &rows)
}
