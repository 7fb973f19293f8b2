//! Calls of `orch` over objects in memory, and the rows of a row store as data.

use crate::binlog_coords_items::Coord;
use crate::gtid_sets::GtidSet;
use crate::instance_keeper_items::{
    Candidate, Downtime, Instance, Keeper, MemKeeper, RecoveryRow, Row, Seen,
};
use crate::orch_base::{
    Ending, IoState, Kind, MemSink, MemSource, Moment, OwnedText, Rule, ServerNo, SourceState,
};
use std::alloc::Global;
use std::test::Fail;
use top_call::orch_plain;

/// The arguments of a command line.
pub(crate) type Words = &'static [&'static [u8]];

pub(crate) const RUN: Words = &[b"orch", b"-c", b"run"];

/// The calls of the source, of out and of the row store that fail, from 1 (0: none), and the room of out and of err.
#[derive(Clone, Copy)]
pub(crate) struct Objects {
    pub(crate) source_fails: u64,
    pub(crate) out_fails: u64,
    pub(crate) keeper_fails: u64,
    pub(crate) out_room: usize,
    pub(crate) err_room: usize,
}

/// None fails, and each has room.
pub(crate) const WHOLE: Objects = Objects {
    source_fails: 0,
    out_fails: 0,
    keeper_fails: 0,
    out_room: 4000,
    err_room: 100,
};

/// A row of a row store.
#[derive(Clone, Copy)]
pub(crate) enum Kept {
    /// The number and the moment of the reading of a server without transactions and without a source.
    Instance(u32, u64, u64),
    /// A downtime of the first server, from one moment to another.
    Downtime(u64, u64),
    /// A registration of the second server, and its end.
    Candidate(Rule, u64),
    /// A recovery of the master m, its begin and, if the second server was promoted, its end.
    Recovery(u64, u64, Option<u64>),
    /// Recovery 1 of the master m, begun at 0 and unended, as a row without a block period has it.
    Unblocked,
    /// The same, interrupted at 0, with a block period.
    Interrupted(u64),
    Switch(bool),
}

/// What a call answered, and what out and err took.
#[derive(Drop)]
pub(crate) struct Told {
    status: u8,
    out: MemSink,
    err: MemSink,
}

impl Told {
    pub(crate) fn all(&self) -> (u8, Option<&str>, Option<&str>) {
        let out = str::from_utf8(self.out.written()).ok();
        (self.status, out, str::from_utf8(self.err.written()).ok())
    }

    pub(crate) fn status(&self) -> u8 {
        self.status
    }

    /// Whether the row store failed.
    pub(crate) fn is_cut(&self) -> bool {
        self.status == 5 && self.err.written() == b"keeper fault\n".as_slice()
    }

    /// What out took.
    pub(crate) fn out(&self) -> &[u8] {
        self.out.written()
    }

    /// Whether the status is 0, and out begins so.
    pub(crate) fn begins(&self, front: &str) -> bool {
        self.status == 0 && self.out.written().starts_with(front.as_bytes())
    }
}

fn instance(alloc: Global, no: u32, read: u64, moment: u64) -> Row {
    let start = Coord { file: 1, pos: 4 };
    Row::Instance(Instance {
        no: ServerNo(no),
        read,
        moment: Moment(moment),
        valid: true,
        seen: Seen {
            own_end: Some(start),
            source: SourceState::Without,
            exec: start,
            read: start,
            auto: false,
            io: IoState::No,
            sql: false,
            read_only: false,
            set: GtidSet::empty(alloc),
            first: 1,
            purged: GtidSet::empty(alloc),
        },
    })
}

fn recovery(
    cluster: String,
    id: u64,
    (begun, ended): (u64, Option<u64>),
    outcome: Ending,
    block: Option<u64>,
) -> Row {
    Row::Recovery(RecoveryRow {
        id,
        cluster: OwnedText::new(cluster),
        kind: Kind::Master,
        failed: ServerNo(0),
        begun: Moment(begun),
        ended: ended.map(Moment),
        outcome,
        acked: false,
        block,
    })
}

fn row(alloc: Global, kept: Kept) -> Result<Row, Fail> {
    Ok(match kept {
        Kept::Instance(no, read, moment) => instance(alloc, no, read, moment),
        Kept::Downtime(begun, until) => Row::Downtime(Downtime {
            no: ServerNo(0),
            begun: Moment(begun),
            until: Moment(until),
            owner: OwnedText::new(String::new(alloc)),
            reason: OwnedText::new(String::new(alloc)),
        }),
        Kept::Candidate(rule, until) => Row::Candidate(Candidate {
            no: ServerNo(1),
            rule,
            until: Moment(until),
        }),
        Kept::Recovery(id, begun, ended) => {
            let outcome = match ended {
                Some(_) => Ending::Promoted(ServerNo(1)),
                None => Ending::Unended,
            };
            let cluster = String::from_str(alloc, "m:3306")?;
            recovery(cluster, id, (begun, ended), outcome, Some(3600))
        }
        Kept::Unblocked => {
            let cluster = String::from_str(alloc, "m:3306")?;
            recovery(cluster, 1, (0, None), Ending::Unended, None)
        }
        Kept::Interrupted(block) => {
            let cluster = String::from_str(alloc, "m:3306")?;
            recovery(cluster, 1, (0, Some(0)), Ending::Interrupted, Some(block))
        }
        Kept::Switch(enabled) => Row::Switch(enabled),
    })
}

fn rows(alloc: Global, kept: &[Kept]) -> Result<Vec<Row>, Fail> {
    let mut rows = Vec::new(alloc);
    for kept in kept {
        rows.push(row(alloc, *kept)?)?;
    }
    Ok(rows)
}

pub(crate) fn keeper_of(alloc: Global, kept: &[Kept], fails: u64) -> Result<MemKeeper, Fail> {
    let rows = rows(alloc, kept)?;
    Ok(MemKeeper::new(alloc, rows, vec![in alloc; fails]?)?)
}

fn stand_in_order(rows: &[Row], wanted: &[Row]) -> bool {
    let mut rest = rows.iter();
    wanted.iter().all(|row| rest.any(|kept| kept.is_same(row)))
}

/// Whether the row store has so many rows, these among them in their order.
pub(crate) fn keeps(
    alloc: Global,
    keeper: &mut MemKeeper,
    count: usize,
    some: &[Kept],
) -> Result<bool, Fail> {
    let wanted = rows(alloc, some)?;
    let kept = match keeper.rows(alloc, &[]) {
        Ok(kept) => kept,
        // The call of it that fails was this one.
        Err(_) => keeper.rows(alloc, &[])?,
    };
    Ok(kept.len() == count && stand_in_order(&kept, &wanted))
}

fn words_of(alloc: Global, words: Words) -> Result<Vec<Vec<u8>>, Fail> {
    let mut list = Vec::new(alloc);
    for word in words {
        list.push(Vec::from_slice(alloc, word)?)?;
    }
    Ok(list)
}

fn source_of(alloc: Global, text: &[u8], fails: u64) -> Result<MemSource, Fail> {
    let text = Vec::from_slice(alloc, text)?;
    Ok(MemSource::new(text, vec![in alloc; fails]?))
}

fn sink_of(alloc: Global, room: usize, fails: u64) -> Result<MemSink, Fail> {
    Ok(MemSink::new(alloc, room, vec![in alloc; fails]?)?)
}

// The status of a call. What the call's contract has ends here, so that the proof of a test carries none of it.
fn status_of<K: Keeper>(
    alloc: Global,
    words: &[Vec<u8>],
    source: &mut MemSource,
    out: &mut MemSink,
    err: &mut MemSink,
    keeper: &mut K,
) -> u8 {
    orch_plain(alloc, words, source, out, err, keeper)
}

/// Calls `orch`.
pub(crate) fn call(
    alloc: Global,
    words: Words,
    text: &[u8],
    objects: Objects,
    keeper: &mut MemKeeper,
) -> Result<Told, Fail> {
    let words = words_of(alloc, words)?;
    call_by(alloc, &words, text, objects, keeper)
}

/// Calls `orch` with this command line.
pub(crate) fn call_by<K: Keeper>(
    alloc: Global,
    words: &[Vec<u8>],
    text: &[u8],
    objects: Objects,
    keeper: &mut K,
) -> Result<Told, Fail> {
    let mut source = source_of(alloc, text, objects.source_fails)?;
    let mut out = sink_of(alloc, objects.out_room, objects.out_fails)?;
    let mut err = sink_of(alloc, objects.err_room, 0)?;
    let status = status_of(alloc, words, &mut source, &mut out, &mut err, keeper);
    Ok(Told { status, out, err })
}
