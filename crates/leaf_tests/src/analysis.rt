//! The codes of the table, and the analysis of a book.

use crate::binlog_coords_items::Coord;
use crate::gtid_sets::GtidSet;
use crate::orch_base::{
    IoState, Memory, Moment, Name, OwnedText, ServerNo, Settings, SourceState, Version,
};
use failure_analysis::{Action, Code, Counts, Entry, actionable, analyse, code_of};
use instance_keeper::{Book, Instance, Row, Seen};
use std::alloc::{AllocError, Global};

// Whether an instance has a source and is valid, and of its replicas how many there are, are valid, replicate and lag.
type Given = (bool, bool, [u32; 4]);

fn counts((has_source, valid, of_replicas): Given) -> Counts {
    let [replicas, valid_replicas, replicating, lagging] = of_replicas;
    Counts {
        has_source,
        valid,
        replicas,
        valid_replicas,
        replicating,
        lagging,
    }
}

// The code of these counts: none if they aren't each a part of the one before it.
fn code(c: Counts) -> Option<Code> {
    let replicating = c.lagging <= c.replicating && c.replicating <= c.valid_replicas;
    if replicating && c.valid_replicas <= c.replicas {
        Some(code_of(c))
    } else {
        None
    }
}

const MOST: u32 = 4_294_967_295;

// Whether an instance has a source and is valid; of its replicas how many there are, are valid, replicate and lag; its
// code, and what that asks for.
const CODES: [(bool, bool, [u32; 4], Code, Action); 32] = [
    (
        false,
        false,
        [0, 0, 0, 0],
        Code::DeadMasterWithoutReplicas,
        Action::Nothing,
    ),
    (
        false,
        false,
        [1, 1, 0, 0],
        Code::DeadMaster,
        Action::MasterRecovery,
    ),
    (
        false,
        false,
        [3, 3, 0, 0],
        Code::DeadMaster,
        Action::MasterRecovery,
    ),
    (
        false,
        false,
        [1, 0, 0, 0],
        Code::DeadMasterAndReplicas,
        Action::Nothing,
    ),
    (
        false,
        false,
        [3, 0, 0, 0],
        Code::DeadMasterAndReplicas,
        Action::Nothing,
    ),
    (
        false,
        false,
        [3, 2, 0, 0],
        Code::DeadMasterAndSomeReplicas,
        Action::MasterRecovery,
    ),
    (
        false,
        false,
        [3, 3, 1, 0],
        Code::UnreachableMaster,
        Action::Nothing,
    ),
    (
        false,
        false,
        [3, 3, 2, 1],
        Code::UnreachableMaster,
        Action::Nothing,
    ),
    (
        false,
        false,
        [3, 3, 2, 2],
        Code::UnreachableMasterWithLaggingReplicas,
        Action::Nothing,
    ),
    (
        false,
        false,
        [MOST, MOST, MOST, MOST],
        Code::UnreachableMasterWithLaggingReplicas,
        Action::Nothing,
    ),
    (
        false,
        false,
        [MOST, MOST, 0, 0],
        Code::DeadMaster,
        Action::MasterRecovery,
    ),
    (
        false,
        true,
        [1, 0, 0, 0],
        Code::MasterSingleReplicaDead,
        Action::Nothing,
    ),
    (
        false,
        true,
        [1, 1, 0, 0],
        Code::MasterSingleReplicaNotReplicating,
        Action::Nothing,
    ),
    (
        false,
        true,
        [3, 3, 0, 0],
        Code::AllMasterReplicasNotReplicating,
        Action::Nothing,
    ),
    (
        false,
        true,
        [3, 0, 0, 0],
        Code::AllMasterReplicasNotReplicatingOrDead,
        Action::Nothing,
    ),
    (
        false,
        true,
        [3, 2, 0, 0],
        Code::AllMasterReplicasNotReplicatingOrDead,
        Action::Nothing,
    ),
    (false, true, [3, 3, 1, 0], Code::NoProblem, Action::Nothing),
    (false, true, [1, 1, 1, 1], Code::NoProblem, Action::Nothing),
    (false, true, [0, 0, 0, 0], Code::NoProblem, Action::Nothing),
    (true, false, [0, 0, 0, 0], Code::NoProblem, Action::Nothing),
    (
        true,
        false,
        [1, 0, 0, 0],
        Code::DeadIntermediateMasterAndReplicas,
        Action::Nothing,
    ),
    (
        true,
        false,
        [3, 0, 0, 0],
        Code::DeadIntermediateMasterAndReplicas,
        Action::Nothing,
    ),
    (
        true,
        false,
        [1, 1, 0, 0],
        Code::DeadIntermediateMasterWithSingleReplica,
        Action::IntermediateRecovery,
    ),
    (
        true,
        false,
        [2, 2, 0, 0],
        Code::DeadIntermediateMaster,
        Action::IntermediateRecovery,
    ),
    (
        true,
        false,
        [2, 1, 0, 0],
        Code::DeadIntermediateMasterAndSomeReplicas,
        Action::IntermediateRecovery,
    ),
    (
        true,
        false,
        [2, 2, 1, 1],
        Code::UnreachableIntermediateMasterWithLaggingReplicas,
        Action::Nothing,
    ),
    (
        true,
        false,
        [1, 1, 1, 0],
        Code::UnreachableIntermediateMaster,
        Action::Nothing,
    ),
    (
        true,
        true,
        [1, 0, 0, 0],
        Code::AllIntermediateMasterReplicasNotReplicating,
        Action::Nothing,
    ),
    (
        true,
        true,
        [3, 3, 0, 0],
        Code::AllIntermediateMasterReplicasNotReplicating,
        Action::Nothing,
    ),
    (true, true, [3, 3, 1, 1], Code::NoProblem, Action::Nothing),
    (true, true, [0, 0, 0, 0], Code::NoProblem, Action::Nothing),
    (
        true,
        true,
        [MOST, 0, 0, 0],
        Code::AllIntermediateMasterReplicasNotReplicating,
        Action::Nothing,
    ),
];

#[test]
fn codes_of_the_table(rt: HostRuntime) {
    for (place, case) in CODES.iter().enumerate() {
        let (has_source, valid, of_replicas, expected, action) = *case;
        let found = code(counts((has_source, valid, of_replicas)));
        let asks = actionable(expected);
        assert_eq!(rt; (found, asks), (Some(expected), action), "at {place}");
    }
}

// A name that reads.
fn name(alloc: Global, text: &str) -> Result<Name, Memory> {
    match Name::read(alloc, text) {
        Ok(name) => Ok(name),
        Err(_fault) => Err(AllocError),
    }
}

fn server(alloc: Global, text: &str) -> Result<Settings, Memory> {
    let name = name(alloc, text)?;
    Ok(Settings {
        name,
        uuid: 1,
        server_id: 1,
        version: Version {
            major: 8,
            minor: 0,
            patch: 36,
        },
        cluster: OwnedText::new(String::from_str(alloc, "m:3306")?),
        logs: true,
        limit: 4096,
        dc: OwnedText::new(String::new(alloc)),
    })
}

fn settings(alloc: Global, names: &[&str]) -> Result<Vec<Settings>, Memory> {
    let mut settings = Vec::new(alloc);
    for name in names {
        settings.push(server(alloc, name)?)?;
    }
    Ok(settings)
}

// How an instance was seen.
#[derive(Clone, Copy)]
struct Look {
    source: SourceState,
    // Its lag after what it has read.
    behind: u64,
    valid: bool,
    io: IoState,
}

const MASTER: Look = Look {
    source: SourceState::Without,
    behind: 0,
    valid: true,
    io: IoState::Yes,
};

const REPLICA: Look = Look {
    source: SourceState::Attached(ServerNo(0)),
    ..MASTER
};

fn instance(alloc: Global, no: u32, look: Look) -> Row {
    let start = Coord { file: 1, pos: 4 };
    Row::Instance(Instance {
        no: ServerNo(no),
        read: 1,
        moment: Moment(0),
        valid: look.valid,
        seen: Seen {
            own_end: Some(start),
            source: look.source,
            exec: start,
            read: Coord {
                file: 1,
                pos: look.behind.saturating_add(4),
            },
            auto: false,
            io: look.io,
            sql: true,
            read_only: true,
            set: GtidSet::empty(alloc),
            first: 1,
            purged: GtidSet::empty(alloc),
        },
    })
}

fn rows(alloc: Global, looks: &[(u32, Look)]) -> Result<Vec<Row>, Memory> {
    let mut rows = Vec::new(alloc);
    for (no, look) in looks {
        rows.push(instance(alloc, *no, *look))?;
    }
    Ok(rows)
}

// The analysis of the book of these servers and rows. No test has more servers.
fn analysed(alloc: Global, settings: &[Settings], rows: &[Row]) -> Result<Vec<Entry>, Memory> {
    if settings.len() > 50_000 {
        return Err(AllocError);
    }
    let book = Book::make(alloc, settings, rows)?;
    let entries = analyse(alloc, &book);
    drop(book);
    entries
}

fn entry(no: u32, code: Code, given: Given) -> Entry {
    Entry {
        no: ServerNo(no),
        code,
        counts: counts(given),
    }
}

const REPLICATES: Given = (true, true, [0, 0, 0, 0]);

const SIX: [(u32, Code, Given); 5] = [
    (3, Code::NoProblem, REPLICATES),
    (2, Code::NoProblem, REPLICATES),
    (1, Code::NoProblem, REPLICATES),
    (0, Code::UnreachableMaster, (false, false, [3, 3, 2, 1])),
    (4, Code::NoProblem, REPLICATES),
];

// The servers `d`, `c`, `b`, `a`, `e` and `f`, by number. `d` isn't valid. `c`, `b` and `a` are below it: `c`
// replicates, `b` lags, and `a` has its receiver unconnected. `e` is detached from `d`, and `f` is no instance.
fn six(alloc: Global) -> Result<Vec<Entry>, Memory> {
    let settings = settings(alloc, &["d", "c", "b", "a", "e", "f"])?;
    let lost = Look {
        valid: false,
        ..MASTER
    };
    let lagging = Look {
        behind: 100,
        ..REPLICA
    };
    let unconnected = Look {
        io: IoState::Connecting,
        ..lagging
    };
    let detached = Look {
        source: SourceState::Detached(ServerNo(0)),
        ..MASTER
    };
    let looks = [
        (0, lost),
        (1, REPLICA),
        (2, lagging),
        (3, unconnected),
        (4, detached),
    ];
    let rows = rows(alloc, &looks)?;
    analysed(alloc, &settings, &rows)
}

// Whether entries begin with those of these servers, in this order.
fn begins(entries: &[Entry], want: &[(u32, Code, Given)]) -> bool {
    for (place, (no, code, given)) in want.iter().enumerate() {
        if entries.get(place) != Some(&entry(*no, *code, *given)) {
            return false;
        }
    }
    true
}

fn is_analysed(alloc: Global) -> Result<bool, Memory> {
    let entries = six(alloc)?;
    Ok(entries.len() == 5 && begins(&entries, &SIX))
}

#[test]
fn a_book_is_analysed_in_name_order(rt: HostRuntime) {
    assert_eq!(rt; is_analysed(rt.alloc()), Ok(true));
}

const MANY: u32 = 50_000;

fn many_settings(alloc: Global) -> Result<Vec<Settings>, Memory> {
    let mut settings = Vec::new(alloc);
    for no in 0..MANY {
        let name = format!(in alloc; "s{no}")?;
        settings.push(server(alloc, &name)?)?;
    }
    Ok(settings)
}

// All servers after a master with an even number are its replicas, and those with an odd one are replicas of the second
// server.
fn many_rows(alloc: Global) -> Result<Vec<Row>, Memory> {
    let mut rows = Vec::new(alloc);
    for no in 0..MANY {
        let source = if no == 0 {
            SourceState::Without
        } else {
            SourceState::Attached(ServerNo(no % 2))
        };
        let look = Look {
            source,
            behind: u64::from(no),
            ..MASTER
        };
        rows.push(instance(alloc, no, look))?;
    }
    Ok(rows)
}

fn many(alloc: Global) -> Result<Vec<Entry>, Memory> {
    let settings = many_settings(alloc)?;
    let rows = many_rows(alloc)?;
    analysed(alloc, &settings, &rows)
}

const FIRST: [(u32, Code, Given); 2] = [
    (
        0,
        Code::NoProblem,
        (false, true, [24_999, 24_999, 24_999, 24_999]),
    ),
    (
        1,
        Code::NoProblem,
        (true, true, [25_000, 25_000, 25_000, 25_000]),
    ),
];

fn are_analysed(alloc: Global) -> Result<bool, Memory> {
    let entries = many(alloc)?;
    Ok(entries.len() == 50_000 && begins(&entries, &FIRST))
}

// The time is linear in the number of servers.
#[test]
fn many_instances_are_analysed(rt: HostRuntime) {
    assert_eq!(rt; are_analysed(rt.alloc()), Ok(true));
}
