//! Exchanges with servers: what each answers, and what is seen then.

use crate::binlog_coords_items::Coord;
use crate::exchanges::{Answer, Gtids, Seen, Step, take};
use crate::given::{Given, MASTER, REPLICA, world_of};
use crate::orch_base::{IoState, ServerNo, SourceState, Txn};
use crate::server_model::{
    ApplyAnswer, FetchAnswer, Link, Plain, PurgeAnswer, Spot, Threads, World, WriteAnswer,
};
use openings::Part;
use std::alloc::Global;
use std::test::Fail;

const M: ServerNo = ServerNo(0);

const R: ServerNo = ServerNo(1);

const S: ServerNo = ServerNo(2);

/// Two and three transactions of 100 bytes of the first server.
const TWO: &[Part] = &[Part {
    origin: ServerNo(0),
    size: 100,
    count: 2,
}];

const THREE: &[Part] = &[Part {
    origin: ServerNo(0),
    size: 100,
    count: 3,
}];

/// The start of a log, and the ends of its first transactions of 100 bytes, if they are in one file.
const START: Coord = Coord { file: 1, pos: 4 };

const FIRST: Coord = Coord { file: 1, pos: 104 };

const SECOND: Coord = Coord { file: 1, pos: 204 };

const THIRD: Coord = Coord { file: 1, pos: 304 };

/// No GTIDs.
const NONE: Gtids = Gtids(0, [false, false, false]);

/// A source whose files hold one transaction each, three in all.
const SMALL_FILES: Given = Given {
    limit: 100,
    history: THREE,
    ..MASTER
};

/// Servers, and steps in order with what each answers.
#[derive(Clone, Copy)]
struct Story {
    servers: &'static [Given],
    gtid: bool,
    rows: &'static [(ServerNo, Step, Answer)],
}

/// A replica of the first server over a rotation.
const ROTATED: Plain = Plain {
    up: true,
    desk: true,
    feed: true,
    read_only: true,
    source: SourceState::Attached(M),
    exec: Coord { file: 2, pos: 4 },
    read: Coord { file: 2, pos: 104 },
    auto: false,
    receiver: true,
    applier: true,
    until: None,
    first: 1,
};

/// A source with files of 200 bytes and a flush after its first transaction. A replica without a log that has read one
/// transaction more than it has executed, over a rotation. And a detached server.
const OPENS: Story = Story {
    servers: &[
        Given {
            limit: 200,
            history: THREE,
            flushes: &[1],
            ..MASTER
        },
        Given {
            logs: false,
            executed: 1,
            at: Some(Coord { file: 2, pos: 4 }),
            read: Some(Coord { file: 2, pos: 104 }),
            ..REPLICA
        },
        Given {
            name: "s",
            executed: 2,
            detached: true,
            ..REPLICA
        },
    ],
    gtid: false,
    rows: &[
        (M, Step::Executed, Answer::Count(3)),
        (M, Step::End, Answer::Ends(Some(Coord { file: 3, pos: 4 }))),
        (
            M,
            Step::Plain,
            Answer::Is(Plain {
                read_only: false,
                source: SourceState::Without,
                exec: START,
                read: START,
                receiver: false,
                applier: false,
                ..ROTATED
            }),
        ),
        (R, Step::Executed, Answer::Count(1)),
        (R, Step::End, Answer::Ends(None)),
        (R, Step::Plain, Answer::Is(ROTATED)),
        (S, Step::Executed, Answer::Count(2)),
        (S, Step::End, Answer::Ends(Some(SECOND))),
        (
            S,
            Step::Plain,
            Answer::Is(Plain {
                source: SourceState::Detached(M),
                exec: Coord { file: 2, pos: 104 },
                receiver: false,
                applier: false,
                ..ROTATED
            }),
        ),
    ],
};

/// A replica goes on at the start of its source's log once it has stopped at the expected position.
const ATTACHES: Story = Story {
    servers: &[
        Given {
            history: TWO,
            ..MASTER
        },
        REPLICA,
    ],
    gtid: false,
    rows: &[
        (R, Step::Fetch, Answer::Fetched(FetchAnswer::Got(FIRST))),
        (
            R,
            Step::AttachAt(Spot::At(M, START), M, START),
            Answer::Running(Spot::At(M, START)),
        ),
        (R, Step::Stop(Threads::Both), Answer::Done),
        (
            R,
            Step::AttachAt(Spot::At(M, FIRST), M, START),
            Answer::Interfered(Spot::At(M, FIRST), Spot::At(M, START)),
        ),
        (
            R,
            Step::AttachAt(Spot::At(M, START), M, START),
            Answer::Done,
        ),
        (
            M,
            Step::AttachAt(Spot::OwnEnd(SECOND), R, START),
            Answer::Loop,
        ),
        (R, Step::Start, Answer::Done),
        (R, Step::Fetch, Answer::Fetched(FetchAnswer::Got(FIRST))),
        (R, Step::Apply, Answer::Applied(ApplyAnswer::Done(FIRST))),
        (R, Step::Executed, Answer::Count(1)),
    ],
};

/// An applier stops at the position at which it was to stop.
const STOPS: Story = Story {
    servers: &[
        Given {
            history: TWO,
            ..MASTER
        },
        Given {
            executed: 1,
            ..REPLICA
        },
    ],
    gtid: false,
    rows: &[
        (R, Step::Stop(Threads::Both), Answer::Done),
        (R, Step::StartUntil(FIRST), Answer::Done),
        (R, Step::Fetch, Answer::Fetched(FetchAnswer::Got(SECOND))),
        (R, Step::Apply, Answer::Applied(ApplyAnswer::AtUntil)),
        (R, Step::Apply, Answer::Applied(ApplyAnswer::Stopped)),
    ],
};

/// A replica goes below its sibling by GTIDs, and skips what it has executed. The sibling has a transaction of its own.
const BY_SETS: Story = Story {
    servers: &[
        Given {
            history: TWO,
            ..MASTER
        },
        Given {
            executed: 2,
            ..REPLICA
        },
        Given {
            name: "s",
            executed: 1,
            read_only: false,
            ..REPLICA
        },
    ],
    gtid: true,
    rows: &[
        (S, Step::Write(100), Answer::Wrote(WriteAnswer::Done(1))),
        (S, Step::Fetch, Answer::Fetched(FetchAnswer::Got(SECOND))),
        (S, Step::Apply, Answer::Applied(ApplyAnswer::Done(SECOND))),
        (
            S,
            Step::Status,
            Answer::Saw(Seen {
                own_end: Some(THIRD),
                source: SourceState::Attached(M),
                exec: SECOND,
                read: SECOND,
                auto: false,
                io: IoState::Yes,
                sql: true,
                read_only: false,
                set: Gtids(3, [true, true, true]),
                first: 1,
                purged: NONE,
            }),
        ),
        (R, Step::Stop(Threads::Both), Answer::Done),
        (R, Step::AttachAuto(S), Answer::Done),
        (
            R,
            Step::Status,
            Answer::Saw(Seen {
                own_end: Some(SECOND),
                source: SourceState::Attached(S),
                exec: FIRST,
                read: FIRST,
                auto: true,
                io: IoState::No,
                sql: false,
                read_only: true,
                set: Gtids(2, [true, true, false]),
                first: 1,
                purged: NONE,
            }),
        ),
        (R, Step::Start, Answer::Done),
        (R, Step::Fetch, Answer::Fetched(FetchAnswer::Got(SECOND))),
        (R, Step::Apply, Answer::Applied(ApplyAnswer::Done(SECOND))),
        (R, Step::Fetch, Answer::Fetched(FetchAnswer::Got(THIRD))),
        (R, Step::Apply, Answer::Applied(ApplyAnswer::Skipped(THIRD))),
        (R, Step::Executed, Answer::Count(3)),
        (R, Step::Errant, Answer::Count(1)),
        (S, Step::Stop(Threads::Both), Answer::Done),
        (
            S,
            Step::AttachAuto(M),
            Answer::Errant(Gtids(1, [false, false, true])),
        ),
    ],
};

/// What a status would show of a server that isn't reached.
const UNREACHED: Story = Story {
    servers: &[MASTER, REPLICA],
    gtid: false,
    rows: &[
        (R, Step::Cut(Link::Feed), Answer::Done),
        (R, Step::Cut(Link::Desk), Answer::Done),
        (R, Step::Status, Answer::Unreachable),
        (
            R,
            Step::Shows,
            Answer::Saw(Seen {
                own_end: Some(START),
                source: SourceState::Attached(M),
                exec: START,
                read: START,
                auto: false,
                io: IoState::Connecting,
                sql: true,
                read_only: true,
                set: NONE,
                first: 1,
                purged: NONE,
            }),
        ),
    ],
};

/// A file that a replica reads stays, until the replica doesn't reach its source. Then it is purged, and the replica is
/// refused. What is purged already isn't purged again.
const PURGES: Story = Story {
    servers: &[
        SMALL_FILES,
        Given {
            executed: 1,
            ..REPLICA
        },
        Given {
            name: "s",
            logs: false,
            executed: 3,
            ..REPLICA
        },
    ],
    gtid: false,
    rows: &[
        (M, Step::Purge(3), Answer::Purged(PurgeAnswer::Done(1))),
        (R, Step::Cut(Link::Feed), Answer::Done),
        (M, Step::Purge(3), Answer::Purged(PurgeAnswer::Done(3))),
        (M, Step::Purge(2), Answer::Purged(PurgeAnswer::Done(3))),
        (R, Step::Join(Link::Feed), Answer::Done),
        (R, Step::Fetch, Answer::Fetched(FetchAnswer::Purged(3))),
        (R, Step::Fetch, Answer::Fetched(FetchAnswer::Stopped)),
        (M, Step::Purge(9), Answer::Purged(PurgeAnswer::NoFile)),
        (S, Step::Purge(1), Answer::Purged(PurgeAnswer::NotLogging)),
        (M, Step::Logged(1), Answer::Logs(None)),
        (
            M,
            Step::Logged(2),
            Answer::Logs(Some(Txn {
                origin: M,
                seq: 3,
                size: 100,
            })),
        ),
        (M, Step::Logged(3), Answer::Logs(None)),
        (S, Step::Logged(0), Answer::Logs(None)),
        (M, Step::Cut(Link::Desk), Answer::Done),
        (M, Step::Logged(2), Answer::Unreachable),
    ],
};

/// By a set a replica goes on at the start of the first kept file if it has executed all that is purged. One that has
/// not is attached neither by the set nor at a purged coordinate.
const PURGED_SETS: Story = Story {
    servers: &[
        Given {
            purged: 3,
            ..SMALL_FILES
        },
        Given {
            executed: 2,
            ..REPLICA
        },
        Given {
            name: "s",
            executed: 1,
            ..REPLICA
        },
    ],
    gtid: true,
    rows: &[
        (R, Step::Stop(Threads::Both), Answer::Done),
        (R, Step::AttachAuto(M), Answer::Done),
        (
            R,
            Step::Plain,
            Answer::Is(Plain {
                exec: Coord { file: 3, pos: 4 },
                read: Coord { file: 3, pos: 4 },
                auto: true,
                receiver: false,
                applier: false,
                ..ROTATED
            }),
        ),
        (S, Step::Stop(Threads::Both), Answer::Done),
        (S, Step::AttachAuto(M), Answer::Gone(3)),
        (
            S,
            Step::AttachAt(Spot::At(M, FIRST), M, FIRST),
            Answer::Gone(3),
        ),
        (
            M,
            Step::Status,
            Answer::Saw(Seen {
                own_end: Some(Coord { file: 4, pos: 4 }),
                source: SourceState::Without,
                exec: START,
                read: START,
                auto: false,
                io: IoState::No,
                sql: false,
                read_only: false,
                set: Gtids(3, [true, true, false]),
                first: 3,
                purged: Gtids(2, [true, true, false]),
            }),
        ),
    ],
};

// The first row, counted from 0, whose step answers otherwise.
fn differing(alloc: Global, world: &mut World, rows: &[(ServerNo, Step, Answer)]) -> Option<usize> {
    for (k, (no, step, answer)) in rows.iter().enumerate() {
        if take(alloc, world, *no, *step) != *answer {
            return Some(k);
        }
    }
    None
}

fn differing_row(alloc: Global, story: &Story) -> Result<Option<usize>, Fail> {
    let mut world = world_of(alloc, story.servers, story.gtid, 4, 2)?;
    Ok(differing(alloc, &mut world, story.rows))
}

const STORIES: &[Story] = &[
    OPENS,
    ATTACHES,
    STOPS,
    BY_SETS,
    UNREACHED,
    PURGES,
    PURGED_SETS,
];

// The first story and its row, counted from 0, that go otherwise.
fn differing_story(alloc: Global) -> Result<Option<(usize, usize)>, Fail> {
    for (n, story) in STORIES.iter().enumerate() {
        if let Some(k) = differing_row(alloc, story)? {
            return Ok(Some((n, k)));
        }
    }
    Ok(None)
}

#[test]
fn steps_answer_as_told(rt: HostRuntime) -> Result<(), Fail> {
    assert_eq!(rt; differing_story(rt.alloc())?, None);
    Ok(())
}
