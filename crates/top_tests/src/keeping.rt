//! Rows that the row store has before a call, by which the run begins.

use crate::calls::{Kept, RUN, WHOLE, Words, call, keeper_of, keeps};
use crate::orch_base::Rule;
use std::alloc::Global;
use std::test::Fail;

// A replica that the book lacks, a slot that a restart empties, and read numbers that go on after it.
const UNKNOWN: &str =
    "{\"version\":1,\"servers\":[{\"name\":\"m\"},{\"name\":\"r\",\"source\":\"m\",\"known\":false}],\"turns\":[[\"poll-read\",1,\"m\"],[\"poll-read\",1,\"r\"],[\"poll-store\",1],[\"poll-store\",1],[\"poll-read\",63,\"m\"],[\"restart\"],[\"poll-store\",63],[\"poll-read\",0,\"m\"]]}";

const ASKS: &str =
    r#"{"version":1,"servers":[{"name":"m"},{"name":"a","source":"m"}],"turns":[["tick",0],["restart"],["command","audit-recoveries",{}],["restart"],["tick",0]]}"#;

const ASKED: &str = "1 tick 0: now 11
2 restart: done
3 command audit-recoveries: done
  recovery 2 m:3306 master m:3306 begun 3 ended 4 promoted a:3306 unacked
  recovery 3 m:3306 master m:3306 begun 9 ended 11 interrupted unacked
  recovery 4 m:3306 master m:3306 begun 11 ended 11 interrupted unacked
4 restart: done
5 tick 0: now 11
";

const REGISTERED: &str =
    r#"{"version":1,"servers":[{"name":"m"},{"name":"a","source":"m","rule":"must_not"}],"turns":[["tick",1]]}"#;

// A cluster with a block period of its own.
const BLOCKS: &str =
    r#"{"version":1,"servers":[{"name":"m"},{"name":"a","source":"m"}],"blocks":{"m:3306":60}}"#;

const PAIR: &str = r#"{"version":1,"servers":[{"name":"m"},{"name":"a","source":"m"}]}"#;

// Too late to count: the number of a reading or a moment, and the number of a recovery.
const LATE: u64 = (1 << 63) + 1;

const FAR: u64 = (1 << 62) + 1;

// A command line, the status, and what out and err take.
type Step = (Words, (u8, &'static str, &'static str));

const AUDIT: &[Step] = &[
    (
        &[b"orch", b"-c", b"audit-recoveries"],
        (
            0,
            "recovery 1 m:3306 master m:3306 begun 5 ended 6 promoted a:3306 unacked\n",
            "",
        ),
    ),
    (
        &[b"orch", b"-c", b"ack-cluster-recoveries", b"-i", b"a"],
        (0, "acknowledged 1\n", ""),
    ),
    (
        &[b"orch", b"-c", b"ack-cluster-recoveries", b"-i", b"a"],
        (0, "acknowledged 0\n", ""),
    ),
    (
        &[b"orch", b"-c", b"audit-recoveries"],
        (
            0,
            "recovery 1 m:3306 master m:3306 begun 5 ended 6 promoted a:3306 acked\n",
            "",
        ),
    ),
    (&[b"orch", b"-c", b"replication-analysis"], (0, "", "")),
];

const DECISIONS: &[Step] = &[
    (
        &[
            b"orch",
            b"-c",
            b"begin-downtime",
            b"-i",
            b"m",
            b"--duration",
            b"10m",
        ],
        (0, "m:3306 until 600\n", ""),
    ),
    (
        &[
            b"orch",
            b"-c",
            b"begin-downtime",
            b"-i",
            b"m",
            b"--reason",
            b"disk",
            b"--owner",
            b"me",
        ],
        (0, "m:3306 until 600\n", ""),
    ),
    (
        &[b"orch", b"-c", b"end-downtime", b"-i", b"m"],
        (0, "m:3306\n", ""),
    ),
    (
        &[b"orch", b"-c", b"end-downtime", b"-i", b"m"],
        (0, "m:3306\n", ""),
    ),
    (
        &[
            b"orch",
            b"-c",
            b"register-candidate",
            b"-i",
            b"a",
            b"--promotion-rule",
            b"prefer_not",
        ],
        (0, "a:3306 prefer_not until 3600\n", ""),
    ),
    (
        &[b"orch", b"-c", b"register-candidate", b"-i", b"a"],
        (1, "", "usage\n"),
    ),
    (
        &[b"orch", b"-c", b"check-global-recoveries"],
        (0, "enabled\n", ""),
    ),
    (
        &[b"orch", b"-c", b"disable-global-recoveries"],
        (0, "disabled\n", ""),
    ),
    (
        &[b"orch", b"-c", b"check-global-recoveries"],
        (0, "disabled\n", ""),
    ),
    (
        &[b"orch", b"-c", b"enable-global-recoveries"],
        (0, "enabled\n", ""),
    ),
    (
        &[b"orch", b"-c", b"check-global-recoveries"],
        (0, "enabled\n", ""),
    ),
    (
        &[b"orch", b"-c", b"begin-downtime", b"-i", b"z"],
        (7, "", "refused 2 UnknownInstance\n"),
    ),
];

const SWITCH: &[Step] = &[(
    &[b"orch", b"-c", b"check-global-recoveries"],
    (0, "disabled\n", ""),
)];

// Whether a run of this scenario over these rows begins its report so, and the row store then has so many rows, these
// among them.
fn begins(
    alloc: Global,
    text: &str,
    kept: &[Kept],
    front: &str,
    (count, some): (usize, &[Kept]),
) -> Result<bool, Fail> {
    let mut keeper = keeper_of(alloc, kept, 0)?;
    let told = call(alloc, RUN, text.as_bytes(), WHOLE, &mut keeper)?;
    Ok(keeps(alloc, &mut keeper, count, some)? && told.begins(front))
}

#[test]
fn runs_begin_with_the_kept_rows(rt: HostRuntime) -> Result<(), Fail> {
    let alloc = rt.alloc();
    // The scenario, the rows, how the report begins, how many rows are kept then, and some of them.
    let cases: [(&str, &[Kept], &str, (usize, &[Kept])); 4] = [
        // A recovery that was kept without a block period has its cluster's from then on, and is interrupted.
        (
            BLOCKS,
            &[Kept::Unblocked],
            "server m:3306 ",
            (3, &[Kept::Interrupted(60)]),
        ),
        // The number of the master's reading counts. That of the replica, which isn't known, doesn't, and there is no
        // third server.
        (
            UNKNOWN,
            &[
                Kept::Instance(0, 40, 0),
                Kept::Instance(1, LATE, 0),
                Kept::Instance(2, 7, 0),
            ],
            "1 poll-read 1 m:3306: read 41\n2 poll-read 1 r:3306: unknown\n",
            (
                3,
                &[
                    Kept::Instance(0, 41, 0),
                    Kept::Instance(1, LATE, 0),
                    Kept::Instance(2, 7, 0),
                ],
            ),
        ),
        // Two unended recoveries of a cluster, an ended one, and two that don't count: the begin of one and the number
        // of the other are too late.
        (
            ASKS,
            &[
                Kept::Recovery(2, 3, Some(4)),
                Kept::Recovery(3, 9, None),
                Kept::Recovery(4, 11, None),
                Kept::Recovery(7, LATE, None),
                Kept::Recovery(FAR, 1, None),
            ],
            ASKED,
            (
                7,
                &[Kept::Recovery(7, LATE, None), Kept::Recovery(FAR, 1, None)],
            ),
        ),
        // The moment is not before a kept one, and the scenario's registration is in the place of the kept one.
        (
            REGISTERED,
            &[Kept::Downtime(40, 90), Kept::Candidate(Rule::Prefer, 50)],
            "1 tick 1: now 41\n",
            (4, &[Kept::Candidate(Rule::MustNot, 3640)]),
        ),
    ];
    for (text, kept, front, after) in cases {
        assert!(rt; begins(alloc, text, kept, front, after)?, "not {front}");
    }
    Ok(())
}

// The first of the steps, from 0, that doesn't answer so over what those before it kept, the first over these rows.
// Else the number of steps, if the row store then hasn't so many rows, these among them.
fn steps_taken(
    alloc: Global,
    kept: &[Kept],
    steps: &[Step],
    (count, some): (usize, &[Kept]),
) -> Result<Option<usize>, Fail> {
    let mut keeper = keeper_of(alloc, kept, 0)?;
    for (at, (words, (status, out, err))) in steps.iter().enumerate() {
        let told = call(alloc, words, PAIR.as_bytes(), WHOLE, &mut keeper)?;
        if told.all() != (*status, Some(*out), Some(*err)) {
            return Ok(Some(at));
        }
    }
    let keeps = keeps(alloc, &mut keeper, count, some)?;
    Ok(if keeps { None } else { Some(steps.len()) })
}

#[test]
fn commands_answer_over_what_is_kept(rt: HostRuntime) -> Result<(), Fail> {
    let alloc = rt.alloc();
    let ended: &[Kept] = &[Kept::Recovery(1, 5, Some(6))];
    let decided: &[Kept] = &[Kept::Candidate(Rule::PreferNot, 3600), Kept::Switch(true)];
    let off: &[Kept] = &[
        Kept::Downtime(40, 90),
        Kept::Candidate(Rule::MustNot, 3640),
        Kept::Switch(false),
    ];
    // The rows, the commands; how many rows are kept then, and some of them.
    let cases: [(&[Kept], &[Step], (usize, &[Kept])); 3] = [
        (ended, AUDIT, (3, &[])),
        (&[], DECISIONS, (4, decided)),
        (off, SWITCH, (5, off)),
    ];
    for (kept, steps, after) in cases {
        assert_eq!(rt; steps_taken(alloc, kept, steps, after)?, None);
    }
    Ok(())
}
