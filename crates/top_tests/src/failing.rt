//! Sources, sinks and row stores that fail at one of their calls.

use crate::calls::{Kept, Objects, RUN, Told, WHOLE, Words, call, keeper_of, keeps};
use crate::orch_base::MAX_SCENARIO_LEN;
use std::alloc::Global;
use std::test::Fail;

// A master with five transactions of 100 bytes, and a replica that catches up.
const CATCHES_UP: &str =
    "{\"version\":1,\"servers\":[{\"name\":\"m\",\"history\":[[\"m\",100,5]]},{\"name\":\"r\",\"source\":\"m\",\"executed\":2}],\"turns\":[[\"fetch\",\"r\"],[\"apply\",\"r\"],[\"fetch\",\"r\"],[\"apply\",\"r\"],[\"fetch\",\"r\"],[\"apply\",\"r\"]]}";

const CAUGHT_UP: &str = "1 fetch r:3306: got mysql-bin.000001:304
2 apply r:3306: done mysql-bin.000001:304
3 fetch r:3306: got mysql-bin.000001:404
4 apply r:3306: done mysql-bin.000001:404
5 fetch r:3306: got mysql-bin.000001:504
6 apply r:3306: done mysql-bin.000001:504
server m:3306 up rw executed 5 end mysql-bin.000001:504 source none
server r:3306 up ro executed 5 end mysql-bin.000001:504 source m:3306 at mysql-bin.000001:504 read mysql-bin.000001:504 io on sql on
errant 0
";

// The first hundred bytes of it.
const FRONT: &str =
    "1 fetch r:3306: got mysql-bin.000001:304\n2 apply r:3306: done mysql-bin.000001:304\n3 fetch r:3306: g";

const SUM: Words = &[b"orch", b"-c", b"run", b"--summary"];

const DUMP: Words = &[b"orch", b"-c", b"dump"];

// A command that is done, and one that is refused, with the servers after it.
const STOP: Words = &[b"orch", b"-c", b"stop-replica", b"-i", b"a", b"--dump"];

const MOVE: Words = &[b"orch", b"-c", b"move-up", b"-i", b"a", b"--dump"];

const DRAW: Words = &[
    b"orch",
    b"-c",
    b"generate",
    b"--seed",
    b"7",
    b"--servers",
    b"1",
    b"--turns",
    b"0",
];

const RECOVER: Words = &[b"orch", b"-c", b"recover", b"-i", b"c1m"];

// Three clusters of 40 servers, the master of the first of which fails.
const CLUSTERS: &str =
    r#"{"version":1,"servers":[{"name":"c1m","history":[["c1m",500,100]]},{"name":"c1r01","source":"c1m","executed":100},{"name":"c1r02","source":"c1m","executed":100},{"name":"c1r03","source":"c1m","executed":100},{"name":"c1r04","source":"c1m","executed":100},{"name":"c1r05","source":"c1m","executed":100},{"name":"c1r06","source":"c1m","executed":100},{"name":"c1r07","source":"c1m","executed":100},{"name":"c1r08","source":"c1m","executed":100},{"name":"c1r09","source":"c1m","executed":100},{"name":"c1r10","source":"c1m","executed":100},{"name":"c1r11","source":"c1m","executed":100},{"name":"c1r12","source":"c1m","executed":100},{"name":"c1r13","source":"c1m","executed":100},{"name":"c2m","history":[["c2m",500,100]]},{"name":"c2r01","source":"c2m","executed":100},{"name":"c2r02","source":"c2m","executed":100},{"name":"c2r03","source":"c2m","executed":100},{"name":"c2r04","source":"c2m","executed":100},{"name":"c2r05","source":"c2m","executed":100},{"name":"c2r06","source":"c2m","executed":100},{"name":"c2r07","source":"c2m","executed":100},{"name":"c2r08","source":"c2m","executed":100},{"name":"c2r09","source":"c2m","executed":100},{"name":"c2r10","source":"c2m","executed":100},{"name":"c2r11","source":"c2m","executed":100},{"name":"c2r12","source":"c2m","executed":100},{"name":"c3m","history":[["c3m",500,100]]},{"name":"c3r01","source":"c3m","executed":100},{"name":"c3r02","source":"c3m","executed":100},{"name":"c3r03","source":"c3m","executed":100},{"name":"c3r04","source":"c3m","executed":100},{"name":"c3r05","source":"c3m","executed":100},{"name":"c3r06","source":"c3m","executed":100},{"name":"c3r07","source":"c3m","executed":100},{"name":"c3r08","source":"c3m","executed":100},{"name":"c3r09","source":"c3m","executed":100},{"name":"c3r10","source":"c3m","executed":100},{"name":"c3r11","source":"c3m","executed":100},{"name":"c3r12","source":"c3m","executed":100}],"turns":[["polls"],["fail","c1m"],["polls"]]}"#;

const RECOVERED: &str = "promoted c1r01:3306
c1r02:3306<c1r01:3306
c1r03:3306<c1r01:3306
c1r04:3306<c1r01:3306
c1r05:3306<c1r01:3306
c1r06:3306<c1r01:3306
c1r07:3306<c1r01:3306
c1r08:3306<c1r01:3306
c1r09:3306<c1r01:3306
c1r10:3306<c1r01:3306
c1r11:3306<c1r01:3306
c1r12:3306<c1r01:3306
c1r13:3306<c1r01:3306
";

// A server alone.
const ALONE: &str = "{\"version\":1,\"servers\":[{\"name\":\"m\"}]}";

// A server and its replica, and no turns.
const PAIR: &str = r#"{"version":1,"servers":[{"name":"m"},{"name":"a","source":"m"}]}"#;

// A replica that accepts a write.
const WRITES: &str =
    r#"{"version":1,"servers":[{"name":"m"},{"name":"a","source":"m","read_only":false}],"turns":[["write","a",10]]}"#;

// The servers that catch up, and one poll of each.
const POLLS: &str =
    "{\"version\":1,\"servers\":[{\"name\":\"m\",\"history\":[[\"m\",100,5]]},{\"name\":\"r\",\"source\":\"m\",\"executed\":2}],\"turns\":[[\"polls\"]]}";

const POLLED: &str = "1 poll-read 0 m:3306: read 1
2 poll-store 0: stored
3 poll-read 0 r:3306: read 2
4 poll-store 0: stored
server m:3306 up rw executed 5 end mysql-bin.000001:504 source none
server r:3306 up ro executed 2 end mysql-bin.000001:204 source m:3306 at mysql-bin.000001:204 read mysql-bin.000001:204 io on sql on
errant 0
";

const POLLED_ONE: &str = "1 poll-read 0 m:3306: read 1
2 poll-store 0: stored
3 poll-read 0 r:3306: read 2
";

/// A recovery is interrupted by a restart, and blocks the next.
pub(crate) const RESTARTS: &str =
    r#"{"version":1,"servers":[{"name":"m","history":[["m",100,1]]},{"name":"a","source":"m","executed":1}],"turns":[["fail","m"],["polls"],["command","recover",{"i":"m"}],["restart"],["command","recover",{"i":"m"}]]}"#;

// The switch is enabled as it is, enabled again, disabled; then one more turn.
const SWITCHES: &str =
    r#"{"version":1,"servers":[{"name":"m"}],"turns":[["command","enable-global-recoveries",{}],["command","enable-global-recoveries",{}],["command","disable-global-recoveries",{}],["tick",1]]}"#;

const INTERRUPTED: &str =
    r#"{"version":1,"servers":[{"name":"m"},{"name":"a","source":"m"}],"turns":[["command","audit-recoveries",{}],["command","ack-cluster-recoveries",{"i":"m"}],["restart"]]}"#;

const IS_INTERRUPTED: &str = "1 command audit-recoveries: done
  recovery 1 m:3306 master m:3306 begun 5 ended 5 interrupted unacked
2 command ack-cluster-recoveries m:3306: done
  acknowledged 1
3 restart: done
server m:3306 up rw executed 0 end mysql-bin.000001:4 source none
server a:3306 up ro executed 0 end mysql-bin.000001:4 source m:3306 at mysql-bin.000001:4 read mysql-bin.000001:4 io on sql on
recovery 1 m:3306 master m:3306 begun 5 ended 5 interrupted acked
errant 0
";

const SWITCHED: &str =
    "1 command enable-global-recoveries: done\n  enabled\n2 command enable-global-recoveries: done\n  enabled\n";

fn over_no_rows(alloc: Global, words: Words, text: &[u8], objects: Objects) -> Result<Told, Fail> {
    let mut keeper = keeper_of(alloc, &[], 0)?;
    call(alloc, words, text, objects, &mut keeper)
}

#[test]
fn words_sources_and_sinks(rt: HostRuntime) -> Result<(), Fail> {
    let alloc = rt.alloc();
    let forget: Words = &[b"orch", b"-c", b"forget", b"-i", b"z", b"--tables"];
    // The command line and the scenario, the calls of the source and of out that fail, and the room of out and of err.
    // Then the status, and what out and err took.
    let cases: [(Words, &str, [u64; 2], [usize; 2], (u8, &str, &str)); 12] = [
        (STOP, PAIR, [0, 0], [2000, 3], (4, "", "a:3")),
        (&[], ALONE, [0, 0], [100, 100], (1, "", "usage\n")),
        (&[b"orch"], ALONE, [0, 0], [100, 100], (1, "", "usage\n")),
        (
            &[b"orch", b"-c", b"run", b"\xff"],
            ALONE,
            [0, 0],
            [100, 100],
            (1, "", "usage\n"),
        ),
        (
            RUN,
            CATCHES_UP,
            [1, 0],
            [2000, 100],
            (3, "", "read fault\n"),
        ),
        (
            RUN,
            CATCHES_UP,
            [0, 1],
            [2000, 100],
            (4, "", "write fault\n"),
        ),
        (RUN, CATCHES_UP, [0, 2], [2000, 100], (0, CAUGHT_UP, "")),
        (
            RUN,
            CATCHES_UP,
            [0, 2],
            [100, 100],
            (4, FRONT, "write fault\n"),
        ),
        (
            RUN,
            CATCHES_UP,
            [0, 0],
            [100, 100],
            (4, FRONT, "write fault\n"),
        ),
        (
            RECOVER,
            CLUSTERS,
            [0, 1],
            [2000, 100],
            (4, "", "write fault\n"),
        ),
        (RECOVER, CLUSTERS, [0, 2], [2000, 100], (0, RECOVERED, "")),
        (forget, ALONE, [0, 0], [100, 12], (4, "", "refused 2 Un")),
    ];
    for (
        words,
        text,
        [source_fails, out_fails],
        [out_room, err_room],
        (status, out, err),
    ) in cases {
        let objects = Objects {
            source_fails,
            out_fails,
            out_room,
            err_room,
            ..WHOLE
        };
        let told = over_no_rows(alloc, words, text.as_bytes(), objects)?;
        assert_eq!(rt; told.all(), (status, Some(out), Some(err)));
    }
    Ok(())
}

// What this command line answers over these rows, the row store of which fails at this call. Also whether the row store
// then has so many rows, these among them.
fn over_rows(
    alloc: Global,
    words: Words,
    text: &str,
    kept: &[Kept],
    objects: Objects,
    (count, some): (usize, &[Kept]),
) -> Result<(Told, bool), Fail> {
    let mut keeper = keeper_of(alloc, kept, objects.keeper_fails)?;
    let told = call(alloc, words, text.as_bytes(), objects, &mut keeper)?;
    let keeps = keeps(alloc, &mut keeper, count, some)?;
    Ok((told, keeps))
}

#[test]
fn keepers(rt: HostRuntime) -> Result<(), Fail> {
    let alloc = rt.alloc();
    let master: &[Kept] = &[Kept::Instance(0, 0, 0)];
    let both: &[Kept] = &[Kept::Instance(0, 0, 0), Kept::Instance(1, 0, 0)];
    let fault = "keeper fault\n";
    // The scenario, the rows, the call of the row store that fails (the first asks for the rows, the second keeps what
    // the opening changes), and the room of out. Then the status, what out and err took, how many rows are kept then,
    // and some of them.
    let cases: [(
        &str,
        &[Kept],
        u64,
        usize,
        (u8, &str, &str),
        (usize, &[Kept]),
    ); 11] = [
        (POLLS, &[], 1, 2000, (5, "", fault), (0, &[])),
        (POLLS, &[], 2, 2000, (5, "", fault), (0, &[])),
        (
            POLLS,
            &[],
            3,
            2000,
            (5, "1 poll-read 0 m:3306: read 1\n", fault),
            (2, &[]),
        ),
        (POLLS, &[], 4, 2000, (5, POLLED_ONE, fault), (2, &[])),
        (POLLS, &[], 4, 7, (4, "1 poll-", "write fault\n"), (2, &[])),
        (POLLS, &[], 5, 2000, (0, POLLED, ""), (2, &[])),
        (
            RESTARTS,
            &[],
            3,
            2000,
            (
                5,
                "1 fail m:3306: done\n2 poll-read 0 a:3306: read 1\n",
                fault,
            ),
            (2, &[]),
        ),
        (
            INTERRUPTED,
            &[Kept::Recovery(1, 5, None)],
            0,
            2000,
            (0, IS_INTERRUPTED, ""),
            (3, &[]),
        ),
        (CATCHES_UP, both, 2, 2000, (0, CAUGHT_UP, ""), (2, both)),
        (SWITCHES, master, 2, 2000, (5, "", fault), (1, master)),
        (
            SWITCHES,
            master,
            3,
            2000,
            (5, SWITCHED, fault),
            (2, &[Kept::Instance(0, 0, 0), Kept::Switch(true)]),
        ),
    ];
    for (text, kept, keeper_fails, out_room, (status, out, err), after) in cases {
        let objects = Objects {
            keeper_fails,
            out_room,
            ..WHOLE
        };
        let (told, keeps) = over_rows(alloc, RUN, text, kept, objects, after)?;
        assert_eq!(rt;
            (told.all(), keeps),
            ((status, Some(out), Some(err)), true),
            "at {keeper_fails}"
        );
    }
    Ok(())
}

#[test]
fn summaries_dumps_and_drawings(rt: HostRuntime) -> Result<(), Fail> {
    let alloc = rt.alloc();
    let none: &[Kept] = &[];
    let ended: &[Kept] = &[Kept::Recovery(1, 5, Some(6))];
    let drawn =
        "{\"servers\":[{\"history\":[[\"s0001\",100,20]],\"name\":\"s0001\"}],\"turns\":[],\"version\":1}\n";
    let polled = "turns 4 refused 0 failed 0\nexecuted 7\nrecoveries 0\nerrant 0\n";
    let loaded = "turns 0 refused 0 failed 0\nexecuted 0\nrecoveries 1\nerrant 0\n";
    let wanting = "write fault\n";
    let not_quiet = "refused 29 NotQuiet 1\n";
    let stopped = "a:3306\nwrite fault\n";
    let written = "a:3306\nrefused 29 NotQuiet 1\n";
    let refused = "refused 11 SourceHasNoSource\nwrite fault\n";
    let both = "refused 11 SourceHasNoSource\nrefused 29 NotQuiet 1\n";
    // The command line, the scenario and the rows; the calls of the source, of out and of the row store that fail, and
    // the room of out. Then the status, what out and err took, and how many rows are kept then.
    let cases: [(
        Words,
        &str,
        &[Kept],
        [u64; 3],
        usize,
        (u8, &str, &str),
        usize,
    ); 25] = [
        (SUM, POLLS, none, [0, 0, 0], 2000, (0, polled, ""), 2),
        (
            SUM,
            POLLS,
            none,
            [1, 0, 0],
            2000,
            (3, "", "read fault\n"),
            0,
        ),
        (SUM, POLLS, none, [0, 1, 0], 2000, (4, "", wanting), 2),
        (SUM, POLLS, none, [0, 0, 0], 9, (4, "turns 4 r", wanting), 2),
        (
            SUM,
            POLLS,
            none,
            [0, 0, 2],
            2000,
            (5, "", "keeper fault\n"),
            0,
        ),
        (
            SUM,
            POLLS,
            none,
            [0, 0, 4],
            2000,
            (5, "", "keeper fault\n"),
            2,
        ),
        (SUM, POLLS, none, [0, 0, 5], 2000, (0, polled, ""), 2),
        (SUM, PAIR, ended, [0, 0, 0], 2000, (0, loaded, ""), 3),
        (
            DUMP,
            PAIR,
            none,
            [1, 0, 0],
            2000,
            (3, "", "read fault\n"),
            0,
        ),
        (DUMP, PAIR, none, [0, 1, 0], 2000, (4, "", wanting), 2),
        (
            DUMP,
            PAIR,
            none,
            [0, 0, 0],
            11,
            (4, "{\"aliases\":", wanting),
            2,
        ),
        (
            DUMP,
            POLLS,
            none,
            [0, 0, 4],
            2000,
            (5, "", "keeper fault\n"),
            2,
        ),
        (DUMP, WRITES, none, [0, 0, 0], 2000, (7, "", not_quiet), 2),
        (DUMP, WRITES, none, [0, 1, 0], 2000, (7, "", not_quiet), 2),
        (STOP, PAIR, none, [0, 1, 0], 2000, (4, "", stopped), 2),
        (
            STOP,
            PAIR,
            none,
            [0, 0, 0],
            11,
            (4, "{\"aliases\":", stopped),
            2,
        ),
        (
            STOP,
            PAIR,
            none,
            [0, 0, 3],
            2000,
            (5, "", "keeper fault\n"),
            2,
        ),
        (STOP, WRITES, none, [0, 1, 0], 2000, (7, "", written), 2),
        (MOVE, PAIR, none, [0, 1, 0], 2000, (4, "", refused), 2),
        (MOVE, WRITES, none, [0, 0, 0], 2000, (7, "", both), 2),
        (DRAW, "", none, [0, 0, 0], 2000, (0, drawn, ""), 0),
        (DRAW, POLLS, ended, [1, 0, 1], 2000, (0, drawn, ""), 1),
        (DRAW, POLLS, none, [0, 1, 0], 2000, (4, "", wanting), 0),
        (
            DRAW,
            POLLS,
            none,
            [0, 0, 0],
            12,
            (4, "{\"servers\":[", wanting),
            0,
        ),
        (DRAW, POLLS, none, [0, 2, 0], 2000, (0, drawn, ""), 0),
    ];
    for (
        words,
        text,
        kept,
        [source_fails, out_fails, keeper_fails],
        out_room,
        (status, out, err),
        count,
    ) in cases {
        let objects = Objects {
            source_fails,
            out_fails,
            keeper_fails,
            out_room,
            ..WHOLE
        };
        let (told, keeps) = over_rows(alloc, words, text, kept, objects, (count, &[]))?;
        assert_eq!(rt; (told.all(), keeps), ((status, Some(out), Some(err)), true));
    }
    Ok(())
}

// More than a piece of lines, and then a poll that changes the kept row.
fn ticks_and_polls(alloc: Global) -> Result<String, Fail> {
    let mut text = String::from_str(
        alloc,
        "{\"version\":1,\"servers\":[{\"name\":\"m\"}],\"turns\":[",
    )?;
    for _ in 0..4000 {
        text.push_str("[\"tick\",1],")?;
    }
    text.push_str("[\"polls\"]]}")?;
    Ok(text)
}

#[test]
fn all_turns_are_taken_where_out_fails(rt: HostRuntime) -> Result<(), Fail> {
    let alloc = rt.alloc();
    let text = ticks_and_polls(alloc)?;
    let objects = Objects {
        out_room: 100,
        ..WHOLE
    };
    let polled = (1, [Kept::Instance(0, 1, 4000)].as_slice());
    let (told, keeps) = over_rows(alloc, RUN, text.as_str(), &[], objects, polled)?;
    let out =
        "1 tick 1: now 1\n2 tick 1: now 2\n3 tick 1: now 3\n4 tick 1: now 4\n5 tick 1: now 5\n6 tick 1: now 6\n7 ti";
    assert_eq!(rt;
        (told.all(), keeps),
        ((4, Some(out), Some("write fault\n")), true)
    );
    Ok(())
}

// A text that spaces fill up to so many bytes.
fn filled(alloc: Global, text: &str, len: usize) -> Result<Vec<u8>, Fail> {
    let mut bytes = Vec::from_slice(alloc, text.as_bytes())?;
    bytes.resize(len, b' ')?;
    Ok(bytes)
}

#[test]
fn one_byte_too_many(rt: HostRuntime) -> Result<(), Fail> {
    let alloc = rt.alloc();
    let alone = "server m:3306 up rw executed 0 end mysql-bin.000001:4 source none\nerrant 0\n";
    let too_long = "scenario fault 1 TooLong\n";
    for (len, status, out, err) in [
        (MAX_SCENARIO_LEN, 0, alone, ""),
        (MAX_SCENARIO_LEN + 1, 2, "", too_long),
    ] {
        let told = over_no_rows(alloc, RUN, &filled(alloc, ALONE, len)?, WHOLE)?;
        assert_eq!(rt; told.all(), (status, Some(out), Some(err)));
    }
    Ok(())
}

// A scenario of one server more than it may have.
fn crowded(alloc: Global) -> Result<String, Fail> {
    let mut text = String::from_str(alloc, "{\"version\":1,\"servers\":[{\"name\":\"m\"}")?;
    for _ in 0..1000 {
        text.push_str(",{\"name\":\"m\"}")?;
    }
    text.push_str("]}")?;
    Ok(text)
}

#[test]
fn one_server_too_many(rt: HostRuntime) -> Result<(), Fail> {
    let alloc = rt.alloc();
    let text = crowded(alloc)?;
    let told = over_no_rows(alloc, RUN, text.as_bytes(), WHOLE)?;
    let fault = "scenario fault 9 BadNumber /servers\n";
    assert_eq!(rt; told.all(), (2, Some(""), Some(fault)));
    Ok(())
}

// The length of the last proper prefix of a text that isn't refused as no JSON.
fn taken_prefix(alloc: Global, text: &str) -> Result<Option<usize>, Fail> {
    let mut taken = None;
    for len in 0..text.len() {
        let prefix = text.as_bytes().get(..len).unwrap_or(text.as_bytes());
        let told = over_no_rows(alloc, RUN, prefix, WHOLE)?;
        if told.all() != (2, Some(""), Some("scenario fault 2 NotJson\n")) {
            taken = Some(len);
        }
    }
    Ok(taken)
}

#[test]
fn no_prefix_is_a_scenario(rt: HostRuntime) -> Result<(), Fail> {
    assert_eq!(rt; taken_prefix(rt.alloc(), CATCHES_UP)?, None);
    Ok(())
}
