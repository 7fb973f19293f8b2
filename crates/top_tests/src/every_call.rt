//! Runs whose row store fails at each of its calls in turn, and runs with a restart after each of their turns.

use crate::calls::{Objects, RUN, Told, WHOLE, Words, call, keeper_of};
use crate::instance_keeper_items::{Keeper, Row};
use std::alloc::Global;
use std::test::Fail;

// What is asked over a scenario's servers and turns, and whether it is a run. Also the same as single turns of a run:
// those before the last command, the command, and so many rounds of its job. Last how many calls of the row store all
// of it makes.
#[derive(Clone, Copy)]
struct Course {
    words: Words,
    is_run: bool,
    servers: &'static str,
    turns: &'static str,
    each: &'static [&'static str],
    command: &'static str,
    round: &'static [&'static str],
    rounds: usize,
    calls: u64,
}

// The most advanced replica is promoted, and the preferred one takes its place.
const RECOVERS: Course = Course {
    words: &[b"orch", b"-c", b"recover", b"-i", b"m", b"--tables"],
    is_run: false,
    servers: r#"{"version":1,"servers":[{"name":"m","history":[["m",100,3]]},{"name":"a","source":"m","executed":2},{"name":"b","source":"m","executed":2,"rule":"prefer"},{"name":"c","source":"m","executed":3}],"turns":["#,
    turns: r#"["fetch","a"],["apply","a"],["fail","m"],["polls"]"#,
    each: &[
        r#"["fetch","a"]"#,
        r#"["apply","a"]"#,
        r#"["fail","m"]"#,
        r#"["poll-read",0,"a"]"#,
        r#"["poll-store",0]"#,
        r#"["poll-read",0,"b"]"#,
        r#"["poll-store",0]"#,
        r#"["poll-read",0,"c"]"#,
        r#"["poll-store",0]"#,
        r#"["poll-read",0,"m"]"#,
        r#"["poll-store",0]"#,
    ],
    command: r#"["command","recover",{"i":"m"}]"#,
    round: &[
        r#"["job",1]"#,
        r#"["fetch","a"]"#,
        r#"["apply","a"]"#,
        r#"["fetch","b"]"#,
        r#"["apply","b"]"#,
        r#"["fetch","c"]"#,
        r#"["apply","c"]"#,
        r#"["fetch","m"]"#,
        r#"["apply","m"]"#,
        r#"["poll-read",0,"a"]"#,
        r#"["poll-store",0]"#,
        r#"["poll-read",0,"b"]"#,
        r#"["poll-store",0]"#,
        r#"["poll-read",0,"c"]"#,
        r#"["poll-store",0]"#,
        r#"["poll-read",0,"m"]"#,
        r#"["poll-store",0]"#,
    ],
    rounds: 29,
    calls: 132,
};

// A master that is back fails its recovery; the block period, which an acknowledgement ends.
const BLOCKS: Course = Course {
    words: RUN,
    is_run: true,
    servers: r#"{"version":1,"servers":[{"name":"m","history":[["m",100,1]]},{"name":"a","source":"m","executed":1}],"turns":["#,
    turns: r#"["fail","m"],["polls"],["command","recover",{"i":"m"}],["heal","m"],["job",1],["fail","m"],["poll-read",0,"m"],["poll-store",0],["tick",3599],["command","recover",{"i":"m"}],["tick",1],["command","recover",{"i":"m"}],["heal","m"],["job",2],["fail","m"],["poll-read",0,"m"],["poll-store",0],["command","ack-cluster-recoveries",{"i":"m"}],["command","recover",{"i":"m"}]"#,
    each: &[
        r#"["fail","m"]"#,
        r#"["poll-read",0,"a"]"#,
        r#"["poll-store",0]"#,
        r#"["poll-read",0,"m"]"#,
        r#"["poll-store",0]"#,
        r#"["command","recover",{"i":"m"}]"#,
        r#"["heal","m"]"#,
        r#"["job",1]"#,
        r#"["fail","m"]"#,
        r#"["poll-read",0,"m"]"#,
        r#"["poll-store",0]"#,
        r#"["tick",3599]"#,
        r#"["command","recover",{"i":"m"}]"#,
        r#"["tick",1]"#,
        r#"["command","recover",{"i":"m"}]"#,
        r#"["heal","m"]"#,
        r#"["job",2]"#,
        r#"["fail","m"]"#,
        r#"["poll-read",0,"m"]"#,
        r#"["poll-store",0]"#,
        r#"["command","ack-cluster-recoveries",{"i":"m"}]"#,
    ],
    command: r#"["command","recover",{"i":"m"}]"#,
    round: &[],
    rounds: 0,
    calls: 12,
};

// A recovery is interrupted by a restart, and blocks the next.
const INTERRUPTS: Course = Course {
    words: RUN,
    is_run: true,
    servers: r#"{"version":1,"servers":[{"name":"m","history":[["m",100,1]]},{"name":"a","source":"m","executed":1}],"turns":["#,
    turns: r#"["fail","m"],["polls"],["command","recover",{"i":"m"}],["restart"],["command","recover",{"i":"m"}]"#,
    each: &[
        r#"["fail","m"]"#,
        r#"["poll-read",0,"a"]"#,
        r#"["poll-store",0]"#,
        r#"["poll-read",0,"m"]"#,
        r#"["poll-store",0]"#,
        r#"["command","recover",{"i":"m"}]"#,
        r#"["restart"]"#,
    ],
    command: r#"["command","recover",{"i":"m"}]"#,
    round: &[],
    rounds: 0,
    calls: 7,
};

// A master hands its place over.
const TAKES_OVER: Course = Course {
    words: &[
        b"orch",
        b"-c",
        b"graceful-master-takeover",
        b"-i",
        b"m",
        b"-d",
        b"p",
        b"--tables",
    ],
    is_run: false,
    servers: r#"{"version":1,"servers":[{"name":"m","history":[["m",100,2]]},{"name":"p","source":"m","executed":2},{"name":"r","source":"m","executed":2}],"turns":["#,
    turns: "",
    each: &[],
    command: r#"["command","graceful-master-takeover",{"i":"m","d":"p"}]"#,
    round: &[
        r#"["job",1]"#,
        r#"["fetch","m"]"#,
        r#"["apply","m"]"#,
        r#"["fetch","p"]"#,
        r#"["apply","p"]"#,
        r#"["fetch","r"]"#,
        r#"["apply","r"]"#,
        r#"["poll-read",0,"m"]"#,
        r#"["poll-store",0]"#,
        r#"["poll-read",0,"p"]"#,
        r#"["poll-store",0]"#,
        r#"["poll-read",0,"r"]"#,
        r#"["poll-store",0]"#,
    ],
    rounds: 21,
    calls: 75,
};

const LARGE: Objects = Objects {
    out_room: 40_000,
    ..WHOLE
};

// After no turn.
const NOWHERE: usize = usize::MAX;

// The single turns of such a story.
fn turns_of(alloc: Global, course: Course) -> Result<Vec<&'static str>, Fail> {
    let mut turns = Vec::new(alloc);
    turns.extend_from_slice(course.each)?;
    turns.push(course.command)?;
    for _ in 0..course.rounds {
        turns.extend_from_slice(course.round)?;
    }
    Ok(turns)
}

// Adds the turn of this index, and before it a restart if that is after so many turns.
fn add_turn(text: &mut String, at: usize, restart: usize, turn: &str) -> Result<(), Fail> {
    if at > 0 {
        text.push_str(",")?;
    }
    if at == restart {
        text.push_str("[\"restart\"],")?;
    }
    Ok(text.push_str(turn)?)
}

// A scenario of these servers and turns, and of a restart after so many of them.
fn text_of(alloc: Global, servers: &str, turns: &[&str], restart: usize) -> Result<String, Fail> {
    let mut text = String::from_str(alloc, servers)?;
    for (at, turn) in turns.iter().enumerate() {
        add_turn(&mut text, at, restart, turn)?;
    }
    text.push_str("]}")?;
    Ok(text)
}

// A run over no rows: its command line, its scenario, and the call of its row store that fails.
#[derive(Clone, Copy)]
struct Asked<'a> {
    words: Words,
    servers: &'static str,
    turns: &'a [&'static str],
    restart: usize,
    fails: u64,
}

// How a run ended.
#[derive(Clone, Copy)]
struct End {
    // Whether the row store failed, and once.
    stopped: bool,
    // How many turns' lines out took, if that is a prefix of the wanted text that ends with a whole turn's lines.
    taken: Option<usize>,
    // Whether out ends with the wanted text.
    ends: bool,
    // Whether the row store has the rows that the one of the run before had.
    same: bool,
}

impl End {
    fn stops_behind(self, turns: usize) -> bool {
        self.stopped && self.taken == Some(turns)
    }
}

// How many turns have lines in the prefix of a report.
fn turns_in(front: &[u8]) -> usize {
    let mut turns = 0_usize;
    let mut begins = true;
    for byte in front {
        if begins && byte.is_ascii_digit() {
            turns = turns.saturating_add(1);
        }
        begins = *byte == b'\n';
    }
    turns
}

// The same, if it is a prefix of this report, in which the lines of one more turn come after it.
fn taken_in(front: &[u8], report: &[u8]) -> Option<usize> {
    let is_whole = front.is_empty() || front.ends_with(b"\n".as_slice());
    let goes_on = match report.get(front.len()) {
        Some(byte) => byte.is_ascii_digit(),
        None => false,
    };
    if is_whole && goes_on && report.starts_with(front) {
        return Some(turns_in(front));
    }
    None
}

fn are_same(rows: &[Row], others: &[Row]) -> bool {
    rows.len() == others.len()
        && rows
            .iter()
            .zip(others)
            .all(|(row, other)| row.is_same(other))
}

fn end_of(told: &Told, faults: u64, wanted: &[u8], same: bool) -> End {
    End {
        stopped: told.is_cut() && faults == 1,
        taken: taken_in(told.out(), wanted),
        ends: told.out().ends_with(wanted),
        same,
    }
}

// What this command line answers for this scenario. The rows become those of the row store.
fn over(
    alloc: Global,
    (words, text, fails): (Words, &str, u64),
    wanted: &[u8],
    rows: &mut Vec<Row>,
) -> Result<End, Fail> {
    let mut keeper = keeper_of(alloc, &[], fails)?;
    let told = call(alloc, words, text.as_bytes(), LARGE, &mut keeper)?;
    let faults = keeper.faults();
    let kept = keeper.rows(alloc, &[])?;
    let end = end_of(&told, faults, wanted, are_same(&kept, rows));
    *rows = kept;
    Ok(end)
}

fn run(alloc: Global, asked: Asked, wanted: &[u8], rows: &mut Vec<Row>) -> Result<End, Fail> {
    let text = text_of(alloc, asked.servers, asked.turns, asked.restart)?;
    over(
        alloc,
        (asked.words, text.as_str(), asked.fails),
        wanted,
        rows,
    )
}

// The first of the turns, so many.
fn first<'a>(turns: &'a [&'static str], count: usize) -> &'a [&'static str] {
    turns.get(..count).unwrap_or(turns)
}

// Whether a story, as single turns and as it is asked, stops at this call of the row store before the turn that makes
// it. Then it has a prefix of its report, which is empty if a command is asked, and the rows of the turns before. The
// first two calls are those before any turn: nothing is kept if one of them fails.
fn stops_well(
    alloc: Global,
    course: Course,
    turns: &[&'static str],
    report: &[u8],
    call: u64,
) -> Result<bool, Fail> {
    let mut rows = Vec::new(alloc);
    let all = Asked {
        words: RUN,
        servers: course.servers,
        turns,
        restart: NOWHERE,
        fails: call,
    };
    let stop = run(alloc, all, report, &mut rows)?;
    let taken = stop.taken.unwrap_or(0);
    let before = Asked {
        turns: first(turns, taken),
        fails: if call > 2 { 0 } else { 1 },
        ..all
    };
    let before = run(alloc, before, report, &mut rows)?;
    let next = Asked {
        turns: first(turns, taken.saturating_add(1)),
        ..all
    };
    let next = run(alloc, next, report, &mut rows)?;
    let asked = Asked {
        words: course.words,
        turns: &[course.turns],
        ..all
    };
    let asked = run(alloc, asked, report, &mut rows)?;
    let told = if course.is_run { taken } else { 0 };
    Ok(
        (before.same && next.same && asked.same)
            && (stop.stops_behind(taken) && next.stops_behind(taken) && asked.stops_behind(told)),
    )
}

// What this command line answers for these turns with a row store that fails after the last call of the story.
fn whole_of(
    alloc: Global,
    course: Course,
    words: Words,
    turns: &[&'static str],
) -> Result<Told, Fail> {
    let text = text_of(alloc, course.servers, turns, NOWHERE)?;
    let mut keeper = keeper_of(alloc, &[], course.calls.saturating_add(1))?;
    call(alloc, words, text.as_bytes(), LARGE, &mut keeper)
}

// The last call at which a story doesn't stop as it must. Or the call after those that it makes, if it makes that.
fn wrong_call(alloc: Global, course: Course) -> Result<Option<u64>, Fail> {
    let turns = turns_of(alloc, course)?;
    let whole = whole_of(alloc, course, RUN, &turns)?;
    let mut wrong = whole.is_cut().then_some(course.calls.saturating_add(1));
    for before in 0..course.calls {
        let call = before.saturating_add(1);
        if !stops_well(alloc, course, &turns, whole.out(), call)? {
            wrong = Some(call);
        }
    }
    Ok(wrong)
}

// The status of a story as it is asked.
fn status_of(alloc: Global, course: Course) -> Result<u8, Fail> {
    Ok(whole_of(alloc, course, course.words, &[course.turns])?.status())
}

// That call and that status.
fn wrong_and_status(alloc: Global, course: Course) -> Result<(Option<u64>, u8), Fail> {
    Ok((wrong_call(alloc, course)?, status_of(alloc, course)?))
}

#[test]
fn each_call_fails_in_a_recovery(rt: HostRuntime) -> Result<(), Fail> {
    let ended = wrong_and_status(rt.alloc(), RECOVERS)?;
    assert_eq!(rt; ended, (None, 0));
    Ok(())
}

#[test]
fn each_call_fails_in_a_block_period(rt: HostRuntime) -> Result<(), Fail> {
    let ended = wrong_and_status(rt.alloc(), BLOCKS)?;
    assert_eq!(rt; ended, (None, 7));
    Ok(())
}

#[test]
fn each_call_fails_beside_a_restart(rt: HostRuntime) -> Result<(), Fail> {
    let ended = wrong_and_status(rt.alloc(), INTERRUPTS)?;
    assert_eq!(rt; ended, (None, 7));
    Ok(())
}

#[test]
fn each_call_fails_in_a_takeover(rt: HostRuntime) -> Result<(), Fail> {
    let ended = wrong_and_status(rt.alloc(), TAKES_OVER)?;
    assert_eq!(rt; ended, (None, 0));
    Ok(())
}

// From so many turns before the restart on, how the tables end. The command is given again after all turns.
type Ends = &'static [(usize, &'static str)];

// A restart before the command costs the bridges, by which the preferred replica would follow and take the place, and a
// reading that isn't stored. The book then has no dead master, and only the command after all turns begins. Within the
// recovery it interrupts it. After that, as after a recovery that is done, the command begins no second one.
const RESTARTED_RECOVERY: Ends = &[
    (0, PROMOTED_FIRST),
    (4, OPEN),
    (5, PROMOTED_FIRST),
    (6, OPEN),
    (7, PROMOTED_FIRST),
    (8, OPEN),
    (9, PROMOTED_FIRST),
    (10, OPEN),
    (11, PROMOTED_FIRST),
    (
        12,
        "recovery 1 m:3306 master m:3306 begun 0 ended 0 interrupted unacked\nerrant 0\n",
    ),
    (
        489,
        "recovery 1 m:3306 master m:3306 begun 0 ended 0 promoted b:3306 unacked\nerrant 0\n",
    ),
];

const PROMOTED_FIRST: &str =
    "recovery 1 m:3306 master m:3306 begun 0 ended 0 promoted a:3306 unacked\nerrant 0\n";

const OPEN: &str = "recovery 1 m:3306 master m:3306 begun 0 open unacked\njob 1 open\nerrant 0\n";

const RESTARTED_TAKEOVER: Ends = &[
    (
        0,
        "recovery 1 m:3306 takeover m:3306 begun 0 ended 0 promoted p:3306 acked\nerrant 0\n",
    ),
    (
        1,
        "recovery 1 m:3306 takeover m:3306 begun 0 ended 0 interrupted unacked\nerrant 0\n",
    ),
    (
        262,
        "recovery 1 m:3306 takeover m:3306 begun 0 ended 0 promoted p:3306 acked\nerrant 0\n",
    ),
];

fn end_at(ends: Ends, restart: usize) -> &'static str {
    let mut end = "";
    for (from, text) in ends {
        if *from <= restart {
            end = text;
        }
    }
    end
}

// The last number of turns after which a restart doesn't lead to its end.
fn wrong_restart(alloc: Global, course: Course, ends: Ends) -> Result<Option<usize>, Fail> {
    let mut turns = turns_of(alloc, course)?;
    turns.push(course.command)?;
    let mut rows = Vec::new(alloc);
    let mut wrong = None;
    for restart in 0..turns.len() {
        let asked = Asked {
            words: RUN,
            servers: course.servers,
            turns: &turns,
            restart,
            fails: 0,
        };
        let end = end_at(ends, restart);
        if !run(alloc, asked, end.as_bytes(), &mut rows)?.ends {
            wrong = Some(restart);
        }
    }
    Ok(wrong)
}

#[test]
fn a_restart_behind_each_turn_of_a_recovery(rt: HostRuntime) -> Result<(), Fail> {
    let wrong = wrong_restart(rt.alloc(), RECOVERS, RESTARTED_RECOVERY)?;
    assert_eq!(rt; wrong, None);
    Ok(())
}

#[test]
fn a_restart_behind_each_turn_of_a_takeover(rt: HostRuntime) -> Result<(), Fail> {
    let wrong = wrong_restart(rt.alloc(), TAKES_OVER, RESTARTED_TAKEOVER)?;
    assert_eq!(rt; wrong, None);
    Ok(())
}
