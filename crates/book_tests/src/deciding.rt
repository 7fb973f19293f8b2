//! What operators' decisions answer, what they make of the book and the audit, and which rows they keep.

ghost use Rattle.std.specs.Prelude.{◌≡◌, ◌≤◌, ◌<◌, ◌↔◌, All, IfOk, IfSome, IsTrue};

use crate::orch_base::{Ending, Kind, Memory, Moment, Rule, ServerNo, SourceState};
use crate::rows::{Given, OnePeriod, book, label};
use audit_log::{Audit, kept_recoveries_make_an_audit, recoveries_in};
use book_commands::{Decided, Effect, decide, rows_of};
use commands::{Decision, Keys, Line};
use instance_keeper::{Book, Change, Key, Recovery, Row, last_row_stands, row_map};
use std::alloc::Global;

// What a decision is given.
#[derive(Clone, Copy)]
struct Asked {
    decision: Decision,
    server: u32,
    now: u64,
    duration: Option<u64>,
    reason: Option<&'static str>,
    rule: Option<Rule>,
}

const BEGIN: Asked = Asked {
    decision: Decision::BeginDowntime,
    server: 0,
    now: 0,
    duration: None,
    reason: None,
    rule: None,
};

fn keys(alloc: Global, asked: Asked) -> Result<Keys, Memory>
    ensures { IfOk result (λ k. k.duration ≡ asked.duration) }
{
    let reason = match asked.reason {
        Some(text) => Some(label(alloc, text)?),
        None => None,
    };
    Ok(Keys {
        rule: asked.rule,
        duration: asked.duration,
        reason,
        owner: None,
        pattern: None,
    })
}

fn is_short(duration: Option<u64>) -> bool
    ensures { IsTrue result ↔ IfSome duration (λ n. n ≤ 31536000) }
{
    match duration {
        Some(seconds) => seconds <= 31_536_000,
        None => true,
    }
}

// None if the server is unknown, or the moment or the duration too late.
fn decided(
    alloc: Global,
    book: &Book,
    audit: &Audit,
    asked: Asked,
) -> Result<Option<Decided>, Memory> {
    let Asked {
        decision,
        server,
        now,
        ..
    } = asked;
    if server >= book.servers() || now > 1 << 63 || !is_short(asked.duration) {
        return Ok(None);
    }
    let keys = keys(alloc, asked)?;
    let no = Some(ServerNo(server));
    let decided = decide(alloc, book, audit, Moment(now), &keys, no, decision);
    drop(keys);
    Ok(Some(decided?))
}

// What is answered.
#[derive(Clone, Copy)]
enum Want {
    Server(u32),
    Downtime(u32, u64),
    Candidate(u32, Rule, u64),
    Enabled(bool),
    Acknowledged(u64),
}

fn is_line(line: &Line, want: Want) -> bool {
    match (line, want) {
        (Line::Server(no), Want::Server(server)) => no.0 == server,
        (Line::Downtime(no, end), Want::Downtime(server, until)) => {
            no.0 == server && end.0 == until
        }
        (Line::Candidate { no, rule, until }, Want::Candidate(server, kept, end)) => {
            no.0 == server && *rule == kept && until.0 == end
        }
        (Line::Enabled, Want::Enabled(enabled)) => enabled,
        (Line::Disabled, Want::Enabled(enabled)) => !enabled,
        (Line::Acknowledged(count), Want::Acknowledged(wanted)) => *count == wanted,
        _ => false,
    }
}

fn is_only_line(lines: &[Line], want: Want) -> bool {
    match lines {
        [line] => is_line(line, want),
        _ => false,
    }
}

// The key under which a change keeps or removes a row; none of a recovery that isn't acknowledged.
fn key_of(change: &Change) -> Option<Key> {
    match change {
        Change::Put(Row::Recovery(r)) if !r.acked => None,
        Change::Put(row) => Some(row.key()),
        Change::Remove(_, key) => Some(*key),
    }
}

fn are_kept(changes: &[Change], want: &[Key]) -> bool {
    for (change, key) in changes.iter().zip(want) {
        if key_of(change) != Some(*key) {
            return false;
        }
    }
    changes.len() == want.len()
}

// Makes the change of the book or of the audit.
fn make(book: &mut Book, audit: &mut Audit, effect: Effect) {
    match effect {
        Effect::Stays => {}
        Effect::Change(change) => {
            if change.fits(book.servers()) {
                book.set(change);
            }
        }
        Effect::Acks(cluster) => {
            audit.ack(cluster.as_str());
        }
    }
}

// Makes what was decided: whether this is the line, and whether rows of these keys are kept.
fn carry_out(
    alloc: Global,
    book: &mut Book,
    audit: &mut Audit,
    decided: Decided,
    (line, kept): (Want, &[Key]),
) -> Result<bool, Memory> {
    let Decided { lines, effect } = decided;
    let is_line = is_only_line(lines.as_slice(), line);
    drop(lines);
    let rows = rows_of(alloc, audit, &effect);
    make(book, audit, effect);
    Ok(is_line && are_kept(&rows?, kept))
}

fn is_decided(
    alloc: Global,
    book: &mut Book,
    audit: &mut Audit,
    (asked, line, kept): Step,
) -> Result<bool, Memory> {
    match decided(alloc, book, audit, asked)? {
        Some(decided) => carry_out(alloc, book, audit, decided, (line, kept)),
        None => Ok(false),
    }
}

// What is asked, the line that answers it, and the keys of the rows that are kept anew.
type Step = (Asked, Want, &'static [Key]);

fn recovery(alloc: Global, id: u64, cluster: &str, acked: bool) -> Result<Recovery, Memory> {
    Ok(Recovery {
        id,
        cluster: label(alloc, cluster)?,
        kind: Kind::Master,
        failed: ServerNo(0),
        begun: Moment(5),
        ended: Some(Moment(6)),
        outcome: Ending::Promoted(ServerNo(1)),
        acked,
        block: 3600,
    })
}

fn are_in_range(list: &[Recovery], next: u64) -> bool
    ensures { IsTrue result
        ↔ All (λ r. (1 ≤ r.id) × (r.id < next) × (r.block ≤ 1000000000)) list.now }
{
    list.iter()
        .all(|r| (r.id >= 1 && r.id < next) && r.block <= 1_000_000_000)
}

/// The audit of some kept rows, by a block period for those that have none. `None` if their ids aren't from 1 on and
/// below the next one, or a period is too long.
pub(crate) fn loaded(
    alloc: Global,
    rows: Vec<Row>,
    period: u64,
    next: u64,
) -> Result<Option<Audit>, Memory> {
    let rows = row_map(alloc, rows)?;
    let list = recoveries_in(alloc, &OnePeriod(period), &rows)?;
    last_row_stands();
    kept_recoveries_make_an_audit();
    if next == 0 || !are_in_range(&list, next) {
        return Ok(None);
    }
    Ok(Some(Audit::make(list, next)))
}

// Recoveries by their ids, their clusters, and whether they are acknowledged.
const RECOVERIES: [(u64, &str, bool); 4] = [
    (1, "m:3306", false),
    (2, "x", false),
    (3, "m:3306", true),
    (4, "m:3306", false),
];

fn audit(alloc: Global) -> Result<Option<Audit>, Memory> {
    let mut rows = Vec::new(alloc);
    for (id, cluster, acked) in &RECOVERIES {
        let recovery = recovery(alloc, *id, cluster, *acked)?;
        rows.push(Row::Recovery(recovery.into_row()))?;
    }
    loaded(alloc, rows, 3600, 5)
}

const SERVERS: [(&str, &str); 3] = [("m", "m:3306"), ("a", "m:3306"), ("x", "x")];

const INSTANCES: [Given; 3] = [
    Given::Instance(0, SourceState::Without, 0, 0),
    Given::Instance(1, SourceState::Attached(ServerNo(0)), 0, 0),
    Given::Instance(2, SourceState::Without, 0, 0),
];

// The first step whose line or rows are others, counted from 0.
fn first_difference_in(
    alloc: Global,
    book: &mut Book,
    audit: &mut Audit,
    steps: &[Step],
) -> Result<Option<usize>, Memory> {
    for (place, step) in steps.iter().enumerate() {
        if !is_decided(alloc, book, audit, *step)? {
            return Ok(Some(place));
        }
    }
    Ok(None)
}

// The same of an audit and of the book of the instances.
fn first_difference_of(
    alloc: Global,
    audit: &mut Audit,
    steps: &[Step],
) -> Result<Option<usize>, Memory> {
    let mut book = book(alloc, &SERVERS, &INSTANCES)?;
    let found = first_difference_in(alloc, &mut book, audit, steps);
    drop(book);
    found
}

// The same of the audit of the recoveries; the step 0, too, if there is no audit.
fn first_difference(alloc: Global, steps: &[Step]) -> Result<Option<usize>, Memory> {
    match audit(alloc)? {
        Some(mut audit) => {
            let found = first_difference_of(alloc, &mut audit, steps);
            drop(audit);
            found
        }
        None => Ok(Some(0)),
    }
}

const MASTER: Key = Key::Server(ServerNo(0));

const REPLICA: Key = Key::Server(ServerNo(1));

const END: Asked = Asked {
    decision: Decision::EndDowntime,
    ..BEGIN
};

const TEN_MINUTES: Asked = Asked {
    duration: Some(600),
    ..BEGIN
};

const YEAR: Asked = Asked {
    now: 1 << 63,
    duration: Some(31_536_000),
    ..BEGIN
};

const WHY: Asked = Asked {
    reason: Some("disk"),
    ..BEGIN
};

// Ten minutes if no duration is given. The same again keeps nothing, another reason does. One that no longer lasts is
// removed, too.
const DOWNTIMES: [Step; 9] = [
    (END, Want::Server(0), &[]),
    (BEGIN, Want::Downtime(0, 600), &[MASTER]),
    (TEN_MINUTES, Want::Downtime(0, 600), &[]),
    (WHY, Want::Downtime(0, 600), &[MASTER]),
    (WHY, Want::Downtime(0, 600), &[]),
    (
        YEAR,
        Want::Downtime(0, 9_223_372_036_886_311_808),
        &[MASTER],
    ),
    (Asked { now: 7, ..BEGIN }, Want::Downtime(0, 607), &[MASTER]),
    (Asked { now: 9000, ..END }, Want::Server(0), &[MASTER]),
    (Asked { now: 9000, ..END }, Want::Server(0), &[]),
];

const PREFER: Asked = Asked {
    decision: Decision::RegisterCandidate,
    server: 1,
    now: 40,
    rule: Some(Rule::Prefer),
    ..BEGIN
};

const NEVER: Asked = Asked {
    rule: Some(Rule::MustNot),
    ..PREFER
};

const CANDIDATES: [Step; 4] = [
    (PREFER, Want::Candidate(1, Rule::Prefer, 3640), &[REPLICA]),
    (PREFER, Want::Candidate(1, Rule::Prefer, 3640), &[]),
    (NEVER, Want::Candidate(1, Rule::MustNot, 3640), &[REPLICA]),
    (
        Asked { now: 41, ..NEVER },
        Want::Candidate(1, Rule::MustNot, 3641),
        &[REPLICA],
    ),
];

const ENABLE: Asked = Asked {
    decision: Decision::EnableRecoveries,
    ..BEGIN
};

const DISABLE: Asked = Asked {
    decision: Decision::DisableRecoveries,
    ..BEGIN
};

const ACK: Asked = Asked {
    decision: Decision::AckRecoveries,
    server: 1,
    ..BEGIN
};

// The first row of the switch is kept, though recoveries are enabled without one. Acknowledgements are of a cluster.
const OTHERS: [Step; 8] = [
    (ENABLE, Want::Enabled(true), &[Key::Global]),
    (ENABLE, Want::Enabled(true), &[]),
    (DISABLE, Want::Enabled(false), &[Key::Global]),
    (DISABLE, Want::Enabled(false), &[]),
    (ACK, Want::Acknowledged(2), &[Key::Id(1), Key::Id(4)]),
    (ACK, Want::Acknowledged(0), &[]),
    (
        Asked { server: 2, ..ACK },
        Want::Acknowledged(1),
        &[Key::Id(2)],
    ),
    (Asked { server: 2, ..ACK }, Want::Acknowledged(0), &[]),
];

const STORIES: [&[Step]; 3] = [&DOWNTIMES, &CANDIDATES, &OTHERS];

// The first story with a difference, and the step.
fn first_surprise(alloc: Global) -> Result<Option<(usize, usize)>, Memory> {
    for (story, steps) in STORIES.iter().enumerate() {
        if let Some(step) = first_difference(alloc, steps)? {
            return Ok(Some((story, step)));
        }
    }
    Ok(None)
}

#[test]
fn what_is_decided_is_kept(rt: HostRuntime) {
    assert_eq!(rt; first_surprise(rt.alloc()), Ok(None));
}
