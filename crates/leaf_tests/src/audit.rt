//! The audit of recoveries.

ghost use Rattle.std.specs.Prelude.{◌≡◌, ◌≤◌, ◌<◌, ◌^◌, ◌↔◌, true, All, IfOk, IfSome, IsSomeAnd, IsTrue};
ghost use Rattle.audit_log.specs.Audits.{is_unended, may_begin, recovery_at};

use crate::kept_rows_items::{CauseName, Ending, Kind, Recovery, Row, last_row_stands, row_map};
use crate::orch_base::{Memory, Moment, OwnedText, ServerNo};
use audit_log::{
    Audit, Extended, Held, Periods, is_unended, kept_recoveries_make_an_audit, recoveries_in,
};
use std::alloc::Global;

const BLOCK: u64 = 3600;

const LAST_ID: u64 = 1 << 62;

const LAST_MOMENT: u64 = 1 << 63;

const LONGEST: u64 = 1_000_000_000;

// One block period for all clusters.
#[derive(Clone, Copy)]
struct OnePeriod(u64);

impl Periods for OnePeriod {
    ghost period_of = { λ p _. p.0 };

    fn period(&self, _server: ServerNo, _cluster: &str) -> u64 {
        self.0
    }
}

fn recovery(
    alloc: Global,
    id: u64,
    cluster: &str,
    begun: u64,
    block: u64,
) -> Result<Recovery, Memory>
    ensures { IfOk result (λ r. (r.id ≡ id) × (r.cluster ≡ cluster.now) × (r.begun.0 ≡ begun)
        × (r.block ≡ block)) }
{
    Ok(Recovery {
        id,
        cluster: OwnedText::new(String::from_str(alloc, cluster)?),
        kind: Kind::Master,
        failed: ServerNo(0),
        begun: Moment(begun),
        ended: None,
        outcome: Ending::Unended,
        acked: false,
        block,
    })
}

// An id, or a count of recoveries; none if there is nothing to be done.
type Answer = Option<Result<u64, Held>>;

fn are_early(list: &[Recovery]) -> bool
    ensures { IsTrue result → All (λ r. r.begun.0 ≤ 2 ^ 63) list.now }
{
    list.iter().all(|r| r.begun.0 <= 9_223_372_036_854_775_808)
}

// What `may_begin` answers; none if a recovery began past 2^63.
fn asked(audit: &Audit, cluster: &str, now: u64) -> Answer
    ensures { IfSome result (λ answer. answer ≡ may_begin audit.now.audit cluster.now now) }
{
    if are_early(audit.recoveries()) {
        Some(audit.may_begin(cluster, Moment(now)))
    } else {
        None
    }
}

// The same of the audit with nothing more after it.
fn asked_beside(alloc: Global, audit: &Audit, cluster: &str, now: u64) -> Result<Answer, Memory> {
    if are_early(audit.recoveries()) {
        let extended = Extended::of(alloc, audit)?;
        Ok(Some(extended.may_begin(cluster, Moment(now))))
    } else {
        Ok(None)
    }
}

// Begins a recovery of a cluster, with a block period that isn't too long, if it may.
fn begin(
    alloc: Global,
    audit: &mut Audit,
    cluster: &str,
    now: u64,
    block: u64,
) -> Result<Answer, Memory> {
    audit.reserve()?;
    match asked(audit, cluster, now) {
        Some(Ok(id)) if id < LAST_ID && block <= LONGEST => {
            audit.begin(recovery(alloc, id, cluster, now, block)?);
            Ok(Some(Ok(id)))
        }
        other => Ok(other),
    }
}

fn is_open(audit: &Audit, id: u64) -> bool
    ensures { IsTrue result
        → IsSomeAnd (recovery_at audit.now.audit id) (λ r. is_unended r ≡ true) }
{
    match audit.recovery(id) {
        Some(r) => is_unended(r),
        None => false,
    }
}

// Ends a recovery that isn't ended.
fn end(audit: &mut Audit, id: u64, at: u64, outcome: Ending) -> Answer {
    if is_open(audit, id) {
        audit.end(id, Moment(at), outcome);
        Some(Ok(id))
    } else {
        None
    }
}

// Ends a recovery that isn't ended, and acknowledges it.
fn finish(audit: &mut Audit, id: u64, at: u64, outcome: Ending) -> Answer {
    if is_open(audit, id) {
        audit.finish(id, Moment(at), outcome, true);
        Some(Ok(id))
    } else {
        None
    }
}

// How many recoveries of a cluster an acknowledgement changes; none if they were counted otherwise before.
fn ack(audit: &mut Audit, cluster: &str) -> Answer {
    let new = audit.count_new(cluster);
    let count = audit.ack(cluster);
    if new == count { Some(Ok(count)) } else { None }
}

fn are_in_range(list: &[Recovery], next: u64) -> bool
    ensures { IsTrue result
        ↔ All (λ r. (1 ≤ r.id) × (r.id < next) × (r.block ≤ 1000000000)) list.now }
{
    list.iter()
        .all(|r| (r.id >= 1 && r.id < next) && r.block <= 1_000_000_000)
}

// What is kept: recoveries, the period of those that have none, and the next id.
#[derive(Clone, Copy)]
struct Opening {
    kept: &'static [Kept],
    period: u64,
    next: u64,
}

// The audit of some kept rows, with or without its index; none if their ids aren't from 1 on and below the next one, or
// a period is too long.
fn loaded(
    alloc: Global,
    rows: Vec<Row>,
    period: u64,
    next: u64,
    indexed: bool,
) -> Result<Option<Audit>, Memory> {
    let rows = row_map(alloc, rows)?;
    let list = recoveries_in(alloc, &OnePeriod(period), &rows)?;
    last_row_stands();
    kept_recoveries_make_an_audit();
    if next == 0 || !are_in_range(&list, next) {
        return Ok(None);
    }
    let mut audit = Audit::make(list, next);
    if indexed {
        audit.index(alloc)?;
    }
    Ok(Some(audit))
}

// A recovery that is kept: its id, cluster, begin, end, outcome and block period.
type Kept = (u64, &'static str, u64, Option<u64>, Ending, Option<u64>);

fn kept_row(
    alloc: Global,
    (id, cluster, begun, ended, outcome, block): Kept,
) -> Result<Row, Memory> {
    let mut kept = recovery(alloc, id, cluster, begun, BLOCK)?.into_row();
    kept.ended = ended.map(Moment);
    kept.outcome = outcome;
    kept.block = block;
    Ok(Row::Recovery(kept))
}

// The audit of these recoveries, beside which another row is kept.
fn audit_of(alloc: Global, opening: Opening, indexed: bool) -> Result<Option<Audit>, Memory> {
    let mut rows = Vec::new(alloc);
    rows.push(Row::Switch(false))?;
    for one in opening.kept {
        rows.push(kept_row(alloc, *one)?)?;
    }
    loaded(alloc, rows, opening.period, opening.next, indexed)
}

#[derive(Clone, Copy)]
enum Act {
    // Asks whether a recovery of a cluster may begin at this moment.
    Ask(&'static str, u64),
    // A cluster, the moment, and a block period.
    Begin(&'static str, u64, u64),
    End(u64, u64, Ending),
    // Ends a recovery and acknowledges it.
    Finish(u64, u64, Ending),
    Ack(&'static str),
}

fn answer(alloc: Global, audit: &mut Audit, act: Act) -> Result<Answer, Memory> {
    match act {
        Act::Ask(cluster, now) => {
            let answer = asked(audit, cluster, now);
            if asked_beside(alloc, audit, cluster, now)? == answer {
                Ok(answer)
            } else {
                Ok(None)
            }
        }
        Act::Begin(cluster, now, block) => begin(alloc, audit, cluster, now, block),
        Act::End(id, at, outcome) => Ok(end(audit, id, at, outcome)),
        Act::Finish(id, at, outcome) => Ok(finish(audit, id, at, outcome)),
        Act::Ack(cluster) => Ok(ack(audit, cluster)),
    }
}

// The first act that is answered otherwise, counted from 0.
fn first_difference_in(
    alloc: Global,
    audit: &mut Audit,
    acts: &[(Act, Answer)],
) -> Result<Option<usize>, Memory> {
    for (place, (act, want)) in acts.iter().enumerate() {
        if answer(alloc, audit, *act)? != *want {
            return Ok(Some(place));
        }
    }
    Ok(None)
}

// The same of acts on the audit of these recoveries; the act 0, too, if they make none.
fn first_difference(
    alloc: Global,
    opening: Opening,
    acts: &[(Act, Answer)],
    indexed: bool,
) -> Result<Option<usize>, Memory> {
    match audit_of(alloc, opening, indexed)? {
        Some(mut audit) => {
            let found = first_difference_in(alloc, &mut audit, acts);
            drop(audit);
            found
        }
        None => Ok(Some(0)),
    }
}

const APART: [(Act, Answer); 18] = [
    (Act::Ask("m:3306", 0), Some(Ok(1))),
    (Act::Begin("m:3306", 0, BLOCK), Some(Ok(1))),
    (Act::Ask("m:3306", 0), Some(Err(Held::Unended(1)))),
    // another cluster's may begin
    (Act::Ask("m:3307", 0), Some(Ok(2))),
    (Act::End(1, 7, Ending::Promoted(ServerNo(3))), Some(Ok(1))),
    // the period counts from the begin
    (
        Act::Ask("m:3306", 3599),
        Some(Err(Held::Blocked {
            id: 1,
            until: Moment(3600),
        })),
    ),
    (Act::Ask("m:3306", 3600), Some(Ok(2))),
    (Act::Ack("m:3307"), Some(Ok(0))),
    (Act::Ack("m:3306"), Some(Ok(1))),
    (Act::Ack("m:3306"), Some(Ok(0))),
    (Act::Ask("m:3306", 3599), Some(Ok(2))),
    // an acknowledged one that isn't ended still holds others back
    (Act::Begin("m:3306", 3599, BLOCK), Some(Ok(2))),
    (Act::Ack("m:3306"), Some(Ok(1))),
    (Act::Ask("m:3306", 90_000), Some(Err(Held::Unended(2)))),
    (
        Act::Begin("m:3306", 90_000, BLOCK),
        Some(Err(Held::Unended(2))),
    ),
    (Act::Ask("m:3307", 90_000), Some(Ok(3))),
    (Act::End(1, 8, Ending::Interrupted), None),
    (Act::End(3, 8, Ending::Interrupted), None),
];

const ENDED: [Kept; 4] = [
    (
        4,
        "a",
        100,
        Some(100),
        Ending::Failed(CauseName::NoCandidate),
        Some(BLOCK),
    ),
    (
        2,
        "a",
        900,
        Some(900),
        Ending::Failed(CauseName::NoCandidate),
        Some(BLOCK),
    ),
    (
        7,
        "b",
        50,
        Some(50),
        Ending::Failed(CauseName::NoCandidate),
        Some(BLOCK),
    ),
    (
        5,
        "a",
        500,
        Some(500),
        Ending::Failed(CauseName::NoCandidate),
        Some(BLOCK),
    ),
];

const LAST: [(Act, Answer); 7] = [
    // the last by id, not by its moment
    (
        Act::Ask("a", 1000),
        Some(Err(Held::Blocked {
            id: 5,
            until: Moment(4100),
        })),
    ),
    // of those that still block
    (
        Act::Ask("a", 4200),
        Some(Err(Held::Blocked {
            id: 2,
            until: Moment(4500),
        })),
    ),
    (Act::Ask("a", 4500), Some(Ok(8))),
    (Act::Ask("c", 0), Some(Ok(8))),
    (Act::Ack("a"), Some(Ok(3))),
    (Act::Ask("a", 1000), Some(Ok(8))),
    (
        Act::Ask("b", 0),
        Some(Err(Held::Blocked {
            id: 7,
            until: Moment(3650),
        })),
    ),
];

const FAR: [Kept; 1] = [(
    LAST_ID,
    "a",
    LAST_MOMENT,
    Some(LAST_MOMENT),
    Ending::Interrupted,
    Some(LONGEST),
)];

const FAR_BLOCKED: Answer = Some(Err(Held::Blocked {
    id: LAST_ID,
    until: Moment(LAST_MOMENT + LONGEST),
}));

const FAR_ACTS: [(Act, Answer); 5] = [
    // a moment before the begin, too
    (Act::Ask("a", 0), FAR_BLOCKED),
    (Act::Ask("a", LAST_MOMENT), FAR_BLOCKED),
    (Act::Ask("a", LAST_MOMENT + LONGEST - 1), FAR_BLOCKED),
    (Act::Ask("a", LAST_MOMENT + LONGEST), Some(Ok(LAST_ID + 1))),
    (Act::Ask("b", 0), Some(Ok(LAST_ID + 1))),
];

// The second has no period of its own, and the third one blocks nothing.
const OWN: [Kept; 3] = [
    (1, "a", 0, Some(0), Ending::Interrupted, Some(100)),
    (2, "a", 50, Some(50), Ending::Interrupted, None),
    (3, "a", 60, Some(60), Ending::Interrupted, Some(0)),
];

const FIRST_BLOCKS: Answer = Some(Err(Held::Blocked {
    id: 1,
    until: Moment(100),
}));

const OWN_ACTS: [(Act, Answer); 4] = [
    (
        Act::Ask("a", 59),
        Some(Err(Held::Blocked {
            id: 2,
            until: Moment(60),
        })),
    ),
    (Act::Ask("a", 60), FIRST_BLOCKS),
    (Act::Ask("a", 99), FIRST_BLOCKS),
    (Act::Ask("a", 100), Some(Ok(4))),
];

// A period of its own counts, whatever the scenario's is. Another cluster's has another.
const MINUTE: [(Act, Answer); 8] = [
    (Act::Begin("m:3306", 0, 60), Some(Ok(1))),
    (
        Act::End(1, 0, Ending::Failed(CauseName::Reachable)),
        Some(Ok(1)),
    ),
    (Act::Begin("x", 0, BLOCK), Some(Ok(2))),
    (Act::End(2, 0, Ending::Interrupted), Some(Ok(2))),
    (
        Act::Begin("m:3306", 59, 60),
        Some(Err(Held::Blocked {
            id: 1,
            until: Moment(60),
        })),
    ),
    (Act::Begin("m:3306", 60, 60), Some(Ok(3))),
    (Act::Begin("m:3306", 60, 60), Some(Err(Held::Unended(3)))),
    (
        Act::Ask("x", 60),
        Some(Err(Held::Blocked {
            id: 2,
            until: Moment(3600),
        })),
    ),
];

// Recoveries of two clusters lie between one another; some are done, some only acknowledged or only ended.
const WOVEN: [(Act, Answer); 33] = [
    (Act::Begin("a", 0, 100), Some(Ok(1))),
    (Act::Begin("b", 0, 0), Some(Ok(2))),
    (Act::Begin("c", 0, BLOCK), Some(Ok(3))),
    (Act::Ack("c"), Some(Ok(1))),
    (Act::Ask("c", 5), Some(Err(Held::Unended(3)))),
    (Act::End(2, 1, Ending::Interrupted), Some(Ok(2))),
    (Act::Begin("b", 1, 0), Some(Ok(4))),
    (Act::End(4, 1, Ending::Interrupted), Some(Ok(4))),
    (Act::Begin("b", 2, 50), Some(Ok(5))),
    (Act::Ask("b", 60), Some(Err(Held::Unended(5)))),
    (Act::Ask("a", 60), Some(Err(Held::Unended(1)))),
    (Act::End(5, 3, Ending::Interrupted), Some(Ok(5))),
    (
        Act::Ask("b", 51),
        Some(Err(Held::Blocked {
            id: 5,
            until: Moment(52),
        })),
    ),
    (Act::Ask("b", 52), Some(Ok(6))),
    (Act::End(1, 4, Ending::Promoted(ServerNo(2))), Some(Ok(1))),
    (Act::Begin("b", 52, 0), Some(Ok(6))),
    // an earlier moment: what blocked then blocks
    (
        Act::Ask("a", 99),
        Some(Err(Held::Blocked {
            id: 1,
            until: Moment(100),
        })),
    ),
    (Act::End(6, 52, Ending::Interrupted), Some(Ok(6))),
    (
        Act::Ask("b", 10),
        Some(Err(Held::Blocked {
            id: 5,
            until: Moment(52),
        })),
    ),
    (Act::Begin("a", 100, 7), Some(Ok(7))),
    (Act::Ack("b"), Some(Ok(4))),
    (Act::Ack("b"), Some(Ok(0))),
    (Act::Ask("b", 10), Some(Ok(8))),
    (Act::Ack("a"), Some(Ok(2))),
    (Act::Ask("a", 10), Some(Err(Held::Unended(7)))),
    (Act::End(7, 101, Ending::Interrupted), Some(Ok(7))),
    (Act::Begin("a", 101, 7), Some(Ok(8))),
    (Act::Ack("a"), Some(Ok(1))),
    (Act::End(3, 102, Ending::Interrupted), Some(Ok(3))),
    (Act::Begin("c", 102, 7), Some(Ok(9))),
    (
        Act::Finish(9, 103, Ending::Promoted(ServerNo(1))),
        Some(Ok(9)),
    ),
    (Act::Finish(9, 103, Ending::Interrupted), None),
    (Act::Ask("c", 103), Some(Ok(10))),
];

const NOTHING: Opening = Opening {
    kept: &[],
    period: BLOCK,
    next: 1,
};

// What is kept, and what is done.
const STORIES: [(Opening, &[(Act, Answer)]); 6] = [
    (NOTHING, &APART),
    (NOTHING, &MINUTE),
    (NOTHING, &WOVEN),
    (
        Opening {
            kept: &ENDED,
            period: 0,
            next: 8,
        },
        &LAST,
    ),
    (
        Opening {
            kept: &FAR,
            period: BLOCK,
            next: LAST_ID + 1,
        },
        &FAR_ACTS,
    ),
    (
        Opening {
            kept: &OWN,
            period: 10,
            next: 4,
        },
        &OWN_ACTS,
    ),
];

// The first story with a difference, and the act.
fn first_surprise(alloc: Global, indexed: bool) -> Result<Option<(usize, usize)>, Memory> {
    for (story, (opening, acts)) in STORIES.iter().enumerate() {
        if let Some(act) = first_difference(alloc, *opening, acts, indexed)? {
            return Ok(Some((story, act)));
        }
    }
    Ok(None)
}

#[test]
fn recoveries_stand_apart(rt: HostRuntime) {
    assert_eq!(rt; first_surprise(rt.alloc(), false), Ok(None));
    assert_eq!(rt; first_surprise(rt.alloc(), true), Ok(None));
}

const UNENDED: [Kept; 4] = [
    (3, "a", 10, None, Ending::Unended, Some(BLOCK)),
    (1, "a", 5, None, Ending::Unended, Some(BLOCK)),
    // it has a moment of its end, and no outcome
    (2, "b", 6, Some(6), Ending::Unended, Some(BLOCK)),
    (
        4,
        "b",
        7,
        Some(8),
        Ending::Promoted(ServerNo(1)),
        Some(BLOCK),
    ),
];

const RESTARTED: Opening = Opening {
    kept: &UNENDED,
    period: BLOCK,
    next: 5,
};

const RESTART: Moment = Moment(20);

// What is compared of a recovery: its id, end and outcome, and whether it is acknowledged.
type Told = (u64, Option<Moment>, Ending, bool);

const CLOSING: [Told; 3] = [
    (1, Some(RESTART), Ending::Interrupted, false),
    (2, Some(RESTART), Ending::Interrupted, false),
    (3, Some(RESTART), Ending::Interrupted, false),
];

const CLOSED: [Told; 4] = [
    (1, Some(RESTART), Ending::Interrupted, false),
    (2, Some(RESTART), Ending::Interrupted, false),
    (3, Some(RESTART), Ending::Interrupted, false),
    (4, Some(Moment(8)), Ending::Promoted(ServerNo(1)), false),
];

fn are_told(list: &[Recovery], want: &[Told]) -> bool {
    for (r, told) in list.iter().zip(want) {
        if (r.id, r.ended, r.outcome, r.acked) != *told {
            return false;
        }
    }
    list.len() == want.len()
}

// Whether the restart closes what it should, and whether a copy of the audit after it is as it should be.
fn restart(alloc: Global, audit: &mut Audit) -> Result<(bool, bool), Memory> {
    let closing = audit.closing(alloc, RESTART)?;
    audit.close(RESTART);
    let copy = audit.copy(alloc)?;
    Ok((
        are_told(&closing, &CLOSING),
        are_told(copy.recoveries(), &CLOSED),
    ))
}

fn restarted(alloc: Global) -> Result<(bool, bool), Memory> {
    match audit_of(alloc, RESTARTED, true)? {
        Some(mut audit) => {
            let restarted = restart(alloc, &mut audit);
            drop(audit);
            restarted
        }
        None => Ok((false, false)),
    }
}

#[test]
fn a_restart_closes_the_unended(rt: HostRuntime) {
    assert_eq!(rt; restarted(rt.alloc()), Ok((true, true)));
}
