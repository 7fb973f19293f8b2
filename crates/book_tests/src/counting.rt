//! Which rows count, and what they make of an opening.

use crate::orch_base::{Memory, Moment, ServerNo, SourceState};
use crate::rows::{Given, are_rows, rows, settings};
use instance_keeper::{Book, Ending, Rule};
use opening_book::{counted, last_id, last_read, latest_moment};
use std::alloc::Global;
use std::slice;

/// The greatest read number and moment.
const MOST: u64 = 1 << 63;

/// The greatest id of a recovery.
const MOST_ID: u64 = 1 << 62;

const ROOT: SourceState = SourceState::Without;

/// The longest block period.
const LONGEST: u64 = 1_000_000_000;

// Rows of two servers that count.
const GOOD: [Given; 11] = [
    Given::Claim(16, MOST),
    Given::Switch(false),
    Given::Recovery(MOST_ID, MOST, Some(MOST), Ending::Interrupted),
    Given::Blocking(3, None, Ending::Unended, Some(LONGEST)),
    Given::Blocking(2, None, Ending::Unended, None),
    Given::Recovery(1, 40, None, Ending::Promoted(ServerNo(1))),
    Given::Candidate(1, Rule::Prefer, MOST),
    Given::Downtime(0, 50, MOST),
    Given::Instance(0, ROOT, 9, 3),
    Given::Instance(0, SourceState::Detached(ServerNo(1)), MOST, MOST),
    Given::Instance(1, SourceState::Attached(ServerNo(0)), 7, 0),
];

// The same in order: of the two rows of one server the last counts.
const IN_ORDER: [Given; 10] = [
    Given::Instance(0, SourceState::Detached(ServerNo(1)), MOST, MOST),
    Given::Instance(1, SourceState::Attached(ServerNo(0)), 7, 0),
    Given::Downtime(0, 50, MOST),
    Given::Candidate(1, Rule::Prefer, MOST),
    Given::Recovery(1, 40, None, Ending::Promoted(ServerNo(1))),
    Given::Blocking(2, None, Ending::Unended, None),
    Given::Blocking(3, None, Ending::Unended, Some(LONGEST)),
    Given::Recovery(MOST_ID, MOST, Some(MOST), Ending::Interrupted),
    Given::Switch(false),
    Given::Claim(16, MOST),
];

// Whether of these rows those count, in their order, among so many servers, by the last id that counts.
fn counts(
    alloc: Global,
    servers: u32,
    last: u64,
    given: &[Given],
    want: &[Given],
) -> Result<bool, Memory> {
    let rows = counted(alloc, servers, last, rows(alloc, given)?)?;
    are_rows(alloc, &rows, want)
}

// Rows that don't count, because a server is unknown or a number is past its greatest.
const HOSTILE: [Given; 19] = [
    Given::Instance(2, ROOT, 0, 0),
    Given::Instance(0, SourceState::Attached(ServerNo(2)), 0, 0),
    Given::Instance(0, SourceState::Detached(ServerNo(u32::MAX)), 0, 0),
    Given::Instance(0, ROOT, MOST + 1, 0),
    Given::Instance(0, ROOT, 0, u64::MAX),
    Given::Downtime(2, 0, 0),
    Given::Downtime(0, MOST + 1, 0),
    Given::Downtime(0, 0, MOST + 1),
    Given::Candidate(2, Rule::Prefer, 0),
    Given::Candidate(0, Rule::Prefer, u64::MAX),
    Given::Recovery(0, 0, None, Ending::Unended),
    Given::Recovery(MOST_ID + 1, 0, None, Ending::Unended),
    Given::Recovery(1, MOST + 1, None, Ending::Unended),
    Given::Recovery(1, 0, Some(MOST + 1), Ending::Unended),
    Given::Recovery(1, 0, None, Ending::Promoted(ServerNo(2))),
    Given::Blocking(1, None, Ending::Unended, Some(LONGEST + 1)),
    Given::Claim(0, 0),
    Given::Claim(17, 0),
    Given::Claim(1, MOST + 1),
];

// The first of these rows that counts by itself.
fn first_counted(alloc: Global) -> Result<Option<usize>, Memory> {
    for (place, row) in HOSTILE.iter().enumerate() {
        if !counts(alloc, 2, MOST_ID, slice::from_ref(row), &[])? {
            return Ok(Some(place));
        }
    }
    Ok(None)
}

#[test]
fn hostile_rows_do_not_count(rt: HostRuntime) {
    assert_eq!(rt; first_counted(rt.alloc()), Ok(None));
}

// Recoveries by ids. The next id is after each that is in range, and at a restart the ids that were given count.
const RECOVERIES: [Given; 4] = [
    Given::Recovery(MOST_ID + 7, 0, None, Ending::Unended),
    Given::Recovery(9, 0, None, Ending::Unended),
    Given::Recovery(8, 0, None, Ending::Unended),
    Given::Recovery(0, 0, None, Ending::Unended),
];

// How many servers there are, the last id that counts, the rows, and those that count.
const COUNTED: [(u32, u64, &[Given], &[Given]); 3] = [
    (2, MOST_ID, &GOOD, &IN_ORDER),
    (
        0,
        MOST_ID,
        &GOOD,
        &[Given::Switch(false), Given::Claim(16, MOST)],
    ),
    (
        2,
        8,
        &RECOVERIES,
        &[Given::Recovery(8, 0, None, Ending::Unended)],
    ),
];

// The first case whose rows don't count so.
fn first_miscounted(alloc: Global) -> Result<Option<usize>, Memory> {
    for (place, (servers, last, given, want)) in COUNTED.iter().enumerate() {
        if !counts(alloc, *servers, *last, given, want)? {
            return Ok(Some(place));
        }
    }
    Ok(None)
}

#[test]
fn counted_rows_stand_in_order(rt: HostRuntime) {
    assert_eq!(rt; first_miscounted(rt.alloc()), Ok(None));
}

// The last id and reading, and the latest moment from two on.
type Numbers = (u64, u64, [Moment; 2]);

fn numbers(alloc: Global, given: &[Given]) -> Result<Numbers, Memory> {
    let rows = rows(alloc, given)?;
    let latest = [
        latest_moment(Moment(5), &rows),
        latest_moment(Moment(60), &rows),
    ];
    Ok((last_id(&rows), last_read(&rows), latest))
}

const UNENDED: [Given; 2] = [
    Given::Downtime(0, 50, MOST),
    Given::Recovery(1, 40, None, Ending::Promoted(ServerNo(1))),
];

const NUMBERS: [(&[Given], Numbers); 4] = [
    (&IN_ORDER, (MOST_ID, MOST, [Moment(MOST), Moment(MOST)])),
    (&UNENDED, (1, 0, [Moment(50), Moment(60)])),
    (&RECOVERIES, (9, 0, [Moment(5), Moment(60)])),
    (&[], (0, 0, [Moment(5), Moment(60)])),
];

// The first case whose numbers are others.
fn first_misnumbered(alloc: Global) -> Result<Option<usize>, Memory> {
    for (place, (given, want)) in NUMBERS.iter().enumerate() {
        if numbers(alloc, given)? != *want {
            return Ok(Some(place));
        }
    }
    Ok(None)
}

#[test]
fn numbers_go_on(rt: HostRuntime) {
    assert_eq!(rt; first_misnumbered(rt.alloc()), Ok(None));
}

const SERVERS: [(&str, &str); 2] = [("m", "m:3306"), ("r", "m:3306")];

// How many servers there are, and whether recoveries are enabled.
fn loaded(alloc: Global) -> Result<(u32, bool), Memory> {
    let settings = settings(alloc, &SERVERS)?;
    let rows = rows(alloc, &IN_ORDER)?;
    let book = Book::make(alloc, &settings, &rows)?;
    let told = (book.servers(), book.enabled());
    drop(book);
    Ok(told)
}

#[test]
fn book_is_loaded(rt: HostRuntime) {
    assert_eq!(rt; loaded(rt.alloc()), Ok((2, false)));
}
