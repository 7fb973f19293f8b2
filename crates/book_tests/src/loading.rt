//! What a load of kept rows keeps of recoveries.

use crate::deciding::loaded;
use crate::orch_base::{Memory, Moment, ServerNo};
use crate::rows::{Given, OnePeriod, are_rows, rows};
use audit_log::Audit;
use instance_keeper::{Change, Ending, Keeper, KeeperFault, MemKeeper, Row};
use opening_book::{counted, last_id, loading};
use std::alloc::Global;

/// The block period of a cluster, for rows that have none.
const PERIOD: u64 = 60;

// Those of these rows that count among two servers.
fn counting(alloc: Global, given: &[Given]) -> Result<Vec<Row>, Memory> {
    counted(alloc, 2, 1 << 62, rows(alloc, given)?)
}

fn changes(
    alloc: Global,
    audit: &Audit,
    given: &[Given],
    at: Moment,
) -> Result<Vec<Change>, Memory> {
    let counting = counting(alloc, given)?;
    loading(alloc, &OnePeriod(PERIOD), &counting, audit, at)
}

// What a load of these rows keeps at this moment; none if they make no audit.
fn kept(alloc: Global, given: &[Given], at: Moment) -> Result<Option<Vec<Change>>, Memory> {
    let next = last_id(&rows(alloc, given)?).saturating_add(1);
    match loaded(alloc, counting(alloc, given)?, PERIOD, next)? {
        Some(audit) => {
            let changes = changes(alloc, &audit, given, at);
            drop(audit);
            Ok(Some(changes?))
        }
        None => Ok(None),
    }
}

// Whether the changes, kept in one call, make these rows of those.
fn become_so(
    alloc: Global,
    changes: &[Change],
    given: &[Given],
    want: &[Given],
) -> Result<bool, KeeperFault> {
    let mut keeper = MemKeeper::new(alloc, rows(alloc, given)?, Vec::new(alloc))?;
    keeper.keep(alloc, &[], changes)?;
    let rows = keeper.rows(alloc, &[])?;
    Ok(are_rows(alloc, &rows, want)?)
}

fn is_load(
    alloc: Global,
    at: Moment,
    given: &[Given],
    want: &[Given],
) -> Result<bool, KeeperFault> {
    match kept(alloc, given, at)? {
        Some(changes) => become_so(alloc, &changes, given, want),
        None => Ok(false),
    }
}

const BY_OTHER: Ending = Ending::Promoted(ServerNo(1));

// It is led by no server that there is.
const UNKNOWN: Given = Given::Blocking(4, None, Ending::Promoted(ServerNo(2)), None);

const ROWS: [Given; 5] = [
    Given::Blocking(1, Some(4), BY_OTHER, None),
    Given::Blocking(2, None, Ending::Unended, Some(9)),
    Given::Blocking(3, Some(2), Ending::Interrupted, Some(0)),
    UNKNOWN,
    Given::Claim(16, 90),
];

const LOADED: [Given; 5] = [
    Given::Blocking(1, Some(4), BY_OTHER, Some(PERIOD)),
    Given::Blocking(2, Some(5), Ending::Interrupted, Some(9)),
    Given::Blocking(3, Some(2), Ending::Interrupted, Some(0)),
    UNKNOWN,
    Given::Claim(16, 90),
];

// A moment, rows that are kept, and those that are kept after a load at it.
const LOADS: [(Moment, &[Given], &[Given]); 2] = [
    (
        Moment(0),
        &[Given::Blocking(1, None, Ending::Unended, None)],
        &[Given::Blocking(1, Some(0), Ending::Interrupted, Some(PERIOD))],
    ),
    (Moment(5), &ROWS, &LOADED),
];

// The first load that keeps otherwise.
fn first_surprise(alloc: Global) -> Result<Option<usize>, KeeperFault> {
    for (place, (at, given, want)) in LOADS.iter().enumerate() {
        if !is_load(alloc, *at, given, want)? {
            return Ok(Some(place));
        }
    }
    Ok(None)
}

#[test]
fn recoveries_are_loaded_with_their_periods(rt: HostRuntime) {
    assert_eq!(rt; first_surprise(rt.alloc()), Ok(None));
}
