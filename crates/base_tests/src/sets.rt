use gtid_sets::{GtidFault, GtidSet, LARGEST, Memory};
use std::alloc::Global;

const U: u128 = 0x3e11fa47_71ca_11e1_9e33_c80aa9429562;

const V: u128 = 0x2174b383_5441_11e8_b90a_c80aa9429562;

// The set of these GTIDs, added one after another, as it is printed.
fn printed_of(alloc: Global, gtids: &[(u128, u64)]) -> Result<Vec<u8>, Memory> {
    let mut set = GtidSet::empty(alloc);
    for (uuid, n) in gtids {
        if *n >= 1 && *n <= LARGEST {
            set.add(*uuid, *n)?;
        }
    }
    let mut out = Vec::new(alloc);
    set.print(&mut out)?;
    Ok(out)
}

type Added = (&'static [(u128, u64)], &'static str);

static ADDED: [Added; 5] = [
    (&[], ""),
    (
        &[(U, 4), (U, 2), (U, 1), (U, 3)],
        "3e11fa47-71ca-11e1-9e33-c80aa9429562:1-4",
    ),
    (
        &[(U, LARGEST)],
        "3e11fa47-71ca-11e1-9e33-c80aa9429562:9223372036854775806",
    ),
    (
        &[(U, 3), (V, 1), (V, 2), (V, 3), (U, 11), (U, 1), (U, 2)],
        "2174b383-5441-11e8-b90a-c80aa9429562:1-3,3e11fa47-71ca-11e1-9e33-c80aa9429562:1-3:11",
    ),
    (&[(0, 1)], "00000000-0000-0000-0000-000000000000:1"),
];

fn prints_as(alloc: Global, gtids: &[(u128, u64)], want: &str) -> bool {
    match printed_of(alloc, gtids) {
        Ok(out) => out.as_slice() == want.as_bytes(),
        Err(_) => false,
    }
}

#[test]
fn prints(rt: HostRuntime) {
    for (gtids, want) in &ADDED {
        assert!(rt; prints_as(rt.alloc(), gtids, want), "{want}");
    }
}

// What becomes of a set.
#[derive(Clone, Copy)]
enum Change {
    Copy,
    Union(&'static str),
    Minus(&'static str),
}

fn changed(alloc: Global, set: &GtidSet, change: Change) -> Result<GtidSet, GtidFault> {
    Ok(match change {
        Change::Copy => set.copy()?,
        Change::Union(text) => set.union(&GtidSet::read(alloc, text)?)?,
        Change::Minus(text) => set.minus(&GtidSet::read(alloc, text)?)?,
    })
}

// The set that this text becomes, as it is printed, and its count.
fn printed(alloc: Global, text: &str, change: Change) -> Result<(Vec<u8>, u128), GtidFault> {
    let set = changed(alloc, &GtidSet::read(alloc, text)?, change)?;
    let mut out = Vec::new(alloc);
    set.print(&mut out)?;
    Ok((out, set.count()))
}

fn becomes(
    alloc: Global,
    text: &str,
    change: Change,
    want: Result<(&str, u128), GtidFault>,
) -> bool {
    match (printed(alloc, text, change), want) {
        (Ok(found), Ok(want)) => found.0.as_slice() == want.0.as_bytes() && found.1 == want.1,
        (Err(fault), Err(want)) => fault == want,
        (Ok(_), Err(_)) | (Err(_), Ok(_)) => false,
    }
}

type Row = (
    &'static str,
    Change,
    Result<(&'static str, u128), GtidFault>,
);

static ROWS: [Row; 21] = [
    ("", Change::Copy, Ok(("", 0))),
    (
        "3e11fa47-71ca-11e1-9e33-c80aa9429562:1-3:4",
        Change::Copy,
        Ok(("3e11fa47-71ca-11e1-9e33-c80aa9429562:1-4", 4)),
    ),
    (
        "3E11FA47-71CA-11E1-9E33-C80AA9429562:1-5:3-9",
        Change::Copy,
        Ok(("3e11fa47-71ca-11e1-9e33-c80aa9429562:1-9", 9)),
    ),
    (
        "3e11fa47-71ca-11e1-9e33-c80aa9429562:0",
        Change::Copy,
        Err(GtidFault::Zero(37)),
    ),
    (
        "3e11fa47-71ca-11e1-9e33-c80aa9429562:3-2",
        Change::Copy,
        Err(GtidFault::BadInterval(37)),
    ),
    (
        "3e11fa47-71ca-11e1-9e33-c80aa9429562:9223372036854775806",
        Change::Copy,
        Ok((
            "3e11fa47-71ca-11e1-9e33-c80aa9429562:9223372036854775806",
            1,
        )),
    ),
    (
        "3e11fa47-71ca-11e1-9e33-c80aa9429562:9223372036854775807",
        Change::Copy,
        Err(GtidFault::TooLarge(37)),
    ),
    (
        "3e11fa47-71ca-11e1-9e33-c80aa9429562:1-2,\n3e11fa47-71ca-11e1-9e33-c80aa9429562:4",
        Change::Copy,
        Ok(("3e11fa47-71ca-11e1-9e33-c80aa9429562:1-2:4", 3)),
    ),
    (
        "3e11fa47-71ca-11e1-9e33-c80aa9429562:1-2",
        Change::Union("3e11fa47-71ca-11e1-9e33-c80aa9429562:4"),
        Ok(("3e11fa47-71ca-11e1-9e33-c80aa9429562:1-2:4", 3)),
    ),
    (
        "3e11fa47-71ca-11e1-9e33-c80aa9429562:1-2:4",
        Change::Minus("3e11fa47-71ca-11e1-9e33-c80aa9429562:2"),
        Ok(("3e11fa47-71ca-11e1-9e33-c80aa9429562:1:4", 2)),
    ),
    (" \t\r\n", Change::Copy, Ok(("", 0))),
    (
        "3E11FA47-71CA-11E1-9E33-C80AA9429562:1-3:11:47-49",
        Change::Copy,
        Ok(("3e11fa47-71ca-11e1-9e33-c80aa9429562:1-3:11:47-49", 7)),
    ),
    (
        "2174B383-5441-11E8-B90A-C80AA9429562:1-3, 24DA167-0C0C-11E8-8442-00059A3C7B00:1-19",
        Change::Copy,
        Err(GtidFault::BadUuid(42)),
    ),
    (
        "24DA1670-0C0C-11E8-8442-00059A3C7B00:1-19, 2174B383-5441-11E8-B90A-C80AA9429562:1-3",
        Change::Copy,
        Ok((
            "2174b383-5441-11e8-b90a-c80aa9429562:1-3,24da1670-0c0c-11e8-8442-00059a3c7b00:1-19",
            22,
        )),
    ),
    (
        "3e11fa47-71ca-11e1-9e33-c80aa9429562",
        Change::Copy,
        Err(GtidFault::BadInterval(36)),
    ),
    (
        "3e11fa4771ca11e19e33c80aa9429562:1",
        Change::Copy,
        Err(GtidFault::BadUuid(0)),
    ),
    (
        "3e11fa47-71ca-11e1-9e33-c80aa9429562:1, ,",
        Change::Copy,
        Err(GtidFault::BadUuid(40)),
    ),
    (
        "3e11fa47-71ca-11e1-9e33-c80aa9429562:1, ",
        Change::Copy,
        Err(GtidFault::BadUuid(40)),
    ),
    (
        "3e11fa47-71ca-11e1-9e33-c80aa9429562:1:",
        Change::Copy,
        Err(GtidFault::BadInterval(39)),
    ),
    (
        "3e11fa47-71ca-11e1-9e33-c80aa9429562:007-+9",
        Change::Copy,
        Err(GtidFault::BadInterval(37)),
    ),
    (
        " 3e11fa47-71ca-11e1-9e33-c80aa9429562:0007 ",
        Change::Copy,
        Ok(("3e11fa47-71ca-11e1-9e33-c80aa9429562:7", 1)),
    ),
];

#[test]
fn reads_and_operates(rt: HostRuntime) {
    for (text, change, want) in &ROWS {
        assert!(rt; becomes(rt.alloc(), text, *change, *want), "at {text}");
    }
}

// Every second number from one more than twice `from` on, so many of them.
fn spread(alloc: Global, from: u64, len: u64) -> Result<GtidSet, Memory> {
    if len <= 1 {
        let mut set = GtidSet::empty(alloc);
        set.add(U, from.min(1_000_000) * 2 + 1)?;
        return Ok(set);
    }
    let half = len / 2;
    let front = spread(alloc, from, half)?;
    front.union(&spread(alloc, from.saturating_add(half), len - half)?)
}

// How many are in a set of 100,000 intervals, and whether the union of its halves is the same, with nothing over.
fn halves(alloc: Global) -> Result<(u128, bool, bool), Memory> {
    let all = spread(alloc, 1, 100_000)?;
    let back = spread(alloc, 50_001, 50_000)?;
    let front = all.minus(&back)?;
    let whole = back.union(&front)?;
    Ok((all.count(), whole.is_same(&all), front.is_subset(&all)))
}

#[test]
fn takes_many(rt: HostRuntime) {
    assert!(rt; halves(rt.alloc()) == Ok((100_000, true, true)));
}
