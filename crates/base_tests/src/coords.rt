ghost use Rattle.std.specs.Prelude.{◌≡◌, ◌≤◌, length, IfOk};

use crate::orch_base::Memory;
use binlog_coords::{Coord, CoordFault, LogIndex, Next, print_coord, read_coord};
use std::alloc::Global;

fn at(file: u32, pos: u64) -> Coord {
    Coord { file, pos }
}

fn two_of_100(alloc: Global) -> Result<LogIndex, Memory> {
    let mut log = LogIndex::with_room(alloc, 200, 2, 0)?;
    log.push(100);
    log.push(100);
    Ok(log)
}

// A coordinate, its place, and what follows it.
type Step = (Coord, Option<u64>, Option<Next>);

static STEPS: [Step; 6] = [
    (
        Coord { file: 1, pos: 4 },
        Some(0),
        Some(Next::Entry(0, Coord { file: 1, pos: 104 })),
    ),
    (
        Coord { file: 1, pos: 104 },
        Some(1),
        Some(Next::Entry(1, Coord { file: 1, pos: 204 })),
    ),
    (Coord { file: 1, pos: 150 }, None, None),
    (
        Coord { file: 1, pos: 204 },
        Some(2),
        Some(Next::Rotate(Coord { file: 2, pos: 4 })),
    ),
    (Coord { file: 2, pos: 4 }, Some(2), Some(Next::End)),
    (Coord { file: 3, pos: 4 }, None, None),
];

fn step(log: &LogIndex, c: Coord) -> Step {
    match log.place(c) {
        Some(place) => (c, Some(place), Some(log.next_after(c))),
        None => (c, None, None),
    }
}

// The first step that the log answers otherwise.
fn other_step(log: &LogIndex) -> Option<Step> {
    for wanted in &STEPS {
        let found = step(log, wanted.0);
        if found != *wanted {
            return Some(found);
        }
    }
    None
}

// The end, length, files and flushes left of a log of two transactions, and the first step that it answers otherwise.
fn shown(alloc: Global) -> Result<(Coord, u64, u32, u64, Option<Step>), Memory> {
    let log = two_of_100(alloc)?;
    Ok((
        log.end(),
        log.len(),
        log.files(),
        log.flushes_left(),
        other_step(&log),
    ))
}

#[test]
fn places_and_steps(rt: HostRuntime) {
    assert!(rt; shown(rt.alloc()) == Ok((at(2, 4), 2, 2, 0, None)));
}

const PRINTED: &str =
    "mysql-bin.000001:4mysql-bin.000001:204mysql-bin.1000000:4mysql-bin.4294967295:18446744073709551615";

// Whether four coordinates print `PRINTED`.
fn are_printed(alloc: Global) -> Result<bool, Memory> {
    let mut out = Vec::new(alloc);
    for (file, pos) in [
        (1, 4),
        (1, 204),
        (1000000, 4),
        (4294967295, 18446744073709551615),
    ] {
        print_coord(at(file, pos), &mut out)?;
    }
    Ok(out.as_slice() == PRINTED.as_bytes())
}

#[test]
fn prints(rt: HostRuntime) {
    assert!(rt; are_printed(rt.alloc()) == Ok(true));
}

// Ten transactions of 100 bytes fill a file.
fn filled(alloc: Global) -> Result<LogIndex, Memory>
    ensures { IfOk result (λ log. length log.log.entries ≡ 1000000) }
{
    let mut log = LogIndex::with_room(alloc, 1000, 1000000, 0)?;
    'pushes: while log.len() < 1000000 {
        log.push(100);
    }
    Ok(log)
}

// The first transaction after which the log has another place, coordinate or next step.
fn misplaced(log: &LogIndex) -> Option<u32>
    requires { length log.now.log.entries ≡ 1000000 }
{
    for index in 0..1000000u32 {
        let k = u64::from(index) + 1;
        let (file, pos) = (index / 10 + 1, u64::from(index % 10) * 100 + 104);
        let end = at(file, pos);
        let next = if index % 10 == 9 {
            Next::Rotate(at(file + 1, 4))
        } else {
            Next::Entry(k, at(file, pos + 100))
        };
        if (log.coord_after(k), step(log, end)) != (end, (end, Some(k), Some(next))) {
            return Some(index);
        }
    }
    None
}

// The end of the long log, and the first transaction that is misplaced.
fn filled_end(alloc: Global) -> Result<(Coord, Option<u32>), Memory> {
    let log = filled(alloc)?;
    Ok((log.end(), misplaced(&log)))
}

#[test]
fn long_log(rt: HostRuntime) {
    assert!(rt; filled_end(rt.alloc()) == Ok((at(100001, 4), None)));
}

static TEXTS: [(&str, Result<Coord, CoordFault>); 31] = [
    ("mysql-bin.000001:4", Ok(Coord { file: 1, pos: 4 })),
    (
        "mysql-bin.1000000:4",
        Ok(Coord {
            file: 1000000,
            pos: 4,
        }),
    ),
    ("mysql-bin.000001", Err(CoordFault::NoColon)),
    ("mysql-bin.1:4", Err(CoordFault::BadFile)),
    ("mysql-bin.000000:4", Err(CoordFault::BadFile)),
    ("mysql-bin.000001:04", Err(CoordFault::BadPos)),
    ("mysql-bin.000001:3", Err(CoordFault::BadPos)),
    (
        "mysql-bin.999999:100",
        Ok(Coord {
            file: 999999,
            pos: 100,
        }),
    ),
    (
        "mysql-bin.4294967295:18446744073709551615",
        Ok(Coord {
            file: 4294967295,
            pos: 18446744073709551615,
        }),
    ),
    ("", Err(CoordFault::NoColon)),
    ("é", Err(CoordFault::NoColon)),
    (":", Err(CoordFault::BadFile)),
    (":4", Err(CoordFault::BadFile)),
    ("mysql-bin.:4", Err(CoordFault::BadFile)),
    ("mysql-bin:4", Err(CoordFault::BadFile)),
    ("relay-bin.000001:4", Err(CoordFault::BadFile)),
    (" mysql-bin.000001:4", Err(CoordFault::BadFile)),
    ("mysql-bin.00001:4", Err(CoordFault::BadFile)),
    ("mysql-bin.0000001:4", Err(CoordFault::BadFile)),
    ("mysql-bin.+00001:4", Err(CoordFault::BadFile)),
    ("mysql-bin.00000a:x", Err(CoordFault::BadFile)),
    ("mysql-bin.00000é:4", Err(CoordFault::BadFile)),
    ("mysql-bin.4294967296:4", Err(CoordFault::BadFile)),
    ("mysql-bin.000001:4:4", Err(CoordFault::BadFile)),
    ("mysql-bin.000001:4:", Err(CoordFault::BadFile)),
    ("mysql-bin.000001:", Err(CoordFault::BadPos)),
    ("mysql-bin.000001:x", Err(CoordFault::BadPos)),
    ("mysql-bin.000001:+4", Err(CoordFault::BadPos)),
    ("mysql-bin.000001:4 ", Err(CoordFault::BadPos)),
    ("mysql-bin.000001:٤", Err(CoordFault::BadPos)),
    (
        "mysql-bin.000001:18446744073709551616",
        Err(CoordFault::BadPos),
    ),
];

#[test]
fn reads(rt: HostRuntime) {
    for (text, want) in &TEXTS {
        assert!(rt; read_coord(text) == *want, "at {text}");
    }
}
