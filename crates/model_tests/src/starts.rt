//! Openings: their check, their copies, and the histories and logs of their servers.

use crate::binlog_coords_items::{Coord, LogIndex};
use crate::given::{Given, MASTER, REPLICA, checked};
use crate::orch_base::{ServerNo, Txn};
use opening_checks::{FlawedValue, OpeningFault};
use openings::{Flaw, Opening, Part, count_of, history_at, log_of};
use std::alloc::Global;
use std::test::Fail;

/// A server that has executed two of its own transactions and one of its replica's between them, with files of 200
/// bytes, and flushes after the first and the third. And its replica, which has executed two of them.
const MIXED: &[Given] = &[
    Given {
        limit: 200,
        history: &[
            Part {
                origin: ServerNo(0),
                size: 100,
                count: 1,
            },
            Part {
                origin: ServerNo(1),
                size: 50,
                count: 1,
            },
            Part {
                origin: ServerNo(0),
                size: 100,
                count: 1,
            },
        ],
        flushes: &[1, 3],
        ..MASTER
    },
    Given {
        executed: 2,
        ..REPLICA
    },
];

/// A replica that has executed one transaction more than its source.
const AHEAD: &[Given] = &[
    MASTER,
    Given {
        executed: 1,
        ..REPLICA
    },
];

const HISTORY: [Txn; 3] = [
    Txn {
        origin: ServerNo(0),
        seq: 1,
        size: 100,
    },
    Txn {
        origin: ServerNo(1),
        seq: 1,
        size: 50,
    },
    Txn {
        origin: ServerNo(0),
        seq: 2,
        size: 100,
    },
];

// The history of a server.
fn history(alloc: Global, opening: &Opening, n: u32) -> Result<Vec<Txn>, Fail> {
    Ok(history_at(alloc, opening.servers(), ServerNo(n), 4_000_000)?)
}

// The log of a server, if the opening has it and it has no more flushes than these.
fn log(alloc: Global, opening: &Opening, n: u32, flushes: u64) -> Result<LogIndex, Fail> {
    let servers = opening.servers();
    let history = history_at(alloc, servers, ServerNo(n), 4_000_000)?;
    if (n as usize) < servers.len() && flushes <= 4_000_000 {
        let init = &servers[n as usize];
        let flushed = init.flushes.as_slice().len() as u64;
        if history.len() as u64 == count_of(init) && flushed <= flushes {
            return Ok(log_of(alloc, init, &history, 4_000_000, flushes)?);
        }
    }
    Err(Fail::from("no log"))
}

// The place of a coordinate in the first server's log, how many flushes are left of five, and the end of the second's.
fn logs(alloc: Global, opening: &Opening) -> Result<(Option<u64>, u64, Coord), Fail> {
    let first = log(alloc, opening, 0, 5)?;
    let second = log(alloc, opening, 1, 0)?;
    Ok((
        first.place(Coord { file: 2, pos: 54 }),
        first.flushes_left(),
        second.end(),
    ))
}

// Whether the servers' histories are as they are wanted, and the copy of the opening equal to it.
fn is_as_wanted(alloc: Global, opening: &Opening) -> Result<(bool, bool, bool), Fail> {
    let first = history(alloc, opening, 0)?;
    let second = history(alloc, opening, 1)?;
    Ok((
        first.as_slice() == HISTORY.as_slice(),
        second.as_slice() == &HISTORY[..2],
        opening.copy(alloc)?.same(opening),
    ))
}

#[test]
fn openings_are_made(rt: HostRuntime) -> Result<(), Fail> {
    let alloc = rt.alloc();
    let opening = checked(alloc, MIXED, false)??;
    let place = Some(2);
    assert_eq!(rt;
        (is_as_wanted(alloc, &opening)?, logs(alloc, &opening)?),
        ((true, true, true), (place, 3, Coord { file: 1, pos: 154 }))
    );
    Ok(())
}

#[test]
fn flaws_are_found(rt: HostRuntime) -> Result<(), Fail> {
    let fault = checked(rt.alloc(), AHEAD, false)?.err();
    let flaw = OpeningFault::Flawed(Flaw::TooMany, ServerNo(1), FlawedValue::Executed);
    assert_eq!(rt; fault, Some(flaw));
    Ok(())
}
