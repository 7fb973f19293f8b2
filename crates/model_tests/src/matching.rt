//! Logs that match, and those that don't, as rows of data.

use crate::binlog_coords_items::Coord;
use crate::given::{Given, MASTER, REPLICA, world_of};
use crate::orch_base::ServerNo;
use crate::server_model::World;
use job_plans::{MatchFault, match_logs};
use openings::Part;
use std::test::Fail;

const M: ServerNo = ServerNo(0);

const X: ServerNo = ServerNo(1);

const R: ServerNo = ServerNo(2);

const N: ServerNo = ServerNo(3);

/// X went on from the second of M's three transactions with one of its own, of the same size. R has executed two of
/// M's; N has executed all, and doesn't log.
const SERVERS: &[Given] = &[
    Given {
        history: &[Part {
            origin: M,
            size: 100,
            count: 3,
        }],
        ..MASTER
    },
    Given {
        name: "x",
        history: &[
            Part {
                origin: M,
                size: 100,
                count: 2,
            },
            Part {
                origin: X,
                size: 100,
                count: 1,
            },
        ],
        ..MASTER
    },
    Given {
        executed: 2,
        ..REPLICA
    },
    Given {
        name: "n",
        logs: false,
        executed: 3,
        ..REPLICA
    },
];

const AFTER_TWO: Result<Coord, MatchFault> = Ok(Coord { file: 1, pos: 204 });

const AFTER_THREE: Result<Coord, MatchFault> = Ok(Coord { file: 1, pos: 304 });

const NO_MARK: Result<Coord, MatchFault> = Err(MatchFault::NoMark);

const NOT_THE_THIRD: Result<Coord, MatchFault> = Err(MatchFault::Mismatch(3));

/// A server, the one with whose log its log is matched, the distance of marks, and the coordinate at which it ends
/// there.
const ROWS: [(ServerNo, ServerNo, u64, Result<Coord, MatchFault>); 12] = [
    (X, M, 2, NOT_THE_THIRD),
    (M, X, 2, NOT_THE_THIRD),
    (R, M, 2, AFTER_TWO),
    (R, M, 1, AFTER_TWO),
    (R, X, 2, AFTER_TWO),
    (M, R, 2, NOT_THE_THIRD),
    (M, R, 3, NO_MARK),
    (M, M, 2, AFTER_THREE),
    (R, M, 3, NO_MARK),
    (R, M, 0, NO_MARK),
    (N, M, 1, NO_MARK),
    (R, N, 1, NO_MARK),
];

// The first row that is answered otherwise.
fn differing(world: &World) -> Option<usize> {
    for (k, (r, d, every, told)) in ROWS.iter().enumerate() {
        if match_logs(world, *r, *d, *every) != *told {
            return Some(k);
        }
    }
    None
}

#[test]
fn logs_match_behind_their_last_mark(rt: HostRuntime) -> Result<(), Fail> {
    let world = world_of(rt.alloc(), SERVERS, false, 4, 0)?;
    assert_eq!(rt; differing(&world), None);
    Ok(())
}
