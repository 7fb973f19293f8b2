//! A row store over a real file.

use crate::orch_base::{Memory, Moment, Name, OwnedText, ServerNo};
use kept_rows::{Candidate, Change, Keeper, KeeperFault, Key, Row, Rule, Table};
use sql_keeper::SqlKeeper;
use std::alloc::Global;
use std::fs;
use std::test::Fail;

const FOLDER: &str = "keeper_tests_rows";

fn named(alloc: Global, text: &str) -> Result<Name, Memory> {
    match Name::read(alloc, text) {
        Ok(name) => Ok(name),
        Err(_) => Err(Memory),
    }
}

// A registration of the server of this number.
fn candidate(no: u32, until: u64) -> Row {
    Row::Candidate(Candidate {
        no: ServerNo(no),
        rule: Rule::Prefer,
        until: Moment(until),
    })
}

fn open(rt: &HostRuntime, path: &str) -> Result<SqlKeeper, Memory> {
    let path = OwnedText::new(String::from_str(rt.alloc(), path)?);
    Ok(SqlKeeper::open(rt, path))
}

// The servers and moments of the registrations that a row store gives.
fn given(
    keeper: &mut SqlKeeper,
    alloc: Global,
    names: &[Name],
) -> Result<Vec<(u32, u64)>, KeeperFault> {
    let mut pairs = Vec::new(alloc);
    for row in keeper.rows(alloc, names)? {
        if let Row::Candidate(candidate) = row {
            pairs
                .push((candidate.no.0, candidate.until.0))
                .map_err(|_| KeeperFault::Memory)?;
        }
    }
    Ok(pairs)
}

// Keeps registrations of the servers 0 to 2, then another of server 1 and none of server 2.
fn keep(keeper: &mut SqlKeeper, alloc: Global, names: &[Name]) -> Result<(), KeeperFault> {
    let first = [
        Change::Put(candidate(2, 5)),
        Change::Put(candidate(0, 7)),
        Change::Put(candidate(1, 8)),
    ];
    keeper.keep(alloc, names, &first)?;
    let second = [
        Change::Put(candidate(1, 9)),
        Change::Remove(Table::Candidate, Key::Server(ServerNo(2))),
    ];
    keeper.keep(alloc, names, &second)
}

#[test]
fn rows_are_kept_in_a_file(rt: HostRuntime) -> Result<(), Fail> {
    let alloc = rt.alloc();
    let _ = fs::remove_dir_all(&rt, FOLDER);
    fs::create_dir(&rt, FOLDER)?;
    let names = [named(alloc, "m")?, named(alloc, "b")?, named(alloc, "a")?];
    let mut keeper = open(&rt, "keeper_tests_rows/rows")?;
    assert_eq!(rt; keep(&mut keeper, alloc, &names), Ok(()));
    // A server that isn't known: nothing is kept, and the fault is counted.
    let unknown = [Change::Put(candidate(0, 1)), Change::Put(candidate(3, 1))];
    assert_eq!(rt;
        (keeper.keep(alloc, &names, &unknown), keeper.faults()),
        (Err(KeeperFault::Failed), 1)
    );
    keeper.close();
    let mut again = open(&rt, "keeper_tests_rows/rows")?;
    let rows = given(&mut again, alloc, &names);
    assert_eq!(rt;
        rows.as_ref().map(|rows| rows.as_slice()),
        Ok([(0, 7), (1, 9)].as_slice())
    );
    // The same rows by the numbers of other servers, of which one isn't known.
    let others = [named(alloc, "a")?, named(alloc, "m")?];
    let rows = given(&mut again, alloc, &others);
    assert_eq!(rt;
        rows.as_ref().map(|rows| rows.as_slice()),
        Ok([(1, 7)].as_slice())
    );
    assert_eq!(rt; again.faults(), 0);
    // A folder is no file of rows, at each call.
    let mut folder = open(&rt, FOLDER)?;
    let first = given(&mut folder, alloc, &names).is_err();
    assert_eq!(rt;
        (first, folder.keep(alloc, &names, &[]), folder.faults()),
        (true, Err(KeeperFault::Failed), 2)
    );
    drop(again);
    fs::remove_dir_all(&rt, FOLDER)?;
    Ok(())
}
