//! The book, its rows and the row store in memory: each public call once, with ample memory.

use crate::binlog_coords_items::Coord;
use crate::orch_base::{Memory, Moment, ServerNo, SourceState};
use crate::rows::{Given, are_rows, book, instance, row, rows, seen};
use instance_keeper::{
    Book, Change, Ending, Instance, Keeper, KeeperFault, Key, MemKeeper, Observation, Row, Rule,
    StoreAnswer, Table,
};
use std::alloc::Global;

const SERVERS: [(&str, &str); 2] = [("m", "m:3306"), ("r:3307", "m:3306")];

const BY_MASTER: SourceState = SourceState::Attached(ServerNo(0));

// Rows in no order, two of one key, a recovery, a claim, and rows of servers that there aren't.
const ROWS: [Given; 10] = [
    Given::Claim(3, 50),
    Given::Switch(true),
    Given::Recovery(u64::MAX, 5, None, Ending::Unended),
    Given::Candidate(1, Rule::MustNot, 50),
    Given::Instance(u32::MAX, SourceState::Without, 9, 7),
    Given::Instance(1, BY_MASTER, 3, 7),
    Given::Instance(0, SourceState::Detached(ServerNo(2)), 4, 7),
    Given::Downtime(1, 1, 20),
    Given::Candidate(1, Rule::Prefer, 60),
    Given::Switch(false),
];

// When a downtime ends by the book at two moments, and a rule at two moments.
type Told = ([Option<Moment>; 2], [Rule; 2]);

const MADE_OF_ROWS: Told = ([Some(Moment(20)), None], [Rule::Prefer, Rule::Neutral]);

// What a book of two servers has of the second's downtime at moments 19 and 20, and of its rule at 59 and 60.
fn ends_and_rules(book: &Book) -> Option<Told> {
    if book.servers() != 2 {
        return None;
    }
    let no = ServerNo(1);
    let ends = [book.downtime(no, Moment(19)), book.downtime(no, Moment(20))];
    let rules = [book.rule(no, Moment(59)), book.rule(no, Moment(60))];
    Some((ends, rules))
}

fn made(alloc: Global) -> Result<Option<Told>, Memory> {
    let book = book(alloc, &SERVERS, &ROWS)?;
    let told = ends_and_rules(&book);
    drop(book);
    Ok(told)
}

#[test]
fn book_is_made_of_rows(rt: HostRuntime) {
    assert_eq!(rt; made(rt.alloc()), Ok(Some(MADE_OF_ROWS)));
}

// What is known of an instance: its reading, whether it is valid, and the file of its own end.
type Known = (u64, bool, u32);

fn known(book: &Book, no: u32) -> Option<Known> {
    if no >= book.servers() {
        return None;
    }
    let instance = book.instance(ServerNo(no))?;
    let file = match instance.seen.own_end {
        Some(end) => end.file,
        None => 0,
    };
    Some((instance.read, instance.valid, file))
}

// The file of the own end in server 1's latest bridge under server 0.
fn bridge(book: &Book) -> Option<u32> {
    if book.servers() < 2 {
        return None;
    }
    let exec = Coord { file: 1, pos: 4 };
    let bridge = book.bridge_by_exec(ServerNo(1), ServerNo(0), exec)?;
    Some(bridge.own.file)
}

// What is known of the servers 0 and 1, the bridge, and whether recoveries are enabled.
type Shown = (Option<Known>, Option<Known>, Option<u32>, bool);

fn shown(book: &Book) -> Shown {
    (known(book, 0), known(book, 1), bridge(book), book.enabled())
}

#[derive(Clone, Copy)]
enum Act {
    Put(Given),
    Remove(Table, Key),
    // Stores a reading of a server: its number, and the file of the server's own end if it was reached.
    Store(u32, u64, Option<u32>),
    // Takes in a reading of server 1.
    Discover(u64, Option<u32>),
    // Adds server 1 as it is detached from server 0: whether it is valid, and the file of its own end.
    Add(bool, u32),
    Reload,
}

// `Stored` if a change was made; none if it doesn't fit.
type Answer = Option<StoreAnswer>;

const MADE: Answer = Some(StoreAnswer::Stored);

fn set(book: &mut Book, change: Change) -> Answer {
    if !change.fits(book.servers()) {
        drop(change);
        return None;
    }
    book.set(change);
    MADE
}

fn observation(alloc: Global, no: u32, read: u64, file: Option<u32>) -> Observation {
    let seen = match file {
        Some(file) => Some(seen(alloc, BY_MASTER, file)),
        None => None,
    };
    Observation {
        no: ServerNo(no),
        read,
        moment: Moment(8),
        seen,
    }
}

fn store(book: &mut Book, o: Observation) -> Answer {
    if !o.are_servers_known(book.servers()) {
        drop(o);
        return None;
    }
    Some(book.store_observation(o))
}

fn discover(book: &mut Book, o: Observation) -> Answer {
    if !o.are_servers_known(book.servers()) {
        drop(o);
        return None;
    }
    book.discover(o);
    MADE
}

fn detached(alloc: Global, valid: bool, file: u32) -> Instance {
    let mut instance = instance(alloc, 1, SourceState::Detached(ServerNo(0)), 9, 7);
    instance.valid = valid;
    instance.seen.own_end = Some(Coord { file, pos: 4 });
    instance
}

fn add(book: &mut Book, instance: Instance) -> Answer {
    let row = Row::Instance(instance);
    if !row.are_servers_known(book.servers()) {
        drop(row);
        return None;
    }
    match row {
        Row::Instance(instance) => {
            book.add(instance);
            MADE
        }
        Row::Downtime(_downtime) => None,
        Row::Candidate(_candidate) => None,
        Row::Recovery(_recovery) => None,
        Row::Switch(_enabled) => None,
        Row::Active { .. } => None,
    }
}

fn answer(alloc: Global, book: &mut Book, act: Act) -> Result<Answer, Memory> {
    match act {
        Act::Put(given) => Ok(set(book, Change::Put(row(alloc, given)?))),
        Act::Remove(table, key) => Ok(set(book, Change::Remove(table, key))),
        Act::Store(no, read, file) => Ok(store(book, observation(alloc, no, read, file))),
        Act::Discover(read, file) => Ok(discover(book, observation(alloc, 1, read, file))),
        Act::Add(valid, file) => Ok(add(book, detached(alloc, valid, file))),
        Act::Reload => {
            book.reload(rows(alloc, &ROWS)?);
            Ok(MADE)
        }
    }
}

// An act, its answer, and the book after it.
type Step = (Act, Answer, Shown);

// The first step with another answer or another book after it, counted from 0.
fn first_difference_in(
    alloc: Global,
    book: &mut Book,
    steps: &[Step],
) -> Result<Option<usize>, Memory> {
    for (place, (act, want, after)) in steps.iter().enumerate() {
        let answer = answer(alloc, book, *act)?;
        if (answer, shown(book)) != (*want, *after) {
            return Ok(Some(place));
        }
    }
    Ok(None)
}

// The same of the book of the rows.
fn first_difference(alloc: Global, steps: &[Step]) -> Result<Option<usize>, Memory> {
    let mut book = book(alloc, &SERVERS, &ROWS)?;
    let found = first_difference_in(alloc, &mut book, steps);
    drop(book);
    found
}

// The source of 0 is no server of the scenario.
const LOADED: Shown = (None, Some((3, true, 2)), None, false);

const LOST: Shown = (None, Some((7, false, 8)), Some(8), false);

const READINGS: [Step; 8] = [
    (
        Act::Store(0, 9, Some(3)),
        Some(StoreAnswer::Unknown),
        LOADED,
    ),
    (Act::Store(1, 2, Some(3)), Some(StoreAnswer::Old(3)), LOADED),
    (
        Act::Store(1, 3, None),
        MADE,
        (None, Some((3, false, 2)), None, false),
    ),
    (
        Act::Store(1, 5, Some(8)),
        MADE,
        (None, Some((5, true, 8)), Some(8), false),
    ),
    (Act::Store(1, 7, None), MADE, LOST),
    (Act::Store(1, 6, Some(9)), Some(StoreAnswer::Old(7)), LOST),
    (Act::Store(2, 9, Some(9)), None, LOST),
    // loaded anew, the book is as it was made, without a bridge
    (Act::Reload, MADE, LOADED),
];

const REPLICA: Key = Key::Server(ServerNo(1));

const BRIDGES: [Step; 8] = [
    (
        Act::Store(1, 5, Some(3)),
        MADE,
        (None, Some((5, true, 3)), Some(3), false),
    ),
    // an earlier reading is passed over, as at a store; a later one counts
    (
        Act::Discover(4, Some(7)),
        MADE,
        (None, Some((5, true, 3)), Some(3), false),
    ),
    (
        Act::Discover(6, Some(9)),
        MADE,
        (None, Some((6, true, 9)), Some(9), false),
    ),
    // an instance that was forgotten has no bridge, and is added again if its server is reached
    (
        Act::Remove(Table::Instance, REPLICA),
        MADE,
        (None, None, None, false),
    ),
    (Act::Discover(7, None), MADE, (None, None, None, false)),
    (
        Act::Discover(8, Some(4)),
        MADE,
        (None, Some((8, true, 4)), Some(4), false),
    ),
    // one that isn't valid shows no bridge
    (
        Act::Add(false, 6),
        MADE,
        (None, Some((9, false, 6)), Some(4), false),
    ),
    (
        Act::Add(true, 2),
        MADE,
        (None, Some((9, true, 2)), Some(2), false),
    ),
];

const BOTH: Shown = (Some((6, true, 2)), Some((3, true, 2)), None, false);

const FIRST: Shown = (Some((6, true, 2)), None, None, false);

const CHANGES: [Step; 11] = [
    (
        Act::Put(Given::Instance(0, SourceState::Without, 6, 7)),
        MADE,
        BOTH,
    ),
    (Act::Put(Given::Downtime(0, 1, 90)), MADE, BOTH),
    (Act::Put(Given::Downtime(2, 1, 90)), None, BOTH),
    (
        Act::Put(Given::Recovery(1, 5, None, Ending::Unended)),
        None,
        BOTH,
    ),
    (Act::Remove(Table::Recovery, Key::Id(1)), None, BOTH),
    (Act::Put(Given::Claim(1, 90)), None, BOTH),
    (Act::Remove(Table::Active, Key::Active), None, BOTH),
    (Act::Remove(Table::Instance, REPLICA), MADE, FIRST),
    (Act::Remove(Table::Downtime, REPLICA), MADE, FIRST),
    (Act::Remove(Table::Candidate, REPLICA), MADE, FIRST),
    (
        Act::Remove(Table::Switch, Key::Global),
        MADE,
        (Some((6, true, 2)), None, None, true),
    ),
];

const STORIES: [&[Step]; 3] = [&READINGS, &BRIDGES, &CHANGES];

// The first story with a difference, and the step.
fn first_surprise(alloc: Global) -> Result<Option<(usize, usize)>, Memory> {
    for (story, steps) in STORIES.iter().enumerate() {
        if let Some(step) = first_difference(alloc, steps)? {
            return Ok(Some((story, step)));
        }
    }
    Ok(None)
}

#[test]
fn book_is_changed(rt: HostRuntime) {
    assert_eq!(rt; first_surprise(rt.alloc()), Ok(None));
}

// The rows in order: of two with one table and key the later counts.
const KEPT: [Given; 8] = [
    Given::Instance(0, SourceState::Detached(ServerNo(2)), 4, 7),
    Given::Instance(1, BY_MASTER, 3, 7),
    Given::Instance(u32::MAX, SourceState::Without, 9, 7),
    Given::Downtime(1, 1, 20),
    Given::Candidate(1, Rule::Prefer, 60),
    Given::Recovery(u64::MAX, 5, None, Ending::Unended),
    Given::Switch(false),
    Given::Claim(3, 50),
];

// What is kept after the removal of the recovery and a change of the switch.
const CHANGED: [Given; 7] = [
    Given::Instance(0, SourceState::Detached(ServerNo(2)), 4, 7),
    Given::Instance(1, BY_MASTER, 3, 7),
    Given::Instance(u32::MAX, SourceState::Without, 9, 7),
    Given::Downtime(1, 1, 20),
    Given::Candidate(1, Rule::Prefer, 60),
    Given::Switch(true),
    Given::Claim(3, 50),
];

#[derive(Clone, Copy)]
enum Call {
    // Asks whether these rows are given.
    Rows(&'static [Given]),
    // Removes the recovery and enables recoveries.
    Keep,
}

// Whether these rows are given, or the changes are kept.
type Kept = Result<bool, KeeperFault>;

fn gives<K: Keeper>(alloc: Global, keeper: &mut K, given: &[Given]) -> Kept {
    let rows = keeper.rows(alloc, &[])?;
    Ok(are_rows(alloc, &rows, given)?)
}

fn changes(alloc: Global) -> Result<Vec<Change>, Memory> {
    let mut changes = Vec::new(alloc);
    changes.push(Change::Remove(Table::Recovery, Key::Id(u64::MAX)))?;
    changes.push(Change::Put(Row::Switch(true)))?;
    Ok(changes)
}

fn keep<K: Keeper>(alloc: Global, keeper: &mut K) -> Kept {
    let changes = changes(alloc)?;
    keeper.keep(alloc, &[], &changes)?;
    Ok(true)
}

// A call of the trait.
fn make_call<K: Keeper>(alloc: Global, keeper: &mut K, call: Call) -> Kept {
    match call {
        Call::Rows(given) => gives(alloc, keeper, given),
        Call::Keep => keep(alloc, keeper),
    }
}

// A row store whose second and fourth call fail.
fn keeper(alloc: Global) -> Result<MemKeeper, Memory> {
    let fail_at = Vec::from_array(alloc, [2, 4])?;
    let rows = rows(alloc, &ROWS)?;
    MemKeeper::new(alloc, rows, fail_at)
}

// The first call that is answered otherwise, or after which another number of calls has failed, counted from 0.
fn first_wrong(
    alloc: Global,
    keeper: &mut MemKeeper,
    calls: &[(Call, Kept, u64)],
) -> Option<usize> {
    for (place, (call, want, faults)) in calls.iter().enumerate() {
        let answer = make_call(alloc, keeper, *call);
        if (answer, keeper.faults()) != (*want, *faults) {
            return Some(place);
        }
    }
    None
}

const CALLS: [(Call, Kept, u64); 6] = [
    (Call::Rows(&KEPT), Ok(true), 0),
    (Call::Keep, Err(KeeperFault::Failed), 1),
    (Call::Rows(&KEPT), Ok(true), 1),
    (Call::Rows(&KEPT), Err(KeeperFault::Failed), 2),
    (Call::Keep, Ok(true), 2),
    (Call::Rows(&CHANGED), Ok(true), 2),
];

fn keeper_surprise(alloc: Global) -> Result<Option<usize>, Memory> {
    let mut keeper = keeper(alloc)?;
    let found = first_wrong(alloc, &mut keeper, &CALLS);
    drop(keeper);
    Ok(found)
}

#[test]
fn keeper_keeps_all_or_none(rt: HostRuntime) {
    assert_eq!(rt; keeper_surprise(rt.alloc()), Ok(None));
}
