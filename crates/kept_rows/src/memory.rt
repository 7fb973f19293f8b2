//! A row store in memory, which fails at the calls that are listed.

ghost use Rattle.std.specs.Prelude.{◌≡◌, ◌<◌, ◌≤◌, ◌+◌, ◌↔◌, Some, fold, true, IfOk, OnOk, OnErr, Err, length, nat_lt, vec_len, vec_capacity};
ghost use Rattle.std.specs.Bool.{OnTrue, OnFalse};
ghost use Rattle.std.specs.List.{HoldsAt};
ghost use Rattle.server_words.specs.OrchBase.Memory.{fails_next, next_count};
ghost use Rattle.kept_rows.specs.Keeping.{CountsFailures, GivesAll, HasKeeperCause, KeepsAll, after_call};
ghost use Rattle.kept_rows.specs.SortKeys.{at, IsFirstFrom};
ghost use Rattle.kept_rows.specs.Rows.{changed, changed_by, map_of, sort_key, sort_key_of, put, remove, IsRising};

use crate::Memory;
use crate::boxed::{BoxedRow, Edit};
use crate::keeper::{Keeper, KeeperFault};
use crate::orch_base::{Name, ServerNo};
use crate::row::{Change, Key, Row, SortKey, Table};
use std::alloc::Global;
use std::marker::Model;

/// A row store in memory.
pub struct MemKeeper {
    rows: Vec<BoxedRow>,
    fail_at: Vec<u64>,
    calls: u64,
    faults: u64,
}

impl Drop for MemKeeper {
    fn drop(self) {
        let MemKeeper {
            rows: _rows,
            fail_at: _fail_at,
            calls: _,
            faults: _,
        } = self;
    }
}

impl Model for MemKeeper {
    ghost use Rattle.kept_rows.specs.Keeping.{Kept};
    ghost use Rattle.kept_rows.specs.Rows.{IsRising};

    ghost Value = { Kept };

    ghost view = { λ k. record {
      rows = k.rows.items;
      calls = k.calls;
      fail_at = k.fail_at.items;
      faults = k.faults;
    } };

    ghost invariant = { λ k. IsRising k.rows.items };
}

// Which of these rows to look at next. An instance's row is mostly at its server's number.
fn next_look(from: usize, to: usize, guess: usize) -> usize
    requires { from < to }
    ensures from { from ≤ result }
    ensures to { result < to }
{
    if from <= guess && guess < to {
        return guess;
    }
    if to == guess {
        return to - 1;
    }
    from + (to - from) / 2
}

// Whether the row of this index is there, and is at this sort key.
#[inline(always)]
fn stands_at(rows: &[BoxedRow], index: usize, sort_key: SortKey) -> bool
    ensures there { OnTrue result (index < length rows.now) }
    ensures at { OnTrue result (HoldsAt (λ r. sort_key_of r ≡ at sort_key) rows.now index) }
{
    match rows.get(index) {
        Some(row) => {
            let own = row.sort_key();
            own.table == sort_key.table && own.key == sort_key.key
        }
        None => false,
    }
}

// The first row that isn't before this sort key.
fn first_from(rows: &[BoxedRow], sort_key: SortKey) -> usize
    requires { IsRising rows.now }
    ensures { IsFirstFrom rows.now (at sort_key) result }
{
    let guess = sort_key.key.guess();
    if stands_at(rows, guess, sort_key) {
        return guess;
    }
    let mut from = 0;
    let mut to = rows.len();
    'halves: while from < to {
        let middle = next_look(from, to, guess);
        if rows[middle].sort_key().is_before(sort_key) {
            from = middle + 1;
        } else {
            to = middle;
        }
    }
    from
}

// Whether there is a row of this index that isn't after this sort key.
#[inline(always)]
fn is_there(rows: &[BoxedRow], index: usize, sort_key: SortKey) -> bool
    ensures there { OnTrue result (index < length rows.now) }
    ensures yes { OnTrue result (HoldsAt (λ r. sort_key_of r ≤ at sort_key) rows.now index) }
    ensures no { OnFalse result (index < length rows.now
        → HoldsAt (λ r. at sort_key < sort_key_of r) rows.now index) }
{
    match rows.get(index) {
        Some(row) => !sort_key.is_before(row.sort_key()),
        None => false,
    }
}

// Puts a row in place of one with its table and key. It takes no memory.
fn put_row(rows: &mut Vec<BoxedRow>, row: BoxedRow)
    requires rising { IsRising rows.old.items }
    requires room { vec_len rows.old < vec_capacity rows.old }
    ensures items { rows.new.items ≡ put rows.old.items row }
    ensures rising { IsRising rows.new.items }
    ensures len { vec_len rows.new ≤ vec_len rows.old + 1 }
    ensures capacity { vec_capacity rows.old ≤ vec_capacity rows.new }
{
    let sort_key = row.sort_key();
    let index = first_from(rows, sort_key);
    if is_there(rows, index, sort_key) {
        rows[index] = row;
    } else {
        rows.insert(index, row).unwrap();
    }
}

// Removes the row of this sort key, if there is one.
fn remove_row(rows: &mut Vec<BoxedRow>, sort_key: SortKey)
    requires rising { IsRising rows.old.items }
    ensures items { rows.new.items ≡ remove rows.old.items sort_key.table sort_key.key }
    ensures rising { IsRising rows.new.items }
    ensures len { vec_len rows.new ≤ vec_len rows.old }
    ensures capacity { vec_capacity rows.old ≤ vec_capacity rows.new }
{
    let index = first_from(rows, sort_key);
    if is_there(rows, index, sort_key) {
        rows.remove(index);
    }
}

// Makes a change. It takes no memory.
fn change_row(rows: &mut Vec<BoxedRow>, change: Edit)
    requires rising { IsRising rows.old.items }
    requires room { vec_len rows.old < vec_capacity rows.old }
    ensures items { rows.new.items ≡ changed_by rows.old.items change }
    ensures rising { IsRising rows.new.items }
    ensures len { vec_len rows.new ≤ vec_len rows.old + 1 }
    ensures capacity { vec_capacity rows.old ≤ vec_capacity rows.new }
{
    let Edit { put, table, key } = change;
    match put {
        Some(row) => put_row(rows, row),
        None => remove_row(rows, SortKey { table, key }),
    }
}

// Makes all the changes, one after another. It takes no memory.
fn change_all(rows: &mut Vec<BoxedRow>, changes: Vec<Edit>)
    requires rising { IsRising rows.old.items }
    requires room { vec_len rows.old + vec_len changes ≤ vec_capacity rows.old }
    ensures items { rows.new.items ≡ changed rows.old.items changes.items }
    ensures rising { IsRising rows.new.items }
{
    'changes: for change in changes {
        change_row(rows, change);
    }
}

// Puts all the rows, one after another. `Err` means out of memory.
fn put_all(alloc: Global, rows: &mut Vec<BoxedRow>, more: Vec<Row>) -> Result<(), Memory>
    requires rising { IsRising rows.old.items }
    requires room { vec_len rows.old + vec_len more ≤ vec_capacity rows.old }
    ensures items { OnOk result (rows.new.items ≡ fold put rows.old.items more.items) }
    ensures rising { OnOk result (IsRising rows.new.items) }
{
    'rows: for row in more {
        put_row(rows, BoxedRow::new(alloc, row)?);
    }
    Ok(())
}

fn copy_changes(alloc: Global, changes: &[Change]) -> Result<Vec<Edit>, Memory>
    ensures { IfOk result (λ copies. copies.items ≡ changes.now) }
{
    let mut copies = Vec::with_capacity(alloc, changes.len())?;
    for change in changes {
        copies.push(Edit::of(alloc, change)?)?;
    }
    Ok(copies)
}

// Whether the row of this index is there, and an instance's of this server.
#[inline(always)]
fn is_instance_at(rows: &[BoxedRow], index: usize, no: ServerNo) -> bool
    ensures there { OnTrue result (index < length rows.now) }
    ensures at { OnTrue result
        (HoldsAt (λ r. sort_key_of r ≡ sort_key Table.Instance (Key.Server no)) rows.now index) }
{
    let Some(row) = rows.get(index) else {
        return false;
    };
    match row.as_row() {
        Row::Instance(kept) => kept.no == no,
        Row::Downtime(_)
        | Row::Candidate(_)
        | Row::Recovery(_)
        | Row::Switch(_)
        | Row::Active { .. } => false,
    }
}

// Puts a copy of a row. An instance's row is mostly at its server's number. It changes nothing if memory runs out.
#[inline(always)]
fn put_copy(alloc: Global, rows: &mut Vec<BoxedRow>, row: &Row) -> Result<(), Memory>
    requires rising { IsRising rows.old.items }
    ensures ok { OnOk result (rows.new.items ≡ put rows.old.items row.now) }
    ensures err { OnErr result (rows.new.items ≡ rows.old.items) }
    ensures rising { IsRising rows.new.items }
{
    if let Row::Instance(instance) = row {
        let index = instance.no.0 as usize;
        if is_instance_at(rows, index, instance.no) {
            rows[index].set_to(alloc, row)?;
            return Ok(());
        }
    }
    put_copy_by_key(alloc, rows, row)
}

// Puts a copy of a row, whose place is searched. It changes nothing if memory runs out.
#[inline(never)]
fn put_copy_by_key(alloc: Global, rows: &mut Vec<BoxedRow>, row: &Row) -> Result<(), Memory>
    requires rising { IsRising rows.old.items }
    ensures ok { OnOk result (rows.new.items ≡ put rows.old.items row.now) }
    ensures err { OnErr result (rows.new.items ≡ rows.old.items) }
    ensures rising { IsRising rows.new.items }
{
    let sort_key = row.sort_key();
    let index = first_from(rows, sort_key);
    if is_there(rows, index, sort_key) {
        rows[index].set_to(alloc, row)?;
    } else {
        let row = BoxedRow::new(alloc, row.copy(alloc)?)?;
        rows.reserve(1)?;
        put_row(rows, row);
    }
    Ok(())
}

// Makes a change, whose row is copied. It changes nothing if memory runs out.
fn change_one(alloc: Global, rows: &mut Vec<BoxedRow>, change: &Change) -> Result<(), Memory>
    requires rising { IsRising rows.old.items }
    ensures ok { OnOk result (rows.new.items ≡ changed_by rows.old.items change.now) }
    ensures err { OnErr result (rows.new.items ≡ rows.old.items) }
    ensures rising { IsRising rows.new.items }
{
    match change {
        Change::Put(row) => put_copy(alloc, rows, row)?,
        Change::Remove(table, key) => remove_row(
            rows,
            SortKey {
                table: *table,
                key: *key,
            },
        ),
    }
    Ok(())
}

fn copy_rows(alloc: Global, rows: &[BoxedRow]) -> Result<Vec<Row>, Memory>
    ensures { IfOk result (λ copies. copies.items ≡ rows.now) }
{
    let mut copies = Vec::with_capacity(alloc, rows.len())?;
    for row in rows {
        if let Row::Instance(instance) = row.as_row() {
            copies.push_reserved(Row::Instance(instance.copy()?));
        } else {
            copies.push_reserved(row.as_row().copy(alloc)?);
        }
    }
    Ok(copies)
}

// Whether the row is before the next: of two instances by their servers' numbers alone.
#[inline(always)]
fn is_before(row: &Row, next: &Row) -> bool
    ensures { result ≡ nat_lt (sort_key_of row.now) (sort_key_of next.now) }
{
    if let (Row::Instance(row), Row::Instance(next)) = (row, next) {
        return row.no.0 < next.no.0;
    }
    row.sort_key().is_before(next.sort_key())
}

// Whether each row is before the next.
fn is_rising(rows: &[Row]) -> bool
    ensures { OnTrue result (IsRising rows.now) }
{
    rows.is_sorted_by(|row, next| is_before(row, next))
}

// These rows, no longer on the heap. `Err` means out of memory.
fn unboxed(alloc: Global, rows: Vec<BoxedRow>) -> Result<Vec<Row>, Memory>
    ensures { IfOk result (λ list. list.items ≡ rows.items) }
{
    let mut list = Vec::with_capacity(alloc, rows.len())?;
    'rows: for row in rows {
        list.push(row.into_row())?;
    }
    Ok(list)
}

/// The map of any list of rows, in rising order: of two with one table and key the last counts. `Err` means out of
/// memory.
pub fn row_map(alloc: Global, rows: Vec<Row>) -> Result<Vec<Row>, Memory>
    ensures { IfOk result (λ map. map.items ≡ map_of rows.items) }
{
    if is_rising(&rows) {
        return Ok(rows);
    }
    let mut map = Vec::with_capacity(alloc, rows.len())?;
    put_all(alloc, &mut map, rows)?;
    unboxed(alloc, map)
}

impl MemKeeper {
    /// A row store of these rows: of two with one table and key the last is kept. The calls of `keep` and `rows` whose
    /// numbers, from 1, are listed fail, and no other.
    pub fn new(alloc: Global, rows: Vec<Row>, fail_at: Vec<u64>) -> Result<MemKeeper, Memory>
        ensures { IfOk result (λ k. k
            ≡ record { rows = map_of rows.items; calls = 0; fail_at = fail_at.items; faults = 0 }) }
    {
        let mut kept = Vec::with_capacity(alloc, rows.len())?;
        put_all(alloc, &mut kept, rows)?;
        Ok(MemKeeper {
            rows: kept,
            fail_at,
            calls: 0,
            faults: 0,
        })
    }

    /// How many calls failed.
    pub fn faults(&self) -> u64
        ensures { result ≡ self.now.faults }
    {
        self.faults
    }

    // Counts a call, and whether it fails by its number.
    fn fails(&mut self) -> bool
        ensures fails { result ≡ fails_next self.old.fail_at self.old.calls }
        ensures after { self.new ≡ after_call self.old }
        ensures later { self.old.faults ≤ self.new.faults }
        ensures counted { OnTrue result (self.new.faults ≡ next_count self.old.faults) }
        ensures others { OnFalse result (self.new.faults ≡ self.old.faults) }
    {
        self.calls = self.calls.saturating_add(1);
        if self.fail_at.contains(&self.calls) {
            self.faults = self.faults.saturating_add(1);
            return true;
        }
        false
    }
}

impl Keeper for MemKeeper {
    ghost kept = { λ k. Some k.rows };

    ghost faults = { λ k. k.faults };

    /// Makes all the changes, or none if it fails by its number or memory runs out.
    fn keep(
        &mut self,
        alloc: Global,
        _names: &[Name],
        changes: &[Change],
    ) -> Result<(), KeeperFault>
        ensures kept { KeepsAll (Some self.old.rows) (Some self.new.rows) changes.now result }
        ensures cause { HasKeeperCause self.old.faults self.new.faults result }
        ensures counts { CountsFailures self.old.faults self.new.faults result }
        ensures failed { (result ≡ Err KeeperFault.Failed)
            ↔ (fails_next self.old.fail_at self.old.calls ≡ true) }
        ensures ok { OnOk result (self.new
            ≡ record (after_call self.old) { rows = changed self.old.rows changes.now }) }
        ensures err { OnErr result (self.new ≡ after_call self.old) }
    {
        if self.fails() {
            return Err(KeeperFault::Failed);
        }
        if let [change] = changes {
            change_one(alloc, &mut self.rows, change)?;
            return Ok(());
        }
        let changes = copy_changes(alloc, changes)?;
        self.rows.reserve(changes.len())?;
        change_all(&mut self.rows, changes);
        Ok(())
    }

    /// Gives copies of all rows, by table, then key.
    fn rows(&mut self, alloc: Global, _names: &[Name]) -> Result<Vec<Row>, KeeperFault>
        ensures told { IfOk result (λ given. GivesAll (Some self.old.rows) given.items) }
        ensures given { IfOk result (λ given. given.items ≡ self.old.rows) }
        ensures rising { IfOk result (λ given. IsRising given.items) }
        ensures same { Some self.new.rows ≡ Some self.old.rows }
        ensures cause { HasKeeperCause self.old.faults self.new.faults result }
        ensures counts { CountsFailures self.old.faults self.new.faults result }
        ensures failed { (result ≡ Err KeeperFault.Failed)
            ↔ (fails_next self.old.fail_at self.old.calls ≡ true) }
        ensures after { self.new ≡ after_call self.old }
    {
        if self.fails() {
            return Err(KeeperFault::Failed);
        }
        Ok(copy_rows(alloc, &self.rows)?)
    }
}
