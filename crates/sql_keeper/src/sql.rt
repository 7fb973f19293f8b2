//! A row store over a database file.

ghost use Rattle.std.specs.Prelude.{◌≡◌, None, Ok, IfOk};
ghost use Rattle.kept_rows.specs.Keeping.{CountsFailures, HasKeeperCause, KeepsAll};
ghost use Rattle.kept_rows.specs.Rows.{IsRising};

use crate::fault::SqlFault;
use crate::orch_base::{Name, OwnedText};
use crate::texts::{Texts, key_string, row_in, texts_of};
use kept_rows::{Change, Keeper, KeeperFault, Row, row_map};
use row_texts::TableNumber;
use sqlite::{
    Connection, Error as SqlError, ErrorCode, File, FileStore, Row as SqlRow, Transaction, params,
};
use std::alloc::Global;

type Store = FileStore<File>;

/// The longest name of a database file, in bytes: its journal has a name that is eight bytes longer.
const LONGEST_NAME: usize = 247;

const TABLE: &str =
    "CREATE TABLE IF NOT EXISTS kept (number INTEGER NOT NULL, key TEXT NOT NULL, text TEXT NOT NULL, UNIQUE (number, key)) STRICT";

const PUT: &str =
    "INSERT INTO kept (number, key, text) VALUES (?1, ?2, ?3) ON CONFLICT (number, key) DO UPDATE SET text = excluded.text";

const REMOVE: &str = "DELETE FROM kept WHERE number = ?1 AND key = ?2";

const ALL: &str = "SELECT number, key, text FROM kept";

/// A row store over a database file with one table of table number, key and text. The file is opened at the first call.
/// If it can't be opened, each call fails.
pub struct SqlKeeper {
    rt: HostRuntime,
    path: OwnedText,
    store: Option<Result<Connection<Store>, SqlFault>>,
    faults: u64,
}

impl Drop for SqlKeeper {
    fn drop(self) {
        let SqlKeeper {
            rt: _,
            path,
            store,
            faults: _,
        } = self;
        drop(path);
        drop(store);
    }
}

// Whether the names of the files beside the database, which are longer, can be names of files, too.
fn leaves_room(path: &str) -> bool {
    let name = path.as_bytes().iter().rev().take_while(|b| **b != b'/');
    name.count() <= LONGEST_NAME
}

fn open(rt: &HostRuntime, path: &str) -> Result<Connection<Store>, SqlFault> {
    if !leaves_room(path) {
        return Err(SqlFault::Sql(SqlError::SqliteFailure(ErrorCode::CannotOpen)));
    }
    let mut conn = Connection::open(rt, path)?;
    conn.execute(TABLE, &[])?;
    Ok(conn)
}

fn make(
    alloc: Global,
    tx: &mut Transaction<'_, Store>,
    names: &[Name],
    change: &Change,
) -> Result<(), SqlFault> {
    match change {
        Change::Put(row) => {
            let Texts { key, text } = texts_of(alloc, names, row)?;
            let number = row.table().number() as i64;
            tx.execute(PUT, params![number, key.as_str(), text.as_str()])?;
        }
        Change::Remove(table, key) => {
            let key = key_string(alloc, names, *key)?;
            tx.execute(REMOVE, params![table.number() as i64, key.as_str()])?;
        }
    }
    Ok(())
}

fn make_all(
    alloc: Global,
    conn: &mut Connection<Store>,
    names: &[Name],
    changes: &[Change],
) -> Result<(), SqlFault> {
    if !conn.is_autocommit() {
        return Err(SqlFault::Sql(SqlError::SqliteFailure(ErrorCode::TransactionState)));
    }
    let mut tx = conn.transaction();
    for change in changes {
        make(alloc, &mut tx, names, change)?;
    }
    tx.commit()?;
    Ok(())
}

fn row_at(alloc: Global, names: &[Name], row: &SqlRow) -> Result<Option<Row>, SqlFault> {
    let number: i64 = row.get(0)?;
    let key: String = row.get(1)?;
    let text: String = row.get(2)?;
    row_in(alloc, names, number, &Texts { key, text })
}

fn found_rows(
    alloc: Global,
    conn: &mut Connection<Store>,
    names: &[Name],
) -> Result<Vec<Row>, SqlFault> {
    let found = conn.query_all(ALL, &[])?;
    let mut rows = Vec::with_capacity(alloc, found.len())?;
    for row in &found {
        if let Some(row) = row_at(alloc, names, row)? {
            rows.push(row)?;
        }
    }
    Ok(rows)
}

// The rows by table, then key.
fn in_order(alloc: Global, rows: Vec<Row>) -> Result<Vec<Row>, SqlFault>
    ensures { IfOk result (λ map. IsRising map.items) }
{
    Ok(row_map(alloc, rows)?)
}

// All rows, by table, then key.
fn all_rows(
    alloc: Global,
    conn: &mut Connection<Store>,
    names: &[Name],
) -> Result<Vec<Row>, SqlFault>
    ensures { IfOk result (λ rows. IsRising rows.items) }
{
    let rows = found_rows(alloc, conn, names)?;
    in_order(alloc, rows)
}

// The database, opened if this is the first call.
fn opened<'s>(
    rt: &HostRuntime,
    path: &str,
    store: &'s mut Option<Result<Connection<Store>, SqlFault>>,
) -> Result<&'s mut Connection<Store>, KeeperFault> {
    match store.get_or_insert_with(|| open(rt, path)) {
        Ok(conn) => Ok(conn),
        Err(fault) => Err(fault.kind()),
    }
}

impl SqlKeeper {
    /// A row store over the file at this path, which is made at the first call if there is none.
    pub fn open(rt: &HostRuntime, path: OwnedText) -> SqlKeeper
        ensures { result.faults ≡ 0 }
    {
        SqlKeeper {
            rt: *rt,
            path,
            store: None,
            faults: 0,
        }
    }

    /// How many calls failed.
    pub fn faults(&self) -> u64
        ensures { result ≡ self.now.faults }
    {
        self.faults
    }

    /// Closes the file, so that it has all rows alone. What is kept survives without this, too: in the log beside the
    /// file, in which the next opening finds it, even if closing fails.
    pub fn close(self) {
        let SqlKeeper {
            rt: _,
            path: _,
            store,
            faults: _,
        } = self;
        if let Some(Ok(conn)) = store {
            let _ = conn.close();
        }
    }

    // Counts a call that failed.
    fn counted<T>(&mut self, done: Result<T, KeeperFault>) -> Result<T, KeeperFault>
        ensures same { result ≡ done }
        ensures cause { HasKeeperCause self.old.faults self.new.faults result }
        ensures counts { CountsFailures self.old.faults self.new.faults result }
    {
        if let Err(KeeperFault::Failed) = done {
            self.faults = self.faults.saturating_add(1);
        }
        done
    }
}

fn by_kind<T>(done: Result<T, SqlFault>) -> Result<T, KeeperFault>
    ensures { IfOk result (λ x. done ≡ Ok x) }
{
    match done {
        Ok(value) => Ok(value),
        Err(fault) => Err(fault.kind()),
    }
}

impl Keeper for SqlKeeper {
    ghost kept = { λ k. None };

    ghost faults = { λ k. k.faults };

    /// Makes all the changes in one transaction, which is on the disk when this answers.
    fn keep(&mut self, alloc: Global, names: &[Name], changes: &[Change]) -> Result<(), KeeperFault>
        ensures kept { KeepsAll None None changes.now result }
        ensures cause { HasKeeperCause self.old.faults self.new.faults result }
        ensures counts { CountsFailures self.old.faults self.new.faults result }
    {
        let done = match opened(&self.rt, self.path.as_str(), &mut self.store) {
            Ok(conn) => by_kind(make_all(alloc, conn, names, changes)),
            Err(fault) => Err(fault),
        };
        self.counted(done)
    }

    /// Gives all rows, by table, then key. One that names a server that isn't known is passed over. One that doesn't
    /// read is a fault.
    fn rows(&mut self, alloc: Global, names: &[Name]) -> Result<Vec<Row>, KeeperFault>
        ensures rising { IfOk result (λ given. IsRising given.items) }
        ensures cause { HasKeeperCause self.old.faults self.new.faults result }
        ensures counts { CountsFailures self.old.faults self.new.faults result }
    {
        let done = match opened(&self.rt, self.path.as_str(), &mut self.store) {
            Ok(conn) => by_kind(all_rows(alloc, conn, names)),
            Err(fault) => Err(fault),
        };
        self.counted(done)
    }
}
