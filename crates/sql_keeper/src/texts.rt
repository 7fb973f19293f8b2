//! Rows as a database has them: a table's number, a key and a text.

ghost use Rattle.std.specs.Prelude.{◌≡◌, IfOk, IfSome, Some, is_some, length, string_bytes, true};
ghost use Rattle.std.specs.Bool.{OnTrue};
ghost use Rattle.kept_rows.specs.OrchBase.Gives.{Gives};
ghost use Rattle.kept_rows.specs.declared.row.Table.{Table};
ghost use Rattle.kept_rows.specs.Rows.{key_of};
ghost use Rattle.kept_rows.specs.Servers.{are_known, key_servers, servers_of};
ghost use Rattle.row_texts.specs.Fields.{fault_of};
ghost use Rattle.row_texts.specs.Reading.{read_row, table_at};
ghost use Rattle.row_texts.specs.Written.{key_text, row_text};
ghost use Rattle.sql_keeper.specs.Counting.{unless_unknown, IsOfNoServer};

use crate::fault::SqlFault;
use crate::orch_base::{Moment, Name, OwnedText, ServerNo};
use kept_rows::{Ending, Key, Kind, RecoveryRow, Row, Table};
use row_texts::{KeyText, RowFault, RowText, TableNumber};
use std::alloc::Global;

/// A row's key and text.
#[derive(Drop)]
pub(crate) struct Texts {
    pub(crate) key: String,
    pub(crate) text: String,
}

fn string_of(bytes: Vec<u8>) -> Result<String, SqlFault>
    ensures { IfOk result (λ s. string_bytes s ≡ bytes.items) }
{
    match String::from_utf8(bytes) {
        Ok(text) => Ok(text),
        Err(_) => Err(SqlFault::Unwritten),
    }
}

// Whether each server that the row names is one of these.
fn are_named(names: &[Name], row: &Row) -> bool
    ensures { OnTrue result (are_known (length names.now) (servers_of row.now) ≡ true) }
{
    names.len() <= 4294967295 && row.are_servers_known(names.len() as u32)
}

// Whether the server of a key is one of these.
fn is_named(names: &[Name], key: Key) -> bool
    ensures { result ≡ are_known (length names.now) (key_servers key) }
{
    match key {
        Key::Server(no) => (no.0 as usize) < names.len(),
        Key::Id(_) | Key::Global | Key::Active => true,
    }
}

/// The text of a key. One of no server of these isn't written.
pub(crate) fn key_string(alloc: Global, names: &[Name], key: Key) -> Result<String, SqlFault>
    ensures { IfOk result (λ s. string_bytes s ≡ key_text names.now key) }
{
    if !is_named(names, key) {
        return Err(SqlFault::Unwritten);
    }
    let mut text = Vec::new(alloc);
    key.text(names, &mut text)?;
    string_of(text)
}

/// The key and the text of a row. One that names no server of these isn't written.
pub(crate) fn texts_of(alloc: Global, names: &[Name], row: &Row) -> Result<Texts, SqlFault>
    ensures key { IfOk result (λ t. string_bytes t.key ≡ key_text names.now (key_of row.now)) }
    ensures text { IfOk result (λ t. string_bytes t.text ≡ row_text names.now row.now) }
{
    if !are_named(names, row) {
        return Err(SqlFault::Unwritten);
    }
    let (mut key, mut text) = (Vec::new(alloc), Vec::new(alloc));
    row.key_text(names, &mut key)?;
    row.text(names, &mut text)?;
    Ok(Texts {
        key: string_of(key)?,
        text: string_of(text)?,
    })
}

// The row of a table's number, which is there: none if it names a server that isn't known.
#[tactic(auto, using(crate::proofs::Unknown::passed_over, crate::proofs::Unknown::passed_on))]
fn row_of(
    alloc: Global,
    names: &[Name],
    number: u8,
    key: &str,
    text: &[u8],
) -> Result<Option<Row>, RowFault>
    requires { is_some (table_at number) ≡ true }
    ensures { (t : Table) → table_at number ≡ Some t →
        Gives (λ r. r) fault_of result (unless_unknown (read_row t names.now key.now text.now)) }
{
    match Row::read(alloc, number, key, text, names) {
        Ok(row) => Ok(Some(row)),
        Err(RowFault::UnknownServer) => Ok(None),
        Err(fault) => Err(fault),
    }
}

// What is given in place of a row of servers that aren't known: of a recovery one of no server, so that no other takes
// its number.
#[tactic(auto, using(crate::proofs::Unknown::of_none))]
fn stand_in(alloc: Global, table: Table, key: &str) -> Option<Row>
    ensures { IfSome result (λ r. IsOfNoServer r) }
{
    match table {
        Table::Recovery => {
            let id = key.parse::<u64>().ok()?;
            Some(Row::Recovery(RecoveryRow {
                id,
                cluster: OwnedText::new(String::new(alloc)),
                kind: Kind::Master,
                failed: ServerNo(u32::MAX),
                begun: Moment(0),
                ended: Some(Moment(0)),
                outcome: Ending::Interrupted,
                acked: true,
                block: Some(0),
            }))
        }
        Table::Instance | Table::Downtime | Table::Candidate | Table::Switch | Table::Active =>
            None,
    }
}

/// The row that these are. One of servers that aren't known is passed over, but in place of a recovery there is one of
/// no server.
pub(crate) fn row_in(
    alloc: Global,
    names: &[Name],
    number: i64,
    texts: &Texts,
) -> Result<Option<Row>, SqlFault> {
    let Ok(number) = u8::try_from(number) else {
        return Err(SqlFault::Table);
    };
    let Some(table) = Table::of_number(number) else {
        return Err(SqlFault::Table);
    };
    match row_of(alloc, names, number, &texts.key, texts.text.as_bytes())? {
        Some(row) => Ok(Some(row)),
        None => Ok(stand_in(alloc, table, &texts.key)),
    }
}
