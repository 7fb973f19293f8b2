//! Rows from their texts.

ghost use Rattle.std.specs.Prelude.{◌≡◌, option_map};
ghost use Rattle.row_texts.specs.Prelude.{Gives, members_view, view};
ghost use Rattle.row_texts.specs.declared.fault.RowFault.TheVariants.{NotJson};
ghost use Rattle.row_texts.specs.Fields.{fault_of, or_else};
ghost use Rattle.row_texts.specs.Reading.{pair_of, read_row, row_at, row_in, shape_of, two_of, value_of, version_of};

use crate::fault::RowFault;
use crate::orch_base::Name;
use crate::table::{
    active_at, candidate_at, downtime_at, instance_at, is_version, recovery_at, switch_at,
};
use crate::word::is_same;
use kept_rows::{Row, Table};
use serde_json::{Map, Value};
use std::alloc::Global;

type Entry<'v> = (&'v str, &'v Value);

// The members of an object that has two.
#[tactic(auto, using(crate::proofs::Pairs::pair_none, crate::proofs::Pairs::pair_some))]
fn pair_of(members: &Map<String, Value>) -> Option<(Entry<'_>, Entry<'_>)>
    ensures { option_map (λ p. ((p.0.0.now, view p.0.1.now), (p.1.0.now, view p.1.1.now))) result
        ≡ pair_of (members_view members.now.entries) }
{
    if members.len() != 2 {
        return None;
    }
    let (first, fields) = members.first_key_value()?;
    let (last, version) = members.last_key_value()?;
    Some(((first.as_str(), fields), (last.as_str(), version)))
}

#[tactic(auto, unfolding(crate::specs::Reading::two_of))]
fn two_of(members: &Map<String, Value>) -> Option<(&Value, &Value)>
    ensures { option_map (λ p. (view p.0.now, view p.1.now)) result
        ≡ two_of (members_view members.now.entries) }
{
    let ((first, fields), (last, version)) = pair_of(members)?;
    if is_same(first, "f") && is_same(last, "v") {
        Some((fields, version))
    } else {
        None
    }
}

#[tactic(auto, unfolding(crate::specs::Reading::shape_of))]
fn shape_of(value: &Value) -> Option<(&Value, &Value)>
    ensures { option_map (λ p. (view p.0.now, view p.1.now)) result ≡ shape_of (view value.now) }
{
    let (fields, version) = two_of(value.as_object()?)?;
    if fields.is_array() {
        Some((fields, version))
    } else {
        None
    }
}

#[tactic(auto, unfolding(crate::specs::Reading::version_of))]
fn version_of(table: Table, value: &Value) -> Option<u64>
    ensures { result ≡ version_of table (view value.now) }
{
    match value.as_u64() {
        Some(version) if is_version(table, version) => Some(version),
        _ => None,
    }
}

// The reader of a table.
fn row_at(
    alloc: Global,
    table: Table,
    version: u64,
    names: &[Name],
    key: &str,
    list: &Value,
) -> Result<Row, RowFault>
    ensures { Gives (λ r. r) fault_of result
        (row_at table version names.now key.now (view list.now)) }
{
    match table {
        Table::Instance => instance_at(alloc, version, names, key, list),
        Table::Downtime => downtime_at(alloc, names, key, list),
        Table::Candidate => candidate_at(alloc, names, key, list),
        Table::Recovery => recovery_at(alloc, version, names, key, list),
        Table::Switch => switch_at(key, list),
        Table::Active => active_at(key, list),
    }
}

#[tactic(auto, unfolding(crate::specs::Reading::row_in))]
fn row_in(
    alloc: Global,
    table: Table,
    names: &[Name],
    key: &str,
    value: &Value,
) -> Result<Row, RowFault>
    ensures { Gives (λ r. r) fault_of result (row_in table names.now key.now (view value.now)) }
{
    let Some((list, version)) = shape_of(value) else {
        return Err(RowFault::NotJson);
    };
    match version_of(table, version) {
        Some(version) => row_at(alloc, table, version, names, key, list),
        None => Err(RowFault::BadVersion),
    }
}

fn value_in(alloc: Global, text: &[u8]) -> Result<Value, RowFault>
    ensures { Gives view fault_of result (or_else NotJson (value_of text.now)) }
{
    match Value::from_slice(alloc, text) {
        Ok(value) => Ok(value),
        Err(error) => {
            if error.is_memory() {
                return Err(RowFault::Memory);
            }
            Err(RowFault::NotJson)
        }
    }
}

/// The row that a text is, by its table and key.
#[tactic(auto, unfolding(crate::specs::Reading::read_row))]
pub(crate) fn read_row(
    alloc: Global,
    table: Table,
    key: &str,
    text: &[u8],
    names: &[Name],
) -> Result<Row, RowFault>
    ensures { Gives (λ r. r) fault_of result (read_row table names.now key.now text.now) }
{
    let value = value_in(alloc, text)?;
    row_in(alloc, table, names, key, &value)
}
