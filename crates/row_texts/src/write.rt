//! What is written of a row.

ghost use Rattle.std.specs.Prelude.{◌≡◌, ◌<◌, IfOk, length, string_bytes, true};
ghost use Rattle.row_texts.specs.Prelude.{are_known, coord_text, ending_servers, printed as set_text, servers_of, source_servers, view};
ghost use Rattle.row_texts.specs.declared.word.SourceWord.{SourceWord};
ghost use Rattle.row_texts.specs.Words.{outcome_text};
ghost use Rattle.row_texts.specs.Written.{coord_data, downtime_list, ending_name, instance_list, maybe_data, moment_data, name_text, recovery_list, row_data, row_list, row_version, source_name, source_word};

use crate::binlog_coords_items::{Coord, print_coord};
use crate::gtid_sets::GtidSet;
use crate::orch_base::{Ending, Memory, Moment, Name, ServerNo, SourceState};
use crate::word::{SourceWord, Word};
use kept_rows::{Downtime, Instance, RecoveryRow, Row};
use serde_json::{Value, json};
use std::alloc::Global;

#[tactic(auto, using(crate::proofs::Prelude::printed_is_utf8))]
fn name_string(alloc: Global, names: &[Name], no: ServerNo) -> Result<String, Memory>
    requires { no.0 < length names.now }
    ensures { IfOk result (λ s. string_bytes s ≡ name_text names.now no) }
{
    let mut text = Vec::new(alloc);
    names[no.0 as usize].print(&mut text)?;
    Ok(String::from_utf8(text).unwrap())
}

#[tactic(auto, using(crate::proofs::Printed::coord_is_utf8))]
fn coord_string(alloc: Global, coord: Coord) -> Result<String, Memory>
    ensures { IfOk result (λ s. string_bytes s ≡ coord_text coord) }
{
    let Coord { file, pos } = coord;
    let mut text = Vec::new(alloc);
    print_coord(Coord { file, pos }, &mut text)?;
    Ok(String::from_utf8(text).unwrap())
}

#[tactic(auto, using(crate::proofs::Printed::set_is_utf8))]
fn set_string(alloc: Global, set: &GtidSet) -> Result<String, Memory>
    ensures { IfOk result (λ s. string_bytes s ≡ set_text set.now) }
{
    set.show_order();
    let mut text = Vec::new(alloc);
    set.print(&mut text)?;
    Ok(String::from_utf8(text).unwrap())
}

fn source_string(alloc: Global, names: &[Name], source: SourceState) -> Result<String, Memory>
    requires { are_known (length names.now) (source_servers source) ≡ true }
    ensures { IfOk result (λ s. string_bytes s ≡ source_name names.now source) }
{
    match source {
        SourceState::Without => Ok(String::new(alloc)),
        SourceState::Attached(no) | SourceState::Detached(no) => name_string(alloc, names, no),
    }
}

fn source_word(source: SourceState) -> SourceWord
    ensures { result ≡ source_word source }
{
    match source {
        SourceState::Without => SourceWord::Without,
        SourceState::Attached(_) => SourceWord::Attached,
        SourceState::Detached(_) => SourceWord::Detached,
    }
}

fn outcome_string(alloc: Global, names: &[Name], outcome: Ending) -> Result<String, Memory>
    requires { are_known (length names.now) (ending_servers outcome) ≡ true }
    ensures { IfOk result (λ s. string_bytes s ≡ outcome_text (ending_name names.now outcome)) }
{
    match outcome {
        Ending::Unended => String::from_str(alloc, "unended"),
        Ending::Interrupted => String::from_str(alloc, "interrupted"),
        Ending::Promoted(no) => {
            let name = name_string(alloc, names, no)?;
            let mut text = String::from_str(alloc, "promoted ")?;
            text.push_str(&name)?;
            Ok(text)
        }
        Ending::Failed(cause) => {
            let mut text = String::from_str(alloc, "failed ")?;
            text.push_str(cause.word())?;
            Ok(text)
        }
    }
}

fn coord_value(alloc: Global, coord: Option<Coord>) -> Result<Value, Memory>
    ensures { IfOk result (λ v. view v ≡ maybe_data coord_data coord) }
{
    match coord {
        Some(coord) => {
            let text = coord_string(alloc, coord)?;
            Ok(Value::from(text))
        }
        None => Ok(Value::Null),
    }
}

fn moment_value(moment: Option<Moment>) -> Value
    ensures { view result ≡ maybe_data moment_data moment }
{
    match moment {
        Some(moment) => Value::from(moment.0),
        None => Value::Null,
    }
}

fn instance_list(alloc: Global, names: &[Name], i: &Instance) -> Result<Value, Memory>
    requires { are_known (length names.now) (source_servers i.now.seen.source) ≡ true }
    ensures { IfOk result (λ v. view v ≡ instance_list names.now i.now) }
{
    let seen = &i.seen;
    let own_end = coord_value(alloc, seen.own_end)?;
    let word = String::from_str(alloc, source_word(seen.source).word())?;
    let source = source_string(alloc, names, seen.source)?;
    let exec = coord_string(alloc, seen.exec)?;
    let read = coord_string(alloc, seen.read)?;
    let io = String::from_str(alloc, seen.io.word())?;
    let set = set_string(alloc, &seen.set)?;
    let purged = set_string(alloc, &seen.purged)?;
    let fields = vec![in alloc;
        Value::from(i.read),
        Value::from(i.moment.0),
        Value::from(i.valid),
        own_end,
        Value::from(word),
        Value::from(source),
        Value::from(exec),
        Value::from(read),
        Value::from(seen.auto),
        Value::from(io),
        Value::from(seen.sql),
        Value::from(seen.read_only),
        Value::from(set),
        Value::from(seen.first),
        Value::from(purged),
    ]?;
    Ok(Value::Array(fields))
}

fn downtime_list(alloc: Global, d: &Downtime) -> Result<Value, Memory>
    ensures { IfOk result (λ v. view v ≡ downtime_list d.now) }
{
    let (begun, until) = (d.begun.0, d.until.0);
    let (owner, reason) = (d.owner.as_str(), d.reason.as_str());
    json!(in alloc; [begun, until, owner, reason])
}

fn recovery_list(alloc: Global, names: &[Name], r: &RecoveryRow) -> Result<Value, Memory>
    requires failed { r.now.failed.0 < length names.now }
    requires promoted { are_known (length names.now) (ending_servers r.now.outcome) ≡ true }
    ensures { IfOk result (λ v. view v ≡ recovery_list names.now r.now) }
{
    let (cluster, kind, begun, acked) = (r.cluster.as_str(), r.kind.word(), r.begun.0, r.acked);
    let failed = name_string(alloc, names, r.failed)?;
    let ended = moment_value(r.ended);
    let outcome = outcome_string(alloc, names, r.outcome)?;
    match r.block {
        Some(block) => {
            json!(in alloc; [cluster, kind, failed, begun, ended, outcome, acked, block])
        }
        None => json!(in alloc; [cluster, kind, failed, begun, ended, outcome, acked]),
    }
}

/// The row's fields.
#[tactic(auto, using(crate::proofs::Known::first_known, crate::proofs::Known::rest_known))]
fn row_list(alloc: Global, names: &[Name], row: &Row) -> Result<Value, Memory>
    requires { are_known (length names.now) (servers_of row.now) ≡ true }
    ensures { IfOk result (λ v. view v ≡ row_list names.now row.now) }
{
    match row {
        Row::Instance(instance) => instance_list(alloc, names, instance),
        Row::Downtime(downtime) => downtime_list(alloc, downtime),
        Row::Candidate(c) => json!(in alloc; [c.rule.word(), c.until.0]),
        Row::Recovery(recovery) => recovery_list(alloc, names, recovery),
        Row::Switch(enabled) => json!(in alloc; [*enabled]),
        Row::Active { node, until } => json!(in alloc; [*node, until.0]),
    }
}

// The version in which a row is written.
fn row_version(row: &Row) -> u64
    ensures { result ≡ row_version row.now }
{
    match row {
        Row::Instance(_) => 2,
        Row::Recovery(recovery) if recovery.block.is_some() => 2,
        Row::Downtime(_)
        | Row::Candidate(_)
        | Row::Recovery(_)
        | Row::Switch(_)
        | Row::Active { .. } => 1,
    }
}

/// The row's value: an object of its fields and its version.
pub(crate) fn row_value(alloc: Global, names: &[Name], row: &Row) -> Result<Value, Memory>
    requires { are_known (length names.now) (servers_of row.now) ≡ true }
    ensures { IfOk result (λ v. view v ≡ row_data names.now row.now) }
{
    let list = row_list(alloc, names, row)?;
    let version = row_version(row);
    json!(in alloc; {"f": list, "v": version})
}
