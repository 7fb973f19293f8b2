//! The fields of a row, by their numbers, which are counted from 0.

ghost use Rattle.std.specs.Prelude.{◌≡◌};
ghost use Rattle.row_texts.specs.Prelude.{Gives, as_bool, as_str, view};
ghost use Rattle.row_texts.specs.Fields.{coord_form, end_at, fault_of, field_at, moment_form, name_form, or_null, outcome_form, set_form, small_form, whole_form, word_form};
ghost use Rattle.row_texts.specs.Tables.{source_at};
ghost use Rattle.row_texts.specs.Words.{coord_printed};

use crate::binlog_coords_items::{Coord, read_coord};
use crate::fault::RowFault;
use crate::gtid_sets::GtidSet;
use crate::orch_base::{Moment, Name, OwnedText};
use crate::word::{
    Outcome, Source, SourceWord, Word, name_printed, named_among, outcome_of, parts, set_printed,
};
use serde_json::Value;
use std::alloc::Global;

/// A whole number.
#[tactic(auto, unfolding(crate::specs::Fields::field_at))]
pub(crate) fn whole_at(list: &Value, at: usize) -> Result<u64, RowFault>
    ensures { Gives (λ n. n) fault_of result (field_at whole_form at (view list.now)) }
{
    match list.get(at).and_then(Value::as_u64) {
        Some(whole) => Ok(whole),
        None => Err(RowFault::BadField(at)),
    }
}

/// A whole number below 2^32.
#[tactic(auto, unfolding(crate::specs::Fields::field_at))]
pub(crate) fn small_at(list: &Value, at: usize) -> Result<u32, RowFault>
    ensures { Gives (λ n. n) fault_of result (field_at small_form at (view list.now)) }
{
    match list.get(at).and_then(Value::as_u64) {
        Some(small) if small <= 4294967295 => Ok(small as u32),
        _ => Err(RowFault::BadField(at)),
    }
}

/// A moment.
#[tactic(auto, unfolding(crate::specs::Fields::field_at))]
pub(crate) fn moment_at(list: &Value, at: usize) -> Result<Moment, RowFault>
    ensures { Gives (λ t. t) fault_of result (field_at moment_form at (view list.now)) }
{
    match list.get(at).and_then(Value::as_u64) {
        Some(moment) => Ok(Moment(moment)),
        None => Err(RowFault::BadField(at)),
    }
}

/// A truth value.
#[tactic(auto, unfolding(crate::specs::Fields::field_at))]
pub(crate) fn truth_at(list: &Value, at: usize) -> Result<bool, RowFault>
    ensures { Gives (λ b. b) fault_of result (field_at as_bool at (view list.now)) }
{
    match list.get(at).and_then(Value::as_bool) {
        Some(is_true) => Ok(is_true),
        None => Err(RowFault::BadField(at)),
    }
}

/// A text.
#[tactic(auto, unfolding(crate::specs::Fields::field_at))]
pub(crate) fn text_at(alloc: Global, list: &Value, at: usize) -> Result<OwnedText, RowFault>
    ensures { Gives (λ s. s) fault_of result (field_at as_str at (view list.now)) }
{
    match list.get(at).and_then(Value::as_str) {
        Some(text) => Ok(OwnedText::new(String::from_str(alloc, text)?)),
        None => Err(RowFault::BadField(at)),
    }
}

/// One of these, by its word.
#[tactic(auto, unfolding(crate::specs::Fields::field_at))]
pub(crate) fn word_at<W: Word>(all: &[W], list: &Value, at: usize) -> Result<W, RowFault>
    ensures { Gives (λ w. w) fault_of result
        (field_at (word_form W.word_of all.now) at (view list.now)) }
{
    let Some(text) = list.get(at).and_then(Value::as_str) else {
        return Err(RowFault::BadField(at));
    };
    match named_among(all, text) {
        Some(named) => Ok(named),
        None => Err(RowFault::BadField(at)),
    }
}

/// A name in its printed form.
#[tactic(auto, unfolding(crate::specs::Fields::field_at))]
pub(crate) fn name_at(alloc: Global, list: &Value, at: usize) -> Result<Name, RowFault>
    ensures { Gives (λ n. n) fault_of result (field_at name_form at (view list.now)) }
{
    let Some(text) = list.get(at).and_then(Value::as_str) else {
        return Err(RowFault::BadField(at));
    };
    match name_printed(alloc, text)? {
        Some(name) => Ok(name),
        None => Err(RowFault::BadField(at)),
    }
}

#[tactic(auto, unfolding(crate::specs::Words::coord_printed))]
fn coord_in(value: &Value) -> Option<Coord>
    ensures { result ≡ coord_form (view value.now) }
{
    read_coord(value.as_str()?).ok()
}

/// A coordinate in its printed form.
#[tactic(auto, unfolding(crate::specs::Fields::field_at))]
pub(crate) fn coord_at(list: &Value, at: usize) -> Result<Coord, RowFault>
    ensures { Gives (λ c. c) fault_of result (field_at coord_form at (view list.now)) }
{
    match list.get(at).and_then(coord_in) {
        Some(coord) => Ok(coord),
        None => Err(RowFault::BadField(at)),
    }
}

/// A coordinate in its printed form, or null.
#[tactic(auto, unfolding(crate::specs::Fields::field_at))]
pub(crate) fn maybe_coord_at(list: &Value, at: usize) -> Result<Option<Coord>, RowFault>
    ensures { Gives (λ c. c) fault_of result (field_at (or_null coord_form) at (view list.now)) }
{
    let Some(value) = list.get(at) else {
        return Err(RowFault::BadField(at));
    };
    if value.is_null() {
        return Ok(None);
    }
    match coord_in(value) {
        Some(coord) => Ok(Some(coord)),
        None => Err(RowFault::BadField(at)),
    }
}

/// A moment, or null.
#[tactic(auto, unfolding(crate::specs::Fields::field_at))]
pub(crate) fn maybe_moment_at(list: &Value, at: usize) -> Result<Option<Moment>, RowFault>
    ensures { Gives (λ t. t) fault_of result (field_at (or_null moment_form) at (view list.now)) }
{
    let Some(value) = list.get(at) else {
        return Err(RowFault::BadField(at));
    };
    if value.is_null() {
        return Ok(None);
    }
    match value.as_u64() {
        Some(moment) => Ok(Some(Moment(moment))),
        None => Err(RowFault::BadField(at)),
    }
}

/// A set of GTIDs in its printed form.
#[tactic(auto, unfolding(crate::specs::Fields::field_at))]
pub(crate) fn set_at(alloc: Global, list: &Value, at: usize) -> Result<GtidSet, RowFault>
    ensures { Gives (λ s. s) fault_of result (field_at set_form at (view list.now)) }
{
    let Some(text) = list.get(at).and_then(Value::as_str) else {
        return Err(RowFault::BadField(at));
    };
    match set_printed(alloc, text)? {
        Some(set) => Ok(set),
        None => Err(RowFault::BadField(at)),
    }
}

/// How a recovery ended: `unended`, `interrupted`, `promoted NAME` or `failed CAUSE`.
#[tactic(auto, unfolding(crate::specs::Fields::field_at, crate::specs::Words::outcome_printed))]
pub(crate) fn outcome_at(alloc: Global, list: &Value, at: usize) -> Result<Outcome, RowFault>
    ensures { Gives (λ o. o) fault_of result (field_at outcome_form at (view list.now)) }
{
    let Some(text) = list.get(at).and_then(Value::as_str) else {
        return Err(RowFault::BadField(at));
    };
    let (word, rest) = parts(text);
    match outcome_of(alloc, word, rest)? {
        Some(outcome) => Ok(outcome),
        None => Err(RowFault::BadField(at)),
    }
}

/// The source's name, which is empty exactly beside `none`.
#[tactic(auto, unfolding(crate::specs::Tables::source_at, crate::specs::Fields::field_at))]
pub(crate) fn source_at(
    alloc: Global,
    word: SourceWord,
    list: &Value,
    at: usize,
) -> Result<Source, RowFault>
    ensures { Gives (λ s. s) fault_of result (source_at word at (view list.now)) }
{
    match word {
        SourceWord::Without => match list.get(at).and_then(Value::as_str) {
            Some(text) if text.is_empty() => Ok(Source::Without),
            _ => Err(RowFault::BadField(at)),
        },
        SourceWord::Attached => {
            let name = name_at(alloc, list, at)?;
            Ok(Source::Attached(name))
        }
        SourceWord::Detached => {
            let name = name_at(alloc, list, at)?;
            Ok(Source::Detached(name))
        }
    }
}

/// Nothing, if no field is at this number.
#[tactic(auto, unfolding(crate::specs::Fields::end_at))]
pub(crate) fn end_at(list: &Value, at: usize) -> Result<(), RowFault>
    ensures { Gives (λ _. tt) fault_of result (end_at at (view list.now)) }
{
    match list.get(at) {
        Some(_) => Err(RowFault::BadField(at)),
        None => Ok(()),
    }
}
