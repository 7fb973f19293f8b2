//! Single values of a JSON text.

ghost use Rattle.std.specs.Prelude.{◌≡◌, ◌≤◌, IfOk};
ghost use Rattle.std.specs.Char.{is_ascii_digit};
ghost use Rattle.std.specs.List.{list_all, before_first};
ghost use Rattle.uuid.specs.Text.{parsed_hyphenated};
ghost use Rattle.binlog_coords.specs.OrchBase.Gives.{Gives};
ghost use Rattle.serde_json.specs.View.{view, items_view, members_view};
ghost use Rattle.scenario_values.specs.Faults.{fault_of};
ghost use Rattle.scenario_values.specs.Values.{members_in, items_in, text_in, bool_in, whole_in, number_in, name_in, coord_in, text_within, short_in, label_or_fails, label_in, uuid_or_fails, uuid_in, is_dot, behind_dot, version_part, version_at, version_in};

use crate::fault::{FaultCode, ReadFault, fails};
use crate::orch_base::{Name, NameFault, OwnedText, Version};
use binlog_coords::{Coord, read_coord};
use serde_json::{Map, Value};
use std::alloc::Global;
use uuid::Uuid;

/// An object's members; a value of another kind is `BadType`.
pub fn members_in(alloc: Global, value: &Value) -> Result<&Map<String, Value>, ReadFault>
    ensures { Gives (λ m. members_view m.now.entries) fault_of result
        (members_in (view value.now)) }
{
    match value.as_object() {
        Some(members) => Ok(members),
        None => Err(fails(alloc, FaultCode::BadType)),
    }
}

/// A list's items; a value of another kind is `BadType`.
pub fn items_in(alloc: Global, value: &Value) -> Result<&Vec<Value>, ReadFault>
    ensures { Gives (λ v. items_view v.now.items) fault_of result (items_in (view value.now)) }
{
    match value.as_array() {
        Some(items) => Ok(items),
        None => Err(fails(alloc, FaultCode::BadType)),
    }
}

/// A text; a value of another kind is `BadType`.
pub fn text_in(alloc: Global, value: &Value) -> Result<&str, ReadFault>
    ensures { Gives (λ s. s.now) fault_of result (text_in (view value.now)) }
{
    match value.as_str() {
        Some(text) => Ok(text),
        None => Err(fails(alloc, FaultCode::BadType)),
    }
}

/// A truth value; a value of another kind is `BadType`.
pub fn bool_in(alloc: Global, value: &Value) -> Result<bool, ReadFault>
    ensures { Gives (λ b. b) fault_of result (bool_in (view value.now)) }
{
    match value.as_bool() {
        Some(is_true) => Ok(is_true),
        None => Err(fails(alloc, FaultCode::BadType)),
    }
}

/// A whole number of 0 to 2^64 - 1; a number that isn't is `BadNumber`, a value of another kind `BadType`.
#[tactic(auto, unfolding(crate::specs::Values::whole_in))]
pub fn whole_in(alloc: Global, value: &Value) -> Result<u64, ReadFault>
    ensures { Gives (λ n. n) fault_of result (whole_in (view value.now)) }
{
    match value.as_number() {
        Some(number) => match number.as_u64() {
            Some(whole) => Ok(whole),
            None => Err(fails(alloc, FaultCode::BadNumber)),
        },
        None => Err(fails(alloc, FaultCode::BadType)),
    }
}

/// A whole number from `low` to `high`. Another number is `BadNumber`, a value of another kind `BadType`.
#[tactic(auto, unfolding(crate::specs::Values::number_in))]
pub fn number_in(alloc: Global, low: u64, high: u64, value: &Value) -> Result<u64, ReadFault>
    ensures value { Gives (λ n. n) fault_of result (number_in low high (view value.now)) }
    ensures range { IfOk result (λ n. (low ≤ n) × (n ≤ high)) }
{
    let number = whole_in(alloc, value)?;
    if low <= number && number <= high {
        Ok(number)
    } else {
        Err(fails(alloc, FaultCode::BadNumber))
    }
}

/// A server's name; a text that is none is `BadName`, a value of another kind `BadType`.
#[tactic(auto, unfolding(crate::specs::Values::name_in))]
pub fn name_in(alloc: Global, value: &Value) -> Result<Name, ReadFault>
    ensures { Gives (λ n. n) fault_of result (name_in (view value.now)) }
{
    let text = text_in(alloc, value)?;
    match Name::read(alloc, text) {
        Ok(name) => Ok(name),
        Err(NameFault::Memory) => Err(ReadFault::Memory),
        Err(_) => Err(fails(alloc, FaultCode::BadName)),
    }
}

/// A binary log coordinate; a text that is none is `BadCoord`, a value of another kind `BadType`.
#[tactic(auto, unfolding(crate::specs::Values::coord_in))]
pub fn coord_in(alloc: Global, value: &Value) -> Result<Coord, ReadFault>
    ensures { Gives (λ c. c) fault_of result (coord_in (view value.now)) }
{
    let text = text_in(alloc, value)?;
    match read_coord(text) {
        Ok(coord) => Ok(coord),
        Err(_) => Err(fails(alloc, FaultCode::BadCoord)),
    }
}

/// A text of low to high bytes; of another length it is `BadNumber`.
pub fn text_within(
    alloc: Global,
    low: usize,
    high: usize,
    text: &str,
) -> Result<OwnedText, ReadFault>
    ensures { Gives (λ l. l) fault_of result (text_within low high text.now) }
{
    if low <= text.len() && text.len() <= high {
        Ok(OwnedText::new(String::from_str(alloc, text)?))
    } else {
        Err(fails(alloc, FaultCode::BadNumber))
    }
}

/// A text of at most 255 bytes; a longer one is `BadNumber`, a value of another kind `BadType`.
#[tactic(auto, unfolding(crate::specs::Values::short_in))]
pub fn short_in(alloc: Global, value: &Value) -> Result<OwnedText, ReadFault>
    ensures { Gives (λ s. s) fault_of result (short_in (view value.now)) }
{
    let text = text_in(alloc, value)?;
    text_within(alloc, 0, 255, text)
}

/// A cluster's label, a text of 1 to 261 bytes; of another length it is `BadNumber`.
pub fn label_or_fails(alloc: Global, text: &str) -> Result<OwnedText, ReadFault>
    ensures { Gives (λ l. l) fault_of result (label_or_fails text.now) }
{
    text_within(alloc, 1, 261, text)
}

/// A cluster's label; a text of no or more than 261 bytes is `BadNumber`, a value of another kind `BadType`.
#[tactic(auto, unfolding(crate::specs::Values::label_in))]
pub fn label_in(alloc: Global, value: &Value) -> Result<OwnedText, ReadFault>
    ensures { Gives (λ l. l) fault_of result (label_in (view value.now)) }
{
    let text = text_in(alloc, value)?;
    label_or_fails(alloc, text)
}

fn uuid_or_fails(alloc: Global, text: &str) -> Result<u128, ReadFault>
    ensures { Gives (λ u. u) fault_of result (uuid_or_fails (parsed_hyphenated text.now)) }
{
    if text.len() != 36 {
        return Err(fails(alloc, FaultCode::BadUuid));
    }
    match Uuid::parse_str(text) {
        Ok(uuid) => Ok(uuid.as_u128()),
        Err(_) => Err(fails(alloc, FaultCode::BadUuid)),
    }
}

/// A UUID in its hyphenated form, with digits of either case (RFC 9562, "UUID Format"). Another text is `BadUuid`.
#[tactic(auto, unfolding(crate::specs::Values::uuid_in))]
pub fn uuid_in(alloc: Global, value: &Value) -> Result<u128, ReadFault>
    ensures { Gives (λ u. u) fault_of result (uuid_in (view value.now)) }
{
    let text = text_in(alloc, value)?;
    uuid_or_fails(alloc, text)
}

fn are_digits(text: &[u8]) -> bool
    ensures { result ≡ list_all is_ascii_digit text.now }
{
    text.iter().all(|b| b.is_ascii_digit())
}

fn version_part(digits: &str) -> Option<u16>
    ensures { result ≡ version_part digits.now }
{
    if are_digits(digits.as_bytes()) {
        digits.parse::<u16>().ok()
    } else {
        None
    }
}

// The text before the first dot, and the text after it.
fn at_dot(text: &str) -> (&str, &str)
    ensures before { result.0.now ≡ before_first is_dot text.now }
    ensures behind { result.1.now ≡ behind_dot text.now }
{
    match text.split_once('.') {
        Some(parts) => parts,
        None => (text, ""),
    }
}

fn version_at(alloc: Global, text: &str) -> Result<Version, ReadFault>
    ensures { Gives (λ v. v) fault_of result (version_at text.now) }
{
    let (major, behind) = at_dot(text);
    let (minor, patch) = at_dot(behind);
    match (
        version_part(major),
        version_part(minor),
        version_part(patch),
    ) {
        (Some(major), Some(minor), Some(patch)) => Ok(Version {
            major,
            minor,
            patch,
        }),
        _ => Err(fails(alloc, FaultCode::BadVersion)),
    }
}

/// A server's version: three parts of digits with dots between them, each at most 65535. Another text is `BadVersion`.
#[tactic(auto, unfolding(crate::specs::Values::version_in))]
pub fn version_in(alloc: Global, value: &Value) -> Result<Version, ReadFault>
    ensures { Gives (λ v. v) fault_of result (version_in (view value.now)) }
{
    let text = text_in(alloc, value)?;
    version_at(alloc, text)
}
