//! The values at an object's keys.

ghost use Rattle.std.specs.Prelude.{◌≡◌, option_map};
ghost use Rattle.binlog_coords.specs.OrchBase.Gives.{Gives};
ghost use Rattle.serde_json.specs.View.{view};
ghost use Rattle.scenario_values.specs.Faults.{fault_of, optional, maybe};
ghost use Rattle.scenario_values.specs.Values.{bool_in, whole_in, number_in, coord_in, label_in, version_in};

use crate::fault::{ReadFault, under};
use crate::orch_base::{OwnedText, Version};
use crate::value::{bool_in, coord_in, label_in, number_in, version_in, whole_in};
use binlog_coords::Coord;
use serde_json::Value;
use std::alloc::Global;

/// The truth value at a key that may be absent. A fault is the value's, with the key before its path.
#[tactic(auto, using(crate::proofs::Unders::gives_under))]
pub fn bool_at(alloc: Global, object: &Value, key: &str, default: bool) -> Result<bool, ReadFault>
    ensures { Gives (λ b. b) fault_of result (optional key.now bool_in default (view object.now)) }
{
    match object.get(key) {
        Some(value) => under(alloc, key.as_bytes(), bool_in(alloc, value)),
        None => Ok(default),
    }
}

/// The whole number at a key that may be absent. A fault is the value's, with the key before its path.
#[tactic(auto, using(crate::proofs::Unders::gives_under))]
pub fn whole_at(alloc: Global, object: &Value, key: &str, default: u64) -> Result<u64, ReadFault>
    ensures { Gives (λ n. n) fault_of result (optional key.now whole_in default (view object.now)) }
{
    match object.get(key) {
        Some(value) => under(alloc, key.as_bytes(), whole_in(alloc, value)),
        None => Ok(default),
    }
}

/// The whole number from `low` to `high` at a key that may be absent. A fault is the value's, with the key before its
/// path.
#[tactic(auto, using(crate::proofs::Unders::gives_under))]
pub fn number_at(
    alloc: Global,
    object: &Value,
    key: &str,
    low: u64,
    high: u64,
    default: u64,
) -> Result<u64, ReadFault>
    ensures { Gives (λ n. n) fault_of result
        (optional key.now (number_in low high) default (view object.now)) }
{
    match object.get(key) {
        Some(value) => under(alloc, key.as_bytes(), number_in(alloc, low, high, value)),
        None => Ok(default),
    }
}

/// The version at a key that may be absent. A fault is the value's, with the key before its path.
#[tactic(auto, using(crate::proofs::Unders::gives_under))]
pub fn version_at(
    alloc: Global,
    object: &Value,
    key: &str,
    default: Version,
) -> Result<Version, ReadFault>
    ensures { Gives (λ v. v) fault_of result
        (optional key.now version_in default (view object.now)) }
{
    match object.get(key) {
        Some(value) => under(alloc, key.as_bytes(), version_in(alloc, value)),
        None => Ok(default),
    }
}

/// The truth value at a key, if it is there. A fault is the value's, with the key before its path.
#[tactic(auto, using(crate::proofs::Unders::gives_under))]
pub fn maybe_bool(alloc: Global, object: &Value, key: &str) -> Result<Option<bool>, ReadFault>
    ensures { Gives (λ b. b) fault_of result (maybe key.now bool_in (view object.now)) }
{
    match object.get(key) {
        Some(value) => {
            let is_true = under(alloc, key.as_bytes(), bool_in(alloc, value))?;
            Ok(Some(is_true))
        }
        None => Ok(None),
    }
}

/// The coordinate at a key, if it is there. A fault is the value's, with the key before its path.
#[tactic(auto, using(crate::proofs::Unders::gives_under))]
pub fn maybe_coord(alloc: Global, object: &Value, key: &str) -> Result<Option<Coord>, ReadFault>
    ensures { Gives (λ c. c) fault_of result (maybe key.now coord_in (view object.now)) }
{
    match object.get(key) {
        Some(value) => {
            let coord = under(alloc, key.as_bytes(), coord_in(alloc, value))?;
            Ok(Some(coord))
        }
        None => Ok(None),
    }
}

/// The cluster's label at a key, if it is there. A fault is the value's, with the key before its path.
#[tactic(auto, using(crate::proofs::Unders::gives_under))]
pub fn maybe_label(alloc: Global, object: &Value, key: &str) -> Result<Option<OwnedText>, ReadFault>
    ensures { Gives (λ l. l) fault_of result (maybe key.now label_in (view object.now)) }
{
    match object.get(key) {
        Some(value) => {
            let label = under(alloc, key.as_bytes(), label_in(alloc, value))?;
            Ok(Some(label))
        }
        None => Ok(None),
    }
}
