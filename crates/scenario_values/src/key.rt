//! Which keys an object has.

ghost use Rattle.std.specs.Prelude.{◌≡◌, IsTrue, List, None, is_ok, map, true, ℕ};
ghost use Rattle.binlog_coords.specs.OrchBase.Gives.{Gives};
ghost use Rattle.serde_json.specs.Find.{as_object, get};
ghost use Rattle.serde_json.specs.View.{members_view, view};
ghost use Rattle.scenario_values.specs.Faults.{fault_of, has_none, has_none_at, is_key, only_keys};

use crate::fault::{FaultCode, ReadFault, fails, under};
use serde_json::{Map, Value};
use std::alloc::Global;

fn is_key(known: &[&str], key: &str) -> bool
    ensures { result ≡ is_key (map (λ s. s.now) known.now) key.now }
{
    known.contains(&key)
}

/// Nothing, if there is no key but these. Else `UnknownKey` of the first other key.
#[tactic(auto, using(crate::proofs::Unders::gives_under))]
pub fn only_keys(
    alloc: Global,
    members: &Map<String, Value>,
    known: &[&str],
) -> Result<(), ReadFault>
    ensures { Gives (λ _. tt) fault_of result
        (only_keys (map (λ s. s.now) known.now) (members_view members.now.entries)) }
{
    for key in members.keys() {
        if !is_key(known, key.as_str()) {
            let unknown: Result<(), ReadFault> = Err(fails(alloc, FaultCode::UnknownKey));
            return under(alloc, key.as_bytes(), unknown);
        }
    }
    Ok(())
}

/// Whether there is no key but these. It is one walk over the members, in place of a search for each other key.
pub fn has_only(members: &Map<String, Value>, keys: &[&str]) -> bool
    ensures { result
        ≡ is_ok (only_keys (map (λ s. s.now) keys.now) (members_view members.now.entries)) }
{
    for key in members.keys() {
        if !is_key(keys, key.as_str()) {
            return false;
        }
    }
    true
}

fn has_none(members: &Map<String, Value>, keys: &[&str]) -> bool
    ensures { result ≡ has_none (map (λ s. s.now) keys.now) (members_view members.now.entries) }
{
    for key in members.keys() {
        if is_key(keys, key.as_str()) {
            return false;
        }
    }
    true
}

/// Whether an object has none of these keys. It is one walk over its members, in place of a search for each key.
pub fn lacks(object: &Value, keys: &[&str]) -> bool
    ensures exact { result
        ≡ has_none_at (map (λ s. s.now) keys.now) (as_object (view object.now)) }
    ensures absent { IsTrue result → (key : List ℕ)
        → is_key (map (λ s. s.now) keys.now) key ≡ true → get key (view object.now) ≡ None }
{
    match object.as_object() {
        Some(members) => has_none(members, keys),
        None => true,
    }
}
