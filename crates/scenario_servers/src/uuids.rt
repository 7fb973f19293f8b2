//! The UUIDs of a scenario's servers.

ghost use Rattle.std.specs.Prelude.{◌≡◌, IfOk, OnOk, codes, option_map};
ghost use Rattle.scenario_servers.specs.Prelude.{Gives, fault_of, get, view};
ghost use Rattle.scenario_servers.specs.Names.{uuid_at, read_uuid, new_uuid, unplaced_uuid, own_uuid};
ghost use Rattle.scenario_servers.specs.UuidTable.{AddsUuid};

use crate::orch_base::Memory;
use scenario_values::{FaultCode, ReadFault, fails, under, uuid_in};
use serde_json::Value;
use std::alloc::Global;
use std::collections::HashMap;
use std::marker::Model;

// The UUID that is given, and else the server's number plus 1.
fn uuid_at(alloc: Global, number: u32, given: Option<&Value>) -> Result<u128, ReadFault>
    ensures { Gives (λ u. u) fault_of result
        (uuid_at number (option_map (λ v. view v.now) given.entry)) }
{
    match given {
        Some(value) => uuid_in(alloc, value),
        None => Ok(u128::from(number) + 1),
    }
}

// The UUID of a listed server, if it reads.
fn listed_uuid(alloc: Global, number: u32, object: &Value) -> Result<Option<u128>, Memory>
    ensures { IfOk result (λ u. u
        ≡ read_uuid (uuid_at number (get (codes "uuid") (view object.now)))) }
{
    match uuid_at(alloc, number, object.get("uuid")) {
        Ok(uuid) => Ok(Some(uuid)),
        Err(ReadFault::Fault(_)) => Ok(None),
        Err(ReadFault::Memory) => Err(Memory),
    }
}

// Tables the number of a server, unless it has no UUID or an earlier one has it.
fn add_uuid(numbers: &mut HashMap<u128, u32>, uuid: Option<u128>, number: u32) -> Result<(), Memory>
    ensures { OnOk result (AddsUuid numbers.old numbers.new uuid number) }
{
    let Some(uuid) = uuid else {
        return Ok(());
    };
    if let Some(first) = numbers.insert(uuid, number)? {
        numbers.insert(uuid, first)?;
    }
    Ok(())
}

/// The UUIDs of the servers that are listed, each if it reads.
#[derive(Drop)]
pub(crate) struct Uuids {
    listed: Vec<Option<u128>>,
    numbers: HashMap<u128, u32>,
}

impl Model for Uuids {
    ghost use Rattle.std.specs.Prelude.{ℕ, List, Option};
    ghost use Rattle.scenario_servers.specs.UuidTable.{IsUuidTable};

    ghost Value = { List (Option ℕ) };

    ghost view = { λ u. u.listed.items };

    ghost invariant = { λ u. IsUuidTable u.numbers u.listed.items };
}

impl Uuids {
    ghost use Rattle.std.specs.Prelude.{◌≡◌, ◌≤◌, IfOk, length, take};
    ghost use Rattle.std.specs.List.{list_any};
    ghost use Rattle.serde_json.specs.View.{items_view};
    ghost use Rattle.scenario_servers.specs.Names.{has_uuid, listed_uuids};

    /// Those of the servers that are listed, of which there are at most 1,000.
    pub(crate) fn of(alloc: Global, items: &[Value]) -> Result<Uuids, Memory>
        requires { length items.now ≤ 1000 }
        ensures { IfOk result (λ u. u ≡ listed_uuids 0 (items_view items.now)) }
    {
        let mut listed = Vec::with_capacity(alloc, items.len())?;
        let mut numbers = HashMap::new(alloc);
        for (number, value) in items.iter().enumerate() {
            let uuid = listed_uuid(alloc, number as u32, value)?;
            add_uuid(&mut numbers, uuid, number as u32)?;
            listed.push(uuid)?;
        }
        Ok(Uuids { listed, numbers })
    }

    // Whether a server before this number has the UUID.
    fn has_before(&self, number: u32, uuid: u128) -> bool
        ensures { result ≡ list_any (has_uuid uuid) (take number self.now) }
    {
        match self.numbers.get(&uuid) {
            Some(first) => *first < number,
            None => false,
        }
    }
}

fn new_uuid(alloc: Global, uuids: &Uuids, number: u32, uuid: u128) -> Result<u128, ReadFault>
    ensures { Gives (λ u. u) fault_of result (new_uuid uuids.now number uuid) }
{
    if uuids.has_before(number, uuid) {
        Err(fails(alloc, FaultCode::DuplicateUuid))
    } else {
        Ok(uuid)
    }
}

fn unplaced_uuid(
    alloc: Global,
    uuids: &Uuids,
    number: u32,
    object: &Value,
) -> Result<u128, ReadFault>
    ensures { Gives (λ u. u) fault_of result (unplaced_uuid uuids.now number (view object.now)) }
{
    let uuid = uuid_at(alloc, number, object.get("uuid"))?;
    new_uuid(alloc, uuids, number, uuid)
}

/// The UUID of the server of this number, which no earlier one has. A fault is at its key, given or not.
#[tactic(auto, using(scenario_values::proofs::Unders::gives_under), unfolding(crate::specs::Names::own_uuid))]
pub(crate) fn own_uuid(
    alloc: Global,
    uuids: &Uuids,
    number: u32,
    object: &Value,
) -> Result<u128, ReadFault>
    ensures { Gives (λ u. u) fault_of result (own_uuid uuids.now number (view object.now)) }
{
    let read = unplaced_uuid(alloc, uuids, number, object);
    under(alloc, b"uuid", read)
}
