//! The servers of a scenario.

ghost use Rattle.std.specs.Prelude.{◌≡◌, ◌≤◌, ◌&&◌, IfOk, length, nat_le, OnOk, ◌<◌};
ghost use Rattle.scenario_servers.specs.Prelude.{BadNumber, Gives, each_from, fault_of, holds, item_count, items_in, items_view, under_item, view};
ghost use Rattle.scenario_servers.specs.Servers.{server_in, listed_in, servers_in};

use crate::given::Given;
use crate::names::Names;
use crate::server::server_in;
use crate::uuids::Uuids;
use scenario_values::{FaultCode, ReadFault, fails, holds, under_item};
use serde_json::Value;
use std::alloc::Global;

/// The servers as a scenario's text lists them, and the names by which the rest of the text names them.
#[derive(Drop)]
pub struct Listed {
    pub names: Names,
    pub given: Vec<Given>,
}

#[tactic(auto, using(scenario_values::proofs::Each::item_count_view))]
fn some_servers(alloc: Global, items: &[Value]) -> Result<(), ReadFault>
    ensures value { Gives (λ _. tt) fault_of result
        (holds BadNumber (nat_le 1 (item_count (items_view items.now))
        && nat_le (item_count (items_view items.now)) 1000)) }
    ensures few { OnOk result (length items.now ≤ 1000) }
{
    holds(
        alloc,
        FaultCode::BadNumber,
        1 <= items.len() && items.len() <= 1000,
    )
}

// The items of a list, which is used up; a value of another kind is `BadType`.
fn into_items(alloc: Global, value: Value) -> Result<Vec<Value>, ReadFault>
    ensures { Gives (λ v. items_view v.items) fault_of result (items_in (view value)) }
{
    match value {
        Value::Array(items) => Ok(items),
        Value::Null | Value::Bool(_) | Value::Number(_) | Value::String(_) | Value::Object(_) =>
            Err(fails(alloc, FaultCode::BadType)),
    }
}

#[tactic(auto, unfolding(crate::specs::Servers::listed_in))]
fn listed_in(alloc: Global, value: Value) -> Result<Vec<Value>, ReadFault>
    ensures value { Gives (λ v. items_view v.items) fault_of result (listed_in (view value)) }
    ensures few { IfOk result (λ v. length v.items ≤ 1000) }
{
    let items = into_items(alloc, value)?;
    some_servers(alloc, &items)?;
    Ok(items)
}

// The server of a number. Its value is dropped once it is read, so that no list is in memory twice.
#[tactic(auto, using(scenario_values::proofs::Unders::gives_under))]
fn server_at(
    alloc: Global,
    gtid: bool,
    names: &Names,
    uuids: &Uuids,
    number: usize,
    value: Value,
) -> Result<Given, ReadFault>
    requires { number < 1000 }
    ensures { Gives (λ g. g) fault_of result
        (under_item number (server_in gtid names.now uuids.now number (view value))) }
{
    let read = server_in(alloc, gtid, names, uuids, number as u32, &value);
    under_item(alloc, number, read)
}

fn given_in(
    alloc: Global,
    gtid: bool,
    names: &Names,
    uuids: &Uuids,
    items: Vec<Value>,
) -> Result<Vec<Given>, ReadFault>
    requires { length items.items ≤ 1000 }
    ensures { Gives (λ v. v.items) fault_of result
        (each_from (server_in gtid names.now uuids.now) 0 (items_view items.items)) }
{
    let mut given = Vec::with_capacity(alloc, items.len())?;
    'servers: for value in items {
        let number = given.len();
        given.push(server_at(alloc, gtid, names, uuids, number, value)?)?;
    }
    Ok(given)
}

/// The servers of a list of 1 to 1,000, in order, each by its keys in the table's order. `gtid` is whether the scenario
/// has GTIDs. The fault is the first of this walk: the kind of the list, then its length. Then come for each server its
/// kind, its unknown keys in the order of their bytes, and its keys.
#[tactic(auto, unfolding(crate::specs::Servers::servers_in))]
pub fn servers_in(alloc: Global, gtid: bool, value: Value) -> Result<Listed, ReadFault>
    ensures { Gives (λ l. (l.names, l.given.items)) fault_of result
        (servers_in gtid (view value)) }
{
    let items = listed_in(alloc, value)?;
    let names = Names::of(alloc, &items)?;
    let uuids = Uuids::of(alloc, &items)?;
    let given = given_in(alloc, gtid, &names, &uuids, items)?;
    Ok(Listed { names, given })
}
