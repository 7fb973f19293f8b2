//! Histories and flush points.

ghost use Rattle.std.specs.Prelude.{◌≡◌, nat_le};
ghost use Rattle.scenario_servers.specs.Prelude.{BadNumber, Gives, each, fault_of, holds, item_count, items_view, number_in, under_item, view};
ghost use Rattle.scenario_servers.specs.Prelude.{whole_in};
ghost use Rattle.scenario_servers.specs.Names.{server_named};
ghost use Rattle.scenario_servers.specs.Servers.{three_of, part_in, history_in, flushes_in};

use crate::names::{Names, server_named};
use crate::orch_base::ServerNo;
use openings::{Counts, Part, Parts};
use scenario_values::{
    FaultCode, ReadFault, fails, holds, items_in, number_in, under_item, whole_in,
};
use serde_json::Value;
use std::alloc::Global;

fn three_of(alloc: Global, items: &[Value]) -> Result<(&Value, &Value, &Value), ReadFault>
    ensures { Gives (λ t. (view t.0.now, view t.1.now, view t.2.now)) fault_of result
        (three_of (items_view items.now)) }
{
    if items.len() != 3 {
        return Err(fails(alloc, FaultCode::BadNumber));
    }
    Ok((&items[0], &items[1], &items[2]))
}

#[tactic(auto, using(scenario_values::proofs::Unders::gives_under))]
fn origin_at(alloc: Global, names: &Names, value: &Value) -> Result<ServerNo, ReadFault>
    ensures { Gives (λ n. n) fault_of result
        (under_item 0 (server_named names.now (view value.now))) }
{
    under_item(alloc, 0, server_named(alloc, names, value))
}

fn size_in(alloc: Global, value: &Value) -> Result<u32, ReadFault>
    ensures { Gives (λ n. n) fault_of result (number_in 1 1000000 (view value.now)) }
{
    let size = number_in(alloc, 1, 1_000_000, value)?;
    Ok(size as u32)
}

#[tactic(auto, using(scenario_values::proofs::Unders::gives_under))]
fn size_at(alloc: Global, value: &Value) -> Result<u32, ReadFault>
    ensures { Gives (λ n. n) fault_of result (under_item 1 (number_in 1 1000000 (view value.now))) }
{
    under_item(alloc, 1, size_in(alloc, value))
}

#[tactic(auto, using(scenario_values::proofs::Unders::gives_under))]
fn count_at(alloc: Global, value: &Value) -> Result<u64, ReadFault>
    ensures { Gives (λ n. n) fault_of result (under_item 2 (number_in 1 4000000 (view value.now))) }
{
    under_item(alloc, 2, number_in(alloc, 1, 4_000_000, value))
}

#[tactic(auto, unfolding(crate::specs::Servers::part_in))]
fn part_in(alloc: Global, names: &Names, value: &Value) -> Result<Part, ReadFault>
    ensures { Gives (λ p. p) fault_of result (part_in names.now (view value.now)) }
{
    let items = items_in(alloc, value)?;
    let (origin, size, count) = three_of(alloc, items)?;
    let origin = origin_at(alloc, names, origin)?;
    let size = size_at(alloc, size)?;
    let count = count_at(alloc, count)?;
    Ok(Part {
        origin,
        size,
        count,
    })
}

#[tactic(auto, using(scenario_values::proofs::Unders::gives_under))]
fn part_at(alloc: Global, names: &Names, number: usize, value: &Value) -> Result<Part, ReadFault>
    ensures { Gives (λ p. p) fault_of result
        (under_item number (part_in names.now (view value.now))) }
{
    under_item(alloc, number, part_in(alloc, names, value))
}

fn parts_in(alloc: Global, names: &Names, items: &[Value]) -> Result<Vec<Part>, ReadFault>
    ensures { Gives (λ v. v.items) fault_of result
        (each (part_in names.now) (items_view items.now)) }
{
    let mut parts = Vec::with_capacity(alloc, items.len())?;
    for (number, value) in items.iter().enumerate() {
        parts.push(part_at(alloc, names, number, value)?)?;
    }
    Ok(parts)
}

/// A history: a list of [origin, size, count].
#[tactic(auto, unfolding(crate::specs::Servers::history_in))]
pub(crate) fn history_in(alloc: Global, names: &Names, value: &Value) -> Result<Parts, ReadFault>
    ensures { Gives (λ p. p) fault_of result (history_in names.now (view value.now)) }
{
    let items = items_in(alloc, value)?;
    let parts = parts_in(alloc, names, items)?;
    Ok(Parts::new(parts))
}

#[tactic(auto, using(scenario_values::proofs::Unders::gives_under))]
fn flush_at(alloc: Global, number: usize, value: &Value) -> Result<u64, ReadFault>
    ensures { Gives (λ n. n) fault_of result (under_item number (whole_in (view value.now))) }
{
    under_item(alloc, number, whole_in(alloc, value))
}

fn flush_list(alloc: Global, items: &[Value]) -> Result<Vec<u64>, ReadFault>
    ensures { Gives (λ v. v.items) fault_of result (each whole_in (items_view items.now)) }
{
    let mut counts = Vec::with_capacity(alloc, items.len())?;
    for (number, value) in items.iter().enumerate() {
        counts.push(flush_at(alloc, number, value)?)?;
    }
    Ok(counts)
}

#[tactic(auto, using(scenario_values::proofs::Each::item_count_view))]
fn few_flushes(alloc: Global, items: &[Value]) -> Result<(), ReadFault>
    ensures { Gives (λ _. tt) fault_of result
        (holds BadNumber (nat_le (item_count (items_view items.now)) 1000000)) }
{
    holds(alloc, FaultCode::BadNumber, items.len() <= 1_000_000)
}

/// Flush points: at most 1,000,000 counts.
#[tactic(auto, unfolding(crate::specs::Servers::flushes_in))]
pub(crate) fn flushes_in(alloc: Global, value: &Value) -> Result<Counts, ReadFault>
    ensures { Gives (λ c. c) fault_of result (flushes_in (view value.now)) }
{
    let items = items_in(alloc, value)?;
    few_flushes(alloc, items)?;
    let counts = flush_list(alloc, items)?;
    Ok(Counts::new(counts))
}
