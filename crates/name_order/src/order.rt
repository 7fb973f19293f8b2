//! The order of servers by name.

ghost use Rattle.std.specs.Prelude.{◌≡◌, ◌<◌, ◌^◌, All, IfOk, length, map};
ghost use Rattle.std.specs.List.{enumerate_from};
ghost use Rattle.name_order.specs.NameOrder.{by_name, order_of, ranks_of, IsOrder};

use crate::Memory;
use orch_base::{Name, ServerNo};
use std::alloc::Global;
use std::cmp::Ordering;

// Each server by its number and its name.
fn numbered(alloc: Global, names: &[Name]) -> Result<Vec<(u32, &Name)>, Memory>
    requires { length names.now < 2 ^ 32 }
    ensures { IfOk result (λ servers. map (λ s. (s.0, s.1.now)) servers.items
        ≡ enumerate_from 0 names.now) }
{
    let mut servers = Vec::with_capacity(alloc, names.len())?;
    for (no, name) in names.iter().enumerate() {
        servers.push((no as u32, name))?;
    }
    Ok(servers)
}

fn compare(one: &(u32, &Name), other: &(u32, &Name)) -> Ordering
    ensures { result ≡ order_of (one.now.0, one.now.1.now) (other.now.0, other.now.1.now) }
{
    one.1.compare(other.1).then(one.0.cmp(&other.0))
}

fn numbers_of(alloc: Global, servers: &[(u32, &Name)]) -> Result<Vec<ServerNo>, Memory>
    ensures { IfOk result (λ numbers. numbers.items ≡ map (λ s. record { 0 = s.0 }) servers.now) }
{
    let mut numbers = Vec::with_capacity(alloc, servers.len())?;
    for server in servers {
        numbers.push(ServerNo(server.0))?;
    }
    Ok(numbers)
}

/// The servers' numbers in the order of their names: by the host's bytes, then by the port. Of equal names the lower
/// number comes first. `names` has each name at its server's number. There are at most 2^32 - 1. The time is that of
/// std's sort. `Err` means out of memory.
pub fn in_name_order(alloc: Global, names: &[Name]) -> Result<Vec<ServerNo>, Memory>
    requires { length names.now < 2 ^ 32 }
    ensures order { IfOk result (λ order. order.items ≡ by_name names.now) }
    ensures count { IfOk result (λ order. length order.items ≡ length names.now) }
    ensures once { IfOk result (λ order. IsOrder order.items) }
    ensures within { IfOk result (λ order. All (λ server. server.0 < length names.now)
        order.items) }
{
    let mut servers = numbered(alloc, names)?;
    servers.sort_by(|one, other| compare(one, other))?;
    numbers_of(alloc, &servers)
}

/// The place of each server in the order of the names, by the servers' numbers; `order` is that order. `Err` means out
/// of memory.
pub fn ranks(alloc: Global, order: &[ServerNo]) -> Result<Vec<u32>, Memory>
    requires few { length order.now < 2 ^ 32 }
    requires order { IsOrder order.now }
    ensures { IfOk result (λ ranks. ranks.items ≡ ranks_of order.now) }
{
    let mut ranks = vec![in alloc; 0; order.len()]?;
    for (rank, no) in order.iter().enumerate() {
        ranks[no.0 as usize] = rank as u32;
    }
    Ok(ranks)
}
