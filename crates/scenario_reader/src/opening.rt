//! The opening that the servers make.

ghost use Rattle.std.specs.Prelude.{◌≡◌, ◌^◌, ◌-◌, length, min};
ghost use Rattle.scenario_reader.specs.Prelude.{Gives, IsGiven, fault_of, transactions};
ghost use Rattle.scenario_reader.specs.ReadOpenings.{is_small, listed_count, opening_in};

use crate::flaws::flawed;
use crate::openings::{Opening, Part, ServerInit, parts_of};
use opening_checks::{CheckedOpening, OpeningFault};
use scenario_values::{FaultCode, ReadFault, fails};
use std::alloc::Global;

const MOST: u64 = 4_000_000;

// How many transactions the parts have, up to the largest number.
fn listed(parts: &[Part]) -> u64
    ensures { result ≡ min (transactions parts.now) (2 ^ 64 - 1) }
{
    let mut count: u64 = 0;
    for part in parts {
        count = count.saturating_add(part.count);
    }
    count
}

/// How many transactions the servers list, up to 2^64 - 1.
pub fn listed_count(servers: &[ServerInit]) -> u64
    ensures { result ≡ min (listed_count servers.now) (2 ^ 64 - 1) }
{
    let mut count: u64 = 0;
    for server in servers {
        count = count.saturating_add(listed(parts_of(server)));
    }
    count
}

fn is_small(servers: &[ServerInit]) -> bool
    ensures { result ≡ is_small (length servers.now) (listed_count servers.now) }
{
    match listed_count(servers).checked_mul(servers.len() as u64) {
        Some(product) => product <= MOST,
        None => false,
    }
}

/// The opening of these servers. They are refused if their number times the transactions that they list passes
/// 4,000,000, and else for their first flaw, with its place in the text. The time is that of `Opening::check`.
#[tactic(auto, unfolding(crate::specs::ReadOpenings::opening_in))]
pub fn opening_in(alloc: Global, servers: Vec<ServerInit>, gtid: bool) -> Result<Opening, ReadFault>
    requires { IsGiven gtid servers.items }
    ensures { Gives (λ o. o) fault_of result (opening_in servers.items gtid) }
{
    if !is_small(&servers) {
        return Err(fails(alloc, FaultCode::TooLarge));
    }
    match Opening::check(alloc, servers, gtid) {
        Ok(opening) => Ok(opening),
        Err(OpeningFault::Memory) => Err(ReadFault::Memory),
        Err(OpeningFault::Flawed(flaw, n, value)) => flawed(alloc, flaw, n, value),
    }
}
