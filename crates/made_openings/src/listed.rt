//! Whether servers are within the limits of an opening.

ghost use Rattle.std.specs.Prelude.{◌≡◌, ◌<◌, ◌≤◌, ℕ, ◌*◌, All, IfSome, IsTrue, None, Some, length, slice_get, sum_by};
ghost use Rattle.openings.specs.Listed.{transactions};
ghost use Rattle.openings.specs.Opening.{opening, IsAlone, IsListed, IsPart, IsServer};
ghost use Rattle.openings.specs.Servers.{parts_of};
ghost use Rattle.openings.specs.Apart.{IsApart};
ghost use Rattle.orch_base.specs.declared.server.ServerNo.{ServerNo};
ghost use Rattle.made_openings.specs.Limits.{AreApart, AreServers};

use openings::{Part, ServerInit, parts_of};

const MOST: u64 = 4_000_000;

fn is_part(servers: usize, part: &Part) -> bool
    ensures { IsTrue result → IsPart servers part.now }
{
    (part.origin.0 as usize) < servers
        && (1 <= part.size && part.size <= 1_000_000)
        && (1 <= part.count && part.count <= MOST)
}

fn are_parts(servers: usize, parts: &[Part]) -> bool
    ensures { IsTrue result → All (IsPart servers) parts.now }
{
    for part in parts {
        if !is_part(servers, part) {
            return false;
        }
    }
    true
}

fn is_alone(init: &ServerInit) -> bool
    ensures { IsTrue result → IsAlone init.now }
{
    init.executed == 0
        && (init.at.is_none() && init.read.is_none() && init.until.is_none())
        && (!init.auto && !init.detached)
}

fn has_source(servers: usize, init: &ServerInit) -> bool
    ensures source { IsTrue result → (m : ServerNo) → init.now.source ≡ Some m → m.0 < servers }
    ensures alone { IsTrue result → init.now.source ≡ None → IsAlone init.now }
{
    match init.source {
        Some(m) => (m.0 as usize) < servers,
        None => is_alone(init),
    }
}

fn is_server(servers: usize, gtid: bool, init: &ServerInit) -> bool
    ensures { IsTrue result → IsServer servers gtid init.now }
{
    (100 <= init.settings.limit && init.settings.limit <= 1_073_741_824)
        && (init.flushes.as_slice().len() <= 1_000_000 && 1 <= init.purged)
        && (!init.auto || gtid)
        && has_source(servers, init)
        && are_parts(servers, parts_of(init))
}

/// Whether each server's numbers are in their ranges, with a source that is one of the servers.
pub fn are_servers(servers: &[ServerInit], gtid: bool) -> bool
    ensures { IsTrue result → AreServers gtid servers.now }
{
    for server in servers {
        if !is_server(servers.len(), gtid, server) {
            return false;
        }
    }
    true
}

fn is_apart(init: &ServerInit, other: &ServerInit) -> bool
    ensures { IsTrue result → IsApart init.now other.now }
{
    !init.settings.name.is_same(&other.settings.name) && init.settings.uuid != other.settings.uuid
}

fn is_apart_from(servers: &[ServerInit], init: &ServerInit, n: usize) -> bool
    requires { n ≤ length servers.now }
    ensures { IsTrue result → (m : ℕ) (i : ServerInit) → m < n → slice_get servers.now m ≡ Some i
        → IsApart i init.now }
{
    for m in 0..n {
        if !is_apart(&servers[m], init) {
            return false;
        }
    }
    true
}

/// Whether each two servers have different names and UUIDs. The time is that of the servers, squared.
pub fn are_apart(servers: &[ServerInit]) -> bool
    ensures { IsTrue result → AreApart servers.now }
{
    for (n, init) in servers.iter().enumerate() {
        if !is_apart_from(servers, init, n) {
            return false;
        }
    }
    true
}

fn count(parts: &[Part]) -> Option<u64>
    ensures { IfSome result (λ n. n ≡ transactions parts.now) }
{
    let mut count: u64 = 0;
    for part in parts {
        count = count.checked_add(part.count)?;
    }
    Some(count)
}

fn count_all(servers: &[ServerInit]) -> Option<u64>
    ensures { IfSome result (λ n. n ≡ sum_by (λ i. transactions (parts_of i)) servers.now) }
{
    let mut all: u64 = 0;
    for server in servers {
        all = all.checked_add(count(parts_of(server))?)?;
    }
    Some(all)
}

fn are_few(servers: &[ServerInit]) -> bool
    ensures { IsTrue result
        → length servers.now * sum_by (λ i. transactions (parts_of i)) servers.now ≤ 4000000 }
{
    match count_all(servers) {
        Some(all) => match all.checked_mul(servers.len() as u64) {
            Some(product) => product <= MOST,
            None => false,
        },
        None => false,
    }
}

/// Whether the servers are 1 to 1,000 of different names and UUIDs, each with its numbers in their ranges. Also whether
/// their number times the listed transactions is at most 4,000,000. The time is that of the servers, squared.
pub fn are_listed(servers: &[ServerInit], gtid: bool) -> bool
    ensures { IsTrue result → IsListed (opening servers.now gtid) }
{
    if servers.is_empty() || servers.len() > 1000 {
        return false;
    }
    if !are_few(servers) || !are_servers(servers, gtid) {
        return false;
    }
    are_apart(servers)
}
