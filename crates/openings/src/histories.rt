//! What each server has executed.

ghost use Rattle.std.specs.Prelude.{◌≡◌, ◌+◌, ◌<◌, ◌≤◌, ◌^◌, [], All, IfOk, length, replicate, slice_get, take, vec_capacity, vec_len};
ghost use Rattle.openings.specs.Listed.{joined_by, listed_history, singles, transactions};
ghost use Rattle.openings.specs.Opening.{IsPart};
ghost use Rattle.openings.specs.Servers.{count_at, count_of, history_at, parts_at, parts_of, root_of, sources};
ghost use Rattle.openings.specs.Taking.{CountsOwn, HasSize, PartsInRange};

use crate::orch_base::{Memory, ServerNo, Txn};
use crate::{Part, ServerInit, transactions};
use std::alloc::Global;

/// The number of a server's source.
pub fn source_no(servers: &[ServerInit], n: u32) -> Option<u32>
    ensures { result ≡ sources servers.now n }
{
    let init = servers.get(n as usize)?;
    Some(init.source?.0)
}

// The server at the top of the sources above one. Each is followed once at most.
#[tactic(auto, using(crate::proofs::Chains::root_steps))]
fn root_of(servers: &[ServerInit], n: u32) -> u32
    ensures { result ≡ root_of servers.now n }
{
    let mut at = n;
    for _ in 0..servers.len() {
        match source_no(servers, at) {
            Some(m) => at = m,
            None => return at,
        }
    }
    at
}

/// The parts that are listed of a server.
pub fn parts_of(init: &ServerInit) -> &[Part]
    ensures { result.now ≡ parts_of init.now }
{
    match &init.history {
        Some(parts) => parts.as_slice(),
        None => &[],
    }
}

fn parts_at(servers: &[ServerInit], n: u32) -> &[Part]
    ensures { result.now ≡ parts_at (slice_get servers.now n) }
{
    match servers.get(n as usize) {
        Some(init) => parts_of(init),
        None => &[],
    }
}

/// How many transactions a server has executed.
pub fn count_of(init: &ServerInit) -> u64
    requires { transactions (parts_of init.now) < 2 ^ 64 }
    ensures { result ≡ count_of init.now }
{
    match init.source {
        None => transactions(parts_of(init)),
        Some(_) => init.executed,
    }
}

fn count_at(servers: &[ServerInit], n: u32) -> u64
    requires { PartsInRange servers.now }
    ensures { result ≡ count_at (slice_get servers.now n) }
{
    match servers.get(n as usize) {
        Some(init) => count_of(init),
        None => 0,
    }
}

// So many transactions of a part join the history. The table counts each origin's own.
fn add_part(history: &mut Vec<Txn>, counts: &mut [u64], part: &Part, taken: u64)
    requires origin { part.now.origin.0 < length counts.old }
    requires counts { CountsOwn counts.old history.old.items }
    requires room { vec_len history.old + taken ≤ vec_capacity history.old }
    requires few { vec_len history.old + taken ≤ 4000000 }
    ensures items { history.new.items ≡ joined_by history.old.items
        (replicate taken (part.now.origin, part.now.size)) }
    ensures counts { CountsOwn counts.new history.new.items }
    ensures capacity { vec_capacity history.new ≡ vec_capacity history.old }
{
    for _ in 0..taken {
        let seq = counts[part.origin.0 as usize] + 1;
        counts[part.origin.0 as usize] = seq;
        history.push_reserved(Txn {
            origin: part.origin,
            seq,
            size: part.size,
        });
    }
}

// A number past the origins of these parts, which are of so many servers.
fn past_origins(servers: usize, parts: &[Part]) -> usize
    requires { All (IsPart servers) parts.now }
    ensures { All (IsPart result) parts.now }
{
    let mut past = 0;
    for part in parts {
        past = past.max(part.origin.0 as usize + 1);
    }
    past
}

// The first transactions that these parts list, of so many servers.
fn history_of(
    alloc: Global,
    servers: usize,
    parts: &[Part],
    count: u64,
    room: u64,
) -> Result<Vec<Txn>, Memory>
    requires parts { All (IsPart servers) parts.now }
    requires fits { length (joined_by [] (take count (singles parts.now))) ≤ room }
    requires room { room ≤ 4000000 }
    ensures history { IfOk result (λ v. v.items ≡ joined_by [] (take count (singles parts.now))) }
    ensures room { IfOk result (λ v. room ≤ vec_capacity v) }
{
    let mut history = Vec::with_capacity(alloc, room as usize)?;
    let origins = past_origins(servers, parts);
    let mut counts = vec![in alloc; 0; origins]?;
    let own = counts.as_mut_slice();
    for part in parts {
        let taken = part.count.min(count - history.len() as u64);
        add_part(&mut history, own, part, taken);
    }
    Ok(history)
}

/// What a server has executed, in order, with room for `room` transactions: at most 4,000,000. The time is that of the
/// servers, the parts and the transactions. `Err` means out of memory.
pub fn history_at(
    alloc: Global,
    servers: &[ServerInit],
    n: ServerNo,
    room: u64,
) -> Result<Vec<Txn>, Memory>
    requires parts { PartsInRange servers.now }
    requires fits { length (history_at servers.now n.0) ≤ room }
    requires room { room ≤ 4000000 }
    ensures history { IfOk result (λ v. v.items ≡ history_at servers.now n.0) }
    ensures room { IfOk result (λ v. room ≤ vec_capacity v) }
    ensures sizes { IfOk result (λ v. All HasSize v.items) }
{
    let parts = parts_at(servers, root_of(servers, n.0));
    let count = count_at(servers, n.0);
    history_of(alloc, servers.len(), parts, count, room)
}

/// What a server has executed, in order. The time is that of the servers and of what is listed at the top of its
/// sources. `Err` means out of memory.
pub fn executed_by(alloc: Global, servers: &[ServerInit], n: ServerNo) -> Result<Vec<Txn>, Memory>
    requires { PartsInRange servers.now }
    ensures history { IfOk result (λ v. v.items ≡ history_at servers.now n.0) }
    ensures few { IfOk result (λ v. length v.items ≤ 4000000) }
{
    let listed = transactions(parts_at(servers, root_of(servers, n.0)));
    history_at(alloc, servers, n, listed)
}

/// All that these parts list, of so many servers. `Err` means out of memory.
pub fn listed_history(alloc: Global, servers: usize, parts: &[Part]) -> Result<Vec<Txn>, Memory>
    requires parts { All (IsPart servers) parts.now }
    requires few { transactions parts.now ≤ 4000000 }
    ensures { IfOk result (λ v. v.items ≡ listed_history parts.now) }
{
    let count = transactions(parts);
    history_of(alloc, servers, parts, count, count)
}
