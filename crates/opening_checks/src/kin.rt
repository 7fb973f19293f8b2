//! Whether listed histories agree.

ghost use Rattle.std.specs.Prelude.{◌≡◌, ◌+◌, ◌<◌, ◌≤◌, [], All, IfOk, None, Some, true, drop, is_none, length, replicate, slice_get};
ghost use Rattle.opening_checks.specs.Prelude.{NotKin, PartsInRange, count_own, first_met, history_at, is_kin, links, list_all, listed_history};
ghost use Rattle.opening_checks.specs.Prelude.{not_kin, parts_of};
ghost use Rattle.opening_checks.specs.Checks.{server_of, IsToBlame};
ghost use Rattle.opening_checks.specs.KinTable.{agrees_throughout, is_counted, lists_any, with_link, with_links, CountsHome, IsOfServers, IsTable};

use crate::fault::FlawedValue;
use crate::kin_row::{Link, Row};
use crate::orch_base::{Memory, ServerNo, Txn};
use openings::{ServerInit, executed_by, listed_history, parts_of};
use std::alloc::Global;

// How many transactions of its own a server has executed.
fn own_count(alloc: Global, servers: &[ServerInit], n: ServerNo) -> Result<u64, Memory>
    requires { PartsInRange servers.now }
    ensures { IfOk result (λ count. count ≡ count_own n.0 (history_at servers.now n.0)) }
{
    let history = executed_by(alloc, servers, n)?;
    Ok(count_own(n, &history))
}

fn count_own(origin: ServerNo, history: &[Txn]) -> u64
    ensures { result ≡ count_own origin.0 history.now }
{
    history.iter().filter(|t| t.origin.0 == origin.0).count() as u64
}

fn own_counts(alloc: Global, servers: &[ServerInit]) -> Result<Vec<u64>, Memory>
    requires parts { PartsInRange servers.now }
    requires few { length servers.now ≤ 1000 }
    ensures { IfOk result (λ own. CountsHome servers.now own.items) }
{
    let mut own = Vec::with_capacity(alloc, servers.len())?;
    for n in 0..servers.len() as u32 {
        own.push(own_count(alloc, servers, ServerNo(n))?)?;
    }
    Ok(own)
}

fn is_counted(own: &[u64], t: &Txn) -> bool
    ensures { result ≡ is_counted own.now t.now }
{
    t.seq <= own.get(t.origin.0 as usize).copied().unwrap_or(0)
}

fn are_counted(own: &[u64], history: &[Txn]) -> bool
    ensures { result ≡ list_all (is_counted own.now) history.now }
{
    history.iter().all(|t| is_counted(own, t))
}

// Whether the table agrees with each transaction of a history.
fn agrees_throughout(rows: &[Row], history: &[Txn]) -> bool
    requires { All (IsOfServers (length rows.now)) history.now }
    ensures { result ≡ agrees_throughout rows.now history.now }
{
    let mut before = None;
    for t in history {
        let row = &rows[t.origin.0 as usize];
        if !row.agrees(
            t.seq,
            Link {
                before,
                size: t.size,
            },
        ) {
            return false;
        }
        before = Some(*t);
    }
    true
}

fn add_link(rows: &mut [Row], before: Option<Txn>, t: Txn) -> Result<(), Memory>
    requires { t.origin.0 < length rows.old }
    ensures { IfOk result (λ _. rows.new ≡ with_link rows.old (before, t)) }
{
    let row = &mut rows[t.origin.0 as usize];
    row.take(
        t.seq,
        Link {
            before,
            size: t.size,
        },
    )
}

// The transactions of a history join the table.
fn add_links(rows: &mut [Row], history: &[Txn]) -> Result<(), Memory>
    requires { All (IsOfServers (length rows.old)) history.now }
    ensures { IfOk result (λ _. rows.new ≡ with_links rows.old (links history.now)) }
{
    let mut before = None;
    for t in history {
        add_link(rows, before, *t)?;
        before = Some(*t);
    }
    Ok(())
}

fn empty_rows(alloc: Global, count: usize) -> Result<Vec<Row>, Memory>
    ensures { IfOk result (λ rows. rows.items ≡ replicate count []) }
{
    let mut rows = Vec::with_capacity(alloc, count)?;
    for _ in 0..count {
        rows.push(Row::new(alloc))?;
    }
    Ok(rows)
}

// Whether a server may list a history: it has no source.
fn is_root(init: &ServerInit) -> bool
    ensures { result ≡ is_none init.now.source }
{
    match init.source {
        None => true,
        Some(_) => false,
    }
}

// Whether a server after this one may list a history.
fn lists_more(servers: &[ServerInit], n: usize) -> bool
    requires { n < length servers.now }
    ensures { result ≡ lists_any (drop (n + 1) servers.now) }
{
    servers.iter().skip(n + 1).any(|init| is_root(init))
}

// Whether what server n lists agrees with what the servers before it list. If so, it joins the table, if more is to
// come.
fn take_root(
    alloc: Global,
    servers: &[ServerInit],
    n: u32,
    init: &ServerInit,
    own: &[u64],
    rows: &mut [Row],
    more: bool,
) -> Result<bool, Memory>
    requires parts { PartsInRange servers.now }
    requires at { slice_get servers.now n ≡ Some init.now }
    requires root { init.now.source ≡ None }
    requires own { CountsHome servers.now own.now }
    requires table { IsTable servers.now n rows.old }
    ensures kin { IfOk result (λ b. b ≡ is_kin servers.now n (listed_history (parts_of init.now))) }
    ensures table { IfOk result (λ b. b ≡ true → more ≡ true
        → IsTable servers.now (n + 1) rows.new) }
{
    let history = listed_history(alloc, servers.len(), parts_of(init))?;
    let listed = history.as_slice();
    if !agrees_throughout(rows, listed) || !are_counted(own, listed) {
        return Ok(false);
    }
    if !more {
        return Ok(true);
    }
    add_links(rows, listed)?;
    Ok(true)
}

// The first server whose listed history doesn't agree with those before it. The history is to blame.
pub(crate) fn first_not_kin(
    alloc: Global,
    servers: &[ServerInit],
) -> Result<Option<(ServerNo, FlawedValue)>, Memory>
    requires parts { PartsInRange servers.now }
    requires few { length servers.now ≤ 1000 }
    ensures met { IfOk result (λ f. server_of f ≡ first_met (not_kin servers.now) 0 servers.now) }
    ensures value { IfOk result (IsToBlame servers.now NotKin) }
{
    let own = own_counts(alloc, servers)?;
    let mut rows = empty_rows(alloc, servers.len())?;
    let table = rows.as_mut_slice();
    for (n, init) in servers.iter().enumerate() {
        if init.source.is_none() {
            let more = lists_more(servers, n);
            let is_kin = take_root(alloc, servers, n as u32, init, &own, table, more)?;
            if !is_kin {
                return Ok(Some((ServerNo(n as u32), FlawedValue::History)));
            }
        }
    }
    Ok(None)
}
