//! The recoveries of a cluster are walked from the last one down.

ghost use Rattle.std.specs.Prelude.{◌≡◌, ◌&&◌, ◌≤◌, ◌<◌, ◌++◌, ◌∷◌, [], count_by, filter, if◌then◌else◌, map, length, IfOk, OnOk};
ghost use Rattle.audit_log.specs.Audits.{acknowledged_for, is_blocking, is_new, is_of, is_unended};
ghost use Rattle.audit_log.specs.Index.{IsFirst, IsIndex, IsLast};

use crate::Memory;
use crate::index::Index;
use crate::one::{is_blocking, is_new, is_unended};
use crate::orch_base::Moment;
use kept_rows::Recovery;
use std::alloc::Global;

// A place if something holds there, else the one that was noted before.
fn noted(before: Option<usize>, i: usize, holds: bool) -> Option<usize>
    ensures { result ≡ (if holds then Some i else before) }
{
    if holds { Some(i) } else { before }
}

/// The place of the first recovery of a cluster that isn't ended.
pub(crate) fn unended_at(
    index: &Index,
    recoveries: &[Recovery],
    cluster: &str,
    now: Moment,
) -> Option<usize>
    requires { IsIndex recoveries.now index.now }
    ensures { IsFirst (λ r. is_of cluster.now r && is_unended r) recoveries.now result }
{
    let mut first = None;
    let mut at = index.last(recoveries, cluster);
    while let Some(i) = at {
        first = noted(first, i, is_unended(&recoveries[i]));
        at = index.earlier(recoveries, cluster, now, i);
    }
    first
}

/// The place of the last recovery of a cluster that blocks others at a moment.
pub(crate) fn blocking_at(
    index: &Index,
    recoveries: &[Recovery],
    cluster: &str,
    now: Moment,
) -> Option<usize>
    requires { IsIndex recoveries.now index.now }
    ensures { IsLast (λ r. is_of cluster.now r && is_blocking now.0 r) recoveries.now result }
{
    let mut at = index.last(recoveries, cluster);
    while let Some(i) = at {
        if is_blocking(&recoveries[i], now) {
            return Some(i);
        }
        at = index.earlier(recoveries, cluster, now, i);
    }
    None
}

fn counted(recovery: &Recovery, cluster: &str) -> u64
    ensures { result ≡ (if is_new cluster.now recovery.now then 1 else 0) }
{
    if is_new(recovery, cluster) { 1 } else { 0 }
}

/// How many recoveries of a cluster aren't acknowledged.
pub(crate) fn count_new(index: &Index, recoveries: &[Recovery], cluster: &str) -> u64
    requires { IsIndex recoveries.now index.now }
    ensures { result ≡ count_by (is_new cluster.now) recoveries.now }
{
    let mut count = 0;
    let mut at = index.last(recoveries, cluster);
    while let Some(i) = at {
        count += counted(&recoveries[i], cluster);
        at = index.previous(recoveries, cluster, i);
    }
    count
}

// A recovery as it is once it is acknowledged.
fn acked(alloc: Global, recovery: &Recovery, cluster: &str) -> Result<Recovery, Memory>
    ensures { IfOk result (λ r. r ≡ acknowledged_for cluster.now recovery.now) }
{
    let mut acked = recovery.copy(alloc)?;
    acknowledge(&mut acked, cluster);
    Ok(acked)
}

// Appends a recovery that isn't acknowledged, as it is once it is.
fn push_new(
    alloc: Global,
    list: &mut Vec<Recovery>,
    recovery: &Recovery,
    cluster: &str,
) -> Result<(), Memory>
    ensures { OnOk result (list.new.items ≡ list.old.items
        ++ (if is_new cluster.now recovery.now then acknowledged_for cluster.now recovery.now ∷ []
        else [])) }
{
    if is_new(recovery, cluster) {
        list.push(acked(alloc, recovery, cluster)?)?;
    }
    Ok(())
}

/// The recoveries of a cluster that aren't acknowledged, as they are once they are, by rising id. `Err` means out
/// of memory.
pub(crate) fn acking(
    index: &Index,
    alloc: Global,
    recoveries: &[Recovery],
    cluster: &str,
) -> Result<Vec<Recovery>, Memory>
    requires { IsIndex recoveries.now index.now }
    ensures { IfOk result (λ list. list.items
        ≡ map (acknowledged_for cluster.now) (filter (is_new cluster.now) recoveries.now)) }
{
    let mut list = Vec::new(alloc);
    let mut at = index.last(recoveries, cluster);
    while let Some(i) = at {
        push_new(alloc, &mut list, &recoveries[i], cluster)?;
        at = index.previous(recoveries, cluster, i);
    }
    list.reverse();
    Ok(list)
}

// Acknowledges a recovery of the cluster, and counts it if it wasn't acknowledged before.
fn acknowledge(recovery: &mut Recovery, cluster: &str) -> u64
    ensures after { recovery.new ≡ acknowledged_for cluster.now recovery.old }
    ensures count { result ≡ (if is_new cluster.now recovery.old then 1 else 0) }
{
    if is_new(recovery, cluster) {
        recovery.acked = true;
        1
    } else {
        0
    }
}

/// Acknowledges all recoveries of a cluster, and counts those that weren't acknowledged.
pub(crate) fn acknowledge_all(index: &Index, recoveries: &mut [Recovery], cluster: &str) -> u64
    requires { IsIndex recoveries.old index.now }
    ensures after { recoveries.new ≡ map (acknowledged_for cluster.now) recoveries.old }
    ensures count { result ≡ count_by (is_new cluster.now) recoveries.old }
    ensures index { IsIndex recoveries.new index.now }
{
    let mut count = 0;
    let mut at = index.last(recoveries, cluster);
    while let Some(i) = at {
        count += acknowledge(&mut recoveries[i], cluster);
        at = index.previous(recoveries, cluster, i);
    }
    count
}
