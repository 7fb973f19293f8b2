//! The recoveries that were begun (orchestrator's documentation, "Topology recovery", "Blocking, acknowledgements,
//! anti-flapping").

ghost use Rattle.std.specs.Prelude.{◌≡◌, ◌<◌, ◌≤◌, ◌^◌, ◌+◌, ◌-◌, All, IfOk, IsSomeAnd, OnErr, OnOk, length, map, true, vec_len, vec_capacity};
ghost use Rattle.std.specs.Option.{option_copied};
ghost use Rattle.audit_log.specs.Apart.{MayBegin};
ghost use Rattle.audit_log.specs.Audits.{acked_so, acking, acknowledged, acknowledged_at, begun, closed, closing, count_new, ended, ended_so, finished, finished_so, interrupted, is_unended, last_blocking, may_begin, recovery_at, unended_of, IsAudit, StandsAt};

use crate::Memory;
use crate::held::Held;
use crate::index::Index;
use crate::one::is_unended;
use crate::orch_base::{Ending, Moment};
use crate::walks::{acking, acknowledge_all, blocking_at, count_new, unended_at};
use kept_rows::Recovery;
use std::alloc::Global;
use std::marker::Model;

// Ends a recovery.
fn end_so(recovery: &mut Recovery, at: Moment, outcome: Ending)
    ensures { recovery.new ≡ ended_so at outcome recovery.old }
{
    recovery.ended = Some(at);
    recovery.outcome = outcome;
}

// Acknowledges a recovery.
fn ack_so(recovery: &mut Recovery)
    ensures { recovery.new ≡ acked_so recovery.old }
{
    recovery.acked = true;
}

// Ends a recovery, and acknowledges it if that is asked for.
fn finish_so(recovery: &mut Recovery, at: Moment, outcome: Ending, acked: bool)
    ensures { recovery.new ≡ finished_so at outcome acked recovery.old }
{
    end_so(recovery, at, outcome);
    if acked {
        ack_so(recovery);
    }
}

// Ends a recovery that a restart interrupts.
fn interrupt(recovery: &mut Recovery, at: Moment)
    ensures { recovery.new ≡ interrupted at recovery.old }
{
    if is_unended(recovery) {
        end_so(recovery, at, Ending::Interrupted);
    }
}

fn interrupt_all(recoveries: &mut [Recovery], at: Moment)
    ensures { recoveries.new ≡ map (interrupted at) recoveries.old }
{
    for recovery in recoveries.iter_mut() {
        interrupt(recovery, at);
    }
}

/// The recoveries that were begun, by rising id, and the next id.
#[derive(Drop)]
pub struct Audit {
    recoveries: Vec<Recovery>,
    next: u64,
    index: Index,
}

impl Model for Audit {
    ghost use Rattle.std.specs.Prelude.{◌-◌, vec_capacity, vec_len};
    ghost use Rattle.audit_log.specs.Audits.{AuditRoom, IsAudit};
    ghost use Rattle.audit_log.specs.Index.{IsFound};

    ghost Value = { AuditRoom };

    ghost view = { λ a. record {
      audit = record { recoveries = a.recoveries.items; next = a.next };
      spare = vec_capacity a.recoveries - vec_len a.recoveries;
    } };

    ghost invariant = { λ a.
        IsFound (record { recoveries = a.recoveries.items; next = a.next }) a.index };
}

impl Audit {
    /// The audit of these recoveries, by rising id from 1 on, and of the next id, which is above theirs. Their block
    /// periods are at most 1,000,000,000 seconds. It takes no memory. `index` makes the calls for one cluster fast.
    pub fn make(list: Vec<Recovery>, next: u64) -> Audit
        requires { IsAudit (record { recoveries = list.items; next = next }) }
        ensures { result.audit ≡ record { recoveries = list.items; next = next } }
    {
        let index = Index::none(*list.allocator());
        Audit {
            recoveries: list,
            next,
            index,
        }
    }

    /// Makes the index that finds the recoveries of a cluster. Then the time of a call for a cluster doesn't grow with
    /// other clusters' recoveries, nor with its own that are acknowledged and ended. `Err` means out of memory.
    pub fn index(&mut self, alloc: Global) -> Result<(), Memory>
        ensures { self.new ≡ self.old }
    {
        self.index = Index::of(alloc, &self.recoveries)?;
        Ok(())
    }

    /// The recoveries by rising id.
    pub fn recoveries(&self) -> &[Recovery]
        ensures list { result.now ≡ self.now.audit.recoveries }
        ensures holds { IsAudit self.now.audit }
    {
        &self.recoveries
    }

    /// The id that the next recovery gets.
    pub fn next(&self) -> u64
        ensures { result ≡ self.now.audit.next }
    {
        self.next
    }

    /// The same audit once more. `Err` means out of memory.
    pub fn copy(&self, alloc: Global) -> Result<Audit, Memory>
        ensures { IfOk result (λ a. a.audit ≡ self.now.audit) }
    {
        let mut recoveries = Vec::with_capacity(alloc, self.recoveries.len())?;
        for recovery in &self.recoveries {
            recoveries.push(recovery.copy(alloc)?)?;
        }
        let index = Index::of(alloc, &recoveries)?;
        Ok(Audit {
            recoveries,
            next: self.next,
            index,
        })
    }

    /// The recovery of an id. The time is logarithmic in their number.
    pub fn recovery(&self, id: u64) -> Option<&Recovery>
        ensures { option_copied result ≡ recovery_at self.now.audit id }
    {
        match self.index_of(id) {
            Some(index) => Some(&self.recoveries[index]),
            None => None,
        }
    }

    // The index of the recovery of an id.
    fn index_of(&self, id: u64) -> Option<usize>
        ensures { StandsAt id self.now.audit.recoveries result }
    {
        self.recoveries.binary_search_by_key(&id, |r| r.id).ok()
    }

    // The cluster's recovery that isn't ended.
    fn unended_of(&self, cluster: &str, now: Moment) -> Option<&Recovery>
        ensures { option_copied result ≡ unended_of self.now.audit cluster.now }
    {
        match unended_at(&self.index, &self.recoveries, cluster, now) {
            Some(index) => Some(&self.recoveries[index]),
            None => None,
        }
    }

    // The cluster's last recovery that blocks.
    fn last_blocking(&self, cluster: &str, now: Moment) -> Option<&Recovery>
        ensures { option_copied result ≡ last_blocking self.now.audit cluster.now now.0 }
    {
        match blocking_at(&self.index, &self.recoveries, cluster, now) {
            Some(index) => Some(&self.recoveries[index]),
            None => None,
        }
    }

    /// The id of a recovery of a cluster that begins now. `Unended` names the cluster's recovery that isn't ended. Else
    /// `Blocked` names its last one that isn't acknowledged and began less than its own block period ago. It also has
    /// the first moment at which that one no longer blocks. Moments are at most 2^63. It takes no memory.
    pub fn may_begin(&self, cluster: &str, now: Moment) -> Result<u64, Held>
        requires { All (λ r. r.begun.0 ≤ 2 ^ 63) self.now.audit.recoveries }
        ensures { result ≡ may_begin self.now.audit cluster.now now.0 }
    {
        if let Some(unended) = self.unended_of(cluster, now) {
            return Err(Held::Unended(unended.id));
        }
        match self.last_blocking(cluster, now) {
            Some(last) => Err(Held::Blocked {
                id: last.id,
                until: Moment(last.begun.0 + last.block),
            }),
            None => Ok(self.next),
        }
    }

    /// Makes room for one more recovery. `Err` means out of memory.
    pub fn reserve(&mut self) -> Result<(), Memory>
        ensures ok { OnOk result (1 ≤ self.new.spare) }
        ensures audit { self.new.audit ≡ self.old.audit }
    {
        self.reserve_for(1)
    }

    /// Makes room for so many more recoveries. An audit without any gets its index. `Err` means out of memory.
    pub fn reserve_for(&mut self, count: usize) -> Result<(), Memory>
        ensures ok { OnOk result (count ≤ self.new.spare) }
        ensures audit { self.new.audit ≡ self.old.audit }
    {
        self.recoveries.reserve(count)?;
        if self.recoveries.is_empty() {
            self.index.open()?;
        }
        self.index.reserve(count)
    }

    /// Begins a recovery for which there is room. `may_begin` gave its id, which is below 2^64 - 1, and its block
    /// period is at most 1,000,000,000 seconds. It takes no memory.
    pub fn begin(&mut self, r: Recovery)
        requires spare { 1 ≤ self.old.spare }
        requires may { MayBegin self.old.audit r }
        requires room { r.id < 2 ^ 64 - 1 }
        ensures audit { self.new.audit ≡ begun self.old.audit r }
        ensures spare { self.new.spare + 1 ≡ self.old.spare }
    {
        self.index.enter(&self.recoveries, &r);
        self.next = r.id + 1;
        self.recoveries.push_reserved(r);
    }

    /// Ends the recovery of this id, which isn't ended. It takes no memory, and the time is logarithmic in the number
    /// of recoveries.
    pub fn end(&mut self, id: u64, at: Moment, outcome: Ending)
        requires { IsSomeAnd (recovery_at self.old.audit id) (λ r. is_unended r ≡ true) }
        ensures { self.new ≡ record self.old { audit = ended self.old.audit id at outcome } }
    {
        if let Some(index) = self.index_of(id) {
            end_so(&mut self.recoveries[index], at, outcome);
        }
    }

    /// Ends the recovery of this id, which isn't ended, and acknowledges it if that is asked for. It takes no memory,
    /// and the time is logarithmic in the number of recoveries.
    pub fn finish(&mut self, id: u64, at: Moment, outcome: Ending, acked: bool)
        requires { IsSomeAnd (recovery_at self.old.audit id) (λ r. is_unended r ≡ true) }
        ensures { self.new
            ≡ record self.old { audit = finished self.old.audit id at outcome acked } }
    {
        if let Some(index) = self.index_of(id) {
            finish_so(&mut self.recoveries[index], at, outcome, acked);
        }
    }

    /// Acknowledges the recovery of this id, if there is one. It takes no memory, and the time is logarithmic in the
    /// number of recoveries.
    pub fn acknowledge(&mut self, id: u64)
        ensures { self.new ≡ record self.old { audit = acknowledged_at self.old.audit id } }
    {
        if let Some(index) = self.index_of(id) {
            ack_so(&mut self.recoveries[index]);
        }
    }

    /// Acknowledges all recoveries of a cluster, and gives how many weren't acknowledged. It takes no memory.
    pub fn ack(&mut self, cluster: &str) -> u64
        ensures count { result ≡ count_new self.old.audit cluster.now }
        ensures after { self.new ≡
            record self.old { audit = acknowledged self.old.audit cluster.now } }
    {
        let count = acknowledge_all(&self.index, &mut self.recoveries, cluster);
        self.index.settle(&self.recoveries, cluster);
        count
    }

    /// How many recoveries of a cluster aren't acknowledged.
    pub fn count_new(&self, cluster: &str) -> u64
        ensures { result ≡ count_new self.now.audit cluster.now }
    {
        count_new(&self.index, &self.recoveries, cluster)
    }

    /// The recoveries that `ack` would change, as they would be then, by rising id. `Err` means out of memory.
    pub fn acking(&self, alloc: Global, cluster: &str) -> Result<Vec<Recovery>, Memory>
        ensures { IfOk result (λ list. list.items ≡ acking self.now.audit cluster.now) }
    {
        acking(&self.index, alloc, &self.recoveries, cluster)
    }

    /// The recoveries that `close` would change, as they would be then, by rising id. `Err` means out of memory.
    pub fn closing(&self, alloc: Global, at: Moment) -> Result<Vec<Recovery>, Memory>
        ensures { IfOk result (λ list. list.items ≡ closing self.now.audit at) }
    {
        let mut list = Vec::new(alloc);
        for recovery in &self.recoveries {
            if is_unended(recovery) {
                let mut closed = recovery.copy(alloc)?;
                interrupt(&mut closed, at);
                list.push(closed)?;
            }
        }
        Ok(list)
    }

    /// Ends each unended recovery as interrupted, as a restart does. It takes no memory.
    pub fn close(&mut self, at: Moment)
        ensures { self.new ≡ record self.old { audit = closed self.old.audit at } }
    {
        interrupt_all(&mut self.recoveries, at);
        self.index.renew(&self.recoveries);
    }
}
