//! Sets of GTIDs that grow in reserved room.

ghost use Rattle.std.specs.Prelude.{◌≡◌, ℕ, ◌+◌, ◌^◌, ◌<◌, ◌≤◌, ◌||◌, ◌&&◌, ◌==◌, [], not, length, drop, vec_len, vec_capacity, All, IfOk, List};
ghost use Rattle.gtid_sets.specs.declared.interval.Interval.{Interval as AnInterval};
ghost use Rattle.gtid_sets.specs.Adding.{single, touches_first, with_pair};
ghost use Rattle.gtid_sets.specs.Sets.{holds, largest, IsInterval, IsSet};

use crate::interval::{Gtid, Interval};
use crate::set::{first_reaching, is_in};
use crate::{GtidSet, Memory};
use std::alloc::Global;
use std::marker::Model;

/// A set of GTIDs with room for so many intervals, so that a GTID is added without memory.
pub struct ReservedSet {
    intervals: Vec<Interval>,
    room: u64,
    // The same set, shared by its copies. None if it isn't made.
    shared: Option<GtidSet>,
}

impl Drop for ReservedSet {
    fn drop(self) {
        let ReservedSet {
            intervals: _intervals,
            room: _,
            shared: _shared,
        } = self;
    }
}

impl Model for ReservedSet {
    ghost use Rattle.gtid_sets.specs.Reserved.{Reserved};

    ghost Value = { Reserved };

    ghost use Rattle.gtid_sets.specs.ReservedBy.{reserved_of, IsReserved};

    ghost view = { reserved_of };

    ghost invariant = { IsReserved };
}

impl ReservedSet {
    /// The empty set, with room for so many intervals. `Err` means out of memory.
    pub fn with_room(alloc: Global, room: u64) -> Result<ReservedSet, Memory>
        ensures { IfOk result (λ s. s ≡ record { intervals = []; room = room }) }
    {
        let intervals = Vec::with_capacity(alloc, room as usize)?;
        Ok(ReservedSet {
            intervals,
            room,
            shared: None,
        })
    }

    /// Whether the GTID of this UUID and number is in the set. It takes no memory, and searches by halves.
    pub fn contains(&self, uuid: u128, n: u64) -> bool
        ensures { result ≡ holds self.now.intervals uuid n }
    {
        is_in(&self.intervals, Gtid { uuid, n })
    }

    /// The same set, without the room: nothing is copied from `settle` on until a GTID is added. `Err` means out of
    /// memory.
    pub fn copy(&self, alloc: Global) -> Result<GtidSet, Memory>
        ensures { IfOk result (λ copy. copy ≡ self.now.intervals) }
    {
        match &self.shared {
            Some(shared) => shared.copy(),
            None => GtidSet::of_intervals(alloc, &self.intervals),
        }
    }

    /// Makes the set that copies share, if there is none. `Err` means out of memory.
    pub fn settle(&mut self, alloc: Global) -> Result<(), Memory>
        ensures { self.new ≡ self.old }
    {
        if self.shared.is_none() {
            self.shared = Some(GtidSet::of_intervals(alloc, &self.intervals)?);
        }
        Ok(())
    }

    /// The GTIDs that are in this set and not in the other. It takes time in the number of their intervals. `Err` means
    /// out of memory.
    pub fn minus(&self, alloc: Global, other: &GtidSet) -> Result<GtidSet, Memory>
        ensures rest { IfOk result (λ rest. (uuid n : ℕ)
            → holds rest uuid n
            ≡ (holds self.now.intervals uuid n && not (holds other.now uuid n))) }
        ensures sets { IfOk result (λ rest. IsSet self.now.intervals × IsSet rest) }
    {
        self.copy(alloc)?.minus(other)
    }

    /// Adds a GTID, `n` from 1 to `LARGEST`. It takes no memory.
    pub fn add(&mut self, uuid: u128, n: u64)
        requires above_zero { 1 ≤ n }
        requires in_range { n ≤ largest }
        requires room { length self.old.intervals < self.old.room }
        ensures { self.new ≡ record self.old { intervals = with_pair uuid n self.old.intervals } }
    {
        self.shared = None;
        insert_gtid(&mut self.intervals, Gtid { uuid, n });
    }
}

// Whether the interval touches the one at this place, if there is one.
fn touches_at(whole: &Interval, intervals: &[Interval], at: usize) -> bool
    requires whole { IsInterval whole.now }
    requires each { All IsInterval intervals.now }
    ensures { result ≡ touches_first whole.now (drop at intervals.now) }
{
    match intervals.get(at) {
        None => false,
        Some(next) => whole.touches(next),
    }
}

// Puts a GTID into a set's intervals, which have room for one more.
fn insert_gtid(intervals: &mut Vec<Interval>, gtid: Gtid)
    requires set { IsSet intervals.old.items }
    requires one { IsInterval (single gtid.uuid gtid.n) }
    requires room { vec_len intervals.old < vec_capacity intervals.old }
    ensures items { intervals.new.items ≡ with_pair gtid.uuid gtid.n intervals.old.items }
    ensures capacity { vec_capacity intervals.old ≤ vec_capacity intervals.new }
{
    let before = Gtid {
        uuid: gtid.uuid,
        n: gtid.n - 1,
    };
    let at = first_reaching(intervals, before);
    let mut whole = Interval {
        uuid: gtid.uuid,
        first: gtid.n,
        last: gtid.n,
    };
    'absorb: while touches_at(&whole, intervals, at) {
        let next = intervals.remove(at);
        whole = whole.merged(&next);
    }
    match intervals.insert(at, whole) {
        Ok(()) => {}
        Err(_) => {}
    }
}

/// A set with a GTID more has that GTID, and what it had before, and nothing else.
pub fn added_is_had()
    ensures set { (xs : List AnInterval) (uuid n : ℕ) → IsSet xs → uuid < 2 ^ 128 → 1 ≤ n
        → n ≤ largest → IsSet (with_pair uuid n xs) }
    ensures had { (xs : List AnInterval) (uuid n u m : ℕ) → IsSet xs
        → holds (with_pair uuid n xs) u m ≡ (holds xs u m || ((u == uuid) && (m == n))) }
{}
