//! Sets of GTIDs.

ghost use Rattle.std.specs.Prelude.{◌≡◌, ℕ, List, ◌^◌, ◌<◌, ◌≤◌, ◌↔◌, ◌&&◌, ◌||◌, ◌⊎◌, ◌==◌, ◌++◌, ◌∷◌, not, nat_le, nat_lt, true, false, IsTrue, [], length, slice_index_or, IfOk, OnOk, OnErr, filter};
ghost use Rattle.std.specs.Bool.{OnTrue, OnFalse};
ghost use Rattle.gtid_sets.specs.declared.interval.Interval.{Interval};
ghost use Rattle.std.specs.List.{All, AllPairs, AllWithin, list_any};
ghost use Rattle.gtid_sets.specs.Grammar.{Reads, text_at};
ghost use Rattle.gtid_sets.specs.Pairs.{pairs};
ghost use Rattle.gtid_sets.specs.Printed.{printed};
ghost use Rattle.gtid_sets.specs.Sets.{point, low, high, holds, size, largest, on_line, between, IsInterval, IsSet, Misses};

use crate::Memory;
use crate::fault::GtidFault;
use crate::grammar::read_text;
use crate::interval::{Gtid, Interval};
use crate::print::text_of;
use crate::shared::Shared;
use std::alloc::Global;
use std::marker::Model;

/// A set of GTIDs. A copy shares its intervals.
pub struct GtidSet {
    alloc: Global,
    // None of the empty set.
    shared: Option<Shared>,
}

impl Drop for GtidSet {
    fn drop(self) {
        let GtidSet {
            alloc: _,
            shared: _shared,
        } = self;
    }
}

impl Model for GtidSet {
    ghost use Rattle.std.specs.Prelude.{List, [], unwrap_or};
    ghost use Rattle.gtid_sets.specs.Sets.{IsSet};
    ghost use Rattle.gtid_sets.specs.declared.interval.Interval.{Interval};

    ghost Value = { List Interval };

    ghost view = { λ s. unwrap_or s.shared [] };

    ghost invariant = { λ s. IsSet (unwrap_or s.shared []) };
}

// A set that is being made. Contracts see it as that set.
#[derive(Drop)]
pub(crate) struct Made {
    intervals: Vec<Interval>,
}

impl Model for Made {
    ghost use Rattle.std.specs.Prelude.{List};
    ghost use Rattle.gtid_sets.specs.Sets.{IsSet};
    ghost use Rattle.gtid_sets.specs.declared.interval.Interval.{Interval};

    ghost Value = { List Interval };

    ghost view = { λ s. s.intervals.items };

    ghost invariant = { λ s. IsSet s.intervals.items };
}

impl GtidSet {
    /// The empty set. It takes no memory, and keeps its allocator.
    #[inline(always)]
    pub fn empty(alloc: Global) -> GtidSet
        ensures { result ≡ [] }
    {
        GtidSet {
            alloc,
            shared: None,
        }
    }

    // The set that is made. It takes no memory if that is empty.
    fn of(made: Made) -> Result<GtidSet, Memory>
        ensures { IfOk result (λ set. set ≡ made) }
    {
        let Made { intervals } = made;
        let alloc = *intervals.allocator();
        if intervals.is_empty() {
            return Ok(GtidSet::empty(alloc));
        }
        Ok(GtidSet {
            alloc,
            shared: Some(Shared::new(alloc, intervals)?),
        })
    }

    // Its intervals.
    #[inline(always)]
    fn list(&self) -> &[Interval]
        ensures list { result.now ≡ self.now }
        ensures set { IsSet self.now }
    {
        match &self.shared {
            Some(shared) => shared.list(),
            None => &[],
        }
    }

    /// Reads a set: parts with `,` between, each a hyphenated UUID in either case and one or more of `:` and `n` or
    /// `n-m`. There may be blanks round commas and at the ends. The text without a part is the empty set. The fault is
    /// the first in the text (MySQL 8.0 Reference Manual, "GTID Format and Storage").
    pub fn read(alloc: Global, text: &str) -> Result<GtidSet, GtidFault>
        ensures reads { Reads result (text_at text.now) }
        ensures set { IfOk result IsSet }
    {
        match read_text(alloc, text.as_bytes()) {
            Ok(found) => {
                let made = gathered(alloc, &found)?;
                let set = GtidSet::of(made)?;
                set.show_order();
                Ok(set)
            }
            Err(fault) => Err(fault),
        }
    }

    /// Whether there is no GTID in the set. It takes no memory.
    pub fn is_empty(&self) -> bool
        ensures list { IsTrue result ↔ (self.now ≡ []) }
        ensures none { IsTrue result ↔ ((uuid n : ℕ) → holds self.now uuid n ≡ false) }
    {
        self.list().is_empty()
    }

    /// Whether the GTID of this UUID and number is in the set. It takes no memory, and searches by halves.
    pub fn contains(&self, uuid: u128, n: u64) -> bool
        ensures { result ≡ holds self.now uuid n }
    {
        is_in(self.list(), Gtid { uuid, n })
    }

    /// Whether each GTID of the set is in the other. It takes no memory.
    pub fn is_subset(&self, of: &GtidSet) -> bool
        ensures { IsTrue result
            ↔ ((uuid n : ℕ) → holds self.now uuid n ≡ true → holds of.now uuid n ≡ true) }
    {
        are_in(self.list(), of.list())
    }

    /// How many GTIDs there are. It takes no memory.
    pub fn count(&self) -> u128
        ensures { result ≡ size self.now }
    {
        count_of(self.list())
    }

    /// The same set once more: nothing is copied. `Err` means that more share it than can be counted.
    #[inline(always)]
    pub fn copy(&self) -> Result<GtidSet, Memory>
        ensures { IfOk result (λ copy. copy ≡ self.now) }
    {
        let shared = match &self.shared {
            Some(shared) => Some(shared.share()?),
            None => None,
        };
        Ok(GtidSet {
            alloc: self.alloc,
            shared,
        })
    }

    // The set of these intervals. Of none it takes no memory.
    #[inline(always)]
    pub(crate) fn of_intervals(alloc: Global, intervals: &[Interval]) -> Result<GtidSet, Memory>
        requires { IsSet intervals.now }
        ensures { IfOk result (λ set. set ≡ intervals.now) }
    {
        if intervals.is_empty() {
            return Ok(GtidSet::empty(alloc));
        }
        let intervals = Vec::from_slice(alloc, intervals)?;
        GtidSet::of(Made { intervals })
    }

    /// Whether the sets are equal. It takes no memory.
    pub fn is_same(&self, other: &GtidSet) -> bool
        ensures { IsTrue result ↔ (self.now ≡ other.now) }
    {
        self.list() == other.list()
    }

    /// Adds a GTID, `n` from 1 to `LARGEST`, and answers whether it was new. If memory runs out, the set stays as it
    /// was. It takes time in the number of intervals.
    #[tactic(auto, using(crate::proofs::Points::add_holds))]
    pub fn add(&mut self, uuid: u128, n: u64) -> Result<bool, Memory>
        requires above_zero { 1 ≤ n }
        requires in_range { n ≤ largest }
        ensures was { IfOk result (λ was_new. was_new ≡ not (holds self.old uuid n)) }
        ensures has { OnOk result ((u m : ℕ)
            → holds self.new u m ≡ (holds self.old u m || ((u == uuid) && (m == n)))) }
        ensures err { OnErr result (self.new ≡ self.old) }
    {
        let was_new = !self.contains(uuid, n);
        let one = single(
            self.alloc,
            Interval {
                uuid,
                first: n,
                last: n,
            },
        )?;
        let both = self.union(&GtidSet::of(one)?)?;
        *self = both;
        Ok(was_new)
    }

    /// Appends the one canonical text: rising UUIDs in lower case with `,` between them, and after each its intervals,
    /// each after a `:`. If memory runs out, it appends nothing.
    pub fn print(&self, out: &mut Vec<u8>) -> Result<(), Memory>
        ensures ok { OnOk result (out.new.items ≡ out.old.items ++ printed self.now) }
        ensures err { OnErr result (out.new.items ≡ out.old.items) }
    {
        let text = text_of(self.alloc, self.list())?;
        out.extend_from_slice(&text)
    }

    /// Both sets as one. It takes time in the number of their intervals. `Err` means out of memory.
    #[tactic(auto, using(crate::proofs::Points::union_holds))]
    pub fn union(&self, other: &GtidSet) -> Result<GtidSet, Memory>
        ensures has { IfOk result (λ both. (uuid n : ℕ)
            → holds both uuid n ≡ (holds self.now uuid n || holds other.now uuid n)) }
        ensures set { IfOk result IsSet }
    {
        let both = GtidSet::of(united(self.alloc, self.list(), other.list())?)?;
        both.show_order();
        Ok(both)
    }

    /// The GTIDs that are in this set and not in the other. It takes time in the number of their intervals. `Err` means
    /// out of memory.
    #[tactic(auto, using(crate::proofs::Sweep::minus_holds))]
    pub fn minus(&self, other: &GtidSet) -> Result<GtidSet, Memory>
        ensures has { IfOk result (λ rest. (uuid n : ℕ)
            → holds rest uuid n ≡ (holds self.now uuid n && not (holds other.now uuid n))) }
        ensures set { IfOk result IsSet }
    {
        let rest = GtidSet::of(difference(self.alloc, self.list(), other.list())?)?;
        rest.show_order();
        Ok(rest)
    }

    /// The GTIDs of one UUID. It takes time in the number of intervals. `Err` means out of memory.
    pub fn of_uuid(&self, uuid: u128) -> Result<GtidSet, Memory>
        ensures part { IfOk result (λ part. part ≡ filter (λ s. s.uuid == uuid) self.now) }
        ensures has { IfOk result (λ part. (u n : ℕ)
            → holds part u n ≡ ((u == uuid) && holds self.now u n)) }
        ensures set { IfOk result IsSet }
    {
        let intervals = part_of(self.alloc, self.list(), uuid)?;
        let part = GtidSet::of(Made { intervals })?;
        part.show_order();
        Ok(part)
    }

    /// Shows to proofs that a set's intervals are in order, and that no two of them overlap or touch. It takes no
    /// memory.
    pub fn show_order(&self)
        ensures { IsSet self.now }
    {
        let _list = self.list();
    }
}

impl Made {
    // The empty set. It takes no memory.
    fn empty(alloc: Global) -> Made
        ensures { result ≡ [] }
    {
        Made {
            intervals: Vec::new(alloc),
        }
    }

    // Appends an interval that begins nowhere before those of the set, joined to the last one if they overlap or touch.
    fn append(&mut self, next: Interval) -> Result<(), Memory>
        requires next { IsInterval next }
        requires order { All (λ s. low s ≤ low next) self.old }
        ensures has { OnOk result ((x : ℕ)
            → on_line self.new x ≡ (on_line self.old x || between x next)) }
        ensures order { OnOk result ((bound : ℕ) → low next ≤ bound
            → All (λ s. low s ≤ bound) self.new) }
    {
        match self.intervals.pop() {
            None => self.intervals.push(next)?,
            Some(last) if last.reaches(&next) => self.intervals.push(last.joined(&next))?,
            Some(last) => {
                self.intervals.push(last)?;
                self.intervals.push(next)?;
            }
        }
        Ok(())
    }
}

// The intervals of one UUID.
fn part_of(alloc: Global, intervals: &[Interval], uuid: u128) -> Result<Vec<Interval>, Memory>
    ensures { IfOk result (λ part. part.items ≡ filter (λ s. s.uuid == uuid) intervals.now) }
{
    intervals
        .iter()
        .copied()
        .filter(|s| s.uuid == uuid)
        .collect(alloc)
}

fn single(alloc: Global, interval: Interval) -> Result<Made, Memory>
    requires { IsInterval interval }
    ensures { IfOk result (λ s. s ≡ interval ∷ []) }
{
    let intervals = vec![in alloc; interval]?;
    Ok(Made { intervals })
}

// The set of intervals in any order.
fn gathered(alloc: Global, found: &[Interval]) -> Result<Made, Memory>
    requires { All IsInterval found.now }
    ensures { IfOk result (λ s. (x : ℕ) → on_line s x ≡ on_line found.now x) }
{
    if found.is_empty() {
        return Ok(Made::empty(alloc));
    }
    if found.len() == 1 {
        return single(alloc, found[0]);
    }
    let (front, back) = found.split_at(found.len() / 2);
    let front = gathered(alloc, front)?;
    let back = gathered(alloc, back)?;
    united(alloc, &front.intervals, &back.intervals)
}

// The first interval that ends nowhere before the GTID.
pub(crate) fn first_reaching(intervals: &[Interval], gtid: Gtid) -> usize
    requires { IsSet intervals.now }
    ensures within { result ≤ length intervals.now }
    ensures below { AllWithin (λ s. high s < point gtid.uuid gtid.n) intervals.now 0 result }
    ensures above { AllWithin (λ s. point gtid.uuid gtid.n ≤ high s) intervals.now result
        (length intervals.now) }
{
    let mut from = 0;
    let mut to = intervals.len();
    'halves: while from < to {
        let middle = from + (to - from) / 2;
        if intervals[middle].ends_before(gtid) {
            from = middle + 1;
        } else {
            to = middle;
        }
    }
    from
}

pub(crate) fn is_in(intervals: &[Interval], gtid: Gtid) -> bool
    requires { IsSet intervals.now }
    ensures { result ≡ holds intervals.now gtid.uuid gtid.n }
{
    let at = first_reaching(intervals, gtid);
    at < intervals.len() && !gtid.is_before(intervals[at].start())
}

// Whether the intervals of a set have all of one interval.
fn includes(intervals: &[Interval], part: &Interval) -> bool
    requires whole { IsSet intervals.now }
    requires part { IsInterval part.now }
    ensures yes { OnTrue result ((x : ℕ) → between x part.now ≡ true
        → on_line intervals.now x ≡ true) }
    ensures no { OnFalse result (Misses intervals.now part.now) }
{
    let at = first_reaching(intervals, part.start());
    if at >= intervals.len() {
        return false;
    }
    let found = &intervals[at];
    !part.start().is_before(found.start()) && !found.ends_before(part.end())
}

fn are_in(parts: &[Interval], intervals: &[Interval]) -> bool
    requires parts { IsSet parts.now }
    requires whole { IsSet intervals.now }
    ensures { IsTrue result
        ↔ ((uuid n : ℕ) → holds parts.now uuid n ≡ true → holds intervals.now uuid n ≡ true) }
{
    'parts: for part in parts {
        if !includes(intervals, part) {
            return false;
        }
    }
    true
}

fn count_of(intervals: &[Interval]) -> u128
    requires { IsSet intervals.now }
    ensures { result ≡ size intervals.now }
{
    let mut count = 0;
    'intervals: for interval in intervals {
        count += u128::from(interval.last - interval.first + 1);
    }
    count
}

// Whether the next of these intervals begins before the next of those, or there is no such.
fn is_next(these: &[Interval], i: usize, those: &[Interval], j: usize) -> bool
    requires in_these { i ≤ length these.now }
    requires in_those { j ≤ length those.now }
    requires some { i < length these.now ⊎ j < length those.now }
    requires these { IsSet these.now }
    requires those { IsSet those.now }
    ensures in_these { OnTrue result (i < length these.now) }
    ensures in_those { OnFalse result (j < length those.now) }
    ensures this { OnTrue result ((d : Interval) → j < length those.now
        → low (slice_index_or these.now i d) ≤ low (slice_index_or those.now j d)) }
    ensures that { OnFalse result ((d : Interval) → i < length these.now
        → low (slice_index_or those.now j d) ≤ low (slice_index_or these.now i d)) }
{
    if i >= these.len() {
        return false;
    }
    j >= those.len() || !those[j].start().is_before(these[i].start())
}

fn united(alloc: Global, these: &[Interval], those: &[Interval]) -> Result<Made, Memory>
    requires these { IsSet these.now }
    requires those { IsSet those.now }
    ensures { IfOk result (λ both. (x : ℕ)
        → on_line both x ≡ (on_line these.now x || on_line those.now x)) }
{
    let mut both = Made::empty(alloc);
    let mut i = 0;
    let mut j = 0;
    'merge: while i < these.len() || j < those.len() {
        if is_next(these, i, those, j) {
            both.append(these[i])?;
            i += 1;
        } else {
            both.append(those[j])?;
            j += 1;
        }
    }
    Ok(both)
}

// Appends what an interval has from this GTID on and before another interval.
fn append_gap(rest: &mut Made, this: &Interval, start: Gtid, that: &Interval) -> Result<(), Memory>
    requires this { IsInterval this.now }
    requires that { IsInterval that.now }
    requires from { low this.now ≤ point start.uuid start.n }
    requires inside { point start.uuid start.n ≤ high this.now }
    requires meets { low that.now ≤ high this.now }
    requires order { All (λ s. low s ≤ point start.uuid start.n) rest.old }
    ensures has { OnOk result ((x : ℕ) → on_line rest.new x
        ≡ (on_line rest.old x
        || (nat_le (point start.uuid start.n) x && nat_lt x (low that.now)))) }
    ensures order { OnOk result ((bound : ℕ) → point start.uuid start.n ≤ bound
        → All (λ s. low s ≤ bound) rest.new) }
{
    if start.is_before(that.start()) {
        rest.append(Interval {
            uuid: this.uuid,
            first: start.n,
            last: that.first - 1,
        })?;
    }
    Ok(())
}

// Whether the interval ends before the next of those.
fn is_clear(this: &Interval, those: &[Interval], j: usize) -> bool
    requires { j ≤ length those.now }
    ensures clear { OnTrue result ((d : Interval) → j < length those.now
        → high this.now < low (slice_index_or those.now j d)) }
    ensures some { OnFalse result (j < length those.now) }
    ensures meets { OnFalse result ((d : Interval)
        → low (slice_index_or those.now j d) ≤ high this.now) }
{
    j >= those.len() || this.ends_before(those[j].start())
}

fn difference(alloc: Global, these: &[Interval], those: &[Interval]) -> Result<Made, Memory>
    requires these { IsSet these.now }
    requires those { IsSet those.now }
    ensures { IfOk result (λ rest. (x : ℕ)
        → on_line rest x ≡ (on_line these.now x && not (on_line those.now x))) }
{
    let mut rest = Made::empty(alloc);
    let mut i = 0;
    let mut j = 0;
    // What is before it is settled.
    let mut front = Gtid { uuid: 0, n: 0 };
    'sweep: while i < these.len() {
        let this = these[i];
        let start = this.start_from(front);
        if this.ends_before(start) {
            i += 1;
        } else if is_clear(&this, those, j) {
            rest.append(Interval {
                uuid: this.uuid,
                first: start.n,
                last: this.last,
            })?;
            front = this.behind();
            i += 1;
        } else {
            append_gap(&mut rest, &this, start, &those[j])?;
            front = start.later(those[j].behind());
            j += 1;
        }
    }
    Ok(rest)
}

/// Sets with the same GTIDs have the same intervals, and so the same text.
pub fn same_sets()
    ensures { (xs ys : List Interval) → IsSet xs → IsSet ys
        → ((uuid n : ℕ) → holds xs uuid n ≡ holds ys uuid n) → xs ≡ ys }
{}

/// The count is the number of pairs. The list of a set's pairs is that long, rises, and so has no pair twice. It has
/// exactly the pairs that are in the set.
pub fn count_is_pairs()
    ensures count { (xs : List Interval) → IsSet xs → length (pairs xs) ≡ size xs }
    ensures rises { (xs : List Interval) → IsSet xs → AllPairs (λ (a b : ℕ). a < b) (pairs xs) }
    ensures held { (xs : List Interval) (uuid n : ℕ) → IsSet xs → n < 2 ^ 64
        → list_any (λ p. p == point uuid n) (pairs xs) ≡ holds xs uuid n }
{}
