//! The index that finds the recoveries of a cluster, from the last one down. It has buckets of labels. A recovery is
//! done once it is acknowledged and ended. The time of a walk doesn't grow with other clusters' recoveries, nor with
//! those that are done.

ghost use Rattle.std.specs.Prelude.{◌≡◌, ℕ, ◌+◌, ◌-◌, ◌<◌, ◌≤◌, ◌^◌, ◌∷◌, ◌++◌, [], All, IfOk, IfSome, IsTrue, OnOk, length, slice_get, slice_index_or, slice_set};
ghost use Rattle.std.specs.List.{AllWithin, HoldsAt};
ghost use Rattle.audit_log.specs.Apart.{IsClear};
ghost use Rattle.audit_log.specs.Audits.{is_unended};
ghost use Rattle.audit_log.specs.Index.{bucket_of, clear_at, is_done, mixed, DoneIn, DoneOf, IsIndex, IsLastBut, IsLinked};

use crate::Memory;
use crate::one::{is_done, is_of, is_unended};
use crate::orch_base::Moment;
use kept_rows::Recovery;
use std::alloc::Global;

/// How many buckets there are.
const BUCKETS: u64 = 4096;

/// What is known of the recoveries before one.
#[derive(Clone, Copy)]
pub(crate) struct Link {
    /// From this place on up to the recovery each one of its bucket is done.
    before: usize,
    /// From this moment on none before it of its cluster holds others back. None if that isn't known.
    clear: Option<u64>,
}

/// The index. With no heads it knows nothing, and each recovery is looked at.
#[derive(Drop)]
pub(crate) struct Index {
    /// By bucket: from this place on each recovery of the bucket is done.
    heads: Vec<usize>,
    /// By place: what is known of the recoveries before it.
    links: Vec<Link>,
}

fn mixed(number: u64, byte: u8) -> u64
    requires { number < 2 ^ 32 }
    ensures value { result ≡ mixed number byte }
    ensures low { result < 2 ^ 32 }
{
    (number * 257 + byte as u64) % 4_294_967_291
}

// The bucket of a label.
fn bucket(label: &str) -> usize
    ensures { result ≡ bucket_of label.now }
{
    let mut number = 0;
    'label: for byte in label.as_bytes() {
        number = mixed(number, *byte);
    }
    (number % BUCKETS) as usize
}

// Whether a recovery is of another bucket, or done.
fn is_passed(recovery: &Recovery, of: usize) -> bool
    ensures { IsTrue result → DoneIn of recovery.now }
{
    is_done(recovery) || bucket(recovery.cluster.as_str()) != of
}

// No bucket has a recovery.
fn empty_all(heads: &mut [usize]) {
    for head in heads.iter_mut() {
        *head = 0;
    }
}

impl Index {
    /// An index that knows nothing. It takes no memory.
    pub(crate) fn none(alloc: Global) -> Index
        ensures heads { result.heads.items ≡ [] }
        ensures links { result.links.items ≡ [] }
    {
        Index {
            heads: Vec::new(alloc),
            links: Vec::new(alloc),
        }
    }

    /// The index of these recoveries. Of none it takes no memory, and `open` makes its heads.
    pub(crate) fn of(alloc: Global, recoveries: &[Recovery]) -> Result<Index, Memory>
        ensures { IfOk result (λ index. IsIndex recoveries.now index) }
    {
        let mut index = Index::none(alloc);
        if recoveries.is_empty() {
            return Ok(index);
        }
        index.open()?;
        index.reserve(recoveries.len())?;
        index.enter_all(recoveries);
        Ok(index)
    }

    /// Makes the heads of an index of no recoveries, if it has none. `Err` means out of memory.
    pub(crate) fn open(&mut self) -> Result<(), Memory>
        requires { self.old.links.items ≡ [] }
        ensures index { IsIndex [] self.new }
        ensures links { self.new.links ≡ self.old.links }
    {
        if self.heads.is_empty() {
            self.heads = vec![in *self.links.allocator(); 0; BUCKETS as usize]?;
        }
        Ok(())
    }

    // Forgets all recoveries, and keeps its room.
    fn forget(&mut self)
        ensures { self.new.links.items ≡ [] }
    {
        self.links.clear();
        empty_all(&mut self.heads);
    }

    /// Becomes the index of these recoveries, as far as it has room for links. It takes no memory.
    pub(crate) fn renew(&mut self, recoveries: &[Recovery])
        ensures { IsIndex recoveries.now self.new }
    {
        self.forget();
        self.enter_all(recoveries);
    }

    // Enters these recoveries one after another.
    fn enter_all(&mut self, recoveries: &[Recovery])
        requires { self.old.links.items ≡ [] }
        ensures { IsIndex recoveries.now self.new }
    {
        for (i, recovery) in recoveries.iter().enumerate() {
            self.enter(&recoveries[..i], recovery);
        }
    }

    /// Makes room for so many more recoveries. `Err` means out of memory.
    pub(crate) fn reserve(&mut self, count: usize) -> Result<(), Memory>
        ensures heads { self.new.heads ≡ self.old.heads }
        ensures links { self.new.links.items ≡ self.old.links.items }
    {
        self.links.reserve(count)?;
        Ok(())
    }

    // The link of a place.
    fn link(&self, i: usize) -> Option<Link>
        ensures { result ≡ slice_get self.now.links.items i }
    {
        self.links.get(i).copied()
    }

    // From when on none before a place of its cluster holds others back.
    fn clear_at(&self, i: usize) -> Option<u64>
        ensures { result ≡ clear_at self.now.links.items i }
    {
        self.link(i)?.clear
    }

    // The place below one from which on each recovery of a bucket before it is done.
    fn below(&self, recoveries: &[Recovery], of: usize, i: usize) -> usize
        requires index { IsIndex recoveries.now self.now }
        requires within { i < length recoveries.now }
        ensures within { result ≤ i }
        ensures done { AllWithin (DoneIn of) recoveries.now result i }
    {
        match self.link(i) {
            Some(link) if bucket(recoveries[i].cluster.as_str()) == of => link.before.min(i),
            Some(_) | None => i,
        }
    }

    // The head of a bucket: from this place on each of its recoveries is done.
    fn head(&self, recoveries: &[Recovery], of: usize) -> usize
        requires { IsIndex recoveries.now self.now }
        ensures within { result ≤ length recoveries.now }
        ensures done { AllWithin (DoneIn of) recoveries.now result (length recoveries.now) }
    {
        match self.heads.get(of).copied() {
            Some(head) => head.min(recoveries.len()),
            None => recoveries.len(),
        }
    }

    // From a place of a bucket down to the place after its last recovery that isn't done.
    fn settled(&self, recoveries: &[Recovery], of: usize, end: usize) -> usize
        requires index { IsIndex recoveries.now self.now }
        requires within { end ≤ length recoveries.now }
        ensures within { result ≤ end }
        ensures done { AllWithin (DoneIn of) recoveries.now result end }
    {
        let mut at = end;
        while at > 0 && is_passed(&recoveries[at - 1], of) {
            at = self.below(recoveries, of, at - 1);
        }
        at
    }

    // The last recovery of a cluster before a place, except those that are done.
    fn last_before(&self, recoveries: &[Recovery], cluster: &str, end: usize) -> Option<usize>
        requires index { IsIndex recoveries.now self.now }
        requires within { end ≤ length recoveries.now }
        ensures { IsLastBut (DoneOf cluster.now) cluster.now recoveries.now end result }
    {
        let of = bucket(cluster);
        let mut at = end;
        while at > 0 {
            let i = at - 1;
            if is_of(&recoveries[i], cluster) {
                return Some(i);
            }
            at = self.below(recoveries, of, i);
        }
        None
    }

    /// The last recovery of a cluster, except those that are done.
    pub(crate) fn last(&self, recoveries: &[Recovery], cluster: &str) -> Option<usize>
        requires { IsIndex recoveries.now self.now }
        ensures { IsLastBut (DoneOf cluster.now) cluster.now recoveries.now (length recoveries.now)
            result }
    {
        let end = self.head(recoveries, bucket(cluster));
        self.last_before(recoveries, cluster, end)
    }

    /// The last recovery of a cluster before this one, except those that are done.
    pub(crate) fn previous(&self, recoveries: &[Recovery], cluster: &str, i: usize) -> Option<usize>
        requires index { IsIndex recoveries.now self.now }
        requires within { i < length recoveries.now }
        ensures { IsLastBut (DoneOf cluster.now) cluster.now recoveries.now i result }
    {
        let end = self.below(recoveries, bucket(cluster), i);
        self.last_before(recoveries, cluster, end)
    }

    // Whether it is known that no recovery of its cluster before this one holds others back at a moment.
    fn is_last(&self, recoveries: &[Recovery], cluster: &str, now: Moment, i: usize) -> bool
        requires index { IsIndex recoveries.now self.now }
        requires within { i < length recoveries.now }
        requires of { HoldsAt (λ r. r.cluster ≡ cluster.now) recoveries.now i }
        ensures { IsTrue result → AllWithin (IsClear cluster.now now.0) recoveries.now 0 i }
    {
        match self.clear_at(i) {
            Some(from) if from <= now.0 => true,
            Some(_) | None => false,
        }
    }

    /// The last recovery of a cluster before this one, except those that hold none back at a moment.
    pub(crate) fn earlier(
        &self,
        recoveries: &[Recovery],
        cluster: &str,
        now: Moment,
        i: usize,
    ) -> Option<usize>
        requires index { IsIndex recoveries.now self.now }
        requires within { i < length recoveries.now }
        requires of { HoldsAt (λ r. r.cluster ≡ cluster.now) recoveries.now i }
        ensures { IsLastBut (IsClear cluster.now now.0) cluster.now recoveries.now i result }
    {
        if self.is_last(recoveries, cluster, now, i) {
            None
        } else {
            self.previous(recoveries, cluster, i)
        }
    }

    // From when on the recovery at a place and those before it of its cluster hold none back. None if that isn't known.
    fn clear_with(&self, recoveries: &[Recovery], i: usize) -> Option<u64>
        requires index { IsIndex recoveries.now self.now }
        requires within { i < length recoveries.now }
        ensures { (d : Recovery) → IfSome result (λ from. (now : ℕ) → from ≤ now →
            AllWithin (IsClear (slice_index_or recoveries.now i d).cluster now) recoveries.now 0
            (i + 1)) }
    {
        let recovery = &recoveries[i];
        if is_unended(recovery) {
            return None;
        }
        let before = self.clear_at(i)?;
        if recovery.acked {
            return Some(before);
        }
        let until = recovery.begun.0.checked_add(recovery.block)?;
        Some(before.max(until))
    }

    // From when on no recovery of a cluster holds others back. None if that isn't known.
    fn clear_from(&self, recoveries: &[Recovery], cluster: &str) -> Option<u64>
        requires { IsIndex recoveries.now self.now }
        ensures { IfSome result (λ from. (now : ℕ) → from ≤ now
            → All (IsClear cluster.now now) recoveries.now) }
    {
        match self.last(recoveries, cluster) {
            Some(i) => self.clear_with(recoveries, i),
            None => Some(0),
        }
    }

    // What is known before a recovery that comes after these.
    fn link_to(&self, recoveries: &[Recovery], next: &Recovery) -> Link
        requires { IsIndex recoveries.now self.now }
        ensures done { AllWithin (DoneIn (bucket_of next.now.cluster)) recoveries.now result.before
            (length recoveries.now) }
        ensures clear { IfSome result.clear (λ from. (now : ℕ) → from ≤ now →
            All (IsClear next.now.cluster now) recoveries.now) }
    {
        let cluster = next.cluster.as_str();
        let of = bucket(cluster);
        Link {
            before: self.settled(recoveries, of, self.head(recoveries, of)),
            clear: self.clear_from(recoveries, cluster),
        }
    }

    // From here on each recovery of a bucket is done.
    fn set_head(&mut self, of: usize, head: usize)
        ensures heads { self.new.heads.items ≡ slice_set self.old.heads.items of head }
        ensures links { self.new.links ≡ self.old.links }
    {
        if of < self.heads.len() {
            self.heads[of] = head;
        }
    }

    // Links a recovery after so many others, if there is room for it.
    fn push(&mut self, place: usize, link: Link)
        ensures heads { self.new.heads ≡ self.old.heads }
        ensures links { IsLinked self.old.links.items self.new.links.items place link }
    {
        if self.links.len() == place && place < self.links.capacity() {
            self.links.push_reserved(link);
        }
    }

    /// One more recovery comes after these. It takes no memory.
    pub(crate) fn enter(&mut self, recoveries: &[Recovery], next: &Recovery)
        requires index { IsIndex recoveries.now self.old }
        requires room { length recoveries.now < 2 ^ 64 - 1 }
        ensures { IsIndex (recoveries.now ++ next.now ∷ []) self.new }
    {
        if self.heads.is_empty() {
            return;
        }
        let place = recoveries.len();
        let link = self.link_to(recoveries, next);
        self.push(place, link);
        if is_done(next) {
            return;
        }
        self.set_head(bucket(next.cluster.as_str()), place + 1);
    }

    // What is known before a recovery passes over those that are done.
    fn settle_link(&mut self, recoveries: &[Recovery], i: usize)
        requires index { IsIndex recoveries.now self.old }
        requires within { i < length recoveries.now }
        ensures { IsIndex recoveries.now self.new }
    {
        let of = bucket(recoveries[i].cluster.as_str());
        let before = self.settled(recoveries, of, self.below(recoveries, of, i));
        if i < self.links.len() {
            self.links[i].before = before;
        }
    }

    /// Passes over those recoveries of a cluster that are done. It takes no memory.
    pub(crate) fn settle(&mut self, recoveries: &[Recovery], cluster: &str)
        requires { IsIndex recoveries.now self.old }
        ensures { IsIndex recoveries.now self.new }
    {
        let of = bucket(cluster);
        let head = self.settled(recoveries, of, self.head(recoveries, of));
        self.set_head(of, head);
        if head > 0 {
            self.settle_link(recoveries, head - 1);
        }
    }
}
