//! Lists by the labels of clusters.

ghost use Rattle.std.specs.Prelude.{◌≡◌, ◌≤◌, ℕ, IfOk, List, length, true};
ghost use Rattle.std.specs.Cmp.Lexicographic.{slice_cmp};
ghost use Rattle.std.specs.Ordering.{is_lt, nat_cmp};
ghost use Rattle.scenarios.specs.Labels.{place_in, ArePlaces, AreRising, IsPoint};

use crate::orch_base::{Copied, Memory, OwnedText, Same, ServerNo, copy_of, same_values};
use openings::ServerInit;
use std::alloc::Global;
use std::marker::Model;
use std::sync::Arc;

/// An entry of a list that has entries for clusters.
pub trait Labelled: Sized + Drop {
    ghost label_of: { Self → List ℕ };

    /// The cluster's label.
    fn label(&self) -> &str
        ensures { result.now ≡ label_of self.now };

    /// How many entries come before a label, if the labels rise: found by halves.
    fn count_below(entries: &[Self], label: &str) -> usize
        ensures within { result ≤ length entries.now }
        ensures point { AreRising label_of entries.now →
            IsPoint label_of label.now entries.now result };
}

/// A cluster's label, and the place of the first entry with this label.
pub(crate) struct ServerPlace {
    pub(crate) label: OwnedText,
    pub(crate) at: Option<usize>,
}

impl Drop for ServerPlace {
    fn drop(self) {
        let ServerPlace {
            label: _label,
            at: _,
        } = self;
    }
}

impl Copied for ServerPlace {
    fn copy(&self, alloc: Global) -> Result<ServerPlace, Memory> {
        Ok(ServerPlace {
            label: self.label.copy(alloc)?,
            at: self.at,
        })
    }
}

/// Whether a label is below another.
pub(crate) fn is_below(label: &str, other: &str) -> bool
    ensures { result ≡ is_lt (slice_cmp nat_cmp label.now other.now) }
{
    label.cmp(other).is_lt()
}

// Whether no label is below the one before it.
fn are_rising<T: Labelled>(entries: &[T]) -> bool
    ensures { result ≡ true → AreRising T.label_of entries.now }
{
    for n in 1..entries.len() {
        if is_below(entries[n].label(), entries[n - 1].label()) {
            return false;
        }
    }
    true
}

// One after another.
fn place_in_turn<T: Labelled>(entries: &[T], label: &str) -> Option<usize>
    ensures { result ≡ place_in T.label_of entries.now label.now }
{
    entries.iter().position(|entry| entry.label() == label)
}

// By halves: the labels rise.
fn place_by_halves<T: Labelled>(entries: &[T], label: &str) -> Option<usize>
    requires { AreRising T.label_of entries.now }
    ensures { result ≡ place_in T.label_of entries.now label.now }
{
    let at = T::count_below(entries, label);
    if at == entries.len() {
        return None;
    }
    if entries[at].label() == label {
        Some(at)
    } else {
        None
    }
}

// The place of the first entry with a label: found by halves if the labels rise.
fn place_among<T: Labelled>(entries: &[T], rising: bool, label: &str) -> Option<usize>
    requires { rising ≡ true → AreRising T.label_of entries.now }
    ensures { result ≡ place_in T.label_of entries.now label.now }
{
    if rising {
        place_by_halves(entries, label)
    } else {
        place_in_turn(entries, label)
    }
}

// The places of the entries of these servers' clusters, by the servers' numbers. `Err` means out of memory.
fn places_of<T: Labelled>(
    alloc: Global,
    entries: &[T],
    rising: bool,
    servers: &[ServerInit],
) -> Result<Vec<ServerPlace>, Memory>
    requires { rising ≡ true → AreRising T.label_of entries.now }
    ensures { IfOk result (λ v. ArePlaces T.label_of entries.now v.items) }
{
    let mut places = Vec::with_capacity(alloc, servers.len())?;
    for server in servers {
        let label = server.settings.cluster.copy(alloc)?;
        let at = place_among(entries, rising, label.as_str());
        places.push(ServerPlace { label, at })?;
    }
    Ok(places)
}

// Entries, and whether their labels rise.
struct LabelList<T: Labelled> {
    entries: Vec<T>,
    rising: bool,
}

impl<T: Labelled> Model for LabelList<T> {
    ghost use Rattle.std.specs.Prelude.{◌≡◌, List, true};
    ghost use Rattle.scenarios.specs.Labels.{AreRising};

    ghost Value = { List T };

    ghost view = { λ l. l.entries.items };

    ghost invariant = { λ l. l.rising ≡ true → AreRising T.label_of l.entries.items };
}

impl<T: Labelled> Drop for LabelList<T> {
    fn drop(self) {
        let LabelList {
            entries: _entries,
            rising: _,
        } = self;
    }
}

impl<T: Labelled> LabelList<T> {
    fn new(entries: Vec<T>) -> LabelList<T>
        ensures { result ≡ entries.items }
    {
        let rising = are_rising(&entries);
        LabelList { entries, rising }
    }

    fn as_slice(&self) -> &[T]
        ensures { result.now ≡ self.now }
    {
        &self.entries
    }

    fn place(&self, label: &str) -> Option<usize>
        ensures { result ≡ place_in T.label_of self.now label.now }
    {
        place_among(&self.entries, self.rising, label)
    }

    fn places(&self, alloc: Global, servers: &[ServerInit]) -> Result<Vec<ServerPlace>, Memory>
        ensures { IfOk result (λ v. ArePlaces T.label_of self.now v.items) }
    {
        places_of(alloc, &self.entries, self.rising, servers)
    }
}

/// Entries by the bytes of their clusters' labels, which contracts see as that list. Copies share it.
#[derive(Drop)]
pub struct ByLabel<T: Labelled> {
    list: Arc<LabelList<T>>,
    // The places of servers' clusters in the list, by the servers' numbers.
    places: Vec<ServerPlace>,
}

impl<T: Labelled> Model for ByLabel<T> {
    ghost use Rattle.std.specs.Prelude.{List};
    ghost use Rattle.std.specs.Arc.{arc_value};
    ghost use Rattle.scenarios.specs.Labels.{ArePlaces};

    ghost Value = { List T };

    ghost view = { λ b. arc_value b.list };

    ghost invariant = { λ b. ArePlaces T.label_of (arc_value b.list) b.places.items };
}

impl<T: Labelled> ByLabel<T> {
    /// These entries. `Err` means out of memory.
    pub fn new(alloc: Global, entries: Vec<T>) -> Result<ByLabel<T>, Memory>
        ensures { IfOk result (λ b. b ≡ entries.items) }
    {
        Ok(ByLabel {
            list: Arc::new(alloc, LabelList::new(entries))?,
            places: Vec::new(alloc),
        })
    }

    /// The entries in order.
    pub fn as_slice(&self) -> &[T]
        ensures { result.now ≡ self.now }
    {
        self.list.as_slice()
    }

    /// The same entries, with the places of these servers' clusters. `Err` means out of memory.
    pub fn resolved(self, alloc: Global, servers: &[ServerInit]) -> Result<ByLabel<T>, Memory>
        ensures { IfOk result (λ b. b ≡ self) }
    {
        let ByLabel { list, places: _ } = self;
        let places = list.places(alloc, servers)?;
        Ok(ByLabel { list, places })
    }

    /// The place of the first entry with a label. It takes no memory. The time grows with the list's logarithm if the
    /// labels rise, and with the list if they don't.
    pub(crate) fn place(&self, label: &str) -> Option<usize>
        ensures { result ≡ place_in T.label_of self.now label.now }
    {
        self.list.place(label)
    }

    /// The same for a cluster that a server is expected in. It takes constant time if its place was looked up.
    pub(crate) fn place_at(&self, server: ServerNo, cluster: &str) -> Option<usize>
        ensures { result ≡ place_in T.label_of self.now cluster.now }
    {
        match self.places.get(server.0 as usize) {
            Some(own) if own.label.as_str() == cluster => own.at,
            Some(_) | None => self.place(cluster),
        }
    }

    /// The same entries: the list is shared. `Memory` comes if memory runs out, and if too many share the list.
    pub fn copy(&self, alloc: Global) -> Result<ByLabel<T>, Memory>
        ensures { IfOk result (λ b. b ≡ self.now) }
    {
        Ok(ByLabel {
            list: Arc::try_clone(&self.list)?,
            places: copy_of(alloc, &self.places)?,
        })
    }
}

impl<T: Labelled + Same> Same for ByLabel<T> {
    fn is_same(&self, other: &ByLabel<T>) -> bool {
        same_values(self.as_slice(), other.as_slice())
    }
}
