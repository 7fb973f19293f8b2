//! Sets on the heap.

ghost use Rattle.std.specs.Prelude.{◌≡◌, IfOk};

use crate::Memory;
use crate::gtid_sets::GtidSet;
use std::alloc::Global;
use std::marker::Model;

/// A GTID set on the heap, which contracts see as that set.
pub struct BoxedSet {
    set: Box<GtidSet>,
}

impl Drop for BoxedSet {
    fn drop(self) {
        let BoxedSet { set: _set } = self;
    }
}

impl Model for BoxedSet {
    ghost use Rattle.std.specs.Prelude.{List, box_value};
    ghost use Rattle.server_words.specs.GtidSets.declared.interval.Interval.{Interval};

    ghost Value = { List Interval };

    ghost view = { λ s. box_value s.set };
}

impl BoxedSet {
    /// This set. `Err` means out of memory.
    pub fn new(alloc: Global, set: GtidSet) -> Result<BoxedSet, Memory>
        ensures { IfOk result (λ s. s ≡ set) }
    {
        Ok(BoxedSet {
            set: Box::new(alloc, set)?,
        })
    }

    /// The set.
    pub fn as_set(&self) -> &GtidSet
        ensures { result.now ≡ self.now }
    {
        &self.set
    }

    /// The same set once more. `Err` means out of memory.
    pub fn copy(&self, alloc: Global) -> Result<BoxedSet, Memory>
        ensures { IfOk result (λ s. s ≡ self.now) }
    {
        BoxedSet::new(alloc, self.set.copy()?)
    }
}
