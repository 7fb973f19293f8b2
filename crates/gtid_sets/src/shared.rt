//! Intervals that several sets share.

ghost use Rattle.std.specs.Prelude.{◌≡◌, IfOk};

use crate::Memory;
use crate::interval::Interval;
use std::alloc::Global;
use std::marker::Model;
use std::sync::Arc;

/// Intervals that several sets share. Contracts see them as their list.
#[derive(Drop)]
pub(crate) struct Shared {
    intervals: Arc<Vec<Interval>>,
}

impl Model for Shared {
    ghost use Rattle.std.specs.Arc.{arc_value};
    ghost use Rattle.std.specs.Prelude.{List};
    ghost use Rattle.gtid_sets.specs.declared.interval.Interval.{Interval as AnInterval};

    ghost Value = { List AnInterval };

    ghost view = { λ s. (arc_value s.intervals).items };
}

impl Shared {
    /// These intervals. `Err` means out of memory.
    pub(crate) fn new(alloc: Global, intervals: Vec<Interval>) -> Result<Shared, Memory>
        ensures { IfOk result (λ s. s ≡ intervals.items) }
    {
        Ok(Shared {
            intervals: Arc::new(alloc, intervals)?,
        })
    }

    /// The intervals.
    #[inline(always)]
    pub(crate) fn list(&self) -> &[Interval]
        ensures { result.now ≡ self.now }
    {
        self.intervals.as_slice()
    }

    /// The same intervals for one more: nothing is copied. `Memory` comes if more share them than can be counted.
    #[inline(always)]
    pub(crate) fn share(&self) -> Result<Shared, Memory>
        ensures { IfOk result (λ s. s ≡ self.now) }
    {
        Ok(Shared {
            intervals: Arc::try_clone(&self.intervals)?,
        })
    }
}
