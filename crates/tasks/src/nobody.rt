//! A row store that keeps nothing.

ghost use Rattle.std.specs.Prelude.{None};
ghost use Rattle.tasks.specs.Prelude.{HasKeeperCause, KeepsAll};

use crate::instance_keeper_items::{Change, Keeper, KeeperFault, Row};
use crate::orch_base::Name;
use std::alloc::Global;

/// A row store that keeps nothing and has no known rows. None of its calls fails.
#[derive(Clone, Copy)]
pub(crate) struct Nobody;

impl Keeper for Nobody {
    ghost kept = { λ k. None };

    ghost faults = { λ k. 0 };

    fn keep(
        &mut self,
        _alloc: Global,
        _names: &[Name],
        _changes: &[Change],
    ) -> Result<(), KeeperFault>
        ensures kept { KeepsAll None None _changes.now result }
        ensures cause { HasKeeperCause 0 0 result }
    {
        Ok(())
    }

    fn rows(&mut self, alloc: Global, _names: &[Name]) -> Result<Vec<Row>, KeeperFault>
        ensures cause { HasKeeperCause 0 0 result }
    {
        Ok(Vec::new(alloc))
    }
}
