//! The kept rows of a live run: they are in memory, and their row store never fails.

ghost use Rattle.std.specs.Prelude.{◌≡◌, [], Some, IfOk};
ghost use Rattle.orch_core.specs.KeptRows.Keeping.{GivesAll, HasKeeperCause, KeepsAll};

use crate::kept_rows_items::{Change, Keeper, KeeperFault, MemKeeper, Row};
use crate::orch_base::{Memory, Name};
use std::alloc::Global;
use std::marker::Model;

/// Rows in memory, which contracts see as their list. None of its calls fails.
#[derive(Drop)]
pub(crate) struct DeskRows {
    keeper: MemKeeper,
}

impl Model for DeskRows {
    ghost use Rattle.std.specs.Prelude.{◌≡◌, [], List};
    ghost use Rattle.orch_core.specs.KeptRows.declared.row.Row.{Row as ARow};

    ghost Value = { List ARow };

    ghost view = { λ k. k.keeper.rows };

    ghost invariant = { λ k. k.keeper.fail_at ≡ [] };
}

impl DeskRows {
    /// No rows.
    pub(crate) fn new(alloc: Global) -> Result<DeskRows, Memory>
        ensures { IfOk result (λ k. k ≡ []) }
    {
        let keeper = MemKeeper::new(alloc, Vec::new(alloc), Vec::new(alloc))?;
        Ok(DeskRows { keeper })
    }
}

impl DeskRows {
    /// Copies of the rows, in rising order.
    #[tactic(auto, using(crate::proofs::Unfailing::never_fails, crate::proofs::Unfailing::after_unfailing))]
    pub(crate) fn copied(&mut self, alloc: Global) -> Result<Vec<Row>, Memory>
        ensures { IfOk result (λ v. v.items ≡ self.old) }
    {
        match self.keeper.rows(alloc, &[]) {
            Ok(rows) => Ok(rows),
            Err(KeeperFault::Memory) => Err(Memory),
            Err(KeeperFault::Failed) => unreachable!(),
        }
    }
}

impl Keeper for DeskRows {
    ghost kept = { λ k. Some k };

    ghost faults = { λ k. 0 };

    #[tactic(auto, using(crate::proofs::Unfailing::never_fails, crate::proofs::Unfailing::after_unfailing))]
    fn keep(&mut self, alloc: Global, names: &[Name], changes: &[Change]) -> Result<(), KeeperFault>
        ensures kept { KeepsAll (Some self.old) (Some self.new) changes.now result }
        ensures cause { HasKeeperCause 0 0 result }
    {
        match self.keeper.keep(alloc, names, changes) {
            Ok(()) => Ok(()),
            Err(KeeperFault::Memory) => Err(KeeperFault::Memory),
            Err(KeeperFault::Failed) => unreachable!(),
        }
    }

    #[tactic(auto, using(crate::proofs::Unfailing::never_fails, crate::proofs::Unfailing::after_unfailing))]
    fn rows(&mut self, alloc: Global, names: &[Name]) -> Result<Vec<Row>, KeeperFault>
        ensures told { IfOk result (λ given. GivesAll (Some self.old) given.items) }
        ensures same { Some self.new ≡ Some self.old }
        ensures cause { HasKeeperCause 0 0 result }
    {
        match self.keeper.rows(alloc, names) {
            Ok(rows) => Ok(rows),
            Err(KeeperFault::Memory) => Err(KeeperFault::Memory),
            Err(KeeperFault::Failed) => unreachable!(),
        }
    }
}
