//! Row stores.

ghost use Rattle.std.specs.Prelude.{◌≡◌, ℕ, List, Option, IfOk};
ghost use Rattle.kept_rows.specs.declared.row.Row.{Row};
ghost use Rattle.kept_rows.specs.Keeping.{GivesAll, HasKeeperCause, KeepsAll};

use crate::Memory;
use crate::orch_base::Name;
use crate::row::{Change, Row};
use std::alloc::Global;
use std::fmt;

/// Why a row store gave up.
#[derive(Clone, Copy, Debug, PartialEq, Eq)]
pub enum KeeperFault {
    /// The row store failed, and counted it.
    Failed,
    /// Out of memory.
    Memory,
}

impl From<Memory> for KeeperFault {
    ghost use Rattle.std.specs.Prelude.{◌≡◌};
    ghost use Rattle.kept_rows.specs.declared.keeper.KeeperFault.TheVariants.{Memory};

    ghost from_gives = { λ _ e. e ≡ Memory };

    fn from(_e: Memory) -> KeeperFault {
        KeeperFault::Memory
    }
}

impl fmt::Display for KeeperFault {
    fn fmt<W: fmt::Write>(&self, f: &mut fmt::Formatter<W>) -> fmt::Result {
        match self {
            KeeperFault::Failed => write!(f, "the keeper failed"),
            KeeperFault::Memory => write!(f, "out of memory"),
        }
    }
}

/// A row store, by the rows that it keeps in rising order, if they are known, and its count of faults, which never
/// falls.
pub trait Keeper {
    ghost kept: { Self → Option (List Row) };

    ghost faults: { Self → ℕ };

    /// Makes all the changes, one after another, or, at a fault, none. The names are those of the servers by number.
    /// `Failed` comes only if the count of faults rose.
    fn keep(&mut self, alloc: Global, names: &[Name], changes: &[Change]) -> Result<(), KeeperFault>
        ensures kept { KeepsAll (kept self.old) (kept self.new) changes.now result }
        ensures cause { HasKeeperCause (faults self.old) (faults self.new) result };

    /// Gives all rows, in any order, and changes none: of two with one table and key the last counts. The names are
    /// those of the servers by number. `Failed` comes only if the count of faults rose.
    fn rows(&mut self, alloc: Global, names: &[Name]) -> Result<Vec<Row>, KeeperFault>
        ensures told { IfOk result (λ given. GivesAll (kept self.old) given.items) }
        ensures same { kept self.new ≡ kept self.old }
        ensures cause { HasKeeperCause (faults self.old) (faults self.new) result };
}
