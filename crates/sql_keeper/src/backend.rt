//! The places of rows.

ghost use Rattle.std.specs.Prelude.{◌≡◌};
ghost use Rattle.sql_keeper.specs.Backends.{faults_in, kept_in};

use crate::orch_base::Name;
use crate::sql::SqlKeeper;
use kept_rows::{Change, Keeper, KeeperFault, MemKeeper, Row};
use std::alloc::Global;

/// The place of kept rows: in memory, or in a database file.
#[derive(Drop)]
pub enum Backend {
    Memory(MemKeeper),
    File(SqlKeeper),
}

impl Backend {
    /// Closes the file, if there is one.
    pub fn close(self) {
        match self {
            Backend::Memory(_) => {}
            Backend::File(keeper) => keeper.close(),
        }
    }
}

impl Keeper for Backend {
    ghost kept = { λ b. kept_in b };

    ghost faults = { λ b. faults_in b };

    fn keep(
        &mut self,
        alloc: Global,
        names: &[Name],
        changes: &[Change],
    ) -> Result<(), KeeperFault> {
        match self {
            Backend::Memory(keeper) => keeper.keep(alloc, names, changes),
            Backend::File(keeper) => keeper.keep(alloc, names, changes),
        }
    }

    fn rows(&mut self, alloc: Global, names: &[Name]) -> Result<Vec<Row>, KeeperFault> {
        match self {
            Backend::Memory(keeper) => keeper.rows(alloc, names),
            Backend::File(keeper) => keeper.rows(alloc, names),
        }
    }
}
