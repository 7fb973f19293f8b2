//! Rows on the heap.

ghost use Rattle.std.specs.Prelude.{◌≡◌, IfOk, OnErr, OnOk};
ghost use Rattle.kept_rows.specs.Rows.{key_of, table_of};

use crate::Memory;
use crate::row::{Change, Key, Row, SortKey, Table};
use std::alloc::Global;
use std::marker::Model;

/// A row on the heap: little moves in a list of them where one comes or goes. Contracts see it as that row.
#[derive(Drop)]
pub(crate) struct BoxedRow {
    row: Box<Row>,
}

impl Model for BoxedRow {
    ghost use Rattle.std.specs.Prelude.{box_value};
    ghost use Rattle.kept_rows.specs.declared.row.Row.{Row as ARow};

    ghost Value = { ARow };

    ghost view = { λ r. box_value r.row };
}

impl BoxedRow {
    /// This row. `Err` means out of memory.
    pub(crate) fn new(alloc: Global, row: Row) -> Result<BoxedRow, Memory>
        ensures { IfOk result (λ r. r ≡ row) }
    {
        Ok(BoxedRow {
            row: Box::new(alloc, row)?,
        })
    }

    /// The row.
    #[inline(always)]
    pub(crate) fn as_row(&self) -> &Row
        ensures { result.now ≡ self.now }
    {
        &self.row
    }

    /// The row's table and its key there.
    #[inline(always)]
    pub(crate) fn sort_key(&self) -> SortKey
        ensures { result ≡ record { table = table_of self.now; key = key_of self.now } }
    {
        self.row.sort_key()
    }

    /// Becomes the same as the other row. If memory runs out, it stays as it was.
    #[inline(always)]
    pub(crate) fn set_to(&mut self, alloc: Global, other: &Row) -> Result<(), Memory>
        ensures ok { OnOk result (self.new ≡ other.now) }
        ensures err { OnErr result (self.new ≡ self.old) }
    {
        self.row.set_to(alloc, other)
    }

    /// The row, no longer on the heap.
    pub(crate) fn into_row(self) -> Row
        ensures { result ≡ self }
    {
        let BoxedRow { row } = self;
        Box::into_inner(row)
    }
}

/// A change with its row on the heap, so that it is made without memory. Contracts see it as that change.
#[derive(Drop)]
pub(crate) struct Edit {
    /// The row that is put. None if one is removed.
    pub(crate) put: Option<BoxedRow>,
    pub(crate) table: Table,
    pub(crate) key: Key,
}

impl Model for Edit {
    ghost use Rattle.kept_rows.specs.Edits.{edit_by};
    ghost use Rattle.kept_rows.specs.declared.row.Change.{Change as AChange};

    ghost Value = { AChange };

    ghost view = { λ e. edit_by e.put e.table e.key };
}

impl Edit {
    /// A copy of this change. `Err` means out of memory.
    pub(crate) fn of(alloc: Global, change: &Change) -> Result<Edit, Memory>
        ensures { IfOk result (λ e. e ≡ change.now) }
    {
        Ok(match change {
            Change::Put(row) => Edit {
                put: Some(BoxedRow::new(alloc, row.copy(alloc)?)?),
                table: row.table(),
                key: row.key(),
            },
            Change::Remove(table, key) => Edit {
                put: None,
                table: *table,
                key: *key,
            },
        })
    }
}
