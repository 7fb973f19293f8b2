//! The text of a row.

ghost use Rattle.std.specs.Prelude.{◌≡◌, ◌++◌, List, OnErr, OnOk, Some, is_some, length, true};
ghost use Rattle.row_texts.specs.Prelude.{Gives, HostPort, Table, are_known, key_of, servers_of};
ghost use Rattle.row_texts.specs.Fields.{fault_of};
ghost use Rattle.row_texts.specs.Reading.{read_row, table_at, value_of};
ghost use Rattle.row_texts.specs.Written.{key_text, row_data, row_text};

use crate::fault::RowFault;
use crate::key::{KeyText, TableNumber};
use crate::orch_base::{Memory, Name};
use crate::reading::read_row;
use crate::write::row_value;
use kept_rows::{Row, Table};
use std::alloc::Global;

/// The text of a row, in which servers have their names: compact JSON, an object of the list of its fields, `f`, and
/// its version, `v`.
pub trait RowText: Sized {
    /// The servers that the row names are known.
    ghost has_names: { List HostPort → Self → Type 0 };

    /// Appends the row's text, or nothing if memory runs out. It has the latest version of its table, except that a
    /// recovery without a block has version 1. The names are those of the servers by number.
    fn text(&self, names: &[Name], out: &mut Vec<u8>) -> Result<(), Memory>
        requires { has_names names.now self.now };

    /// Appends the text of the row's key, or nothing if memory runs out. The names are those of the servers by number.
    fn key_text(&self, names: &[Name], out: &mut Vec<u8>) -> Result<(), Memory>
        requires { has_names names.now self.now };

    /// The row of the table of a number, 1 to 6, that a text is at this key. The names are those of the servers by
    /// number. The fault is the first that the text and the key have, in the order of `RowFault`.
    fn read(
        alloc: Global,
        table: u8,
        key: &str,
        text: &[u8],
        names: &[Name],
    ) -> Result<Self, RowFault>
        requires { is_some (table_at table) ≡ true };
}

impl RowText for Row {
    ghost has_names = { λ names r. are_known (length names) (servers_of r) ≡ true };

    #[tactic(auto, using(crate::proofs::Texts::no_float), unfolding(crate::specs::Written::row_text))]
    fn text(&self, names: &[Name], out: &mut Vec<u8>) -> Result<(), Memory>
        requires { are_known (length names.now) (servers_of self.now) ≡ true }
        ensures ok { OnOk result (out.new.items ≡ out.old.items ++ row_text names.now self.now) }
        ensures err { OnErr result (out.new.items ≡ out.old.items) }
        ensures value { OnOk result
            (value_of (row_text names.now self.now) ≡ Some (row_data names.now self.now)) }
    {
        let alloc = *out.allocator();
        let value = row_value(alloc, names, self)?;
        let text = value.to_string(alloc)?;
        out.extend_from_slice(text.as_str().as_bytes())
    }

    #[tactic(auto, using(crate::proofs::Known::key_known))]
    fn key_text(&self, names: &[Name], out: &mut Vec<u8>) -> Result<(), Memory>
        requires { are_known (length names.now) (servers_of self.now) ≡ true }
        ensures ok { OnOk result
            (out.new.items ≡ out.old.items ++ key_text names.now (key_of self.now)) }
        ensures err { OnErr result (out.new.items ≡ out.old.items) }
    {
        self.key().text(names, out)
    }

    fn read(
        alloc: Global,
        table: u8,
        key: &str,
        text: &[u8],
        names: &[Name],
    ) -> Result<Row, RowFault>
        requires { is_some (table_at table) ≡ true }
        ensures { (t : Table) → table_at table ≡ Some t →
            Gives (λ r. r) fault_of result (read_row t names.now key.now text.now) }
    {
        match Table::of_number(table) {
            Some(table) => read_row(alloc, table, key, text, names),
            None => unreachable!(),
        }
    }
}
