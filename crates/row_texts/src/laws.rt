//! What texts read as which row.

ghost use Rattle.std.specs.Prelude.{◌≡◌, ◌↔◌, ℕ, List, Ok, Some};
ghost use Rattle.row_texts.specs.Prelude.{HostPort, Row, Table, key_of, table_number, table_of};
ghost use Rattle.row_texts.specs.Kept.{AreNames, CanBeKept, IsTextOf};
ghost use Rattle.row_texts.specs.Reading.{read_row, table_at};
ghost use Rattle.row_texts.specs.Written.{key_text};

use crate::binlog_coords_items::printed_reads;

/// A table's number is that table's.
pub fn table_numbers_read()
    ensures { (t : Table) → table_at (table_number t) ≡ Some t }
{}

/// The texts that read as a row that a book can have, in its table and at its key, are exactly those with the value
/// that is written for it. An instance has one value more, of version 1, if its log keeps all files.
pub fn texts_of_rows_read()
    ensures { (names : List HostPort) (r : Row) (text : List ℕ) →
        AreNames names → CanBeKept names r →
        (read_row (table_of r) names (key_text names (key_of r)) text ≡ Ok r)
        ↔ IsTextOf names r text }
{
    printed_reads();
}

/// What reads as a row of a table at a key is a row of that table with that key's text, and a book can hold it. Its
/// text has the row's value, whatever the names are.
pub fn read_rows_can_be_kept()
    ensures table { (t : Table) (names : List HostPort) (key text : List ℕ) (r : Row) →
        read_row t names key text ≡ Ok r → table_of r ≡ t }
    ensures key { (t : Table) (names : List HostPort) (key text : List ℕ) (r : Row) →
        read_row t names key text ≡ Ok r → key_text names (key_of r) ≡ key }
    ensures kept { (t : Table) (names : List HostPort) (key text : List ℕ) (r : Row) →
        read_row t names key text ≡ Ok r → CanBeKept names r }
    ensures value { (t : Table) (names : List HostPort) (key text : List ℕ) (r : Row) →
        read_row t names key text ≡ Ok r → IsTextOf names r text }
{
    printed_reads();
}
