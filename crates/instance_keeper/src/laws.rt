//! What holds of a book and its kept rows.

ghost use Rattle.std.specs.Prelude.{◌≡◌, ◌<◌, true, length, option_map};
ghost use Rattle.instance_keeper.specs.Prelude.{Change, IsInRange, IsRising, Row, ServerNo, changed_by, fits, row_at};
ghost use Rattle.instance_keeper.specs.Prelude.key;
ghost use Rattle.instance_keeper.specs.Prelude.row;
ghost use Rattle.instance_keeper.specs.Prelude.table;
ghost use Rattle.instance_keeper.specs.Book.{BookState, IsBook, after_change, after_put, book_rows, instance_at};
ghost use Rattle.instance_keeper.specs.Had.{has_row};

/// The kept rows of a book rise by table, then key, and change with the book: after a change that fits they are the
/// rows with this change.
pub fn rows_follow_the_book()
    ensures rising { (b : BookState) → IsBook b → IsRising (book_rows b) }
    ensures changed { (b : BookState) (c : Change) → IsBook b → fits (length b.names) c ≡ true
        → IsInRange c → book_rows (after_change b c) ≡ changed_by (book_rows b) c }
    ensures book { (b : BookState) (c : Change) → IsBook b → fits (length b.names) c ≡ true
        → IsBook (after_change b c) }
{}

/// A row that a book has changes nothing of it.
pub fn had_rows_change_nothing()
    ensures { (b : BookState) (r : Row) → has_row b r ≡ true → after_put b r ≡ b }
{}

/// What a book knows of a server is its row. The instance is the row of table instance under the server's number. There
/// is no such row exactly if the server is no instance.
pub fn instances_are_rows()
    ensures { (b : BookState) (n : ServerNo) → IsBook b → n.0 < length b.names
        → row_at (book_rows b) table.Instance (key.Server n)
        ≡ option_map row.Instance (instance_at b n) }
{}
