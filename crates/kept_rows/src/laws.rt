//! What holds of kept rows.

ghost use Rattle.std.specs.Prelude.{◌≡◌, ◌==◌, ℕ, List, None, Some, fold, is_some, true, if◌then◌else◌};
ghost use Rattle.kept_rows.specs.declared.recovery.Recovery.{Recovery};
ghost use Rattle.kept_rows.specs.declared.recovery.RecoveryRow.{RecoveryRow};
ghost use Rattle.kept_rows.specs.declared.row.Row.{Row};
ghost use Rattle.kept_rows.specs.declared.row.Table.{Table};
ghost use Rattle.kept_rows.specs.declared.row.Key.{Key};
ghost use Rattle.kept_rows.specs.declared.row.Change.{Change};
ghost use Rattle.kept_rows.specs.Ranges.{IsKeyInRange};
ghost use Rattle.kept_rows.specs.Recoveries.{as_recovery, as_row};
ghost use Rattle.kept_rows.specs.Rows.{sort_key, sort_key_of, row_at, put, remove, changed, map_of, row_after, last_at, IsRising};

/// Kept rows are a finite map. A row that is put is at its table and key, one that is removed isn't, and all others are
/// as before. So changes make the map with these changes. The list of the rows stays in rising order.
pub fn rows_are_a_map()
    ensures put { (rows : List Row) (r : Row) (t : Table) (k : Key)
        → row_at (put rows r) t k
        ≡ (if sort_key_of r == sort_key t k then Some r else row_at rows t k) }
    ensures remove { (rows : List Row) (u t : Table) (l k : Key)
        → row_at (remove rows u l) t k
        ≡ (if sort_key u l == sort_key t k then None else row_at rows t k) }
    ensures changed { (rows : List Row) (changes : List Change) (t : Table) (k : Key)
        → row_at (changed rows changes) t k
        ≡ fold (row_after (sort_key t k)) (row_at rows t k) changes }
    ensures rising { (rows : List Row) (changes : List Change) → IsRising rows
        → IsRising (changed rows changes) }
{}

/// The map of any list of rows: of two with one table and key the last counts.
pub fn last_row_stands()
    ensures rising { (rows : List Row) → IsRising (map_of rows) }
    ensures last { (rows : List Row) (t : Table) (k : Key)
        → row_at (map_of rows) t k ≡ last_at (sort_key t k) rows }
{}

/// Rows in rising order are determined by their look-ups: two such lists with the same row at every table and key are
/// equal.
pub fn same_look_ups_same_rows()
    ensures { (xs ys : List Row) → IsRising xs → IsRising ys
        → ((t : Table) (k : Key) → row_at xs t k ≡ row_at ys t k) → xs ≡ ys }
{}

/// Different tables or keys have different sort keys.
pub fn sort_keys_differ()
    ensures { (t u : Table) (k l : Key) → IsKeyInRange k → IsKeyInRange l
        → sort_key t k ≡ sort_key u l → (t ≡ u) × (k ≡ l) }
{}

/// A recovery is what its row keeps, whatever period is asked for; and a row that has a block period is the row of the
/// recovery that it keeps.
pub fn recoveries_are_kept()
    ensures read { (period : ℕ) (r : Recovery) → as_recovery period (as_row r) ≡ r }
    ensures kept { (period : ℕ) (k : RecoveryRow) → is_some k.block ≡ true
        → as_row (as_recovery period k) ≡ k }
{}
