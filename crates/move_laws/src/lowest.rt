//! The refusal with the lowest number.

ghost use Rattle.std.specs.Prelude.{◌≡◌, ◌<◌, ℕ, Bool, List, None, Some, slice_get, true};
ghost use Rattle.move_laws.specs.Prelude.{BookState, Case, Check, CoordsCommand, GtidCommand, MatchCommand, Refusal, World, check_number, first_refusal};
ghost use Rattle.move_laws.specs.Prelude.{last_row_of, number_of, refusal_by, row_of as gtid_row_of};
ghost use Rattle.move_laws.specs.Prelude.Permits.{row_of};
ghost use Rattle.move_laws.specs.Prelude.PseudoMatch.{row_of as match_row_of};
ghost use Rattle.move_laws.specs.Numbers.{rises_from};

/// What a row of checks answers: nothing exactly if each check passes, else the refusal of one of its checks. If the
/// row's numbers rise, each check of a lower number passes. A check's refusal has the check's number.
pub fn rows_answer_the_lowest()
    ensures number { (w : World) (b : BookState) (c : Case) (check : Check) (r : Refusal) →
        refusal_by w b c check ≡ Some r → number_of r ≡ check_number check }
    ensures passes { (w : World) (b : BookState) (c : Case) (row : List Check) (k : ℕ)
        (check : Check) →
        first_refusal w b c row ≡ None → slice_get row k ≡ Some check
        → refusal_by w b c check ≡ None }
    ensures refuses { (w : World) (b : BookState) (c : Case) (row : List Check) (r : Refusal) →
        first_refusal w b c row ≡ Some r →
        (k : ℕ) × (check : Check) × (slice_get row k ≡ Some check)
        × (refusal_by w b c check ≡ Some r) }
    ensures lowest { (w : World) (b : BookState) (c : Case) (from : ℕ) (row : List Check)
        (r : Refusal) (k : ℕ)
        (check : Check) →
        rises_from from row ≡ true → first_refusal w b c row ≡ Some r
        → slice_get row k ≡ Some check →
        check_number check < number_of r → refusal_by w b c check ≡ None }
{}

/// The numbers of each row rise, from above that of an unknown instance on, which is tested before them.
pub fn numbers_rise()
    ensures { (gtids : Bool) (command : CoordsCommand)
        → rises_from 2 (row_of gtids command) ≡ true }
{}

/// So do those of the rows of commands by GTIDs.
pub fn gtid_numbers_rise()
    ensures { (command : GtidCommand) → rises_from 2 (gtid_row_of command) ≡ true }
{}

/// So do those of the rows of commands by matches, and of the rows after their own checks.
pub fn match_numbers_rise()
    ensures row { (command : MatchCommand) → rises_from 2 (match_row_of command) ≡ true }
    ensures last { (every : ℕ) (command : MatchCommand) →
        rises_from 30 (last_row_of every command) ≡ true }
{}
