//! What the table and the analysis say, over their definitions alone.

ghost use Rattle.std.specs.Prelude.{◌≡◌, ◌↔◌, All, Bool, List, count_by, false, filter, length, map, true};
ghost use Rattle.instance_keeper.specs.Book.{BookState, IsBook};
ghost use Rattle.instance_keeper.specs.KeptRows.declared.observation.Instance.{Instance};
ghost use Rattle.instance_keeper.specs.NameOrder.NameOrder.{by_name};
ghost use Rattle.instance_keeper.specs.OrchBase.declared.code.Code.{Code as ACode};
ghost use Rattle.instance_keeper.specs.OrchBase.declared.server.ServerNo.{ServerNo};
ghost use Rattle.book_views.specs.Sources.{is_instance, replicas_of};
ghost use Rattle.failure_analysis.specs.Analysis.{analysis, count_of, counts_of, is_any};
ghost use Rattle.failure_analysis.specs.Table.{action_by, action_of, code_of, conditions, is_of_row, problems, AreCounts};
ghost use Rattle.failure_analysis.specs.declared.code.Counts.{Counts as SomeCounts};
ghost use Rattle.instance_keeper.specs.OrchBase.declared.code.Code.TheVariants.{NoProblem};

/// Exactly one of the table's rows applies to any counts: the rows exclude one another and leave nothing out. A row
/// whose condition holds gives the code. The last row is exactly for counts of which no condition holds.
pub fn one_row_applies()
    ensures one { (c : SomeCounts) → AreCounts c → count_by (λ b. b) (conditions c) ≡ 1 }
    ensures code { (c : SomeCounts) (code : ACode) → AreCounts c →
        is_of_row code c ≡ true → code_of c ≡ code }
    ensures otherwise { (c : SomeCounts) →
        (code_of c ≡ NoProblem) ↔ All (λ code. is_of_row code c ≡ false) problems }
{}

/// A recovery is asked for exactly if an instance wasn't reached, some of its replicas were, and none replicates. It is
/// one of an intermediate master if the instance has a source.
pub fn the_dead_are_recovered()
    ensures { (c : SomeCounts) → AreCounts c → action_of (code_of c) ≡ action_by c }
{}

/// The analysis of a book has one entry for each instance, in name order. Each count of an instance is a part of the
/// one before it, and the first is the number of its replicas.
pub fn each_instance_has_one_entry()
    ensures entries { (b : BookState) →
        map (λ e. e.no) (analysis b) ≡ filter (is_instance b) (by_name b.names) }
    ensures counts { (b : BookState) (n : ServerNo) (i : Instance) → AreCounts (counts_of b n i) }
    ensures replicas { (b : BookState) (n : ServerNo) → IsBook b →
        count_of is_any b.instances n ≡ length (replicas_of b n) }
{}
