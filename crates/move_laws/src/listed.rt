//! The listing of clusters, and the lines of a scan.

ghost use Rattle.std.specs.Prelude.{ℕ};
ghost use Rattle.move_laws.specs.Prelude.{Attempt as AnAttempt, AuditState, BookState, ServerNo as Number, World, actionable_in, clusters_of, scanned};
ghost use Rattle.move_laws.specs.Clusters.{ListsEachOnce};
ghost use Rattle.move_laws.specs.Tries.{AreTries};

/// The clusters of a book are listed by their labels, each once: that of each instance's cluster, and no other.
pub fn clusters_are_listed_once()
    ensures { (b : BookState) → ListsEachOnce b (clusters_of b) }
{}

/// A scan has a line for each instance whose analysis asks for a recovery, tried on the leases and the audit that those
/// before it left. It begins exactly if no check of the permission table refuses it. A refused one has the refusal with
/// the lowest number.
pub fn scans_refuse_by_the_table()
    ensures { (w : World) (b : BookState) (audit : AuditState) (by : Number → AnAttempt)
        (wait last : ℕ) →
        AreTries (record { world = w; book = b; by = by })
        (record { leases = b.leases; audit = audit; last = last }) (actionable_in b)
        (scanned w b audit by wait last).begun (scanned w b audit by wait last).lines }
{}
