//! Whom a recovery changes.

ghost use Rattle.std.specs.Prelude.{ℕ};
ghost use Rattle.recovery_laws.specs.Prelude.{BookState, HasLeases, Leases, Moment as AMoment, Recovery, World, taken};
ghost use Rattle.recovery_laws.specs.LeasedRecoveries.{LeasedRecovery, KeepsLeased};

/// A turn of a recovery changes only servers that are leased to it: its replicas, and in a takeover the master. So its
/// job has what leases it needs.
pub fn recoveries_keep_to_their_leases()
    ensures taken { (l : Leases) (id : ℕ) (w : World) (b : BookState) (read : ℕ) (now : AMoment)
        (r : Recovery) →
        LeasedRecovery l id r → KeepsLeased l id (taken w b read now r) }
    ensures job { (l : Leases) (id : ℕ) (r : Recovery) → LeasedRecovery l id r →
        HasLeases l r.core }
{}
