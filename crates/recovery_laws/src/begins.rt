//! Recoveries that begin.

ghost use Rattle.std.specs.Prelude.{ℕ, All, List};
ghost use Rattle.recovery_laws.specs.Prelude.{IsLeased, Leases, Means as AMeans, Purpose as APurpose, ServerNo as Number, World, begun_recovery};
ghost use Rattle.recovery_laws.specs.HeldRecoveries.{HeldRecovery, NamesLogging};
ghost use Rattle.recovery_laws.specs.SoundRecoveries.{SoundRecovery};
ghost use Rattle.recovery_laws.specs.LeasedRecoveries.{LeasedRecovery, IsLeasedList};

/// A recovery begins with `Held` if the new source that is named logs, and with `Sound`, over any servers. It keeps to
/// its leases if its replicas are leased to it, and in a takeover the master and the replica that is to take its place.
pub fn recoveries_begin()
    ensures held { (w : World) (u : APurpose) (by : AMeans) (id wait : ℕ) (f : Number)
        (replicas order : List Number) →
        NamesLogging w u → HeldRecovery w (begun_recovery u by id wait f replicas order) }
    ensures sound { (w : World) (u : APurpose) (by : AMeans) (id wait : ℕ) (f : Number)
        (replicas order : List Number) →
        SoundRecovery w (begun_recovery u by id wait f replicas order) }
    ensures leased { (l : Leases) (u : APurpose) (by : AMeans) (id wait : ℕ) (f : Number)
        (replicas order : List Number) →
        All (λ n. IsLeased l id n.0) replicas → IsLeasedList l id u f →
        LeasedRecovery l id (begun_recovery u by id wait f replicas order) }
{}
