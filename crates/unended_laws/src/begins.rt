//! Unended jobs that begin.

ghost use Rattle.std.specs.Prelude.{◌∷◌, ◌++◌, ℕ, All, List, []};
ghost use Rattle.unended_laws.specs.Prelude.{Beginning, Docket as ADocket, Flight, IsAny, IsListOf, Leases, MayPass, Means as AMeans};
ghost use Rattle.unended_laws.specs.Prelude.{NamesLogging, Purpose as APurpose, Recovery, ServerNo as Number, Unended as AnUnended, World, begun_recovery, core_of};
ghost use Rattle.unended_laws.specs.Prelude.{leased_to, number_of, passed};
ghost use Rattle.unended_laws.specs.Beside.{IsHeldBeside, IsSoundBeside};
ghost use Rattle.unended_laws.specs.Flights.{HeldJobs, SoundJobs};
ghost use Rattle.unended_laws.specs.Passages.{IsListed};

/// A job that begins with `Held` and `Sound`, and with the leases of a list, leaves all with both, itself too.
pub fn unended_jobs_begin()
    ensures held { (f : Flight) (us : List AnUnended) (list : List Number) (u : AnUnended) →
        MayPass f (Beginning list (core_of u)) →
        IsHeldBeside f.world (leased_to f.leases list (number_of u)) u → HeldJobs f us →
        HeldJobs (passed f (Beginning list (core_of u))) (us ++ u ∷ []) }
    ensures sound { (f : Flight) (us : List AnUnended) (list : List Number) (u : AnUnended) →
        MayPass f (Beginning list (core_of u)) → IsSoundBeside f.world u → HeldJobs f us →
        SoundJobs f us → SoundJobs (passed f (Beginning list (core_of u))) (us ++ u ∷ []) }
{}

/// A recovery begins so, if the list has its replicas, and in a takeover the master and the replica that is to take its
/// place. The new source that is named must log.
pub fn recoveries_begin_beside()
    ensures held { (w : World) (l : Leases) (list : List Number) (u : APurpose) (by : AMeans)
        (id wait : ℕ) (f : Number)
        (replicas order : List Number) (docket : ADocket) →
        All (λ n. IsListed list n.0) replicas → IsListOf (IsListed list) IsAny u f →
        NamesLogging w u → IsHeldBeside w (leased_to l list id)
        (Recovery (begun_recovery u by id wait f replicas order) docket) }
    ensures sound { (w : World) (u : APurpose) (by : AMeans) (id wait : ℕ) (f : Number)
        (replicas order : List Number) (docket : ADocket) →
        IsSoundBeside w (Recovery (begun_recovery u by id wait f replicas order) docket) }
{}
