//! Recoveries that begin.

ghost use Rattle.std.specs.Prelude.{◌∷◌, ◌++◌, ℕ, List, []};
ghost use Rattle.unended_laws.specs.Prelude.{AreReplicas, Beginning, Docket as ADocket, Flight, Means as AMeans, Purpose as APurpose, ServerNo as Number};
ghost use Rattle.unended_laws.specs.Prelude.{Unended as AnUnended, World, begun_recovery, core_of, passed};
ghost use Rattle.unended_laws.specs.Prelude.unended.{Recovery};
ghost use Rattle.unended_laws.specs.CoveredBeside.{IsCoveredBeside, IsKeptBeside, IsSpeakingBeside};
ghost use Rattle.unended_laws.specs.CoveredFlights.{CoveredJobs, KeptJobs, SpeakingJobs};

/// A job that begins changes no server: it leaves all covered and kept, itself too if it begins so.
pub fn covered_jobs_begin()
    ensures covered { (f : Flight) (us : List AnUnended) (list : List Number) (u : AnUnended) →
        IsCoveredBeside f.world u → CoveredJobs f us →
        CoveredJobs (passed f (Beginning list (core_of u))) (us ++ u ∷ []) }
    ensures kept { (f : Flight) (us : List AnUnended) (list : List Number) (u : AnUnended) →
        IsKeptBeside f.world u → KeptJobs f us →
        KeptJobs (passed f (Beginning list (core_of u))) (us ++ u ∷ []) }
    ensures speaking { (us : List AnUnended) (u : AnUnended) → IsSpeakingBeside u →
        SpeakingJobs us → SpeakingJobs (us ++ u ∷ []) }
{}

/// A recovery begins so, if none of its replicas is named twice.
pub fn recoveries_begin_covered_beside()
    ensures covered { (w : World) (u : APurpose) (by : AMeans) (id wait : ℕ) (f : Number)
        (replicas order : List Number) (docket : ADocket) →
        AreReplicas u f replicas →
        IsCoveredBeside w (Recovery (begun_recovery u by id wait f replicas order) docket) }
    ensures kept { (w : World) (u : APurpose) (by : AMeans) (id wait : ℕ) (f : Number)
        (replicas order : List Number) (docket : ADocket) →
        IsKeptBeside w (Recovery (begun_recovery u by id wait f replicas order) docket) }
    ensures speaking { (u : APurpose) (by : AMeans) (id wait : ℕ) (f : Number)
        (replicas order : List Number) (docket : ADocket) →
        IsSpeakingBeside (Recovery (begun_recovery u by id wait f replicas order) docket) }
{}
