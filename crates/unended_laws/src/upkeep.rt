//! What recoveries keep up: the appliers of those that follow, and the old master that takes no writes.

ghost use Rattle.std.specs.Prelude.{◌≡◌, ℕ, Bool, List, Option, All, Some, true};
ghost use Rattle.unended_laws.specs.Prelude.{BookState, Decisions, Docket as ADocket, Exchange, ExplainsTruly, Fact, Flight, IsLeased, LeasedRecovery, Line as ALine};
ghost use Rattle.unended_laws.specs.Prelude.{Means as AMeans, Moment as AMoment, Observation as Reading, Purpose as APurpose, ServerNo as Number};
ghost use Rattle.unended_laws.specs.Prelude.{Unended as AnUnended, World, after, begun_recovery, flown, ground_of, is_going, is_outside, job_at, jobs_turned, option_map};
ghost use Rattle.unended_laws.specs.Prelude.{passing, run, server_of};
ghost use Rattle.unended_jobs.specs.RecoveryPlans.Recoveries.{Recovery};
ghost use Rattle.unended_laws.specs.Flights.{HeldJobs};
ghost use Rattle.unended_laws.specs.Passages.{passages_by};
ghost use Rattle.unended_laws.specs.Prelude.unended;
ghost use Rattle.unended_laws.specs.CoveredFlights.{CoveredJobs, SpeakingJobs};
ghost use Rattle.unended_laws.specs.Turns.{IsDoneIn, RecoveryTurn, recovery_then, taken_in, world_then};
ghost use Rattle.unended_laws.specs.Resting.{RestsSoFar};
ghost use Rattle.unended_laws.specs.Upkeep.{ClosesFirst, IsNeverInterfered, KeepsUp, OpensAlone, UpJobs, UpSoFar};

/// A recovery begins so that it keeps up what it is to, over any servers. Between its turns exchanges that are no
/// orchestrator's leave it so, and so do turns of other jobs, if its servers are leased to it.
pub fn upkeep_lasts()
    ensures begun { (P : Fact → Bool) (w : World) (u : APurpose) (by : AMeans) (id wait : ℕ)
        (f : Number) (replicas order : List Number) →
        UpSoFar P w (begun_recovery u by id wait f replicas order) }
    ensures outside { (P : Fact → Bool) (w : World) (e : Exchange) (r : Recovery) →
        is_outside e ≡ true → UpSoFar P w r → UpSoFar P (after w e) r }
    ensures others { (P : Fact → Bool) (l : ℕ → Option ℕ) (id mine : ℕ) (w : World)
        (es : List Exchange) (r : Recovery) →
        All (λ e. IsLeased l id (server_of e)) es → (id ≡ mine → ⊥) → LeasedRecovery l mine r →
        UpSoFar P w r → UpSoFar P (run w es) r }
{}

/// A recovery begins so that its replicas rest where they are expected, over any servers. Between its turns exchanges
/// that are no orchestrator's leave it so, and so do turns of other jobs, if its servers are leased to it.
pub fn replicas_rest()
    ensures begun { (w : World) (u : APurpose) (by : AMeans) (id wait : ℕ) (f : Number)
        (replicas order : List Number) →
        RestsSoFar w (begun_recovery u by id wait f replicas order) }
    ensures outside { (w : World) (e : Exchange) (r : Recovery) →
        is_outside e ≡ true → RestsSoFar w r → RestsSoFar (after w e) r }
    ensures others { (l : ℕ → Option ℕ) (id mine : ℕ) (w : World) (es : List Exchange)
        (r : Recovery) →
        All (λ e. IsLeased l id (server_of e)) es → (id ≡ mine → ⊥) → LeasedRecovery l mine r →
        RestsSoFar w r → RestsSoFar (run w es) r }
{}

/// The turn of a job's number leaves the recovery of this number up, and its replicas at rest, if each fact that is
/// true in a turn of it counts. The turn in which it is done leaves its followers running, and a takeover's old master
/// closed. In a master's place it has read the promoted server last, without a source, and before that a takeover's
/// old master, below that one. A turn after which a takeover goes on changes nothing before its master is closed. No
/// turn finds a replica that goes below its new source at another position than the one at which it was stopped. The
/// master that a takeover has closed has no source, until it is below the designated one.
pub fn upkept_jobs_take_turns()
    ensures turned { (P : Fact → Bool) (mine : ℕ) (f : Flight) (us : List AnUnended) (b : BookState)
        (id read : ℕ) (now : AMoment) (keeps : Option Reading → Bool) →
        f.rings ≡ b.rings → HeldJobs f us → CoveredJobs f us → SpeakingJobs us →
        ((r : Recovery) (docket : ADocket) → job_at us id ≡ Some (unended.Recovery r docket) →
        r.core.id ≡ mine → ExplainsTruly f.world b now r P) →
        UpJobs P mine f us →
        UpJobs P mine (passing f (passages_by f.world b read now keeps id (job_at us id)))
        (jobs_turned us id (option_map (flown f.world b read now) (job_at us id))) }
    ensures done { (P : Fact → Bool) (mine : ℕ) (f : Flight) (us : List AnUnended)
        (t : RecoveryTurn f us) (lines : List ALine) →
        HeldJobs f us → CoveredJobs f us → SpeakingJobs us →
        ExplainsTruly f.world t.book t.at_moment t.recovery P → UpJobs P mine f us →
        t.recovery.core.id ≡ mine → IsDoneIn f us t lines →
        KeepsUp P (world_then f us t) (recovery_then f us t) }
    ensures closes { (P : Fact → Bool) (mine : ℕ) (f : Flight) (us : List AnUnended)
        (t : RecoveryTurn f us) →
        HeldJobs f us → CoveredJobs f us → SpeakingJobs us →
        ExplainsTruly f.world t.book t.at_moment t.recovery P → UpJobs P mine f us →
        t.recovery.core.id ≡ mine → is_going (taken_in f us t).step ≡ true →
        All (ClosesFirst f.world t.recovery) (taken_in f us t).exchanges }
    ensures finds { (P : Fact → Bool) (mine : ℕ) (f : Flight) (us : List AnUnended)
        (t : RecoveryTurn f us) (d : Recovery) →
        HeldJobs f us → CoveredJobs f us → SpeakingJobs us →
        ExplainsTruly f.world t.book t.at_moment t.recovery P → UpJobs P mine f us →
        t.recovery.core.id ≡ mine →
        Decisions (ground_of f.world t.book t.at_moment) t.recovery d →
        IsNeverInterfered f.world d }
    ensures stands { (P : Fact → Bool) (mine : ℕ) (f : Flight) (us : List AnUnended)
        (t : RecoveryTurn f us) (d : Recovery) →
        HeldJobs f us → CoveredJobs f us → SpeakingJobs us →
        ExplainsTruly f.world t.book t.at_moment t.recovery P → UpJobs P mine f us →
        t.recovery.core.id ≡ mine →
        Decisions (ground_of f.world t.book t.at_moment) t.recovery d →
        OpensAlone f.world d }
{}
