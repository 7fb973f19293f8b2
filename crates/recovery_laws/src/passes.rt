//! Recoveries among other jobs.

ghost use Rattle.std.specs.Prelude.{ℕ};
ghost use Rattle.recovery_laws.specs.Prelude.{BookState, Flight, Held, MayTake, Moment as AMoment, Recovery, Sound, TakesWell, taken};
ghost use Rattle.recovery_laws.specs.HeldRecoveries.{HeldRecovery};
ghost use Rattle.recovery_laws.specs.LeasedRecoveries.{LeasedRecovery};
ghost use Rattle.recovery_laws.specs.Passing.{as_turn};
ghost use Rattle.recovery_laws.specs.Rings.{HeldRings, SoundRings};
ghost use Rattle.recovery_laws.specs.SoundRecoveries.{SoundRecovery};

/// The turn of a recovery is one that servers with jobs may take. It keeps what the turn of a job by its operations
/// does, and with `Sound` owes nothing more.
pub fn recoveries_pass()
    ensures may { (f : Flight) (b : BookState) (id read : ℕ) (now : AMoment) (r : Recovery) →
        Held f → HeldRings f.world b.rings → HeldRecovery f.world r → LeasedRecovery f.leases id r →
        MayTake f id (as_turn id (taken f.world b read now r)) }
    ensures well { (f : Flight) (b : BookState) (id read : ℕ) (now : AMoment) (r : Recovery) →
        Held f → HeldRings f.world b.rings → HeldRecovery f.world r → Sound f →
        SoundRings f.world b.rings → SoundRecovery f.world r →
        TakesWell f (as_turn id (taken f.world b read now r)) }
{}
