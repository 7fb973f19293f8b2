//! Recoveries while others take their turns.

ghost use Rattle.std.specs.Prelude.{ℕ};
ghost use Rattle.recovery_laws.specs.Prelude.{Flight, Held, MayPass, Passage, Recovery, passed};
ghost use Rattle.recovery_laws.specs.HeldRecoveries.{HeldRecovery};
ghost use Rattle.recovery_laws.specs.LeasedRecoveries.{LeasedRecovery};
ghost use Rattle.recovery_laws.specs.SoundRecoveries.{SoundRecovery};
ghost use Rattle.recovery_laws.specs.Staying.{Spares};

/// Whatever happens leaves a recovery with `Held`, and with `Sound` if it had it. Its servers stay leased to it, except
/// for its own turns and a restart.
pub fn recoveries_stay_in_flight()
    ensures held { (f : Flight) (p : Passage) (r : Recovery) → MayPass f p → Held f →
        HeldRecovery f.world r → HeldRecovery (passed f p).world r }
    ensures sound { (f : Flight) (p : Passage) (r : Recovery) → MayPass f p → Held f →
        SoundRecovery f.world r → SoundRecovery (passed f p).world r }
    ensures leased { (f : Flight) (p : Passage) (id : ℕ) (r : Recovery) → MayPass f p →
        Spares id p → LeasedRecovery f.leases id r → LeasedRecovery (passed f p).leases id r }
{}
