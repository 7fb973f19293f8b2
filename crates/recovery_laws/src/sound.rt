//! Recoveries keep a safe world safe.

ghost use Rattle.std.specs.Prelude.{ℕ, List};
ghost use Rattle.recovery_laws.specs.Prelude.{AllAllowed, BookState, Exchange, Moment as AMoment, Placed, Recovery, Safe, World, run, taken};
ghost use Rattle.recovery_laws.specs.Rings.{HeldRings, SoundRings};
ghost use Rattle.recovery_laws.specs.HeldRecoveries.{HeldRecovery};
ghost use Rattle.recovery_laws.specs.SoundRecoveries.{SoundRecovery, KeepsSoundRecovery};

/// In a `Safe` world in which the bridges of the book are right, each attachment that a turn makes joins well, and the
/// recovery keeps `Sound`. So it does whatever others do meanwhile.
pub fn recoveries_stay_sound()
    ensures taken { (w : World) (b : BookState) (read : ℕ) (now : AMoment) (r : Recovery) →
        Safe w → Placed w → HeldRings w b.rings → SoundRings w b.rings → HeldRecovery w r →
        SoundRecovery w r → KeepsSoundRecovery w (taken w b read now r) }
    ensures others { (w : World) (es : List Exchange) (r : Recovery) → Placed w →
        AllAllowed w es → SoundRecovery w r → SoundRecovery (run w es) r }
{}
