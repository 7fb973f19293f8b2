//! Recoveries leave operations with `Held`.

ghost use Rattle.std.specs.Prelude.{◌≡◌, ℕ, List};
ghost use Rattle.recovery_laws.specs.Prelude.{AllAllowed, BookState, Exchange, Moment as AMoment, Placed, Recovery, World, decided, ground_of, run};
ghost use Rattle.recovery_laws.specs.Prelude.{taken};
ghost use Rattle.recovery_laws.specs.Rings.{HeldRings};
ghost use Rattle.recovery_laws.specs.HeldRecoveries.{HeldRecovery, KeepsRecovery};

/// What is decided at the start of a turn leaves a recovery with `Held`. So does its turn, whose exchanges are allowed,
/// and whatever others do meanwhile.
pub fn recoveries_stay_held()
    ensures decided { (w : World) (b : BookState) (now : AMoment) (r : Recovery) →
        HeldRings w b.rings → HeldRecovery w r → HeldRecovery w (decided (ground_of w b now) r) }
    ensures taken { (w : World) (b : BookState) (read : ℕ) (now : AMoment) (r : Recovery) →
        Placed w → HeldRings w b.rings → HeldRecovery w r →
        KeepsRecovery w (taken w b read now r) }
    ensures others { (w : World) (es : List Exchange) (r : Recovery) → Placed w →
        AllAllowed w es → HeldRecovery w r → HeldRecovery (run w es) r }
{}
