//! Exchanges that are no orchestrator's.

ghost use Rattle.std.specs.Prelude.{◌≡◌, ℕ, true};
ghost use Rattle.recovery_plans.specs.ServerModel.Run.{Exchange, after};
ghost use Rattle.recovery_plans.specs.ServerModel.Worlds.{World};
ghost use Rattle.recovery_laws.specs.Standing.{Stays, is_outside};

/// An exchange that is no orchestrator's leaves each server its source, and whether it takes writes.
pub fn outside_exchanges_leave_sources()
    ensures { (w : World) (e : Exchange) (n : ℕ) → is_outside e ≡ true → Stays w (after w e) n }
{}
