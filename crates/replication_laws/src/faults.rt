//! What answers say of the world after them.

ghost use Rattle.std.specs.Prelude.{◌≡◌, true};
ghost use Rattle.replication_laws.specs.Prelude.{Exchange, World, after};
ghost use Rattle.replication_laws.specs.Faults.{nothing_done};

/// An exchange that answers a fault (Unreachable, or any fault of an attachment), or Down, ReadOnly, Full, Stopped,
/// NoLink, Nothing, NotLogging or NoFile, leaves the world as it was.
pub fn faults_change_nothing()
    ensures { (w : World) (e : Exchange) → nothing_done w e ≡ true → after w e ≡ w }
{}
