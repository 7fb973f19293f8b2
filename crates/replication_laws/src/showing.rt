//! What a status shows has places.

ghost use Rattle.std.specs.Prelude.{◌≡◌, ℕ, List, Ok, Some};
ghost use Rattle.replication_laws.specs.Prelude.{AllAllowed, Allowed, Exchange, Placed, Status as Seen, World, after, run, shown, status};
ghost use Rattle.replication_laws.specs.Showing.{Shows};

/// In a `Placed` world what a status has of a server, reached or not, has places. Its own end has one in its own log,
/// and its executed and its read coordinate have them in the log of the source in the status. That source logs, and the
/// executed coordinate is not after the read one. So it is for good, with errant writes or without: after each
/// exchange, and after each run.
pub fn shown_coordinates_have_places()
    ensures seen { (w : World) (n : ℕ) (seen : Seen) → Placed w → status w n ≡ Ok seen
        → Shows w n seen }
    ensures unreached { (w : World) (n : ℕ) (seen : Seen) → Placed w → shown w n ≡ Some seen
        → Shows w n seen }
    ensures stays { (w : World) (e : Exchange) (n : ℕ) (seen : Seen) → Placed w → Allowed w e
        → Shows w n seen → Shows (after w e) n seen }
    ensures run_stays { (w : World) (es : List Exchange) (n : ℕ) (seen : Seen) → Placed w
        → AllAllowed w es → Shows w n seen → Shows (run w es) n seen }
{}
