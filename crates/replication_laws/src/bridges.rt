//! Bridges between the logs of a replica and its source.

ghost use Rattle.std.specs.Prelude.{◌≡◌, ℕ, List, Ok, Some};
ghost use Rattle.replication_laws.specs.Prelude.{AllAllowed, Allowed, Attach, Coord as At, Exchange, JoinsWell, Placed, Safe, ServerNo};
ghost use Rattle.replication_laws.specs.Prelude.{Status as Seen, World, after, run, source_no, status};
ghost use Rattle.replication_laws.specs.Prelude.spot;
ghost use Rattle.replication_laws.specs.Bridges.{Stands};

/// In a `Safe` world one status of a server that logs and has a source, attached or detached, has a right bridge. It is
/// the end of its own log, and its executed coordinate in the source's.
pub fn status_pairs_stand()
    ensures { (w : World) (n m : ℕ) (seen : Seen) (own : At) → Safe w → status w n ≡ Ok seen
        → source_no seen.source ≡ Some m → seen.own_end ≡ Some own → Stands w n m own seen.exec }
{}

/// A right bridge in a `Placed` world stays right, with errant writes or without: after each exchange, and after each
/// run.
pub fn bridges_stand()
    ensures stays { (w : World) (e : Exchange) (x s : ℕ) (own exec : At) → Placed w → Allowed w e
        → Stands w x s own exec → Stands (after w e) x s own exec }
    ensures run_stays { (w : World) (es : List Exchange) (x s : ℕ) (own exec : At) → Placed w
        → AllAllowed w es → Stands w x s own exec → Stands (run w es) x s own exec }
{}

/// With a right bridge these attachments join well in a `Safe` world:
/// - of a replica at the bridge's executed coordinate of the source, to the own coordinate of the bridge's replica;
/// - of one at that own coordinate, to the executed one;
/// - of the source itself if its log ends at the executed coordinate;
/// - of the replica itself if its log ends at its own coordinate.
pub fn crossings_join_well()
    ensures down { (w : World) (n : ℕ) (x s : ServerNo) (own exec : At) → Safe w
        → Stands w x.0 s.0 own exec → JoinsWell w (Attach n (spot.At s exec) x own) }
    ensures up { (w : World) (n : ℕ) (x s : ServerNo) (own exec : At) → Safe w
        → Stands w x.0 s.0 own exec → JoinsWell w (Attach n (spot.At x own) s exec) }
    ensures about { (w : World) (x s : ServerNo) (own exec : At) → Safe w
        → Stands w x.0 s.0 own exec → JoinsWell w (Attach s.0 (spot.OwnEnd exec) x own) }
    ensures back { (w : World) (x s : ServerNo) (own exec : At) → Safe w → Stands w x.0 s.0 own exec
        → JoinsWell w (Attach x.0 (spot.OwnEnd own) s exec) }
{}
