//! What holds in every world of a run, with errant writes or without.

ghost use Rattle.std.specs.Prelude.{◌≡◌, ℕ, ◌<◌, List, Some, Err, true, length, take};
ghost use Rattle.replication_laws.specs.Prelude.{AllAllowed, Allowed, Coord as At, Exchange, Interval as Those, Placed, Safe, ServerNo};
ghost use Rattle.replication_laws.specs.Prelude.{Spot as ASpot, World, after, attach_at, attach_auto, chain_meets, run, sources};
ghost use Rattle.replication_laws.specs.Prelude.attaching;
ghost use Rattle.replication_laws.specs.Below.{Reaches, IsReadyAt, IsReadyAuto};
ghost use Rattle.replication_laws.specs.Growth.{Grows};

/// Every exchange keeps `Placed` of a world, with errant writes or without. No server is below itself, and every source
/// is there and logs. Both coordinates of each server with a source have places in its source's log, the executed one
/// not after the read one. With it every server goes on. Its settings stay, what it had executed is a prefix of what it
/// has executed afterwards, and each place of its log stays. So it is in each state of a run.
pub fn each_exchange_keeps_placed()
    ensures placed { (w : World) (e : Exchange) → Placed w → Allowed w e → Placed (after w e) }
    ensures goes_on { (w : World) (e : Exchange) → Placed w → Allowed w e → Grows w (after w e) }
    ensures run_placed { (w : World) (es : List Exchange) → Placed w → AllAllowed w es
        → Placed (run w es) }
    ensures run_goes_on { (w : World) (es : List Exchange) → Placed w → AllAllowed w es
        → Grows w (run w es) }
    ensures earlier { (w : World) (es : List Exchange) (k : ℕ) → Placed w → AllAllowed w es
        → Placed (run w (take k es)) }
{}

/// A `Safe` world has `Placed`.
pub fn safe_worlds_are_placed()
    ensures { (w : World) → Safe w → Placed w }
{}

/// In a world with `Placed` no server is below itself: the chain of sources above it never comes back to it.
pub fn no_server_is_below_itself()
    ensures { (w : World) (n m : ℕ) → Placed w → sources w n ≡ Some m → Reaches (sources w) n m
        → ⊥ }
{}

/// In a `Placed` world of some servers walk up the sources, as many steps as there are servers. The walk meets a server
/// exactly if it begins there or below it. So an attachment by a coordinate or by GTIDs answers `Loop` exactly if the
/// new source is the server itself or below it, and no earlier fault comes.
pub fn loops_are_found()
    ensures met { (w : World) (n to : ℕ) → Placed w → 0 < length w.servers
        → chain_meets (sources w) (length w.servers) to n ≡ true → Reaches (sources w) n to }
    ensures missed { (w : World) (n to : ℕ) → Reaches (sources w) n to
        → chain_meets (sources w) (length w.servers) to n ≡ true }
    ensures answered { (w : World) (n : ℕ) (expect : ASpot) (to : ServerNo) (at : At)
        → IsReadyAt w n expect → Reaches (sources w) n to.0
        → (attach_at w n expect to at).0 ≡ Err attaching.Loop }
    ensures only { (w : World) (n : ℕ) (expect : ASpot) (to : ServerNo) (at : At) → Placed w
        → (attach_at w n expect to at).0 ≡ Err attaching.Loop → IsReadyAt w n expect
        × Reaches (sources w) n to.0 }
    ensures auto_answered { (w : World) (n : ℕ) (observed : List Those) (to : ServerNo)
        → IsReadyAuto w n → Reaches (sources w) n to.0
        → (attach_auto w n observed to).0 ≡ Err attaching.Loop }
    ensures auto_only { (w : World) (n : ℕ) (observed : List Those) (to : ServerNo) → Placed w
        → (attach_auto w n observed to).0 ≡ Err attaching.Loop → IsReadyAuto w n
        × Reaches (sources w) n to.0 }
{}
