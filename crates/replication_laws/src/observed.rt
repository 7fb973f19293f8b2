//! Sets of GTIDs that were observed of a server.

ghost use Rattle.std.specs.Prelude.{◌≡◌, ℕ, List, Ok};
ghost use Rattle.replication_laws.specs.Prelude.{AllAllowed, Allowed, AttachAuto, Exchange, Interval, JoinsWell, Placed, ServerNo, Status as Seen};
ghost use Rattle.replication_laws.specs.Prelude.{World, after, run, status};
ghost use Rattle.replication_laws.specs.Observed.{HasExecuted};

/// The set that one status of a server has is one that it has executed. It stays so, with errant writes or without:
/// after each exchange, and after each run. So an attachment to that server by such a set joins well, however late it
/// comes.
pub fn observed_sets_stand()
    ensures seen { (w : World) (n : ℕ) (seen : Seen) → status w n ≡ Ok seen
        → HasExecuted w n seen.set }
    ensures stays { (w : World) (e : Exchange) (n : ℕ) (set : List Interval) → Placed w
        → Allowed w e → HasExecuted w n set → HasExecuted (after w e) n set }
    ensures run_stays { (w : World) (es : List Exchange) (n : ℕ) (set : List Interval) → Placed w
        → AllAllowed w es → HasExecuted w n set → HasExecuted (run w es) n set }
    ensures joins { (w : World) (n : ℕ) (set : List Interval) (to : ServerNo)
        → HasExecuted w to.0 set → JoinsWell w (AttachAuto n set to) }
{}
