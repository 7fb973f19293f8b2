//! Laws of replication over a world of servers (MySQL 8.0 Reference Manual, "Replication").
#![tactic(auto)]

mod bridges;
mod faults;
mod observed;
mod placed;
mod purging;
mod showing;

ghost use Rattle.std.specs.Prelude.{◌≡◌, ◌≢◌, ℕ, ◌+◌, ◌<◌, ◌≤◌, List, Some, true, count_by, slice_get, take};
ghost use Rattle.replication_laws.specs.Prelude.{AllAllowed, AllJoinWell, Allowed, Ask as Asked, Attach, AttachAuto, Coord as At, Event as AnEvent};
ghost use Rattle.replication_laws.specs.Prelude.{Exchange, Interval, IsAutoTarget, IsQuiet, IsTarget, JoinsWell, Rotate, Safe, ServerNo};
ghost use Rattle.replication_laws.specs.Prelude.{Spot as ASpot, Txn as ATxn, World, after, apply, apply_step, ask, attach_at, attach_auto, befall};
ghost use Rattle.replication_laws.specs.Prelude.{fetch, histories, is_rotate, is_write, rotate, run, same_txn, server_at, write};
ghost use Rattle.replication_laws.specs.Prelude.applied_as as answers;
ghost use Rattle.replication_laws.specs.Prelude.rotating;
ghost use Rattle.replication_laws.specs.Prelude.spot;
ghost use Rattle.replication_laws.specs.Prelude.steps;
ghost use Rattle.replication_laws.specs.Growth.{Grows};
ghost use Rattle.replication_laws.specs.Room.{AllFit, HasFiles, IsNotFull};

pub use bridges::{bridges_stand, crossings_join_well, status_pairs_stand};
pub use faults::faults_change_nothing;
pub use observed::observed_sets_stand;
pub use placed::{
    each_exchange_keeps_placed, loops_are_found, no_server_is_below_itself, safe_worlds_are_placed,
};
pub use purging::{
    attachments_go_to_kept_files, logs_are_read_where_kept, purged_files_are_not_read,
    purged_sets_are_shown, purges_keep_safe, purges_spare_what_is_read,
};
pub use showing::shown_coordinates_have_places;

/// A fetch and an apply keep a world `Safe`, with errant writes or without. A write keeps it `Safe` if no server with a
/// source has accepted it, or any write before it. In each exchange with a `Safe` world every server goes on, at an
/// errant write too. Its settings stay, what it had executed is a prefix of what it has executed afterwards, and each
/// place of its log stays.
pub fn each_exchange_keeps_safe()
    ensures write { (w : World) (n size : ℕ) → Safe w → 0 < size → IsQuiet (write w n size).1
        → Safe (write w n size).1 }
    ensures fetch { (w : World) (n : ℕ) → Safe w → Safe (fetch w n).1 }
    ensures apply { (w : World) (n : ℕ) → Safe w → Safe (apply w n).1 }
    ensures goes_on { (w : World) (e : Exchange) → Safe w → Allowed w e → Grows w (after w e) }
{}

/// Changes keep a world `Safe`, with errant writes or without. They are what orchestrator asks of a server (STOP
/// REPLICA, START REPLICA, RESET REPLICA ALL, read_only and the rest), what happens to a server, and FLUSH BINARY LOGS.
/// They write nothing. In any world every server goes on, with its settings, what it has executed and each place of its
/// log. No errant write is counted.
pub fn each_change_keeps_safe()
    ensures ask { (w : World) (n : ℕ) (a : Asked) → Safe w → Safe (ask w n a).1 }
    ensures befall { (w : World) (n : ℕ) (e : AnEvent) → Safe w → Safe (befall w n e) }
    ensures rotate { (w : World) (n : ℕ) → Safe w → Safe (rotate w n).1 }
    ensures ask_goes_on { (w : World) (n : ℕ) (a : Asked) → Grows w (ask w n a).1 }
    ensures befall_goes_on { (w : World) (n : ℕ) (e : AnEvent) → Grows w (befall w n e) }
    ensures rotate_goes_on { (w : World) (n : ℕ) → Grows w (rotate w n).1 }
    ensures ask_errant { (w : World) (n : ℕ) (a : Asked) → (ask w n a).1.errant ≡ w.errant }
    ensures befall_errant { (w : World) (n : ℕ) (e : AnEvent) → (befall w n e).errant ≡ w.errant }
    ensures rotate_errant { (w : World) (n : ℕ) → (rotate w n).1.errant ≡ w.errant }
{}

/// An attachment to a coordinate with a place in its target's log keeps a world `Safe`, with errant writes or without.
/// It must lead a server at the expected position to the end of its history. That is: what the server executed is a
/// prefix of what the target executed, and the coordinate is the end of that prefix. It also keeps it if a replica is
/// attached anew to its own source, at the coordinate at which it is expected there.
///
/// An attachment by an observed set that is within what the new source has executed by now keeps it `Safe` too. It
/// comes only if the server has executed none except those. If histories agree a subset is a prefix, and the server
/// goes on at its end. An attachment writes nothing: in any world every server goes on, and no errant write is counted.
pub fn attachments_keep_safe()
    ensures safe { (w : World) (n : ℕ) (expect : ASpot) (to : ServerNo) (at : At) → Safe w
        → IsTarget w to.0 at → JoinsWell w (Attach n expect to at)
        → Safe (attach_at w n expect to at).1 }
    ensures same { (w : World) (n : ℕ) (m : ServerNo) (at : At) → Safe w
        → JoinsWell w (Attach n (spot.At m at) m at) }
    ensures goes_on { (w : World) (n : ℕ) (expect : ASpot) (to : ServerNo) (at : At)
        → Grows w (attach_at w n expect to at).1 }
    ensures errant { (w : World) (n : ℕ) (expect : ASpot) (to : ServerNo) (at : At)
        → (attach_at w n expect to at).1.errant ≡ w.errant }
    ensures auto { (w : World) (n : ℕ) (observed : List Interval) (to : ServerNo) → Safe w
        → IsAutoTarget w to.0 → JoinsWell w (AttachAuto n observed to)
        → Safe (attach_auto w n observed to).1 }
    ensures auto_goes_on { (w : World) (n : ℕ) (observed : List Interval) (to : ServerNo)
        → Grows w (attach_auto w n observed to).1 }
    ensures auto_errant { (w : World) (n : ℕ) (observed : List Interval) (to : ServerNo)
        → (attach_auto w n observed to).1.errant ≡ w.errant }
{}

/// Take a run of exchanges from a `Safe` world in which each attachment joins well in the world that it comes to. Each
/// state of it is `Safe` while it has no errant writes. The count of errant writes never falls. So if the end has none,
/// every earlier state had none and was `Safe`.
pub fn quiet_runs_are_safe()
    ensures each { (w : World) (e : Exchange) → Safe w → Allowed w e → JoinsWell w e
        → IsQuiet (after w e) → Safe (after w e) }
    ensures end { (w : World) (es : List Exchange) → Safe w → AllAllowed w es → AllJoinWell w es
        → IsQuiet (run w es) → Safe (run w es) }
    ensures errant { (w : World) (es : List Exchange) (k : ℕ)
        → (run w (take k es)).errant ≤ (run w es).errant }
    ensures earlier_quiet { (w : World) (es : List Exchange) (k : ℕ) → IsQuiet (run w es)
        → IsQuiet (run w (take k es)) }
    ensures earlier_safe { (w : World) (es : List Exchange) (k : ℕ) → Safe w → AllAllowed w es
        → AllJoinWell w es → IsQuiet (run w es) → Safe (run w (take k es)) }
{}

/// No history of a `Safe` world has a transaction twice: at two indices are two transactions.
pub fn no_transaction_twice()
    ensures { (w : World) (n i j : ℕ) (x y : ATxn) → Safe w → slice_get (histories w n) i ≡ Some x
        → slice_get (histories w n) j ≡ Some y → same_txn x y ≡ true → i ≡ j }
{}

/// In a safe world no applier is about to skip a transaction as executed before, with or without GTIDs, and so none
/// answers that it did.
pub fn skipped_never_comes()
    ensures step { (w : World) (n : ℕ) (to : At) → Safe w
        → apply_step w (server_at w n) ≢ steps.Skip to }
    ensures answer { (w : World) (n : ℕ) (to : At) → Safe w → (apply w n).0 ≢ answers.Skipped to }
{}

/// Start from a `Safe` world whose servers have room for as many transactions as each has executed at most and one more
/// for each write of the run. Then no exchange of the run finds a history full if the state before it has no errant
/// writes. If each server has room for as many new files as a run asks for, none of them finds a log full, in any run.
pub fn room_lasts()
    ensures histories { (room total : ℕ) (w : World) (es : List Exchange) (k : ℕ) (e : Exchange)
        → AllFit room total w → Safe w → AllAllowed w es → AllJoinWell w es
        → total + count_by is_write es ≤ room → slice_get es k ≡ Some e
        → IsQuiet (run w (take k es)) → IsNotFull (run w (take k es)) e }
    ensures files { (w : World) (es : List Exchange) (k n : ℕ) → HasFiles (count_by is_rotate es) w
        → slice_get es k ≡ Some (Rotate n) → (rotate (run w (take k es)) n).0 ≢ rotating.Full }
{}
