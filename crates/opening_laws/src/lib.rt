//! Laws of the worlds that openings open (MySQL 8.0 Reference Manual, "Replication").
#![tactic(auto)]

ghost use Rattle.std.specs.Prelude.{◌≡◌, ◌≢◌, ℕ, ◌≤◌, List, Some, count_by, slice_get, take};
ghost use Rattle.openings.specs.Opening.{Opened, IsChecked};
ghost use Rattle.server_words.specs.declared.answers.RotateAnswer.TheVariants as rotating;
ghost use Rattle.server_model.specs.Desk.{rotate};
ghost use Rattle.server_model.specs.Run.{Exchange, Rotate, is_rotate, run, AllAllowed, AllJoinWell};
ghost use Rattle.server_model.specs.Safe.{Safe, Placed, IsQuiet};
ghost use Rattle.server_model.specs.Worlds.{World};
ghost use Rattle.world_openings.specs.Opening.{opened_world};
ghost use Rattle.world_openings.specs.Room.{room_for, LeavesFiles};
ghost use Rattle.replication_laws.specs.Room.{HasFiles, IsNotFull};

/// The world that a checked opening opens is `Safe`. So every server with a source, attached or detached, is in the log
/// of its source, and no errant write is counted in it.
pub fn openings_are_safe()
    ensures safe { (o : Opened) (room flushes : ℕ) → IsChecked o
        → Safe (opened_world o room flushes) }
    ensures placed { (o : Opened) (room flushes : ℕ) → IsChecked o
        → Placed (opened_world o room flushes) }
    ensures quiet { (o : Opened) (room flushes : ℕ) → IsQuiet (opened_world o room flushes) }
{}

/// Start from the world of a checked opening, with room at each server for all transactions that the opening lists and
/// one more for each write of the run. Then no exchange of the run finds a history full if the state before it has no
/// errant writes. If each server of a world has room for as many new files as a run asks for, none of them finds a log
/// full, in any run. An opened server has the room that its own flushes leave. With room for them and for the new files
/// of a run, none of the run finds a log full.
pub fn full_never_comes()
    ensures histories { (o : Opened) (room flushes : ℕ) (es : List Exchange) (k : ℕ) (e : Exchange)
        → IsChecked o → AllAllowed (opened_world o room flushes) es
        → AllJoinWell (opened_world o room flushes) es → room_for o es ≤ room
        → slice_get es k ≡ Some e → IsQuiet (run (opened_world o room flushes) (take k es))
        → IsNotFull (run (opened_world o room flushes) (take k es)) e }
    ensures files { (w : World) (es : List Exchange) (k n : ℕ) → HasFiles (count_by is_rotate es) w
        → slice_get es k ≡ Some (Rotate n) → (rotate (run w (take k es)) n).0 ≢ rotating.Full }
    ensures opened { (o : Opened) (room flushes count : ℕ) → LeavesFiles count o flushes
        → HasFiles count (opened_world o room flushes) }
    ensures rotations { (o : Opened) (room flushes : ℕ) (es : List Exchange) (k n : ℕ)
        → LeavesFiles (count_by is_rotate es) o flushes → slice_get es k ≡ Some (Rotate n)
        → (rotate (run (opened_world o room flushes) (take k es)) n).0 ≢ rotating.Full }
{}
