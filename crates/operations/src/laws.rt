//! What a turn of a job leaves of what the next one requires.

ghost use Rattle.std.specs.Prelude.{◌≡◌, ◌≤◌, ℕ};
ghost use Rattle.operations.specs.Prelude.{AllAllowed, Moment as AMoment, World};
ghost use Rattle.operations.specs.Jobs.{Job};
ghost use Rattle.operations.specs.Turns.{turned};
ghost use Rattle.operations.specs.Named.{IsNamed, IsInRange};
ghost use Rattle.operations.specs.Ending.{MovesOn};

/// After a turn a job has its number still. Its bound and its waits are in their ranges. Its operations, and the
/// servers that it stopped, are of servers that are there, as before.
pub fn jobs_stay_in_range()
    ensures number { (count : ℕ) (w : World) (read : ℕ) (now : AMoment) (j : Job) →
        IsNamed count j → (turned w read now j).job.id ≡ j.id }
    ensures named { (count : ℕ) (w : World) (read : ℕ) (now : AMoment) (j : Job) → IsNamed count j →
        IsNamed count (turned w read now j).job }
    ensures range { (count : ℕ) (w : World) (read : ℕ) (now : AMoment) (j : Job) →
        IsInRange count j → IsInRange count (turned w read now j).job }
{}

/// Each exchange of a turn is allowed in the world to which those before it led, whatever the job saw and whatever the
/// servers' states are. An attachment's coordinate has a place in the log of its new source.
pub fn turns_are_allowed()
    ensures { (w : World) (read : ℕ) (now : AMoment) (j : Job) →
        AllAllowed w (turned w read now j).exchanges }
{}

/// A turn after which a job goes on leaves it fewer turns: it has ended an operation, or was one more of a limited
/// number of waits.
pub fn jobs_end()
    ensures { (w : World) (read : ℕ) (now : AMoment) (j : Job) → j.waited ≤ j.wait →
        MovesOn j (turned w read now j) }
{}
