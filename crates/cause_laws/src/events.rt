//! What a turn of a job comes to.

ghost use Rattle.std.specs.Prelude.{◌≡◌, ◌∷◌, ℕ, [], List, Option};
ghost use Rattle.cause_laws.specs.Prelude.{Cause as Why, Deed, Job, Line as ALine, Moment as AMoment, Observation as Reading, Op as AnOp, Stops};
ghost use Rattle.cause_laws.specs.Prelude.{World, by_deed, deed_of, turned};
ghost use Rattle.cause_laws.specs.Prelude.step;
ghost use Rattle.cause_laws.specs.Events.{Befell, IsTaken};

/// A job fails exactly for what happened to the operation that was due, in that very turn. Its server wasn't reached,
/// was moved, answered the attachment so, or was short at the last wait. The same is so of an operation of any job.
pub fn jobs_fail_for_what_befell()
    ensures only { (w : World) (read : ℕ) (now : AMoment) (j : Job) (op : AnOp) (rest : List AnOp)
        (c : Why) (lines : List ALine) → j.ops ≡ op ∷ rest →
        (turned w read now j).step ≡ step.Failed c lines → Befell w j (deed_of op) c }
    ensures fails { (w : World) (read : ℕ) (now : AMoment) (j : Job) (op : AnOp) (rest : List AnOp)
        (c : Why) → j.ops ≡ op ∷ rest →
        Befell w j (deed_of op) c → (turned w read now j).step ≡ step.Failed c [] }
    ensures stopped { (w : World) (read : ℕ) (now : AMoment) (j : Job) (rest : List AnOp) (d : Deed)
        (c : Why) (o : Option Reading) → by_deed w read now j rest d ≡ Stops c o → Befell w j d c }
    ensures stops { (w : World) (read : ℕ) (now : AMoment) (j : Job) (rest : List AnOp) (d : Deed)
        (c : Why) → Befell w j d c →
        (o : Option Reading) × (by_deed w read now j rest d ≡ Stops c o) }
{}

/// A turn of a job does the operation that is due, or is one more wait of it. Or it ends the job with its lines, or
/// fails for what happened to that operation. Without an operation the job is done, with no lines.
pub fn turns_do_one_operation()
    ensures one { (w : World) (read : ℕ) (now : AMoment) (j : Job) (op : AnOp) (rest : List AnOp) →
        j.ops ≡ op ∷ rest → IsTaken w j rest (deed_of op) (turned w read now j) }
    ensures none { (w : World) (read : ℕ) (now : AMoment) (j : Job) →
        j.ops ≡ [] → (turned w read now j).step ≡ step.Done [] }
{}
