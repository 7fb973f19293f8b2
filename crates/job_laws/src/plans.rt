//! Plans leave operations with `Held`.

ghost use Rattle.std.specs.Prelude.{◌≡◌, ◌==◌, ◌++◌, List, true, false};
ghost use Rattle.job_laws.specs.Prelude.{Line as ALine, Op as AnOp, ServerNo as Number, again, asking, auto, deed_of, finished, swap, under, up};
ghost use Rattle.job_laws.specs.Footing.{Footing, SameBase, finds, are_held};
ghost use Rattle.job_laws.specs.Matched.{Matched, are_matched};

/// The plans' operations have `Held` whatever was read before. They are a move up of a server that isn't its own
/// source, a move below a server that logs, and an attachment anew. Also one by GTIDs to a server that logs, and a swap
/// of a server that logs and its source.
pub fn plans_are_held()
    ensures up { (f : Footing) (i x g : Number) → (i.0 == x.0) ≡ false →
        are_held f (up i x g) ≡ true }
    ensures up_of_itself { (f : Footing) (i g : Number) → are_held f (up i i g) ≡ false }
    ensures under { (f : Footing) (i d s : Number) → f.logs d.0 ≡ true →
        are_held f (under i d s) ≡ true }
    ensures again { (f : Footing) (i x : Number) → are_held f (again i x) ≡ true }
    ensures auto { (f : Footing) (r d : Number) → f.gtid ≡ true → f.logs d.0 ≡ true →
        are_held f (auto r d) ≡ true }
    ensures swap { (f : Footing) (i x g : Number) → (i.0 == x.0) ≡ false → f.logs i.0 ≡ true →
        are_held f (swap i x g) ≡ true }
    ensures asking { (f : Footing) (op : AnOp) (i : Number) → finds f (deed_of op) ≡ true →
        are_held f (asking op i) ≡ true }
{}

/// Plans one after another have `Held` if each has it whatever was read, and so they do with the lines after them. So
/// it is with the matches by which they go.
pub fn plans_join()
    ensures append { (f : Footing) (ps qs : List AnOp) → are_held f ps ≡ true →
        ((g : Footing) → SameBase f g → are_held g qs ≡ true) → are_held f (ps ++ qs) ≡ true }
    ensures finished { (f : Footing) (ops : List AnOp) (lines : List ALine) →
        are_held f ops ≡ true → are_held f (finished ops lines) ≡ true }
    ensures matched { (has : Matched) (ps qs : List AnOp) → are_matched has ps ≡ true →
        ((more : Matched) → are_matched more qs ≡ true) → are_matched has (ps ++ qs) ≡ true }
    ensures finished_matched { (has : Matched) (ops : List AnOp) (lines : List ALine) →
        are_matched has ops ≡ true → are_matched has (finished ops lines) ≡ true }
{}
