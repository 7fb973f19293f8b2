//! What it means for each replica that an outcome covers them.

ghost use Rattle.std.specs.Prelude.{◌≡◌, ◌<◌, ◌⊎◌, ℕ, List, All, Contains, Some, true};
ghost use Rattle.recovery_covers.specs.Prelude.{Follower as AFollower, Outcome, Purpose as APurpose, ServerNo as Number, World, is_takeover, told_by};
ghost use Rattle.recovery_covers.specs.Covers.{Covers, HasOnePlace, owed, times};
ghost use Rattle.recovery_covers.specs.Told.{IsToldOf, leader_line};

/// If an outcome covers its replicas each of them is promoted, follows once or is lost once, and only one of these. The
/// followers are replicas, or the old master of a takeover.
pub fn covered_replicas_have_one_place()
    ensures replica { (w : World) (u : APurpose) (f : Number) (replicas : List Number)
        (o : Outcome) →
        Covers w u f replicas o → (n : ℕ) → 0 < times n replicas → HasOnePlace u o n }
    ensures follower { (w : World) (u : APurpose) (f : Number) (replicas : List Number)
        (o : Outcome) →
        Covers w u f replicas o → (x : AFollower) → Contains o.followers x →
        (0 < times x.no.0 replicas) ⊎ ((is_takeover u ≡ true) × (x.no.0 ≡ f.0)) }
{}

/// If an outcome covers its replicas its lines have each server that has a place, in whatever order they name it. A
/// server is the promoted one, or has its source, or has why it is lost and whether it was detached.
pub fn placed_servers_are_told()
    ensures leader { (u : APurpose) (o : Outcome) (order : List Number) (n : Number) →
        o.promoted ≡ Some n → Contains (told_by u o order) (leader_line u n) }
    ensures servers { (w : World) (u : APurpose) (f : Number) (replicas : List Number)
        (o : Outcome) →
        Covers w u f replicas o → (order : List Number) →
        All (λ n. 0 < times n.0 (owed u f replicas) → IsToldOf u o (told_by u o order) n) order }
{}
