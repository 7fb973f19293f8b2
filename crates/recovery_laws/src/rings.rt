//! The bridges of a book are in their own servers' rings.

ghost use Rattle.std.specs.Prelude.{◌≡◌, ℕ, List, Option, [], IfSome, replicate, slice_set};
ghost use Rattle.recovery_laws.specs.Prelude.{Bridge as ABridge, ServerNo as Number, Status as Showed, bridge_in, ringed};
ghost use Rattle.recovery_laws.specs.Rings.{AreOwn};

/// Each server's ring has bridges of that server, from empty rings on. So it is if a bridge that was observed of a
/// server is kept, and if an instance is forgotten.
pub fn rings_stay_own()
    ensures empty { (count : ℕ) → AreOwn (replicate count []) }
    ensures kept { (rings : List (List ABridge)) (n : Number) (o : Option ABridge) →
        IfSome o (λ b. b.no.0 ≡ n.0) → AreOwn rings → AreOwn (ringed rings n o) }
    ensures shown { (n : Number) (seen : Option Showed) →
        IfSome (bridge_in n seen) (λ b. b.no.0 ≡ n.0) }
    ensures forgotten { (rings : List (List ABridge)) (n : Number) → AreOwn rings →
        AreOwn (slice_set rings n.0 []) }
{}
