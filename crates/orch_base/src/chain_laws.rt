//! Chains from a number to the one above it, and on: laws over their definitions.

ghost use Rattle.std.specs.Prelude.{◌≡◌, ◌⊎◌, ℕ, Option, true};
ghost use Rattle.orch_base.specs.Chains.{Follows, Reaches, is_reached};

/// The forms of being reached agree. A number reaches another if it is that one, or if the chain above it comes there.
/// The test of so many steps finds exactly what the chain comes to.
pub fn chains_come_to_what_is_found()
    ensures cases { (up : ℕ → Option ℕ) (b a : ℕ) → Reaches up b a → (a ≡ b) ⊎ Follows up b a }
    ensures further { (up : ℕ → Option ℕ) (b a : ℕ) → Follows up b a → Reaches up b a }
    ensures tested { (up : ℕ → Option ℕ) (steps n from : ℕ) → is_reached up steps n from ≡ true
        → Follows up n from }
    ensures found { (up : ℕ → Option ℕ) (n from : ℕ) → Follows up n from → (steps : ℕ)
        × (is_reached up steps n from ≡ true) }
{}
