//! What holds of a hook's text, over the definitions alone.

ghost use Rattle.std.specs.Prelude.{◌≡◌, ◌++◌, ◌∷◌, ℕ, List, None, Some, codes, false, true};
ghost use Rattle.orch_base.specs.Names.{HostPort, printed};
ghost use Rattle.hook_texts.specs.declared.values.Placeholder.{Placeholder as APlaceholder};
ghost use Rattle.hook_texts.specs.declared.values.Values.{Values as AValues};
ghost use Rattle.hook_texts.specs.Expanded.{braced, expanded, placeholder_text, value_of, IsOtherWord, IsPlain, Lacks};

/// Each placeholder gives its value, and reading goes on in the text after it: a value isn't read again. The failed
/// server is printed by its name, and so is the promoted one. If none is promoted, that value is empty.
pub fn placeholders_give_values()
    ensures value { (v : AValues) (p : APlaceholder) (rest : List ℕ) →
        expanded v (placeholder_text p ++ rest) ≡ value_of v p ++ expanded v rest }
    ensures failure { (v : AValues) →
        expanded v (codes "{failureType} {failureCluster} {failureClusterAlias}")
        ≡ v.failure_type ++ 32 ∷ (v.cluster ++ 32 ∷ v.alias) }
    ensures failed { (v : AValues) →
        expanded v (codes "{failedHost}:{failedPort}") ≡ printed v.failed }
    ensures successor { (v : AValues) (name : HostPort) → v.successor ≡ Some name →
        expanded v (codes "{successorHost}:{successorPort}") ≡ printed name }
    ensures nobody { (v : AValues) → v.successor ≡ None →
        expanded v (codes "{successorHost}{successorPort}") ≡ codes "" }
    ensures successful { (v : AValues) → v.successful ≡ true →
        expanded v (codes "{isSuccessful}") ≡ codes "true" }
    ensures unsuccessful { (v : AValues) → v.successful ≡ false →
        expanded v (codes "{isSuccessful}") ≡ codes "false" }
{}

/// What is no placeholder stays as it is: a text without an opening brace, or without a closing one. So does what is
/// before a placeholder and between two, and so do other names in braces.
pub fn other_texts_stay()
    ensures plain { (v : AValues) (text : List ℕ) → IsPlain text → expanded v text ≡ text }
    ensures unclosed { (v : AValues) (text : List ℕ) → Lacks 125 text → expanded v text ≡ text }
    ensures before { (v : AValues) (front text : List ℕ) → IsPlain front →
        expanded v (front ++ text) ≡ front ++ expanded v text }
    ensures between { (v : AValues) (p q : APlaceholder) (between rest : List ℕ) → IsPlain between →
        expanded v (placeholder_text p ++ (between ++ (placeholder_text q ++ rest)))
        ≡ value_of v p ++ (between ++ (value_of v q ++ expanded v rest)) }
    ensures other { (v : AValues) (word rest : List ℕ) → IsOtherWord word →
        expanded v (braced word ++ rest) ≡ braced word ++ expanded v rest }
{}

/// A text that is divided before an opening brace or after a closing one gives what its parts give.
pub fn texts_are_read_part_by_part()
    ensures opened { (v : AValues) (front rest : List ℕ) →
        expanded v (front ++ 123 ∷ rest) ≡ expanded v front ++ expanded v (123 ∷ rest) }
    ensures closed { (v : AValues) (front rest : List ℕ) →
        expanded v (front ++ 125 ∷ rest) ≡ expanded v (front ++ codes "}") ++ expanded v rest }
{}
