//! What the choices are, over their definitions alone.

ghost use Rattle.std.specs.Prelude.{◌≡◌, ◌<◌, ◌↔◌, All, List, None, Some, true, false};
ghost use Rattle.std.specs.Cmp.{IsTotalOrder};
ghost use Rattle.instance_keeper.specs.OrchBase.Names.{HostPort};
ghost use Rattle.instance_keeper.specs.OrchBase.declared.server.ServerNo.{ServerNo as Number};
ghost use Rattle.promotion_rules.specs.Choice.{advance_order, better, is_better, is_eligible, most_advanced, nearer_order, precedence, rank};
ghost use Rattle.promotion_rules.specs.Chosen.{HasExecutedMost, IsChoice};
ghost use Rattle.promotion_rules.specs.declared.drained.Drained.{Drained as ADrained};

/// The most advanced is one of the drained replicas that log and may be promoted. None of these is before it, so none
/// of them has executed more. There is none exactly if none of them logs and may be promoted.
pub fn most_advanced_is_the_first()
    ensures chosen { (names : List HostPort) (list : List ADrained) (n : Number) →
        most_advanced names list ≡ Some n → IsChoice (advance_order names) is_eligible list n }
    ensures executed { (names : List HostPort) (list : List ADrained) (n : Number) →
        most_advanced names list ≡ Some n → HasExecutedMost is_eligible list n }
    ensures none { (names : List HostPort) (list : List ADrained) →
        (most_advanced names list ≡ None) ↔ All (λ d. is_eligible d ≡ false) list }
{}

/// The better one is one of the followers that log and have a strictly lower rank than the promoted one. None of these
/// is before it. There is none exactly if none of them logs and has a strictly lower rank.
pub fn better_is_the_first()
    ensures chosen { (names : List HostPort) (of : ADrained) (followers : List ADrained)
        (n : Number) →
        better names of followers ≡ Some n →
        IsChoice (nearer_order names) (is_better of) followers n }
    ensures none { (names : List HostPort) (of : ADrained) (followers : List ADrained) →
        (better names of followers ≡ None) ↔ All (λ d. is_better of d ≡ false) followers }
{}

/// Of any two drained replicas one comes first, whatever their names.
pub fn orders_are_total()
    ensures advance { (names : List HostPort) → IsTotalOrder (advance_order names) }
    ensures nearer { (names : List HostPort) → IsTotalOrder (nearer_order names) }
{}

/// A better rule comes before a worse one, in whatever data centres the two are. Of one rule, the one in the failed
/// server's data centre comes first. If both are there, or neither is, they are ordered by their rules and then by name
/// alone.
pub fn ranks_go_by_rule_first()
    ensures rule { (a b : ADrained) → precedence a.rule < precedence b.rule → rank a < rank b }
    ensures near { (a b : ADrained) → a.rule ≡ b.rule → a.near ≡ true → b.near ≡ false →
        rank a < rank b }
    ensures same { (a b : ADrained) → a.near ≡ b.near → (rank a < rank b) ↔
        (precedence a.rule < precedence b.rule) }
{}
