//! The plans of permitted commands by matches.

ghost use Rattle.std.specs.Prelude.{◌≡◌, ◌∷◌, [], ℕ, Some, None};
ghost use Rattle.move_laws.specs.Prelude.{BookState, Follows, Moment as AMoment, ServerNo as Number, World};
ghost use Rattle.move_laws.specs.Prelude.{attached_of, finished, following, matching, matchings, replicas_but, source_of};
ghost use Rattle.move_laws.specs.Prelude.PseudoMatch.{refusal_of};
ghost use Rattle.move_laws.specs.Prelude.PseudoMatchPlans.{plan_of};
ghost use Rattle.move_laws.specs.Prelude.name;
ghost use Rattle.move_laws.specs.Given.{given};

/// A permitted command by matches has its whole plan. The instance, or each of its replicas except the destination,
/// goes below the destination. Or the instance goes up to the source to which its source is attached.
pub fn permitted_matches_have_plans()
    ensures one { (b : BookState) (every : ℕ) (i d : Number) →
        plan_of b every (given name.Match i (Some d)) ≡
        finished (matching i d every) (Follows i d ∷ []) }
    ensures each { (b : BookState) (every : ℕ) (i d : Number) →
        let rs = replicas_but b i (Some d) in
        plan_of b every (given name.MatchReplicas i (Some d)) ≡
        finished (matchings rs d every) (following rs d) }
    ensures up { (w : World) (b : BookState) (now : AMoment) (every : ℕ) (i : Number) →
        refusal_of w b now every (given name.MatchUp i None) ≡ None →
        (x : Number) × (g : Number) × (source_of b i ≡ Some x) × (attached_of b x ≡ Some g) ×
        (plan_of b every (given name.MatchUp i None) ≡
        finished (matching i g every) (Follows i g ∷ [])) }
{}
