//! The plans of permitted commands.

ghost use Rattle.std.specs.Prelude.{◌≡◌, ◌∷◌, [], Some, None, true, false};
ghost use Rattle.move_laws.specs.Prelude.{BookState, Follows, ServerNo as Number, World, again, attached_of, auto, by_gtids, finished, following};
ghost use Rattle.move_laws.specs.Prelude.{replicas_of, siblings_of, source_of, swap, under, unders, up, ups};
ghost use Rattle.move_laws.specs.Prelude.Permits.{refusal_of};
ghost use Rattle.move_laws.specs.Prelude.Plans.{plan_of};
ghost use Rattle.move_laws.specs.Prelude.name;
ghost use Rattle.move_laws.specs.Given.{given};

/// A permitted move has its whole plan, by the sources in the book. The instance goes up to the source to which its
/// source is attached. Or it goes below a sibling under their source, or anew under the same source, by coordinates. Or
/// it goes below any server by GTIDs. Or each replica of the instance goes up to its source, each sibling below it, or
/// the instance and its source change places.
pub fn permitted_moves_have_plans()
    ensures up { (w : World) (b : BookState) (i : Number)
        → refusal_of w b (given name.MoveUp i None) ≡ None →
        (x : Number) × (g : Number) × (source_of b i ≡ Some x) × (attached_of b x ≡ Some g) ×
        (plan_of w b (given name.MoveUp i None) ≡ finished (up i x g) (Follows i g ∷ [])) }
    ensures under { (w : World) (b : BookState) (i d : Number) →
        refusal_of w b (given name.MoveBelow i (Some d)) ≡ None →
        (x : Number) × (source_of b i ≡ Some x) × (attached_of b d ≡ Some x) ×
        (plan_of w b (given name.MoveBelow i (Some d))
        ≡ finished (under i d x) (Follows i d ∷ [])) }
    ensures again { (w : World) (b : BookState) (i d : Number) → by_gtids w b i ≡ false →
        refusal_of w b (given name.Repoint i (Some d)) ≡ None →
        (source_of b i ≡ Some d)
        × (plan_of w b (given name.Repoint i (Some d)) ≡ finished (again i d) (Follows i d ∷ [])) }
    ensures auto { (w : World) (b : BookState) (i d : Number) → by_gtids w b i ≡ true →
        refusal_of w b (given name.Repoint i (Some d)) ≡ None →
        plan_of w b (given name.Repoint i (Some d)) ≡ finished (auto i d) (Follows i d ∷ []) }
    ensures ups { (w : World) (b : BookState) (i : Number) → let rs = replicas_of b i in
        refusal_of w b (given name.MoveUpReplicas i None) ≡ None →
        (x : Number) × (source_of b i ≡ Some x) ×
        (plan_of w b (given name.MoveUpReplicas i None) ≡ finished (ups rs i x) (following rs x)) }
    ensures unders { (w : World) (b : BookState) (i : Number) → let rs = siblings_of b i in
        refusal_of w b (given name.TakeSiblings i None) ≡ None →
        (x : Number) × (source_of b i ≡ Some x) ×
        (plan_of w b (given name.TakeSiblings i None) ≡ finished (unders rs i x) (following rs i)) }
    ensures swap { (w : World) (b : BookState) (i : Number)
        → refusal_of w b (given name.TakeMaster i None) ≡ None →
        (x : Number) × (g : Number) × (source_of b i ≡ Some x) × (attached_of b x ≡ Some g) ×
        (plan_of w b (given name.TakeMaster i None)
        ≡ finished (swap i x g) (Follows i g ∷ Follows x i ∷ [])) }
{}
