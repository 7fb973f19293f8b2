//! The plans of permitted commands by GTIDs.

ghost use Rattle.std.specs.Prelude.{◌≡◌, ◌∷◌, [], Some, None};
ghost use Rattle.move_laws.specs.Prelude.{BookState, Follows, Server, ServerNo as Number, World};
ghost use Rattle.move_laws.specs.Prelude.{again, again_auto, auto, autos, finished, following, plan_of, refusal_of, replicas_but, source_of};
ghost use Rattle.move_laws.specs.Prelude.name;
ghost use Rattle.move_laws.specs.Given.{given};

/// A permitted command by GTIDs has its whole plan. The instance, or each of its replicas except the destination, goes
/// below the destination. Or the instance finds its place under its source by GTIDs, or goes on there by coordinates.
pub fn permitted_gtid_moves_have_plans()
    ensures auto { (b : BookState) (i d : Number) →
        plan_of b (given name.MoveGtid i (Some d)) ≡ finished (auto i d) (Follows i d ∷ []) }
    ensures autos { (b : BookState) (i d : Number) → let rs = replicas_but b i (Some d) in
        plan_of b (given name.MoveReplicasGtid i (Some d))
        ≡ finished (autos rs d) (following rs d) }
    ensures enabled { (w : World) (b : BookState) (i : Number)
        → refusal_of w b (given name.EnableGtid i None) ≡ None →
        (x : Number) × (source_of b i ≡ Some x) ×
        (plan_of b (given name.EnableGtid i None) ≡ finished (again_auto i x) (Server i ∷ [])) }
    ensures disabled { (w : World) (b : BookState) (i : Number)
        → refusal_of w b (given name.DisableGtid i None) ≡ None →
        (x : Number) × (source_of b i ≡ Some x) ×
        (plan_of b (given name.DisableGtid i None) ≡ finished (again i x) (Server i ∷ [])) }
{}
