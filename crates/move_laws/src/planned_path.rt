//! The plans of permitted commands.

ghost use Rattle.std.specs.Prelude.{◌≡◌, ◌∷◌, [], All, IsSome, None, Some, false, true};
ghost use Rattle.move_laws.specs.Prelude.{BookState, Follows, Moment as AMoment, Path, ServerNo as Number, World, arrived, auto};
ghost use Rattle.move_laws.specs.Prelude.{autos, finished, flat_map, following, path_of, replicas_but, travelled};
ghost use Rattle.move_laws.specs.Prelude.name;
ghost use Rattle.move_laws.specs.Given.{given};
ghost use Rattle.regroup.specs.Plans.{plan_of};
ghost use Rattle.regroup.specs.Permits.{refusal_of};

/// A permitted relocation has its whole plan. By coordinates the instance, or each of its replicas but the destination,
/// has a path and goes it. With GTIDs each goes below the destination at once.
pub fn permitted_relocations_have_plans()
    ensures path { (w : World) (b : BookState) (now : AMoment) (i d : Number) → w.gtid ≡ false →
        refusal_of w b now (given name.Relocate i (Some d)) ≡ None →
        (p : Path) × (path_of b i d ≡ Some p) ×
        (plan_of w b (given name.Relocate i (Some d))
        ≡ finished (arrived i d p.passed p.under) (Follows i d ∷ [])) }
    ensures auto { (w : World) (b : BookState) (i d : Number) → w.gtid ≡ true →
        plan_of w b (given name.Relocate i (Some d)) ≡ finished (auto i d) (Follows i d ∷ []) }
    ensures found { (w : World) (b : BookState) (now : AMoment) (i d : Number) → w.gtid ≡ false →
        refusal_of w b now (given name.RelocateReplicas i (Some d)) ≡ None →
        All (λ r. IsSome (path_of b r d)) (replicas_but b i (Some d)) }
    ensures paths { (w : World) (b : BookState) (i d : Number)
        → let rs = replicas_but b i (Some d) in
        w.gtid ≡ false → plan_of w b (given name.RelocateReplicas i (Some d)) ≡
        finished (flat_map (λ r. travelled r d (path_of b r d)) rs) (following rs d) }
    ensures autos { (w : World) (b : BookState) (i d : Number)
        → let rs = replicas_but b i (Some d) in
        w.gtid ≡ true
        → plan_of w b (given name.RelocateReplicas i (Some d))
        ≡ finished (autos rs d) (following rs d) }
{}
