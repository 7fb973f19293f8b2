//! Whole plans.

ghost use Rattle.std.specs.Prelude.{◌≡◌, ◌∷◌, [], None, Some, false, true};
ghost use Rattle.move_laws.specs.Prelude.{BookState, Detach, Finish, Follows, ReadOnly, Reattach, Reset, Server, ServerNo as Number, Start, Status, Stop};
ghost use Rattle.move_laws.specs.Prelude.{World, again, auto, by_gtids, finished, source_of};
ghost use Rattle.move_laws.specs.Given.{given};
ghost use Rattle.moves_coords.specs.Plans.{plan_of};
ghost use Rattle.moves_coords.specs.Permits.{refusal_of};
ghost use Rattle.move_laws.specs.Prelude.name;

/// A permitted repoint without a destination goes on under the source in the book: by coordinates, or by GTIDs if the
/// instance finds its place by them.
pub fn repoints_go_on_under_their_source()
    ensures again { (w : World) (b : BookState) (i : Number) → by_gtids w b i ≡ false →
        refusal_of w b (given name.Repoint i None) ≡ None →
        (x : Number) × (source_of b i ≡ Some x) ×
        (plan_of w b (given name.Repoint i None) ≡ finished (again i x) (Follows i x ∷ [])) }
    ensures auto { (w : World) (b : BookState) (i : Number) → by_gtids w b i ≡ true →
        refusal_of w b (given name.Repoint i None) ≡ None →
        (x : Number) × (source_of b i ≡ Some x) ×
        (plan_of w b (given name.Repoint i None) ≡ finished (auto i x) (Follows i x ∷ [])) }
{}

/// A command about one server asks that server for one thing, or for one and then to start, reads it, and names it.
pub fn single_servers_have_plans()
    ensures detach { (w : World) (b : BookState) (i : Number) →
        plan_of w b (given name.DetachReplica i None) ≡
        Detach i ∷ Status i None ∷ Finish (Server i ∷ []) ∷ [] }
    ensures reattach { (w : World) (b : BookState) (i : Number) →
        plan_of w b (given name.ReattachReplica i None) ≡
        Reattach i ∷ Start i ∷ Status i None ∷ Finish (Server i ∷ []) ∷ [] }
    ensures reset { (w : World) (b : BookState) (i : Number) →
        plan_of w b (given name.ResetReplica i None) ≡
        Reset i ∷ Status i None ∷ Finish (Server i ∷ []) ∷ [] }
    ensures start { (w : World) (b : BookState) (i : Number) →
        plan_of w b (given name.StartReplica i None) ≡
        Start i ∷ Status i None ∷ Finish (Server i ∷ []) ∷ [] }
    ensures stop { (w : World) (b : BookState) (i : Number) →
        plan_of w b (given name.StopReplica i None) ≡
        Stop i ∷ Status i None ∷ Finish (Server i ∷ []) ∷ [] }
    ensures restart { (w : World) (b : BookState) (i : Number) →
        plan_of w b (given name.RestartReplica i None) ≡
        Stop i ∷ Start i ∷ Status i None ∷ Finish (Server i ∷ []) ∷ [] }
    ensures read_only { (w : World) (b : BookState) (i : Number) →
        plan_of w b (given name.SetReadOnly i None) ≡
        ReadOnly i true ∷ Status i None ∷ Finish (Server i ∷ []) ∷ [] }
    ensures writeable { (w : World) (b : BookState) (i : Number) →
        plan_of w b (given name.SetWriteable i None) ≡
        ReadOnly i false ∷ Status i None ∷ Finish (Server i ∷ []) ∷ [] }
{}
