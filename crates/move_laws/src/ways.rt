//! Ways up the book's forest.

ghost use Rattle.std.specs.Prelude.{◌≡◌, ◌==◌, ◌<◌, [], All, List, None, Some, false, is_some, length};
ghost use Rattle.move_laws.specs.Prelude.{BookState, IsBook, ServerNo as Number, attached_of, passed_in, path_of, source_of, way_up};
ghost use Rattle.move_laws.specs.Ways.{GoesUp, is_on_way, is_under};

/// A server that goes up to another one, or below one by its path, doesn't pass itself.
pub fn ways_do_not_come_back()
    ensures way { (b : BookState) (n to : Number) (passed : List Number)
        → way_up b n to ≡ Some passed →
        All (λ x. (n.0 == x.0) ≡ false) passed }
    ensures path { (b : BookState) (n d : Number)
        → All (λ x. (n.0 == x.0) ≡ false) (passed_in (path_of b n d)) }
{}

/// The level next above a server is its own source, whatever the book knows of that. So there is always a path to it,
/// and below each server that is attached to it, and nothing is passed on the way there. The levels above go from
/// parent to parent by the book's forest.
pub fn ways_climb()
    ensures next { (b : BookState) (n to : Number) → source_of b n ≡ Some to
        → way_up b n to ≡ Some [] }
    ensures own { (b : BookState) (n d : Number) → source_of b n ≡ Some d →
        path_of b n d ≡ Some (record { passed = []; under = None }) }
    ensures beside { (b : BookState) (n d s : Number) → source_of b n ≡ Some s
        → attached_of b d ≡ Some s →
        way_up b n d ≡ None → path_of b n d ≡ Some (record { passed = []; under = Some s }) }
    ensures levels { (b : BookState) (n to : Number) (passed : List Number) → IsBook b
        → n.0 < length b.names →
        way_up b n to ≡ Some passed → GoesUp b n passed to }
{}

/// There is a way up to another server exactly if that is the server's source, or the forest has it above. There is a
/// path to a destination exactly if there is a way to it, or to the source to which it is attached.
pub fn ways_go_where_the_forest_does()
    ensures way { (b : BookState) (n to : Number) → IsBook b → n.0 < length b.names
        → to.0 < length b.names →
        is_some (way_up b n to) ≡ is_under b n to }
    ensures path { (b : BookState) (n d : Number) → IsBook b → n.0 < length b.names
        → d.0 < length b.names →
        is_some (path_of b n d) ≡ is_on_way b n d }
{}
