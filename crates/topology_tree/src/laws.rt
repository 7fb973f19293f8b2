//! Laws of forests, over their definitions alone.

ghost use Rattle.std.specs.Prelude.{◌≡◌, ◌<◌, ℕ, List, Option, length};
ghost use Rattle.topology_tree.specs.Forests.{IsClosed, IsForestOf, walk_of};
ghost use Rattle.topology_tree.specs.Links.{IsForest};
ghost use Rattle.topology_tree.specs.Making.{forest_of};
ghost use Rattle.topology_tree.specs.Trees.{ListsTree};

/// A list of sources has one forest.
pub fn sources_have_one_forest()
    ensures { (sources one other : List (Option ℕ)) →
        IsForestOf sources one → IsForestOf sources other → one ≡ other }
{}

/// A walk lists the nodes of the tree under its root, each once, each after its parent and at one
/// depth more.
pub fn walks_list_their_tree()
    ensures { (forest : List (Option ℕ)) (root : ℕ) →
        IsForest forest → root < length forest → ListsTree forest root (walk_of forest root) }
{}

/// The forest of a list of sources is computed by following each node's sources for as many steps as there are nodes.
pub fn forests_are_computed()
    ensures { (sources forest : List (Option ℕ)) → IsClosed sources → IsForestOf sources forest
        → forest ≡ forest_of sources }
{}
