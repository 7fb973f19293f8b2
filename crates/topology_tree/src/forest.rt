//! The forest.

ghost use Rattle.std.specs.Prelude.{◌≡◌, ℕ, ◌+◌, ◌^◌, ◌<◌, ◌↔◌, ◌++◌, length, map, reverse, slice_get, IsTrue, IfOk};
ghost use Rattle.topology_tree.specs.Following.{Follows, ComesBack};
ghost use Rattle.topology_tree.specs.Forests.{above, IsClosed, IsForestOf, children_of, edges_of, walk_of};
ghost use Rattle.topology_tree.specs.Links.{IsForest};
ghost use Rattle.topology_tree.specs.Marks.{IsMarked};

use crate::Memory;
use crate::links::link;
use crate::loops::looped_nodes;
use std::alloc::Global;
use std::marker::Model;

/// A forest of nodes, numbered from 0. Contracts see it as the list of parents, the node's number
/// being the place: none for a root. It is read only.
#[derive(Drop)]
pub struct Forest {
    parents: Vec<Option<u32>>,
    last_child: Vec<Option<u32>>,
    earlier: Vec<Option<u32>>,
}

impl Model for Forest {
    ghost use Rattle.std.specs.Prelude.{List, Option, ℕ};

    ghost Value = { List (Option ℕ) };

    ghost use Rattle.topology_tree.specs.LinksBy.{IsKept};

    ghost view = { λ a. a.parents.items };

    ghost invariant = { IsKept };
}

// A node's parent is its source, unless the node is looped.
fn parents_of(
    alloc: Global,
    sources: &[Option<u32>],
    looped: &[bool],
) -> Result<Vec<Option<u32>>, Memory>
    requires len { length looped.now ≡ length sources.now }
    requires exact { (n : ℕ) → n < length sources.now →
        IsMarked looped.now n ↔ ComesBack (above sources.now) n }
    ensures { IfOk result (λ v. IsForestOf sources.now v.items) }
{
    let mut parents = Vec::with_capacity(alloc, sources.len())?;
    for (node, source) in sources.iter().enumerate() {
        parents.push(if looped[node] { None } else { *source })?;
    }
    Ok(parents)
}

impl Forest {
    /// The forest of a list of sources, one node for each place. A node's parent is its source, unless the node comes
    /// back to itself by following sources; such a node, and one without a source, is a root. The time is linear. `Err`
    /// means out of memory.
    pub fn make(alloc: Global, sources: &[Option<u32>]) -> Result<Forest, Memory>
        requires few { length sources.now < 2 ^ 32 }
        requires closed { IsClosed sources.now }
        ensures { IfOk result (λ f. IsForestOf sources.now f) }
    {
        let looped = looped_nodes(alloc, sources)?;
        let parents = parents_of(alloc, sources, &looped)?;
        let mut last_child = vec![in alloc; None; parents.len()]?;
        let mut earlier = vec![in alloc; None; parents.len()]?;
        link(&parents, &mut last_child, &mut earlier);
        Ok(Forest {
            parents,
            last_child,
            earlier,
        })
    }

    /// The node's parent; none exactly at a root.
    pub fn parent(&self, node: u32) -> Option<u32>
        requires { node < length self.now }
        ensures { result ≡ above self.now node }
    {
        self.parents[node as usize]
    }

    /// The node's children, by rising number. The time is that of the answer. `Err` means out of memory.
    pub fn children(&self, alloc: Global, node: u32) -> Result<Vec<u32>, Memory>
        requires { node < length self.now }
        ensures { IfOk result (λ v. v.items ≡ children_of self.now node) }
    {
        let mut children = Vec::new(alloc);
        let mut next = self.last_child[node as usize];
        while let Some(child) = next {
            children.push(child)?;
            next = self.earlier[child as usize];
        }
        children.reverse();
        Ok(children)
    }

    /// Whether `b` is reached from `a` by following parents, at least one step.
    pub fn below(&self, a: u32, b: u32) -> bool
        requires a { a < length self.now }
        requires b { b < length self.now }
        ensures { IsTrue result ↔ Follows (above self.now) b a }
    {
        let mut at = a;
        while let Some(parent) = self.parents[at as usize] {
            if parent == b {
                return true;
            }
            at = parent;
        }
        false
    }

    // Lays the node's children on top, the first on the top.
    fn push_children(
        &self,
        node: u32,
        depth: u32,
        pending: &mut Vec<(u32, u32)>,
    ) -> Result<(), Memory>
        requires { node < length self.now }
        ensures { IfOk result (λ _. pending.new.items ≡
            pending.old.items ++ map (λ c. (c, depth)) (reverse (children_of self.now node))) }
    {
        let mut next = self.last_child[node as usize];
        while let Some(child) = next {
            pending.push((child, depth))?;
            next = self.earlier[child as usize];
        }
        Ok(())
    }

    /// The nodes of the tree under `root`, each with its depth below it: the root at depth 0, then the walks of its
    /// children in order, each one deeper. The time is that of the answer. `Err` means out of memory.
    pub fn walk(&self, alloc: Global, root: u32) -> Result<Vec<(u32, u32)>, Memory>
        requires { root < length self.now }
        ensures { IfOk result (λ v. v.items ≡ walk_of self.now root) }
    {
        // shows the proof that no depth passes the number of nodes
        let _ = &self.parents;
        let mut listed = Vec::new(alloc);
        let mut pending = Vec::new(alloc);
        pending.push((root, 0))?;
        while let Some((node, depth)) = pending.pop() {
            listed.push((node, depth))?;
            self.push_children(node, depth + 1, &mut pending)?;
        }
        Ok(listed)
    }

    /// A law, which does nothing: each parent is a node, and following parents from any node ends at a root. The list
    /// of (node, parent) has each node at its place.
    pub fn edges_have_no_loop(&self)
        ensures forest { IsForest self.now }
        ensures edges { (n : ℕ) → n < length self.now →
            slice_get (edges_of self.now) n ≡ Some (n, above self.now n) }
    {
        let _ = &self.parents;
    }
}
