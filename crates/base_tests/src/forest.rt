ghost use Rattle.std.specs.Prelude.{◌≡◌, ◌<◌, length, IfOk};
ghost use Rattle.topology_tree.specs.Forests.{IsClosed};

use std::alloc::Global;
use topology_tree::{Forest, Memory};

// Whether these are the node's children.
fn has_children(alloc: Global, forest: &Forest, node: u32, children: &[u32]) -> Result<bool, Memory>
    requires { node < length forest.now }
{
    Ok(forest.children(alloc, node)?.as_slice() == children)
}

// What a tree of four nodes shows.
fn is_tree(alloc: Global) -> Result<bool, Memory> {
    let forest = Forest::make(alloc, &[None, Some(0), Some(1), Some(1)])?;
    let parents = (forest.parent(3), forest.parent(0)) == (Some(1), None);
    let below = forest.below(3, 0) && !forest.below(0, 3);
    let listed = forest.walk(alloc, 0)?.as_slice() == [(0, 0), (1, 1), (2, 2), (3, 2)].as_slice();
    let root = has_children(alloc, &forest, 0, &[1])?;
    Ok(parents && below && listed && root && has_children(alloc, &forest, 1, &[2, 3])?)
}

// What a loop of two nodes, and one under them, shows.
fn is_cut(alloc: Global) -> Result<bool, Memory> {
    let forest = Forest::make(alloc, &[Some(1), Some(0), Some(0)])?;
    let parents = (forest.parent(0), forest.parent(1)) == (None, None);
    let root = has_children(alloc, &forest, 0, &[2])?;
    Ok(parents && root && has_children(alloc, &forest, 1, &[])?)
}

#[test]
fn trees_and_loops(rt: HostRuntime) {
    assert!(rt; (is_tree(rt.alloc()), is_cut(rt.alloc())) == (Ok(true), Ok(true)));
}

// A root, and each other node under the one before it, or all under the root.
fn under_one_root(alloc: Global, len: u32, star: bool) -> Result<Vec<Option<u32>>, Memory>
    ensures len { IfOk result (λ v. length v.items ≡ len) }
    ensures closed { IfOk result (λ v. IsClosed v.items) }
{
    let mut sources = Vec::new(alloc);
    for node in 0..len {
        let source = if node == 0 {
            None
        } else if star {
            Some(0)
        } else {
            Some(node - 1)
        };
        sources.push(source)?;
    }
    Ok(sources)
}

// How many nodes are listed of 100,000, and the last of them.
fn last_listed(alloc: Global, star: bool) -> Result<(usize, Option<(u32, u32)>), Memory> {
    let forest = Forest::make(alloc, &under_one_root(alloc, 100_000, star)?)?;
    let listed = forest.walk(alloc, 0)?;
    Ok((listed.len(), listed.last().copied()))
}

#[test]
fn long_chains_and_wide_stars(rt: HostRuntime) {
    for (star, depth) in [(false, 99_999), (true, 1)] {
        assert!(rt;
            last_listed(rt.alloc(), star) == Ok((100_000, Some((99_999, depth)))),
            "{star}"
        );
    }
}
