//! The forest of a book.

ghost use Rattle.std.specs.Prelude.{◌≡◌, ◌<◌, ◌↔◌, IfOk, IfSome, IsTrue, length, map};
ghost use Rattle.topology_tree.specs.Forests.{IsForestOf};
ghost use Rattle.book_views.specs.Forests.{book_forest, node_of, parent_of, server_at, source_node, source_nodes, IsBelow};

use crate::Memory;
use crate::orch_base::{ServerNo, SourceState};
use crate::sources::{is_instance_in, source_in};
use instance_keeper::{Book, Instance};
use std::alloc::Global;
use topology_tree::Forest;

// A server's node, if it is one of the book's instances.
fn node_of(book: &Book, instances: &[&Option<Instance>], no: ServerNo) -> Option<u32>
    requires no { no.0 < length book.now.names }
    requires instances { map (λ place. place.now) instances.now ≡ book.now.instances }
    ensures { result ≡ node_of book.now no }
{
    if is_instance_in(book, instances, no) {
        Some(book.rank(no))
    } else {
        None
    }
}

// The node of a server's source, if that is one of the book's instances.
fn source_node(book: &Book, instances: &[&Option<Instance>], no: ServerNo) -> Option<u32>
    requires no { no.0 < length book.now.names }
    requires instances { map (λ place. place.now) instances.now ≡ book.now.instances }
    ensures { result ≡ source_node book.now no }
{
    match source_in(book, instances, no) {
        SourceState::Attached(source) | SourceState::Detached(source) => {
            node_of(book, instances, source)
        }
        SourceState::Without => None,
    }
}

// For each node that of its source. It looks at each instance once.
fn source_nodes(alloc: Global, book: &Book) -> Result<Vec<Option<u32>>, Memory>
    ensures { IfOk result (λ nodes. nodes.items ≡ source_nodes book.now) }
{
    let instances = book.instances(alloc)?;
    let order = book.order();
    let mut nodes = Vec::with_capacity(alloc, order.len())?;
    for no in order {
        nodes.push(source_node(book, &instances, *no))?;
    }
    Ok(nodes)
}

/// The forest of the book: a node for each server, by its rank in name order. Its parent is its seen source, attached
/// or detached, if that is an instance of the book. The parent is left out if the node comes back to itself by
/// following such sources. `Err` means out of memory.
pub fn book_forest(alloc: Global, book: &Book) -> Result<Forest, Memory>
    ensures forest { IfOk result (λ f. f ≡ book_forest book.now) }
    ensures edges { IfOk result (λ f. IsForestOf (source_nodes book.now) f) }
    ensures nodes { IfOk result (λ f. length f ≡ length book.now.names) }
{
    // shows the proof that there are few servers
    let _ = book.servers();
    let nodes = source_nodes(alloc, book)?;
    Forest::make(alloc, &nodes)
}

/// The server at a node of the forest: none if there are fewer servers.
pub fn server_at(book: &Book, node: u32) -> Option<ServerNo>
    ensures server { result ≡ server_at book.now node }
    ensures within { IfSome result (λ server. server.0 < length book.now.names) }
{
    book.order().get(node as usize).copied()
}

/// A server's parent in the forest: none of a root.
pub fn parent(book: &Book, forest: &Forest, no: ServerNo) -> Option<ServerNo>
    requires no { no.0 < length book.now.names }
    requires forest { forest.now ≡ book_forest book.now }
    ensures { result ≡ parent_of book.now no }
{
    match forest.parent(book.rank(no)) {
        Some(node) => server_at(book, node),
        None => None,
    }
}

/// Whether a server comes to another by following parents, at least one step.
pub fn is_below(book: &Book, forest: &Forest, no: ServerNo, other: ServerNo) -> bool
    requires no { no.0 < length book.now.names }
    requires other { other.0 < length book.now.names }
    requires forest { forest.now ≡ book_forest book.now }
    ensures { IsTrue result ↔ IsBelow book.now no other }
{
    forest.below(book.rank(no), book.rank(other))
}
