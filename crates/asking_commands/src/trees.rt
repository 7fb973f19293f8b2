//! The trees of a cluster.

ghost use Rattle.std.specs.Prelude.{◌≡◌, ◌<◌, ◌++◌, Some, IfOk, OnOk, length, filter_map, option_map};
ghost use Rattle.asking_commands.specs.Prelude.{instance_at, option_to_list, server_at};
ghost use Rattle.asking_commands.specs.Trees.{instance_line, is_root_of, node_line, replicates, state_of, topology_of};

use crate::Memory;
use crate::listing::is_of_cluster;
use crate::orch_base::{IoState, OwnedText, ServerNo, SourceState};
use book_views::{book_forest, label_at, server_at};
use commands::{Line, Lines, StateWord};
use instance_keeper::{Book, Instance};
use std::alloc::Global;
use topology_tree::Forest;

fn replicates(instance: &Instance) -> bool
    ensures { result ≡ replicates instance.now.seen.io instance.now.seen.sql }
{
    instance.seen.io == IoState::Yes && instance.seen.sql
}

fn state_of(instance: &Instance) -> StateWord
    ensures { result ≡ state_of instance.now }
{
    if !instance.valid {
        return StateWord::Unreachable;
    }
    match instance.seen.source {
        SourceState::Detached(_) => StateWord::Detached,
        SourceState::Attached(_) if !replicates(instance) => StateWord::Stopped,
        SourceState::Attached(_) | SourceState::Without => StateWord::Ok,
    }
}

fn instance_line(book: &Book, depth: u32, no: ServerNo, instance: &Instance) -> Line
    requires { no.0 < length book.now.names }
    ensures { result ≡ instance_line book.now depth no instance.now }
{
    Line::Instance {
        depth,
        no,
        state: state_of(instance),
        version: book.settings(no).version,
        read_only: instance.seen.read_only,
    }
}

// The line of a server, if it is an instance.
fn server_line(book: &Book, depth: u32, no: ServerNo) -> Option<Line>
    requires { no.0 < length book.now.names }
    ensures { result ≡ option_map (instance_line book.now depth no) (instance_at book.now no) }
{
    match book.instance(no) {
        Some(instance) => Some(instance_line(book, depth, no, instance)),
        None => None,
    }
}

// The line of a node, by its depth.
fn node_line(book: &Book, node: u32, depth: u32) -> Option<Line>
    ensures { result ≡ node_line book.now (node, depth) }
{
    match server_at(book, node) {
        Some(no) => server_line(book, depth, no),
        None => None,
    }
}

fn push_some(lines: &mut Vec<Line>, line: Option<Line>) -> Result<(), Memory>
    ensures { OnOk result (lines.new.items ≡ lines.old.items ++ option_to_list line) }
{
    if let Some(line) = line {
        lines.push(line)?;
    }
    Ok(())
}

// Appends the lines of some nodes.
fn push_nodes(book: &Book, nodes: &[(u32, u32)], lines: &mut Vec<Line>) -> Result<(), Memory>
    ensures { OnOk result (lines.new.items ≡ lines.old.items
        ++ filter_map (node_line book.now) nodes.now) }
{
    for (node, depth) in nodes {
        push_some(lines, node_line(book, *node, *depth))?;
    }
    Ok(())
}

fn is_root_of(book: &Book, forest: &Forest, label: &OwnedText, node: u32, no: ServerNo) -> bool
    requires node { node < length forest.now }
    requires within { no.0 < length book.now.names }
    requires no { server_at book.now node ≡ Some no }
    ensures { result ≡ is_root_of book.now forest.now label.now node }
{
    forest.parent(node).is_none() && is_of_cluster(book, label, no)
}

/// All trees of the instance's cluster: the roots of its label in name order, each with all below it. Children are in
/// name order and one deeper. `Err` means out of memory.
pub fn topology(alloc: Global, book: &Book, i: ServerNo) -> Result<Lines, Memory>
    requires { i.0 < length book.now.names }
    ensures { IfOk result (λ lines. lines ≡ topology_of book.now i) }
{
    let forest = book_forest(alloc, book)?;
    let label = label_at(book, i);
    let mut lines = Vec::new(alloc);
    let order = book.order();
    for (node, no) in order.iter().enumerate() {
        if is_root_of(book, &forest, label, node as u32, *no) {
            let nodes = forest.walk(alloc, node as u32)?;
            push_nodes(book, &nodes, &mut lines)?;
        }
    }
    Ok(Lines::new(lines))
}
