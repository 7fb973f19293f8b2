//! Lists of a book's instances.

ghost use Rattle.std.specs.Prelude.{◌≡◌, ◌<◌, ◌&&◌, IfOk, length, slice_index_or, false};
ghost use Rattle.asking_commands.specs.Prelude.{is_instance, label_at};
ghost use Rattle.asking_commands.specs.Asking.{all_instances, cluster_instances, cluster_of, found, is_of_cluster, master_of, replica_lines, source_line, switch_line, switch_of};

use crate::Memory;
use crate::orch_base::{OwnedText, Same, ServerNo, SourceState};
use book_views::{is_instance, label_at, replicas, seen_source};
use commands::{Line, Lines};
use instance_keeper::Book;
use std::alloc::Global;

/// The instances of the book, in name order. `Err` means out of memory.
pub fn all_instances(alloc: Global, book: &Book) -> Result<Lines, Memory>
    ensures { IfOk result (λ lines. lines ≡ all_instances book.now) }
{
    let mut lines = Vec::new(alloc);
    let order = book.order();
    for no in order {
        if is_instance(book, *no) {
            lines.push(Line::Server(*no))?;
        }
    }
    Ok(Lines::new(lines))
}

fn is_found(book: &Book, answers: &[bool], no: ServerNo) -> bool
    requires { no.0 < length book.now.names }
    ensures { result ≡ (is_instance book.now no && slice_index_or answers.now no.0 false) }
{
    answers.get(no.0 as usize).copied().unwrap_or(false) && is_instance(book, no)
}

/// The instances whose answer is true, in name order. The answers are in the order of the servers' numbers. A server
/// without one has false. `Err` means out of memory.
pub fn find(alloc: Global, book: &Book, answers: &[bool]) -> Result<Lines, Memory>
    ensures { IfOk result (λ lines. lines ≡ found book.now answers.now) }
{
    let mut lines = Vec::new(alloc);
    let order = book.order();
    for no in order {
        if is_found(book, answers, *no) {
            lines.push(Line::Server(*no))?;
        }
    }
    Ok(Lines::new(lines))
}

fn source_line(source: SourceState) -> Line
    ensures { result ≡ source_line source }
{
    match source {
        SourceState::Attached(source) | SourceState::Detached(source) => Line::Server(source),
        SourceState::Without => Line::NoMaster,
    }
}

/// The instance's source, attached or detached, or `none`. `Err` means out of memory.
pub fn which_master(alloc: Global, book: &Book, i: ServerNo) -> Result<Lines, Memory>
    requires { i.0 < length book.now.names }
    ensures { IfOk result (λ lines. lines ≡ master_of book.now i) }
{
    let mut lines = Vec::new(alloc);
    lines.push(source_line(seen_source(book, i)))?;
    Ok(Lines::new(lines))
}

/// The instances that are attached to the instance, in name order. `Err` means out of memory.
pub fn which_replicas(alloc: Global, book: &Book, i: ServerNo) -> Result<Lines, Memory>
    ensures { IfOk result (λ lines. lines ≡ replica_lines book.now i) }
{
    let replicas = replicas(alloc, book, i)?;
    let mut lines = Vec::with_capacity(alloc, replicas.len())?;
    for no in &replicas {
        lines.push(Line::Server(*no))?;
    }
    Ok(Lines::new(lines))
}

/// The label of the server's cluster. `Err` means out of memory.
pub fn which_cluster(alloc: Global, book: &Book, i: ServerNo) -> Result<Lines, Memory>
    requires { i.0 < length book.now.names }
    ensures { IfOk result (λ lines. lines ≡ cluster_of book.now i) }
{
    let mut lines = Vec::new(alloc);
    lines.push(Line::Cluster(label_at(book, i).copy(alloc)?))?;
    Ok(Lines::new(lines))
}

/// Whether a server is an instance whose cluster has this label.
pub(crate) fn is_of_cluster(book: &Book, label: &OwnedText, no: ServerNo) -> bool
    requires { no.0 < length book.now.names }
    ensures { result ≡ is_of_cluster book.now label.now no }
{
    is_instance(book, no) && label_at(book, no).is_same(label)
}

/// The instances whose cluster is the instance's, in name order. `Err` means out of memory.
pub fn which_cluster_instances(alloc: Global, book: &Book, i: ServerNo) -> Result<Lines, Memory>
    requires { i.0 < length book.now.names }
    ensures { IfOk result (λ lines. lines ≡ cluster_instances book.now i) }
{
    let label = label_at(book, i);
    let mut lines = Vec::new(alloc);
    let order = book.order();
    for no in order {
        if is_of_cluster(book, label, *no) {
            lines.push(Line::Server(*no))?;
        }
    }
    Ok(Lines::new(lines))
}

/// Whether recoveries are enabled. `Err` means out of memory.
pub fn global_switch(alloc: Global, book: &Book) -> Result<Lines, Memory>
    ensures { IfOk result (λ lines. lines ≡ switch_of book.now) }
{
    let mut lines = Vec::new(alloc);
    lines.push(switch_line(book.enabled()))?;
    Ok(Lines::new(lines))
}

/// The word for whether recoveries are enabled.
pub fn switch_line(enabled: bool) -> Line
    ensures { result ≡ switch_line enabled }
{
    if enabled {
        Line::Enabled
    } else {
        Line::Disabled
    }
}
