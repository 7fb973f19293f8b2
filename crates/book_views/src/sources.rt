//! Instances, their sources and their replicas.

ghost use Rattle.std.specs.Prelude.{◌≡◌, ◌<◌, IfOk, length, map, true};
ghost use Rattle.instance_keeper.specs.KeptRows.Servers.{are_known, source_servers};
ghost use Rattle.instance_keeper.specs.Book.{instance_at};
ghost use Rattle.book_views.specs.Sources.{is_attached_to, is_instance, label_at, replicas_of, seen_source};

use crate::Memory;
use crate::orch_base::{OwnedText, ServerNo, SourceState};
use instance_keeper::{Book, Instance};
use std::alloc::Global;

/// The label of a server's cluster.
pub fn label_at(book: &Book, no: ServerNo) -> &OwnedText
    requires { no.0 < length book.now.names }
    ensures { result.now ≡ label_at book.now no }
{
    &book.settings(no).cluster
}

/// Whether a server is an instance of the book.
pub fn is_instance(book: &Book, no: ServerNo) -> bool
    requires { no.0 < length book.now.names }
    ensures { result ≡ is_instance book.now no }
{
    book.instance(no).is_some()
}

/// The source that was seen: none of a server that is no instance.
pub fn seen_source(book: &Book, no: ServerNo) -> SourceState
    requires { no.0 < length book.now.names }
    ensures source { result ≡ seen_source (instance_at book.now no) }
    ensures known { are_known (length book.now.names) (source_servers result) ≡ true }
{
    // shows the proof that sources are known
    let _ = book.servers();
    match book.instance(no) {
        Some(instance) => instance.seen.source,
        None => SourceState::Without,
    }
}

/// Whether a server is an instance of the book that has these instances.
pub(crate) fn is_instance_in(book: &Book, instances: &[&Option<Instance>], no: ServerNo) -> bool
    requires no { no.0 < length book.now.names }
    requires instances { map (λ place. place.now) instances.now ≡ book.now.instances }
    ensures { result ≡ is_instance book.now no }
{
    // shows the proof that each server has its place
    let _ = book.servers();
    instances[no.0 as usize].is_some()
}

fn source_of(place: &Option<Instance>) -> SourceState
    ensures { result ≡ seen_source place.now }
{
    match place {
        Some(instance) => instance.seen.source,
        None => SourceState::Without,
    }
}

/// The source that was seen, by the book's instances: none of a server that is no instance.
pub(crate) fn source_in(book: &Book, instances: &[&Option<Instance>], no: ServerNo) -> SourceState
    requires no { no.0 < length book.now.names }
    requires instances { map (λ place. place.now) instances.now ≡ book.now.instances }
    ensures source { result ≡ seen_source (instance_at book.now no) }
    ensures known { are_known (length book.now.names) (source_servers result) ≡ true }
{
    // shows the proof that sources are known, and that each server has its place
    let _ = book.servers();
    source_of(instances[no.0 as usize])
}

fn is_attached_to(source: SourceState, i: ServerNo) -> bool
    ensures { result ≡ is_attached_to i source }
{
    match source {
        SourceState::Attached(source) => source.0 == i.0,
        SourceState::Detached(_) | SourceState::Without => false,
    }
}

/// The instances that are attached to a server, in name order. It looks at each instance once. `Err` means out of
/// memory.
pub fn replicas(alloc: Global, book: &Book, i: ServerNo) -> Result<Vec<ServerNo>, Memory>
    ensures { IfOk result (λ replicas. replicas.items ≡ replicas_of book.now i) }
{
    let instances = book.instances(alloc)?;
    let mut replicas = Vec::new(alloc);
    let order = book.order();
    for no in order {
        if is_attached_to(source_in(book, &instances, *no), i) {
            replicas.push(*no)?;
        }
    }
    Ok(replicas)
}
