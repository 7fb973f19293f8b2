//! What the book has of a server, and the checks that go by it alone. A number that no server has is no instance.

ghost use Rattle.std.specs.Prelude.{◌≡◌, ◌↔◌, ◌<◌, [], IsTrue, length};
ghost use Rattle.permission.specs.Prelude.{IsBelow, book_forest, instance_at, is_instance, is_within, lease_at, option_copied, seen_source};
ghost use Rattle.permission.specs.Checks.{busy, of_below, place_purged, set_purged, unreached};
ghost use Rattle.permission.specs.Lists.{first_about};
ghost use Rattle.permission.specs.Views.{attached_of, exec_seen, first_seen, is_attached_in, is_auto, is_before, is_below, is_detached_in, is_valid, purged_seen, set_seen, source_above, source_of};

use crate::binlog_coords_items::Coord;
use crate::case::Move;
use crate::commands::Refusal;
use crate::gtid_sets::GtidSet;
use crate::instance_keeper_items::{Book, Instance};
use crate::orch_base::{ServerNo, SourceState};
use std::alloc::Global;
use topology_tree::Forest;

fn instance(book: &Book, no: ServerNo) -> Option<&Instance>
    ensures { option_copied result ≡ instance_at book.now no }
{
    if no.0 < book.servers() {
        book.instance(no)
    } else {
        None
    }
}

/// Whether a server is an instance of the book.
pub(crate) fn is_instance(book: &Book, no: ServerNo) -> bool
    ensures { result ≡ is_instance book.now no }
{
    instance(book, no).is_some()
}

/// Whether a server is an instance that is attached to its source.
pub(crate) fn is_attached(book: &Book, no: ServerNo) -> bool
    ensures { result ≡ is_attached_in (seen_source (instance_at book.now no)) }
{
    match seen_source(book, no) {
        SourceState::Attached(_) => true,
        SourceState::Detached(_) | SourceState::Without => false,
    }
}

/// Whether a server is an instance that is detached from its source.
pub(crate) fn is_detached(book: &Book, no: ServerNo) -> bool
    ensures { result ≡ is_detached_in (seen_source (instance_at book.now no)) }
{
    match seen_source(book, no) {
        SourceState::Detached(_) => true,
        SourceState::Attached(_) | SourceState::Without => false,
    }
}

fn seen_source(book: &Book, no: ServerNo) -> SourceState
    ensures { result ≡ seen_source (instance_at book.now no) }
{
    match instance(book, no) {
        Some(instance) => instance.seen.source,
        None => SourceState::Without,
    }
}

/// A server's source by the book, attached or detached.
pub fn source(book: &Book, no: ServerNo) -> Option<ServerNo>
    ensures { result ≡ source_of book.now no }
{
    match seen_source(book, no) {
        SourceState::Attached(source) | SourceState::Detached(source) => Some(source),
        SourceState::Without => None,
    }
}

/// The source that a server is attached to by the book.
pub fn attached_to(book: &Book, no: ServerNo) -> Option<ServerNo>
    ensures { result ≡ attached_of book.now no }
{
    match seen_source(book, no) {
        SourceState::Attached(source) => Some(source),
        SourceState::Detached(_) | SourceState::Without => None,
    }
}

/// The source of a server's source by the book, each attached or detached.
pub fn source_above(book: &Book, no: ServerNo) -> Option<ServerNo>
    ensures { result ≡ source_above book.now no }
{
    match source(book, no) {
        Some(above) => source(book, above),
        None => None,
    }
}

/// Whether a server is an instance whose last reading reached it.
pub fn is_valid(book: &Book, no: ServerNo) -> bool
    ensures { result ≡ is_valid book.now no }
{
    match instance(book, no) {
        Some(instance) => instance.valid,
        None => false,
    }
}

/// Whether a server was seen to find its place by GTIDs.
pub fn is_auto(book: &Book, no: ServerNo) -> bool
    ensures { result ≡ is_auto book.now no }
{
    match instance(book, no) {
        Some(instance) => instance.seen.auto,
        None => false,
    }
}

/// The set that was seen of a server; `none`, the empty set, of one that is no instance.
pub(crate) fn set_seen<'a>(book: &'a Book, no: ServerNo, none: &'a GtidSet) -> &'a GtidSet
    requires { none.now ≡ [] }
    ensures { result.now ≡ set_seen book.now no }
{
    match instance(book, no) {
        Some(instance) => &instance.seen.set,
        None => none,
    }
}

/// The set of what a server was seen to have purged; `none`, the empty set, of one that is no instance.
fn purged_seen<'a>(book: &'a Book, no: ServerNo, none: &'a GtidSet) -> &'a GtidSet
    requires { none.now ≡ [] }
    ensures { result.now ≡ purged_seen book.now no }
{
    match instance(book, no) {
        Some(instance) => &instance.seen.purged,
        None => none,
    }
}

// The first file that a server was seen to keep.
fn first_seen(book: &Book, no: ServerNo) -> u32
    ensures { result ≡ first_seen book.now no }
{
    match instance(book, no) {
        Some(instance) => instance.seen.first,
        None => 1,
    }
}

// The executed coordinate that was seen of a server.
fn exec_seen(book: &Book, no: ServerNo) -> Coord
    ensures { result ≡ exec_seen book.now no }
{
    match instance(book, no) {
        Some(instance) => instance.seen.exec,
        None => Coord { file: 1, pos: 4 },
    }
}

fn place_purged(book: &Book, no: ServerNo) -> Option<Refusal>
    ensures { result ≡ place_purged book.now no }
{
    let source = source(book, no)?;
    let first = first_seen(book, source);
    if exec_seen(book, no).file < first {
        Some(Refusal::Purged(source, first))
    } else {
        None
    }
}

/// The first of the servers whose source was seen to have purged the file of the coordinate that was seen of it.
pub(crate) fn first_place_purged(book: &Book, servers: &[ServerNo]) -> Option<Refusal>
    ensures { result ≡ first_about (place_purged book.now) servers.now }
{
    for no in servers {
        if let Some(refusal) = place_purged(book, *no) {
            return Some(refusal);
        }
    }
    None
}

// Whether each GTID of a set is in another.
fn is_within(set: &GtidSet, other: &GtidSet) -> bool
    ensures { result ≡ is_within set.now other.now }
{
    set.is_subset(other)
}

fn set_purged(alloc: Global, book: &Book, one: Move) -> Option<Refusal>
    ensures { result ≡ set_purged book.now one }
{
    let none = GtidSet::empty(alloc);
    let purged = purged_seen(book, one.source, &none);
    if is_within(purged, set_seen(book, one.no, &none)) {
        None
    } else {
        Some(Refusal::Purged(one.source, first_seen(book, one.source)))
    }
}

/// The first new source that was seen to have purged what wasn't seen of the server that moves.
pub(crate) fn first_set_purged(alloc: Global, book: &Book, moves: &[Move]) -> Option<Refusal>
    ensures { result ≡ first_about (set_purged book.now) moves.now }
{
    for one in moves {
        if let Some(refusal) = set_purged(alloc, book, *one) {
            return Some(refusal);
        }
    }
    None
}

fn lease(book: &Book, no: ServerNo) -> Option<u64>
    ensures { result ≡ lease_at book.now no }
{
    if no.0 < book.servers() {
        book.lease(no)
    } else {
        None
    }
}

/// Whether a server comes to another by following parents in the book's forest, at least one step.
pub fn is_below(book: &Book, forest: &Forest, no: ServerNo, other: ServerNo) -> bool
    requires { forest.now ≡ book_forest book.now }
    ensures is { result ≡ is_below book.now no other }
    ensures means { no.0 < length book.now.names → other.0 < length book.now.names →
        IsTrue result ↔ IsBelow book.now no other }
{
    forest.edges_have_no_loop();
    let count = book.servers();
    no.0 < count && other.0 < count && book_views::is_below(book, forest, no, other)
}

/// Whether a server of the book is before another by name.
pub fn is_before(book: &Book, one: ServerNo, other: ServerNo) -> bool
    ensures { result ≡ is_before book.now one other }
{
    let count = book.servers();
    one.0 < count && other.0 < count && book.rank(one) < book.rank(other)
}

/// The first of the servers of which a job has the lease, with that job.
pub(crate) fn busy(book: &Book, servers: &[ServerNo]) -> Option<Refusal>
    ensures { result ≡ first_about (busy book.now) servers.now }
{
    for no in servers {
        if let Some(job) = lease(book, *no) {
            return Some(Refusal::Busy(*no, job));
        }
    }
    None
}

/// The first of the servers that isn't a valid instance.
pub(crate) fn unreached(book: &Book, servers: &[ServerNo]) -> Option<Refusal>
    ensures { result ≡ first_about (unreached book.now) servers.now }
{
    for no in servers {
        if !is_valid(book, *no) {
            return Some(Refusal::Unreachable(*no));
        }
    }
    None
}

/// Whether a new source is below the server that moves.
pub(crate) fn below(book: &Book, forest: &Forest, moves: &[Move]) -> Option<Refusal>
    requires { forest.now ≡ book_forest book.now }
    ensures { result ≡ first_about (of_below book.now) moves.now }
{
    for one in moves {
        if is_below(book, forest, one.source, one.no) {
            return Some(Refusal::Below);
        }
    }
    None
}
