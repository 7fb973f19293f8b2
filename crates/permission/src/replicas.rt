//! Replicas by the book, in name order, but one of them.

ghost use Rattle.std.specs.Prelude.{◌≡◌, IfOk};
ghost use Rattle.permission.specs.Replicas.{replicas_but, siblings_of, without};

use crate::Memory;
use crate::by_book::source;
use crate::instance_keeper_items::Book;
use crate::orch_base::ServerNo;
use crate::row::is_given;
use book_views::replicas;
use std::alloc::Global;

// The servers of a list, without one if one is given.
fn without(alloc: Global, list: &[ServerNo], no: Option<ServerNo>) -> Result<Vec<ServerNo>, Memory>
    ensures { IfOk result (λ rest. rest.items ≡ without no list.now) }
{
    list.iter()
        .copied()
        .filter(|other| !is_given(*other, no))
        .collect(alloc)
}

/// The instances that are attached to a server, in name order, without one if one is given. `Err` means out of memory.
pub fn replicas_but(
    alloc: Global,
    book: &Book,
    i: ServerNo,
    no: Option<ServerNo>,
) -> Result<Vec<ServerNo>, Memory>
    ensures { IfOk result (λ rest. rest.items ≡ replicas_but book.now i no) }
{
    without(alloc, &replicas(alloc, book, i)?, no)
}

/// The other instances that are attached to a server's source, in name order: none of a server without a source. `Err`
/// means out of memory.
pub fn siblings(alloc: Global, book: &Book, i: ServerNo) -> Result<Vec<ServerNo>, Memory>
    ensures { IfOk result (λ rest. rest.items ≡ siblings_of book.now i) }
{
    match source(book, i) {
        Some(source) => replicas_but(alloc, book, source, Some(i)),
        None => Ok(Vec::new(alloc)),
    }
}
