//! Ways up the book's forest, and the path of a server to another one by coordinates.

ghost use Rattle.std.specs.Prelude.{◌≡◌, ◌++◌, IfOk, length, option_map};
ghost use Rattle.regroup.specs.Prelude.{book_forest};
ghost use Rattle.regroup.specs.Ways.{crossed_in, parent_at, passed_in, path_beside, path_by, path_of, path_to, way_up};

use crate::Memory;
use crate::book_views::parent;
use crate::instance_keeper_items::Book;
use crate::orch_base::ServerNo;
use crate::topology_tree::Forest;
use permission::{attached_to, source};
use std::alloc::Global;
use std::marker::Model;

/// A path to a destination: up past these sources, and, if a server is given under which both are then, below the
/// destination from there. Contracts see it as a `Path` with a list.
#[derive(Drop)]
pub(crate) struct Path {
    passed: Vec<ServerNo>,
    under: Option<ServerNo>,
}

impl Model for Path {
    ghost use Rattle.regroup.specs.Ways.{Path as APath};

    ghost Value = { APath };

    ghost view = { λ p. record { passed = p.passed.items; under = p.under } };
}

impl Path {
    fn new(passed: Vec<ServerNo>, under: Option<ServerNo>) -> Path
        ensures { result ≡ record { passed = passed.items; under = under } }
    {
        Path { passed, under }
    }

    /// The sources that are passed, from the server's own on.
    pub(crate) fn passed(&self) -> &[ServerNo]
        ensures { result.now ≡ self.now.passed }
    {
        &self.passed
    }

    /// The server whose replica the destination is, if that isn't passed or reached itself.
    pub(crate) fn under(&self) -> Option<ServerNo>
        ensures { result ≡ self.now.under }
    {
        self.under
    }
}

fn parent_at(book: &Book, forest: &Forest, no: ServerNo) -> Option<ServerNo>
    requires { forest.now ≡ book_forest book.now }
    ensures { result ≡ parent_at book.now no }
{
    if no.0 < book.servers() {
        parent(book, forest, no)
    } else {
        None
    }
}

// The sources that are passed on the way up to another server. A server's own source is reached at once, whatever the
// book knows of it.
fn way_up(
    alloc: Global,
    book: &Book,
    forest: &Forest,
    no: ServerNo,
    to: ServerNo,
) -> Result<Option<Vec<ServerNo>>, Memory>
    requires { forest.now ≡ book_forest book.now }
    ensures { IfOk result (λ way. option_map (λ passed. passed.items) way ≡ way_up book.now no to) }
{
    let mut passed = Vec::new(alloc);
    if let Some(source) = source(book, no) {
        if source.0 == to.0 {
            return Ok(Some(passed));
        }
    }
    let mut at = no;
    let mut steps = book.servers();
    'climb: while steps > 0 {
        let Some(above) = parent_at(book, forest, at) else {
            return Ok(None);
        };
        if above.0 == to.0 {
            return Ok(Some(passed));
        }
        passed.push(above)?;
        at = above;
        steps -= 1;
    }
    Ok(None)
}

// The path up to a server, and below the destination from there, if that is another one.
fn path_by(
    alloc: Global,
    book: &Book,
    forest: &Forest,
    no: ServerNo,
    to: ServerNo,
    under: Option<ServerNo>,
) -> Result<Option<Path>, Memory>
    requires { forest.now ≡ book_forest book.now }
    ensures { IfOk result (λ path. path ≡ path_by under (way_up book.now no to)) }
{
    match way_up(alloc, book, forest, no, to)? {
        Some(passed) => Ok(Some(Path::new(passed, under))),
        None => Ok(None),
    }
}

fn path_beside(
    alloc: Global,
    book: &Book,
    forest: &Forest,
    no: ServerNo,
    source: Option<ServerNo>,
) -> Result<Option<Path>, Memory>
    requires { forest.now ≡ book_forest book.now }
    ensures { IfOk result (λ path. path ≡ path_beside book.now no source) }
{
    match source {
        Some(source) => path_by(alloc, book, forest, no, source, Some(source)),
        None => Ok(None),
    }
}

/// The path of a server to a destination. If the destination is above the server, the path goes up to it. Else it goes
/// up to the source to which the destination is attached, and below the destination from there. `None` if neither is
/// above the server. Above a server are its own source and those that the book's forest has above it. `Err` means out
/// of memory.
pub(crate) fn path_of(
    alloc: Global,
    book: &Book,
    forest: &Forest,
    no: ServerNo,
    d: ServerNo,
) -> Result<Option<Path>, Memory>
    requires { forest.now ≡ book_forest book.now }
    ensures { IfOk result (λ path. path ≡ path_of book.now no d) }
{
    if let Some(path) = path_by(alloc, book, forest, no, d, None)? {
        return Ok(Some(path));
    }
    path_beside(alloc, book, forest, no, attached_to(book, d))
}

/// The path to the destination that is given; none if none is.
pub(crate) fn path_to(
    alloc: Global,
    book: &Book,
    forest: &Forest,
    d: Option<ServerNo>,
    no: ServerNo,
) -> Result<Option<Path>, Memory>
    requires { forest.now ≡ book_forest book.now }
    ensures { IfOk result (λ path. path ≡ path_to book.now d no) }
{
    match d {
        Some(d) => path_of(alloc, book, forest, no, d),
        None => Ok(None),
    }
}

/// Puts the servers by whose coordinates a server goes its path after others: the sources that it passes, or itself if
/// it goes on in its place.
pub(crate) fn push_crossed(
    list: &mut Vec<ServerNo>,
    no: ServerNo,
    path: Option<Path>,
) -> Result<(), Memory>
    ensures { IfOk result (λ _. list.new.items ≡ list.old.items ++ crossed_in no path) }
{
    let Some(path) = path else {
        return Ok(());
    };
    if path.passed.is_empty() && path.under.is_none() {
        list.push(no)?;
    } else {
        list.extend_from_slice(&path.passed)?;
    }
    Ok(())
}

/// Puts the sources that a path passes after others.
pub(crate) fn push_passed(list: &mut Vec<ServerNo>, path: Option<Path>) -> Result<(), Memory>
    ensures { IfOk result (λ _. list.new.items ≡ list.old.items ++ passed_in path) }
{
    if let Some(path) = path {
        list.extend_from_slice(path.passed())?;
    }
    Ok(())
}
