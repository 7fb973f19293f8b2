//! The clusters of a book.

ghost use Rattle.std.specs.Prelude.{◌≡◌, IfOk, length, map, not};
ghost use Rattle.asking_commands.specs.Prelude.{nat_cmp, slice_cmp, sort_by};
ghost use Rattle.asking_commands.specs.Labels.{clusters_of, is_again, labels_of};

use crate::Memory;
use crate::orch_base::{OwnedText, Same};
use book_views::{is_instance, label_at};
use commands::{Line, Lines};
use instance_keeper::Book;
use std::alloc::Global;

// The labels of the book's instances.
fn labels_of<'a>(alloc: Global, book: &'a Book) -> Result<Vec<&'a OwnedText>, Memory>
    ensures { IfOk result (λ labels. map (λ l. l.now) labels.items ≡ labels_of book.now) }
{
    let mut labels = Vec::new(alloc);
    let order = book.order();
    for no in order {
        if is_instance(book, *no) {
            labels.push(label_at(book, *no))?;
        }
    }
    Ok(labels)
}

// The labels in order.
fn sorted_labels<'a>(alloc: Global, book: &'a Book) -> Result<Vec<&'a OwnedText>, Memory>
    ensures { IfOk result (λ labels. map (λ l. l.now) labels.items
        ≡ sort_by (slice_cmp nat_cmp) (labels_of book.now)) }
{
    let mut labels = labels_of(alloc, book)?;
    labels.sort_by(|one, other| {
        let (one, other) = (one.as_str().as_bytes(), other.as_str().as_bytes());
        one.cmp(other)
    })?;
    Ok(labels)
}

// Whether no label after it is the same, if they are in order.
fn is_last(label: &OwnedText, rest: &[&OwnedText]) -> bool
    ensures { result ≡ not (is_again label.now (map (λ l. l.now) rest.now)) }
{
    match rest.first() {
        Some(next) => !label.is_same(next),
        None => true,
    }
}

/// The labels of the clusters of the book's instances, each once, by their bytes. `Err` means out of memory.
pub fn clusters(alloc: Global, book: &Book) -> Result<Lines, Memory>
    ensures { IfOk result (λ lines. lines ≡ clusters_of book.now) }
{
    let labels = sorted_labels(alloc, book)?;
    let mut lines = Vec::new(alloc);
    for (k, label) in labels.iter().enumerate() {
        if is_last(label, &labels[k + 1..]) {
            lines.push(Line::Cluster(label.copy(alloc)?))?;
        }
    }
    Ok(Lines::new(lines))
}
