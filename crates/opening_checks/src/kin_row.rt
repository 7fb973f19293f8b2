//! What listed histories say of one origin's transactions.

ghost use Rattle.std.specs.Prelude.{◌≡◌, ◌≤◌};
ghost use Rattle.opening_checks.specs.Prelude.{same_before};

use crate::orch_base::{Memory, Txn};
use std::alloc::Global;
use std::marker::Model;

/// What a history has of a transaction beside its origin and number: the transaction before it, if there is one, and
/// its size.
#[derive(Clone, Copy)]
pub(crate) struct Link {
    pub(crate) before: Option<Txn>,
    pub(crate) size: u32,
}

fn is_same_before(x: Option<Txn>, y: Option<Txn>) -> bool
    ensures { result ≡ same_before x y }
{
    match (x, y) {
        (None, None) => true,
        (Some(x), Some(y)) => x.origin.0 == y.origin.0 && x.seq == y.seq,
        _ => false,
    }
}

/// The links of one origin's transactions, by their numbers.
#[derive(Drop)]
pub(crate) struct Row {
    links: Vec<Link>,
}

impl Model for Row {
    ghost use Rattle.std.specs.Prelude.{List};
    ghost use Rattle.opening_checks.specs.declared.kin_row.Link.{Link as ALink};

    ghost Value = { List ALink };

    ghost view = { λ r. r.links.items };
}

impl Row {
    ghost use Rattle.std.specs.Prelude.{◌≡◌, ◌≤◌, [], IfOk};
    ghost use Rattle.opening_checks.specs.KinTable.{agrees_in, extended};

    /// A row of no links. It takes no memory.
    pub(crate) fn new(alloc: Global) -> Row
        ensures { result ≡ [] }
    {
        Row {
            links: Vec::new(alloc),
        }
    }

    /// Whether the transaction of this number has no link here, or an equal one.
    pub(crate) fn agrees(&self, number: u64, link: Link) -> bool
        requires { 1 ≤ number }
        ensures { result ≡ agrees_in self.now number link }
    {
        match self.links.get((number - 1) as usize) {
            None => true,
            Some(known) => is_same_before(known.before, link.before) && known.size == link.size,
        }
    }

    /// Adds the link of the transaction of this number, if it is the next one.
    pub(crate) fn take(&mut self, number: u64, link: Link) -> Result<(), Memory>
        ensures { IfOk result (λ _. self.new ≡ extended self.old number link) }
    {
        if self.links.len() as u64 + 1 == number {
            self.links.push(link)?;
        }
        Ok(())
    }
}
