//! Which servers a command moves, and of which its job takes the leases.

ghost use Rattle.std.specs.Prelude.{◌≡◌, ◌∷◌, ◌++◌, IfOk, []};
ghost use Rattle.permission.specs.Prelude.{option_to_list};
ghost use Rattle.permission.specs.Lists.{moves_to};
ghost use Rattle.permission.specs.Rows.{going_by, in_order, is_first, moving, swapping};

use crate::Memory;
use crate::by_book::is_before;
use crate::case::{Case, Move, moves_to, one_or_none};
use crate::instance_keeper_items::Book;
use crate::orch_base::ServerNo;
use std::alloc::Global;

// The instance, and another server if there is one.
fn with_other(alloc: Global, i: ServerNo, other: Option<ServerNo>) -> Result<Vec<ServerNo>, Memory>
    ensures { IfOk result (λ list. list.items ≡ i ∷ option_to_list other) }
{
    let mut list = one_or_none(alloc, Some(i))?;
    list.append(&mut one_or_none(alloc, other)?)?;
    Ok(list)
}

// Whether the instance is before another server by name, if there is one.
fn is_first(book: &Book, i: ServerNo, other: Option<ServerNo>) -> bool
    ensures { result ≡ is_first book.now i other }
{
    match other {
        Some(other) => is_before(book, i, other),
        None => true,
    }
}

// Moves of which the first are by name before the others, or after them.
fn in_order(first: bool, mut moves: Vec<Move>, mut others: Vec<Move>) -> Result<Vec<Move>, Memory>
    ensures { IfOk result (λ list. list.items ≡ in_order first moves.items others.items) }
{
    if first {
        moves.append(&mut others)?;
        Ok(moves)
    } else {
        others.append(&mut moves)?;
        Ok(others)
    }
}

impl Case {
    /// Servers move to a new source, if there is one. The job takes the leases of a list, all of which must be reached.
    /// `Err` means out of memory.
    pub fn moving(
        alloc: Global,
        i: ServerNo,
        movers: &[ServerNo],
        to: Option<ServerNo>,
        leased: Vec<ServerNo>,
    ) -> Result<Case, Memory>
        ensures { IfOk result (λ c. c ≡ moving i movers.now to leased.items) }
    {
        let reached = leased.to_vec(alloc)?;
        let moves = moves_to(alloc, movers, to)?;
        let sources = one_or_none(alloc, to)?;
        Ok(Case::new(i, to, leased, reached, moves, sources, Vec::new(alloc)))
    }

    /// Servers move to a new source, if there is one, with others beside them. `Err` means out of memory.
    pub fn beside(
        alloc: Global,
        i: ServerNo,
        movers: &[ServerNo],
        to: Option<ServerNo>,
        others: &[ServerNo],
    ) -> Result<Case, Memory>
        ensures { IfOk result (λ c. c ≡ moving i movers.now to (movers.now ++ others.now)) }
    {
        let mut leased = movers.to_vec(alloc)?;
        leased.extend_from_slice(others)?;
        Case::moving(alloc, i, movers, to, leased)
    }

    /// The instance moves to a new source, if there is one, with another server beside it. `Err` means out of memory.
    pub fn one(
        alloc: Global,
        i: ServerNo,
        to: Option<ServerNo>,
        other: Option<ServerNo>,
    ) -> Result<Case, Memory>
        ensures { IfOk result (λ c. c ≡ moving i (i ∷ []) to (i ∷ option_to_list other)) }
    {
        Case::moving(alloc, i, &[i], to, with_other(alloc, i, other)?)
    }

    /// Servers move to a new source, if there is one, and the instance stays. `Err` means out of memory.
    pub fn round(
        alloc: Global,
        i: ServerNo,
        movers: &[ServerNo],
        to: Option<ServerNo>,
    ) -> Result<Case, Memory>
        ensures { IfOk result (λ c. c ≡ moving i movers.now to (i ∷ movers.now)) }
    {
        let mut leased = one_or_none(alloc, Some(i))?;
        leased.extend_from_slice(movers)?;
        Case::moving(alloc, i, movers, to, leased)
    }

    /// The instance goes to its source's source, and its source below it. `Err` means out of memory.
    pub fn swap(
        alloc: Global,
        book: &Book,
        i: ServerNo,
        source: Option<ServerNo>,
        above: Option<ServerNo>,
    ) -> Result<Case, Memory>
        ensures { IfOk result (λ c. c ≡ swapping book.now i source above) }
    {
        let leased = with_other(alloc, i, source)?;
        let reached = leased.to_vec(alloc)?;
        let up = moves_to(alloc, &[i], above)?;
        let below = moves_to(alloc, &one_or_none(alloc, source)?, Some(i))?;
        let moves = in_order(is_first(book, i, source), up, below)?;
        let sources = with_other(alloc, i, above)?;
        let crossed = Vec::new(alloc);
        Ok(Case::new(i, above, leased, reached, moves, sources, crossed))
    }

    /// The moves go by these servers' coordinates under their sources. It takes no memory.
    pub fn going_by(mut self, servers: Vec<ServerNo>) -> Case
        ensures { result ≡ going_by servers.items self }
    {
        self.crossed = servers;
        self
    }

    /// The servers of which the job takes the leases. It takes no memory.
    pub fn into_leased(self) -> Vec<ServerNo>
        ensures { result.items ≡ self.leased }
    {
        self.leased
    }
}
