//! A row of checks, and the answer of a permit.

ghost use Rattle.std.specs.Prelude.{◌≡◌, IfOk};
ghost use Rattle.permission.specs.Prelude.{Gives, book_forest, option_and_then, option_or};
ghost use Rattle.permission.specs.Checks.{are_one, errant, errant_by, first_refusal, goes_elsewhere, is_given, is_known, looks_at, permit_fault, permitted, refusal_by, unknown_in};
ghost use Rattle.permission.specs.Errants.{own_missing};
ghost use Rattle.permission.specs.Lists.{first_about, only_if};
ghost use Rattle.permission.specs.Views.{attached_of};

use crate::Memory;
use crate::by_book::{
    attached_to, below, busy, first_place_purged, first_set_purged, is_attached, is_detached,
    is_instance, set_seen, source, unreached,
};
use crate::by_settings::{
    lower_version, moved_not_logging, not_logging, other_cluster, same_id, uuid,
};
use crate::case::{Case, Check, Lead, Move};
use crate::commands::{BoxedSet, Command, Refusal, unknown_instance};
use crate::gtid_sets::GtidSet;
use crate::instance_keeper_items::Book;
use crate::orch_base::ServerNo;
use crate::server_model::World;
use std::alloc::Global;
use std::fmt;
use topology_tree::Forest;

/// Why a command may not begin.
#[derive(Drop)]
pub enum PermitFault {
    /// It is refused: of the refusals that apply this has the lowest number.
    Refused(Refusal),
    /// Out of memory.
    Memory,
}

impl From<Memory> for PermitFault {
    ghost use Rattle.permission.specs.declared.row.PermitFault.TheVariants.{Memory as NoMemory};

    ghost from_gives = { λ _ e. e ≡ NoMemory };

    fn from(_e: Memory) -> PermitFault {
        PermitFault::Memory
    }
}

impl fmt::Display for PermitFault {
    fn fmt<W: fmt::Write>(&self, f: &mut fmt::Formatter<W>) -> fmt::Result {
        match self {
            PermitFault::Refused(refusal) => write!(f, "refused {}", refusal.number()),
            PermitFault::Memory => write!(f, "out of memory"),
        }
    }
}

fn only_if(fails: bool, refusal: Refusal) -> Option<Refusal>
    ensures { result ≡ only_if fails refusal }
{
    if fails { Some(refusal) } else { None }
}

/// Whether a server is the one that is given.
pub(crate) fn is_given(no: ServerNo, other: Option<ServerNo>) -> bool
    ensures { result ≡ is_given no other }
{
    match other {
        Some(other) => other.0 == no.0,
        None => false,
    }
}

// Whether another server is given as the destination.
fn goes_elsewhere(i: ServerNo, d: Option<ServerNo>) -> bool
    ensures { result ≡ goes_elsewhere i d }
{
    match d {
        None => false,
        Some(d) => !is_given(i, Some(d)),
    }
}

/// Whether no check but that of the instance's lease is left of those that come first.
pub fn looks_at(lead: Lead, i: ServerNo, d: Option<ServerNo>) -> bool
    ensures { result ≡ looks_at lead i d }
{
    match lead {
        Lead::Held => true,
        Lead::Apart => goes_elsewhere(i, d),
        Lead::Other => false,
    }
}

fn are_one(one: Option<ServerNo>, other: Option<ServerNo>) -> bool
    ensures { result ≡ are_one one other }
{
    match one {
        Some(one) => is_given(one, other),
        None => false,
    }
}

// The source that a server is attached to, if the server is given.
fn attached_if(book: &Book, no: Option<ServerNo>) -> Option<ServerNo>
    ensures { result ≡ option_and_then (attached_of book.now) no }
{
    match no {
        Some(no) => attached_to(book, no),
        None => None,
    }
}

// The GTIDs of one UUID that the first set has and the second lacks.
fn missing(uuid: u128, set: &GtidSet, other: &GtidSet) -> Result<GtidSet, Memory>
    ensures { IfOk result (λ s. s ≡ own_missing uuid set.now other.now) }
{
    let own = set.of_uuid(uuid)?;
    let missing = own.minus(other)?;
    // shows the proof that this is a set
    set.show_order();
    Ok(missing)
}

fn errant_by(alloc: Global, missing: GtidSet) -> Result<Option<Refusal>, Memory>
    ensures { IfOk result (λ r. r ≡ errant_by missing) }
{
    if missing.is_empty() {
        return Ok(None);
    }
    Ok(Some(Refusal::Errant(BoxedSet::new(alloc, missing)?)))
}

fn errant(alloc: Global, book: &Book, world: &World, one: Move) -> Result<Option<Refusal>, Memory>
    ensures { IfOk result (λ r. r ≡ errant world.now book.now one) }
{
    let none = GtidSet::empty(alloc);
    let seen = set_seen(book, one.no, &none);
    let of_source = set_seen(book, one.source, &none);
    errant_by(alloc, missing(uuid(world, one.no), seen, of_source)?)
}

// What the first server that moves and has such GTIDs has executed of its own, and its new source lacks.
fn first_errant(
    alloc: Global,
    book: &Book,
    world: &World,
    moves: &[Move],
) -> Result<Option<Refusal>, Memory>
    ensures { IfOk result (λ r. r ≡ first_about (errant world.now book.now) moves.now) }
{
    for one in moves {
        if let Some(refusal) = errant(alloc, book, world, *one)? {
            return Ok(Some(refusal));
        }
    }
    Ok(None)
}

// The refusal of a check, none if it passes.
fn refusal_by(
    alloc: Global,
    book: &Book,
    forest: &Forest,
    world: &World,
    case: &Case,
    check: Check,
) -> Result<Option<Refusal>, Memory>
    requires { forest.now ≡ book_forest book.now }
    ensures { IfOk result (λ r. r ≡ refusal_by world.now book.now case.now check) }
{
    let (i, to) = (case.i, case.to);
    let above = source(book, i);
    Ok(match check {
        Check::SameInstance => only_if(is_given(i, to), Refusal::SameInstance),
        Check::Busy => busy(book, &case.leased),
        Check::Unreachable => unreached(book, &case.reached),
        Check::NoSource => only_if(above.is_none(), Refusal::NoSource),
        Check::NotDetached => only_if(is_attached(book, i), Refusal::NotDetached),
        Check::AlreadyDetached => only_if(is_detached(book, i), Refusal::AlreadyDetached),
        Check::OtherCluster => other_cluster(world, &case.moves),
        Check::Below => below(book, forest, &case.moves),
        Check::SourceHasNoSource => {
            only_if(
                attached_if(book, above).is_none(),
                Refusal::SourceHasNoSource,
            )
        }
        Check::NotSibling => {
            only_if(!are_one(above, attached_if(book, to)), Refusal::NotSibling)
        }
        Check::NotSameLog => only_if(!are_one(above, to), Refusal::NotSameLog),
        Check::DestNotLogging => not_logging(world, &case.sources),
        Check::SameServerId => same_id(world, &case.moves),
        Check::VersionLower => lower_version(world, &case.moves),
        Check::GtidOff => only_if(!world.gtid(), Refusal::GtidOff),
        Check::Errant => first_errant(alloc, book, world, &case.moves)?,
        Check::PurgedPlace => first_place_purged(book, &case.crossed),
        Check::PurgedSet => first_set_purged(alloc, book, &case.moves),
        Check::PseudoOff => Some(Refusal::PseudoOff),
        Check::MovedNotLogging => moved_not_logging(world, &case.moves),
    })
}

/// The refusal of the first check of a row that doesn't pass. `Err` means out of memory.
pub fn first_refusal(
    alloc: Global,
    book: &Book,
    forest: &Forest,
    world: &World,
    case: &Case,
    row: &[Check],
) -> Result<Option<Refusal>, Memory>
    requires { forest.now ≡ book_forest book.now }
    ensures { IfOk result (λ r. r ≡ first_refusal world.now book.now case.now row.now) }
{
    for check in row {
        if let Some(refusal) = refusal_by(alloc, book, forest, world, case, *check)? {
            return Ok(Some(refusal));
        }
    }
    Ok(None)
}

/// What refuses first: the first check of a row that doesn't pass, then what else refuses, then the first check of a
/// last row. `Err` means out of memory.
pub fn refusal_around(
    alloc: Global,
    book: &Book,
    forest: &Forest,
    world: &World,
    case: &Case,
    row: &[Check],
    own: Option<Refusal>,
    last: &[Check],
) -> Result<Option<Refusal>, Memory>
    requires { forest.now ≡ book_forest book.now }
    ensures { IfOk result (λ r. r
        ≡ option_or (first_refusal world.now book.now case.now row.now)
        (option_or own (first_refusal world.now book.now case.now last.now))) }
{
    if let Some(refusal) = first_refusal(alloc, book, forest, world, case, row)? {
        return Ok(Some(refusal));
    }
    match own {
        Some(refusal) => Ok(Some(refusal)),
        None => first_refusal(alloc, book, forest, world, case, last),
    }
}

fn is_known(book: &Book, no: Option<ServerNo>) -> bool
    ensures { result ≡ is_known book.now no }
{
    match no {
        Some(no) => is_instance(book, no),
        None => false,
    }
}

/// `UnknownInstance`, exactly if an instance that the command uses isn't given or isn't in the book.
pub fn unknown_in(book: &Book, command: Command) -> Option<Refusal>
    ensures { result ≡ unknown_in book.now command }
{
    unknown_instance(
        command,
        is_known(book, command.i),
        is_known(book, command.d),
    )
}

/// The answer of a permit by the refusal that applies.
pub fn answered(refusal: Option<Refusal>) -> Result<(), PermitFault>
    ensures { Gives (λ _. tt) permit_fault result (permitted refusal) }
{
    match refusal {
        Some(refusal) => Err(PermitFault::Refused(refusal)),
        None => Ok(()),
    }
}
