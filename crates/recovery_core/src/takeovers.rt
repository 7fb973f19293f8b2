//! The row of takeovers.

ghost use Rattle.std.specs.Prelude.{◌≡◌, ◌<◌, ◌≤◌, ◌^◌, All, IfOk, length};
ghost use Rattle.recovery_core.specs.Prelude.{Gives, book_forest, permit_fault, permitted, replicas_of};
ghost use Rattle.recovery_core.specs.Takeovers.{case_over, comes_below, followers_of, takeover_refusal};

use crate::attempt::Attempt;
use crate::book_views::is_instance;
use crate::checks::{held_back, is_replica_of, no_master, no_replica};
use crate::commands::Refusal;
use crate::instance_keeper_items::Book;
use crate::orch_base::ServerNo;
use crate::recoveries::recovery_servers;
use crate::server_model::World;
use crate::topology_tree::Forest;
use crate::{Memory, PermitFault};
use audit_log::Audit;
use permission::{Case, Check, answered, first_refusal, moves_to};
use std::alloc::Global;

const ROW: [Check; 6] = [
    Check::SameInstance,
    Check::Busy,
    Check::Unreachable,
    Check::DestNotLogging,
    Check::SameServerId,
    Check::VersionLower,
];

fn comes_below(book: &Book, i: ServerNo, d: ServerNo, no: ServerNo) -> bool
    ensures { result ≡ comes_below book.now i d no }
{
    no.0 != d.0 && (no.0 == i.0 || is_replica_of(book, i, no))
}

/// The servers that come below the designated one, in name order: the master and its other replicas. `Err` means out of
/// memory.
pub fn followers_of(
    alloc: Global,
    book: &Book,
    i: ServerNo,
    d: ServerNo,
) -> Result<Vec<ServerNo>, Memory>
    ensures { IfOk result (λ list. list.items ≡ followers_of book.now i d) }
{
    book.order()
        .iter()
        .copied()
        .filter(|no| comes_below(book, i, d, *no))
        .collect(alloc)
}

fn case_of(
    alloc: Global,
    i: ServerNo,
    d: ServerNo,
    replicas: &[ServerNo],
    followers: &[ServerNo],
) -> Result<Case, Memory>
    ensures { IfOk result (λ c. c ≡ case_over i d replicas.now followers.now) }
{
    let leased = recovery_servers(alloc, i, replicas)?;
    let mut reached = Vec::new(alloc);
    reached.push(i)?;
    reached.push(d)?;
    let moves = moves_to(alloc, followers, Some(d))?;
    let mut sources = Vec::new(alloc);
    sources.push(d)?;
    let crossed = Vec::new(alloc);
    Ok(Case::new(i, Some(d), leased, reached, moves, sources, crossed))
}

fn takeover_refusal(
    alloc: Global,
    book: &Book,
    forest: &Forest,
    world: &World,
    audit: &Audit,
    attempt: Attempt,
    i: ServerNo,
    d: ServerNo,
    replicas: &[ServerNo],
    followers: &[ServerNo],
) -> Result<Option<Refusal>, Memory>
    requires servers { (i.0 < length book.now.names) × (d.0 < length book.now.names) }
    requires replicas { replicas.now ≡ replicas_of book.now i }
    requires followers { followers.now ≡ followers_of book.now i d }
    requires forest { forest.now ≡ book_forest book.now }
    requires begun { All (λ r. r.begun.0 ≤ 2 ^ 63) audit.now.audit.recoveries }
    ensures { IfOk result (λ r. r ≡ takeover_refusal world.now book.now audit.now.audit attempt
        i d) }
{
    if !(is_instance(book, i) && is_instance(book, d)) {
        return Ok(Some(Refusal::UnknownInstance));
    }
    let case = case_of(alloc, i, d, replicas, followers)?;
    if let Some(refusal) = first_refusal(alloc, book, forest, world, &case, &ROW)? {
        return Ok(Some(refusal));
    }
    if let Some(refusal) = held_back(book, audit, attempt, i) {
        return Ok(Some(refusal));
    }
    match no_master(book, i) {
        Some(refusal) => Ok(Some(refusal)),
        None => Ok(no_replica(book, i, d)),
    }
}

/// Refuses the takeover of a master's place by a replica with the refusal of the lowest number that applies. It goes by
/// the master's replicas and the servers that come below the designated one, each in name order. It also goes by the
/// book, the audit, the servers' settings and the moment, and changes nothing. Moments are at most 2^63. `Memory` comes
/// only if memory runs out.
pub fn permit_takeover(
    alloc: Global,
    book: &Book,
    forest: &Forest,
    world: &World,
    audit: &Audit,
    attempt: Attempt,
    i: ServerNo,
    d: ServerNo,
    replicas: &[ServerNo],
    followers: &[ServerNo],
) -> Result<(), PermitFault>
    requires servers { (i.0 < length book.now.names) × (d.0 < length book.now.names) }
    requires replicas { replicas.now ≡ replicas_of book.now i }
    requires followers { followers.now ≡ followers_of book.now i d }
    requires forest { forest.now ≡ book_forest book.now }
    requires begun { All (λ r. r.begun.0 ≤ 2 ^ 63) audit.now.audit.recoveries }
    ensures { Gives (λ _. tt) permit_fault result (permitted (takeover_refusal world.now book.now
        audit.now.audit attempt i d)) }
{
    answered(takeover_refusal(
        alloc, book, forest, world, audit, attempt, i, d, replicas, followers,
    )?)
}
