//! Single checks, each with the refusal of one that doesn't pass.

ghost use Rattle.std.specs.Prelude.{◌≡◌, ◌<◌, ◌≤◌, ◌^◌, All, length};
ghost use Rattle.recovery_core.specs.Prelude.{is_replica_of, replicas_of};
ghost use Rattle.recovery_core.specs.Checks.{can_succeed, disabled, downtimed, filtered, held_back, no_master, no_replica, refused_as, without_candidate, without_successor};

use crate::attempt::Attempt;
use crate::book_views::label_at;
use crate::commands::Refusal;
use crate::instance_keeper_items::Book;
use crate::orch_base::ServerNo;
use crate::server_model::World;
use audit_log::{AuditView, Held};
use permission::{attached_to, has_candidate, has_log, is_valid, same_label, source};

pub(crate) fn disabled(attempt: Attempt) -> Option<Refusal>
    ensures { result ≡ disabled attempt }
{
    if attempt.enabled {
        None
    } else {
        Some(Refusal::GloballyDisabled)
    }
}

pub(crate) fn downtimed(book: &Book, attempt: Attempt, failed: ServerNo) -> Option<Refusal>
    requires { failed.0 < length book.now.names }
    ensures { result ≡ downtimed book.now attempt failed }
{
    book.downtime(failed, attempt.now).map(Refusal::Downtimed)
}

pub(crate) fn filtered(passes: bool) -> Option<Refusal>
    ensures { result ≡ filtered passes }
{
    if passes {
        None
    } else {
        Some(Refusal::FilteredOut)
    }
}

fn refused_as(held: Held) -> Refusal
    ensures { result ≡ refused_as held }
{
    match held {
        Held::Unended(id) => Refusal::OpenRecovery(id),
        Held::Blocked { id, until } => Refusal::Blocked(id, until),
    }
}

pub(crate) fn held_back<A: AuditView>(
    book: &Book,
    audit: &A,
    attempt: Attempt,
    failed: ServerNo,
) -> Option<Refusal>
    requires server { failed.0 < length book.now.names }
    requires begun { All (λ r. r.begun.0 ≤ 2 ^ 63) (A.seen audit.now).recoveries }
    ensures { result ≡ held_back book.now (A.seen audit.now) attempt failed }
{
    let cluster = label_at(book, failed).as_str();
    match audit.answer(cluster, attempt.now) {
        Ok(_) => None,
        Err(held) => Some(refused_as(held)),
    }
}

pub(crate) fn without_candidate(
    book: &Book,
    world: &World,
    attempt: Attempt,
    failed: ServerNo,
    replicas: &[ServerNo],
) -> Option<Refusal>
    requires { replicas.now ≡ replicas_of book.now failed }
    ensures { result ≡ without_candidate world.now book.now attempt failed }
{
    if has_candidate(book, world, replicas, attempt.now) {
        None
    } else {
        Some(Refusal::NoCandidate)
    }
}

fn can_succeed(book: &Book, world: &World, failed: ServerNo, no: ServerNo) -> bool
    ensures { result ≡ can_succeed world.now book.now failed no }
{
    is_valid(book, no)
        && has_log(world, no)
        && same_label(world, no, failed)
        && !is_replica_of(book, failed, no)
}

pub(crate) fn without_successor(book: &Book, world: &World, failed: ServerNo) -> Option<Refusal>
    ensures { result ≡ without_successor world.now book.now failed }
{
    match source(book, failed) {
        Some(no) if can_succeed(book, world, failed, no) => None,
        Some(_) | None => Some(Refusal::NoCandidate),
    }
}

pub(crate) fn no_master(book: &Book, i: ServerNo) -> Option<Refusal>
    ensures { result ≡ no_master book.now i }
{
    match source(book, i) {
        Some(_) => Some(Refusal::NotMaster),
        None => None,
    }
}

pub(crate) fn is_replica_of(book: &Book, i: ServerNo, no: ServerNo) -> bool
    ensures { result ≡ is_replica_of book.now i no }
{
    match attached_to(book, no) {
        Some(source) => source.0 == i.0,
        None => false,
    }
}

pub(crate) fn no_replica(book: &Book, i: ServerNo, d: ServerNo) -> Option<Refusal>
    ensures { result ≡ no_replica book.now i d }
{
    if is_replica_of(book, i, d) {
        None
    } else {
        Some(Refusal::NotReplica)
    }
}
