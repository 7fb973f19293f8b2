//! The row of recoveries.

ghost use Rattle.std.specs.Prelude.{◌≡◌, ◌<◌, ◌≤◌, ◌^◌, ◌∷◌, All, IfOk, length};
ghost use Rattle.recovery_core.specs.Prelude.{Gives, action_of, book_forest, permit_fault, permitted, replicas_of};
ghost use Rattle.recovery_core.specs.Checks.{code_at};
ghost use Rattle.recovery_core.specs.Recoveries.{case_over, held_off, recovery_purpose, recovery_refusal, refusal_by, refusal_for, unasked};

use crate::attempt::Attempt;
use crate::checks::{
    disabled, downtimed, filtered, held_back, without_candidate, without_successor,
};
use crate::commands::Refusal;
use crate::instance_keeper_items::Book;
use crate::orch_base::{Code, ServerNo};
use crate::server_model::World;
use crate::topology_tree::Forest;
use crate::{Memory, PermitFault};
use audit_log::{Audit, AuditView};
use failure_analysis::{Action, actionable};
use permission::{Case, Check, answered, first_refusal, source};
use recovery_plans::Purpose;
use std::alloc::Global;

/// The servers of which the recovery of a server, or the takeover of its place, takes the leases: it and its replicas,
/// these in their order. `Err` means out of memory.
pub fn recovery_servers(
    alloc: Global,
    failed: ServerNo,
    replicas: &[ServerNo],
) -> Result<Vec<ServerNo>, Memory>
    ensures { IfOk result (λ list. list.items ≡ failed ∷ replicas.now) }
{
    let mut list = Vec::new(alloc);
    list.push(failed)?;
    list.extend_from_slice(replicas)?;
    Ok(list)
}

fn case_of(alloc: Global, failed: ServerNo, replicas: &[ServerNo]) -> Result<Case, Memory>
    ensures { IfOk result (λ c. c ≡ case_over failed replicas.now) }
{
    Ok(Case::new(
        failed,
        None,
        recovery_servers(alloc, failed, replicas)?,
        Vec::new(alloc),
        Vec::new(alloc),
        Vec::new(alloc),
        Vec::new(alloc),
    ))
}

// What holds a recovery back that begins by itself.
fn unasked(book: &Book, attempt: Attempt, failed: ServerNo, passes: bool) -> Option<Refusal>
    requires { failed.0 < length book.now.names }
    ensures { result ≡ unasked book.now attempt failed passes }
{
    if attempt.by_hand {
        return None;
    }
    disabled(attempt)
        .or_else(|| downtimed(book, attempt, failed))
        .or_else(|| filtered(passes))
}

// What holds the recovery of a server back, by whether its cluster passes the filters.
fn held_off<A: AuditView>(
    book: &Book,
    audit: &A,
    attempt: Attempt,
    failed: ServerNo,
    passes: bool,
) -> Option<Refusal>
    requires server { failed.0 < length book.now.names }
    requires begun { All (λ r. r.begun.0 ≤ 2 ^ 63) (A.seen audit.now).recoveries }
    ensures { result ≡ held_off book.now (A.seen audit.now) attempt failed passes }
{
    match unasked(book, attempt, failed, passes) {
        Some(refusal) => Some(refusal),
        None => held_back(book, audit, attempt, failed),
    }
}

/// What refuses the recovery of a server if no job has a lease of it or of its replicas. It is the refusal of the
/// lowest number, by the server's code and its replicas in name order. Moments are at most 2^63. It takes no memory.
pub fn refusal_by_code<A: AuditView>(
    book: &Book,
    world: &World,
    audit: &A,
    attempt: Attempt,
    failed: ServerNo,
    replicas: &[ServerNo],
    code: Code,
) -> Option<Refusal>
    requires server { failed.0 < length book.now.names }
    requires replicas { replicas.now ≡ replicas_of book.now failed }
    requires begun { All (λ r. r.begun.0 ≤ 2 ^ 63) (A.seen audit.now).recoveries }
    ensures { result ≡ refusal_for world.now book.now (A.seen audit.now) attempt failed code
        (action_of code) }
{
    match actionable(code) {
        Action::Nothing => Some(Refusal::NotActionable(code)),
        Action::MasterRecovery => {
            match held_off(book, audit, attempt, failed, attempt.by_master) {
                Some(refusal) => Some(refusal),
                None => without_candidate(book, world, attempt, failed, replicas),
            }
        }
        Action::IntermediateRecovery => {
            match held_off(book, audit, attempt, failed, attempt.by_intermediate) {
                Some(refusal) => Some(refusal),
                None => without_successor(book, world, failed),
            }
        }
    }
}

fn refusal_by(
    alloc: Global,
    book: &Book,
    forest: &Forest,
    world: &World,
    audit: &Audit,
    attempt: Attempt,
    failed: ServerNo,
    replicas: &[ServerNo],
    code: Option<Code>,
) -> Result<Option<Refusal>, Memory>
    requires server { failed.0 < length book.now.names }
    requires replicas { replicas.now ≡ replicas_of book.now failed }
    requires forest { forest.now ≡ book_forest book.now }
    requires begun { All (λ r. r.begun.0 ≤ 2 ^ 63) audit.now.audit.recoveries }
    ensures { IfOk result (λ r. r ≡ refusal_by world.now book.now audit.now.audit attempt
        failed code) }
{
    let Some(code) = code else {
        return Ok(Some(Refusal::UnknownInstance));
    };
    let case = case_of(alloc, failed, replicas)?;
    match first_refusal(alloc, book, forest, world, &case, &[Check::Busy])? {
        Some(refusal) => Ok(Some(refusal)),
        None => Ok(refusal_by_code(book, world, audit, attempt, failed, replicas, code)),
    }
}

/// Refuses the recovery of a server, by its replicas in name order and its code, with the refusal of the lowest number
/// that applies. It goes by the book, the audit, the servers' settings and the moment, and changes nothing. Moments are
/// at most 2^63. `Memory` comes only if memory runs out.
pub fn permit_recovery(
    alloc: Global,
    book: &Book,
    forest: &Forest,
    world: &World,
    audit: &Audit,
    attempt: Attempt,
    failed: ServerNo,
    replicas: &[ServerNo],
    code: Option<Code>,
) -> Result<(), PermitFault>
    requires server { failed.0 < length book.now.names }
    requires replicas { replicas.now ≡ replicas_of book.now failed }
    requires forest { forest.now ≡ book_forest book.now }
    requires code { code ≡ code_at book.now failed }
    requires begun { All (λ r. r.begun.0 ≤ 2 ^ 63) audit.now.audit.recoveries }
    ensures { Gives (λ _. tt) permit_fault result (permitted (recovery_refusal world.now book.now
        audit.now.audit attempt failed)) }
{
    answered(refusal_by(
        alloc, book, forest, world, audit, attempt, failed, replicas, code,
    )?)
}

/// What the recovery of a server is for: its place is taken. If it has a source, its replicas go below that instead.
pub fn recovery_purpose(book: &Book, failed: ServerNo) -> Purpose
    ensures { result ≡ recovery_purpose book.now failed }
{
    match source(book, failed) {
        None => Purpose::Master,
        Some(source) => Purpose::Intermediate(source),
    }
}
