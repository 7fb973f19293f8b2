//! The recovery of a server, as it is tried.

ghost use Rattle.std.specs.Prelude.{◌≡◌, ◌<◌, ◌≤◌, ◌-◌, ◌^◌, All, IfOk, length};
ghost use Rattle.recovery_core.specs.Prelude.{Gives, book_forest, permit_fault, replicas_of};
ghost use Rattle.recovery_core.specs.Checks.{code_at};
ghost use Rattle.recovery_core.specs.Recoveries.{recovery_list};
ghost use Rattle.recovery_core.specs.Asks.{recovery_try_of};
ghost use Rattle.recovery_core.specs.Tries.{entry_of, recovery_begins, recovery_kind};

use crate::audit_log::AuditView;
use crate::book_views::{label_at, replicas};
use crate::codes::code_at;
use crate::instance_keeper_items::{Book, Recovery};
use crate::orch_base::{Code, Ending, Kind, Moment, ServerNo};
use crate::permission_items::source;
use crate::recoveries::{permit_recovery, recovery_purpose, recovery_servers};
use crate::{Ask, Begun, Memory, PermitFault};
use recovery_plans::Means;
use recovery_turns::RecoveryJob;
use std::alloc::Global;

/// The entry of a recovery that begins, with this block period. `Err` means out of memory. It also comes if the audit
/// has no id left.
pub(crate) fn entry_of<A: AuditView>(
    alloc: Global,
    book: &Book,
    audit: &A,
    now: Moment,
    block: u64,
    kind: Kind,
    failed: ServerNo,
) -> Result<Recovery, Memory>
    requires { failed.0 < length book.now.names }
    ensures entry { IfOk result (λ r. r
        ≡ entry_of book.now (A.seen audit.now) now block kind failed) }
    ensures room { IfOk result (λ r. r.id < 2 ^ 64 - 1) }
{
    let id = audit.next_id();
    if id == u64::MAX {
        return Err(Memory);
    }
    Ok(Recovery {
        id,
        cluster: label_at(book, failed).copy(alloc)?,
        kind,
        failed,
        begun: now,
        ended: None,
        outcome: Ending::Unended,
        acked: false,
        block,
    })
}

fn recovery_kind(book: &Book, failed: ServerNo) -> Kind
    ensures { result ≡ recovery_kind book.now failed }
{
    match source(book, failed) {
        None => Kind::Master,
        Some(_) => Kind::Intermediate,
    }
}

/// The recovery of a server with this analysis, as the job of this number, whose operations may wait so often each. It
/// has the servers of which it takes the leases, and its replicas.
pub(crate) fn recovery_begins<A: AuditView>(
    alloc: Global,
    book: &Book,
    audit: &A,
    now: Moment,
    block: u64,
    wait: u32,
    job: u64,
    failed: ServerNo,
    code: Option<Code>,
    list: Vec<ServerNo>,
    replicas: Vec<ServerNo>,
) -> Result<Begun, Memory>
    requires code { code ≡ code_at book.now failed }
    requires server { failed.0 < length book.now.names }
    requires list { list.items ≡ recovery_list book.now failed }
    requires replicas { replicas.items ≡ replicas_of book.now failed }
    ensures begins { IfOk result (λ x. x
        ≡ recovery_begins book.now (A.seen audit.now) now block wait job failed) }
    ensures room { IfOk result (λ x. x.entry.id < 2 ^ 64 - 1) }
{
    let entry = entry_of(
        alloc,
        book,
        audit,
        now,
        block,
        recovery_kind(book, failed),
        failed,
    )?;
    let purpose = recovery_purpose(book, failed);
    let order = replicas.to_vec(alloc)?;
    let job = RecoveryJob::make(
        alloc,
        purpose,
        Means::Bridges,
        job,
        wait,
        failed,
        replicas,
        order,
    )?;
    Ok(Begun::new(list, job, entry, code))
}

/// The recovery of a server, as it is asked for.
pub(crate) fn try_recovery(alloc: Global, ask: &Ask<'_>) -> Result<Begun, PermitFault>
    requires server { ask.now.failed.0 < length ask.now.book.now.names }
    requires forest { ask.now.forest.now ≡ book_forest ask.now.book.now }
    requires begun { All (λ r. r.begun.0 ≤ 2 ^ 63) ask.now.audit.now.audit.recoveries }
    ensures begins { Gives (λ x. x) permit_fault result (recovery_try_of ask.now) }
    ensures room { IfOk result (λ x. x.entry.id < 2 ^ 64 - 1) }
{
    let (book, audit, failed) = (ask.book, ask.audit, ask.failed);
    let code = code_at(alloc, book, failed)?;
    let replicas = replicas(alloc, book, failed)?;
    let attempt = ask.attempt();
    permit_recovery(
        alloc, book, ask.forest, ask.world, audit, attempt, failed, &replicas, code,
    )?;
    let list = recovery_servers(alloc, failed, &replicas)?;
    Ok(recovery_begins(
        alloc, book, audit, ask.moment, ask.block, ask.wait, ask.job, failed, code, list, replicas,
    )?)
}
