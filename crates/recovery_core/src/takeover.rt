//! The takeover of a master's place, as it is tried.

ghost use Rattle.std.specs.Prelude.{◌≡◌, ◌<◌, ◌≤◌, ◌-◌, ◌^◌, All, IfOk, length};
ghost use Rattle.recovery_core.specs.Prelude.{Gives, book_forest, permit_fault, replicas_of};
ghost use Rattle.recovery_core.specs.Takeovers.{followers_of};
ghost use Rattle.recovery_core.specs.Asks.{takeover_try_of};
ghost use Rattle.recovery_core.specs.Tries.{takeover_begins};

use crate::book_views::replicas;
use crate::orch_base::{Kind, ServerNo};
use crate::recoveries::recovery_servers;
use crate::takeovers::{followers_of, permit_takeover};
use crate::tries::entry_of;
use crate::{Ask, Begun, Memory, PermitFault};
use recovery_plans::{Means, Purpose};
use recovery_turns::RecoveryJob;
use std::alloc::Global;

fn takeover_begins(
    alloc: Global,
    ask: &Ask<'_>,
    designated: ServerNo,
    replicas: Vec<ServerNo>,
    order: Vec<ServerNo>,
) -> Result<Begun, Memory>
    requires server { ask.now.failed.0 < length ask.now.book.now.names }
    requires replicas { replicas.items ≡ replicas_of ask.now.book.now ask.now.failed }
    requires order { order.items ≡ followers_of ask.now.book.now ask.now.failed designated }
    ensures begins { IfOk result (λ x. x ≡ takeover_begins ask.now.book.now ask.now.audit.now.audit
        ask.now.moment ask.now.block ask.now.wait ask.now.job ask.now.failed designated) }
    ensures room { IfOk result (λ x. x.entry.id < 2 ^ 64 - 1) }
{
    let (book, audit, master) = (ask.book, ask.audit, ask.failed);
    let (now, block) = (ask.moment, ask.block);
    let entry = entry_of(alloc, book, audit, now, block, Kind::Takeover, master)?;
    let list = recovery_servers(alloc, master, &replicas)?;
    let job = RecoveryJob::make(
        alloc,
        Purpose::Takeover(designated),
        Means::Bridges,
        ask.job,
        ask.wait,
        master,
        replicas,
        order,
    )?;
    Ok(Begun::new(list, job, entry, None))
}

/// The takeover of a master's place by this replica, as it is asked for.
pub(crate) fn try_takeover(
    alloc: Global,
    ask: &Ask<'_>,
    designated: ServerNo,
) -> Result<Begun, PermitFault>
    requires master { ask.now.failed.0 < length ask.now.book.now.names }
    requires designated { designated.0 < length ask.now.book.now.names }
    requires forest { ask.now.forest.now ≡ book_forest ask.now.book.now }
    requires begun { All (λ r. r.begun.0 ≤ 2 ^ 63) ask.now.audit.now.audit.recoveries }
    ensures begins { Gives (λ x. x) permit_fault result (takeover_try_of ask.now designated) }
    ensures room { IfOk result (λ x. x.entry.id < 2 ^ 64 - 1) }
{
    let (book, master) = (ask.book, ask.failed);
    let replicas = replicas(alloc, book, master)?;
    let followers = followers_of(alloc, book, master, designated)?;
    permit_takeover(
        alloc,
        book,
        ask.forest,
        ask.world,
        ask.audit,
        ask.attempt(),
        master,
        designated,
        &replicas,
        &followers,
    )?;
    Ok(takeover_begins(alloc, ask, designated, replicas, followers)?)
}
