//! How a recovery's entry of the audit ends with the turn that ends its job.

ghost use Rattle.std.specs.Prelude.{◌≡◌, ◌<◌, ◌++◌, IfOk, IfSome, IsSomeAnd, Some, true, length};
ghost use Rattle.std.specs.Option.{option_copied};
ghost use Rattle.command_outcomes.specs.AuditLog.Audits.{is_unended, recovery_at};
ghost use Rattle.command_outcomes.specs.UnendedJobs.Jobs.{step_reply};
ghost use Rattle.command_outcomes.specs.UnendedJobs.Looks.{foretold, observation_of, step_of};
ghost use Rattle.knowledge.specs.Closings.{closed_by, closed_so, closing_change, closing_changes, closing_of};
ghost use Rattle.knowledge.specs.Kept.{Keeps, changes_by};
ghost use Rattle.knowledge.specs.Replies.{AreReply};

use crate::audit_log::Audit;
use crate::instance_keeper_items::{Book, Change, Keeper, Observation, Recovery, Row};
use crate::operations_items::JobStep;
use crate::orch_base::{Ending, Memory, Moment};
use crate::recovery_core::{ending_of, is_acknowledged};
use crate::unended_jobs_items::{Unended, UnendedLook, answer};
use crate::{Replies, TurnFault, copied, keep_some};
use std::alloc::Global;

/// An entry of the audit that ends.
#[derive(Clone, Copy)]
pub struct Closing {
    /// Its id.
    pub id: u64,
    /// How its recovery ended.
    pub outcome: Ending,
    /// Whether it is acknowledged at once.
    pub acked: bool,
}

/// The entry that ends with this turn of a job: none if the job goes on, or has no entry.
pub fn closing_of(job: &Unended, look: &UnendedLook) -> Option<Closing>
    ensures { result ≡ closing_of (Some (foretold job.now look.now)) }
{
    let Unended::Recovery(recovery, docket) = job else {
        return None;
    };
    let Some(id) = docket.entry else {
        return None;
    };
    let promoted = match look {
        UnendedLook::Recovery(look) => look.as_look().promoted(),
        UnendedLook::Plan(_) | UnendedLook::Hook(_, _) => recovery.promoted(),
    };
    let outcome = ending_of(promoted, look.step())?;
    Some(Closing {
        id,
        outcome,
        acked: is_acknowledged(recovery.purpose(), look.step()),
    })
}

// The entry as it is then.
fn closed_so(closing: Closing, now: Moment, mut entry: Recovery) -> Recovery
    ensures { result ≡ closed_so closing now entry }
{
    entry.ended = Some(now);
    entry.outcome = closing.outcome;
    if closing.acked {
        entry.acked = true;
    }
    entry
}

// How the entry's row changes.
fn closing_change(
    alloc: Global,
    audit: &Audit,
    now: Moment,
    closing: Closing,
) -> Result<Option<Change>, Memory>
    ensures { IfOk result (λ c. c ≡ closing_change audit.now.audit now closing) }
{
    let Some(entry) = audit.recovery(closing.id) else {
        return Ok(None);
    };
    let entry = closed_so(closing, now, entry.copy(alloc)?);
    Ok(Some(Change::Put(Row::Recovery(entry.into_row()))))
}

// How the kept rows change with a turn of a job: by what it observed, and by the entry that ends.
fn job_changes(
    alloc: Global,
    book: &Book,
    audit: &Audit,
    now: Moment,
    observation: Option<&Observation>,
    closing: Option<Closing>,
) -> Result<Vec<Change>, Memory>
    requires { IfSome (option_copied observation) (λ o. o.no.0 < length book.now.names) }
    ensures { IfOk result (λ v. v.items ≡ changes_by book.now (option_copied observation.entry)
        ++ closing_changes audit.now.audit now closing) }
{
    let mut changes = Vec::new(alloc);
    if let Some(o) = observation {
        if let Some(change) = book.change_by(o)? {
            changes.push(change)?;
        }
    }
    if let Some(closing) = closing {
        if let Some(change) = closing_change(alloc, audit, now, closing)? {
            changes.push(change)?;
        }
    }
    Ok(changes)
}

// What a job's turn answers, and once more for a journal, if it is written.
fn answered(alloc: Global, step: &JobStep, written: bool) -> Result<Replies, Memory>
    ensures { IfOk result (λ r. AreReply written (step_reply step.now) r) }
{
    let told = answer(alloc, step)?;
    let written = copied(alloc, &told, written)?;
    Ok(Replies { told, written })
}

/// Keeps how the kept rows change with a turn of a job, and returns its answer. `Keeper` comes only if the row store's
/// count of faults rose.
pub fn keep_turn<K: Keeper>(
    alloc: Global,
    keeper: &mut K,
    book: &Book,
    audit: &Audit,
    now: Moment,
    look: &UnendedLook,
    closing: Option<Closing>,
    written: bool,
) -> Result<Replies, TurnFault>
    requires { IfSome (observation_of look.now) (λ o. o.no.0 < length book.now.names) }
    ensures reply { IfOk result (λ r. AreReply written (step_reply (step_of look.now)) r) }
    ensures keeps { Keeps K.kept K.faults keeper.old keeper.new
        (changes_by book.now (observation_of look.now)
        ++ closing_changes audit.now.audit now closing) result }
{
    let replies = answered(alloc, look.step(), written)?;
    let changes = job_changes(alloc, book, audit, now, look.observation(), closing)?;
    keep_some(alloc, keeper, book.names(), &changes)?;
    Ok(replies)
}

/// Ends the entry, and acknowledges it if that is due. It takes no memory.
pub fn close_entry(audit: &mut Audit, now: Moment, closing: Option<Closing>)
    requires { IfSome closing (λ c. IsSomeAnd (recovery_at audit.old.audit c.id)
        (λ r. is_unended r ≡ true)) }
    ensures { audit.new.audit ≡ closed_by audit.old.audit now closing }
{
    if let Some(closing) = closing {
        audit.finish(closing.id, now, closing.outcome, closing.acked);
    }
}
