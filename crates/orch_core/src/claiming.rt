//! Several orchestrators over the same kept rows: the claim of the rows, and how the kept rows change with claims.

ghost use Rattle.std.specs.Prelude.{◌≡◌, IfOk, true};
ghost use Rattle.orch_core.specs.Nodes.{claim_changes_by, claim_or, holder_of, is_kept_so, kept_claim, passes_to, release_changes_by};
ghost use Rattle.orch_core.specs.Prelude.{is_of, is_plain};
ghost use Rattle.orch_core.specs.Replies.{claim_reply, release_reply};

use crate::Reply;
use crate::instance_keeper_items::{Change, Key, Row, Table};
use crate::orch_base::{Memory, Moment};
use node_claims::{ClaimAnswer, ReleaseAnswer};
use std::alloc::Global;

// The claim that a row is, or the one so far.
fn claim_or(kept: Option<(u32, Moment)>, row: &Row) -> Option<(u32, Moment)>
    ensures { result ≡ claim_or kept row.now }
{
    match row {
        Row::Active { node, until } => Some((*node, *until)),
        Row::Instance(_)
        | Row::Downtime(_)
        | Row::Candidate(_)
        | Row::Recovery(_)
        | Row::Switch(_) => kept,
    }
}

/// The kept claim of rows.
pub(crate) fn kept_claim(rows: &[Row]) -> Option<(u32, Moment)>
    ensures { result ≡ kept_claim rows.now }
{
    let mut kept = None;
    for row in rows {
        kept = claim_or(kept, row);
    }
    kept
}

/// The node of a claim.
pub(crate) fn holder_of(kept: Option<(u32, Moment)>) -> Option<u32>
    ensures { result ≡ holder_of kept }
{
    match kept {
        Some((node, _)) => Some(node),
        None => None,
    }
}

/// Whether a claim that this node got passes to it from the one that had the last.
pub(crate) fn passes_to(last: Option<u32>, node: u32) -> bool
    ensures { result ≡ passes_to last node }
{
    match last {
        Some(last) => last != node,
        None => false,
    }
}

fn is_kept_so(kept: Option<(u32, Moment)>, node: u32, until: Moment) -> bool
    ensures { result ≡ is_kept_so kept node until }
{
    match kept {
        Some((other, end)) => other == node && end.0 == until.0,
        None => false,
    }
}

/// How the kept rows change with a claim that the node holds.
pub(crate) fn held_changes(
    alloc: Global,
    kept: Option<(u32, Moment)>,
    node: u32,
    until: Moment,
) -> Result<Vec<Change>, Memory>
    ensures { IfOk result (λ v. v.items ≡ claim_changes_by kept node (ClaimAnswer.Held until)) }
{
    let mut changes = Vec::new(alloc);
    if !is_kept_so(kept, node, until) {
        changes.push(Change::Put(Row::Active { node, until }))?;
    }
    Ok(changes)
}

fn is_of(node: u32, kept: Option<(u32, Moment)>) -> bool
    ensures { result ≡ is_of node kept }
{
    match kept {
        Some((other, _)) => other == node,
        None => false,
    }
}

/// How the kept rows change if the node gives its claim back.
pub(crate) fn release_changes(
    alloc: Global,
    kept: Option<(u32, Moment)>,
    node: u32,
) -> Result<Vec<Change>, Memory>
    ensures { IfOk result (λ v. v.items ≡ release_changes_by kept node) }
{
    let mut changes = Vec::new(alloc);
    if is_of(node, kept) {
        changes.push(Change::Remove(Table::Active, Key::Active))?;
    }
    Ok(changes)
}

/// What a claim is answered.
pub(crate) fn claim_reply(answer: ClaimAnswer) -> Reply
    ensures reply { result ≡ claim_reply answer }
    ensures plain { is_plain result ≡ true }
{
    match answer {
        ClaimAnswer::Taken { node, until } => Reply::Taken { node, until },
        ClaimAnswer::Held(until) => Reply::Held(until),
    }
}

/// What is answered to a node that gives its claim back.
pub(crate) fn release_reply(answer: ReleaseAnswer) -> Reply
    ensures reply { result ≡ release_reply answer }
    ensures plain { is_plain result ≡ true }
{
    match answer {
        ReleaseAnswer::NotHeld => Reply::NotHeld,
        ReleaseAnswer::Released => Reply::Released,
    }
}
