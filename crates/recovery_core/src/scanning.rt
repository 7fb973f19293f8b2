//! A scan for failed servers.

ghost use Rattle.std.specs.Prelude.{◌≡◌, ◌<◌, ◌≤◌, ◌^◌, ℕ, All, IfOk, List, length, slice_index_or, false};
ghost use Rattle.recovery_core.specs.Prelude.{longest_block};
ghost use Rattle.recovery_core.specs.Scans.{attempt_of, scanned, HasRoom};

use crate::attempt::Attempt;
use crate::audit_log::{Audit, Periods};
use crate::book_views::label_at;
use crate::codes::actionable_entries;
use crate::commands::Lines;
use crate::groups::groups;
use crate::instance_keeper_items::Book;
use crate::orch_base::{Moment, ServerNo};
use crate::server_model::World;
use crate::stage::Stage;
use crate::{Memory, Scan};
use std::alloc::Global;

/// What a scan goes by, beside the book, the audit, the servers' settings and the filters.
#[derive(Clone, Copy, Debug, PartialEq, Eq)]
pub struct Terms {
    /// Whether recoveries are enabled.
    pub enabled: bool,
    /// How often each operation of a recovery may wait.
    pub wait: u32,
    /// The present moment.
    pub now: Moment,
}

fn answer_at(answers: &[bool], no: ServerNo) -> bool
    ensures { result ≡ slice_index_or answers.now no.0 false }
{
    match answers.get(no.0 as usize) {
        Some(answer) => *answer,
        None => false,
    }
}

fn attempt_of<P: Periods>(
    book: &Book,
    by_master: &[bool],
    by_intermediate: &[bool],
    periods: &P,
    terms: Terms,
    no: ServerNo,
) -> Attempt
    requires { no.0 < length book.now.names }
    ensures { result ≡ attempt_of by_master.now by_intermediate.now (P.period_of periods.now)
        book.now terms no }
{
    Attempt {
        by_master: answer_at(by_master, no),
        by_intermediate: answer_at(by_intermediate, no),
        enabled: terms.enabled,
        by_hand: false,
        block: periods.period(no, label_at(book, no).as_str()),
        now: terms.now,
    }
}

/// Tries a recovery of each instance whose analysis asks for one, in name order. Each is tried on the leases and the
/// audit that the tries before it left, and with the next number after the last job. The filters' answers for
/// recoveries of masters and of intermediate masters are by server number, the block periods by the clusters' labels.
/// It changes nothing. Moments are at most 2^63, and block periods at most 1,000,000,000 seconds. `Memory` comes, too,
/// if no number is left for a job, or no id in the audit.
pub fn scan<P: Periods>(
    alloc: Global,
    book: &Book,
    world: &World,
    audit: &Audit,
    by_master: &[bool],
    by_intermediate: &[bool],
    periods: &P,
    terms: Terms,
    last: u64,
) -> Result<Scan, Memory>
    requires begun { All (λ r. r.begun.0 ≤ 2 ^ 63) audit.now.audit.recoveries }
    requires now { terms.now.0 ≤ 2 ^ 63 }
    requires blocks { (cluster : List ℕ) → P.period_of periods.now cluster ≤ longest_block }
    ensures lines { IfOk result (λ s. s.lines ≡ (scanned world.now book.now audit.now.audit
        (attempt_of by_master.now by_intermediate.now (P.period_of periods.now) book.now terms)
        terms.wait last).lines) }
    ensures begun { IfOk result (λ s. s.begun.items ≡ (scanned world.now book.now audit.now.audit
        (attempt_of by_master.now by_intermediate.now (P.period_of periods.now) book.now terms)
        terms.wait last).begun) }
    ensures room { IfOk result (λ s. HasRoom s.begun.items) }
{
    let entries = actionable_entries(alloc, book)?;
    if entries.is_empty() {
        return Ok(Scan {
            lines: Lines::new(Vec::new(alloc)),
            begun: Vec::new(alloc),
        });
    }
    let groups = groups(alloc, book)?;
    let mut stage = Stage::begin(alloc, book, audit, last)?;
    for entry in &entries {
        let attempt = attempt_of(book, by_master, by_intermediate, periods, terms, entry.no);
        let replicas = groups[entry.no.0 as usize].members();
        stage.try_entry(alloc, book, world, attempt, terms.wait, *entry, replicas)?;
    }
    Ok(stage.into_scan())
}
