//! Decisions.

ghost use Rattle.std.specs.Prelude.{◌≡◌, ◌<◌, ◌≤◌, ◌^◌, ◌∷◌, [], IfOk, IfSome, length, map, unwrap_or};
ghost use Rattle.book_commands.specs.Prelude.{acking, label_at, put_recovery};
ghost use Rattle.book_commands.specs.Decisions.{acked, candidate_of, decided_of, decided_with, downtime_begun, downtime_ended, downtime_of, downtime_removal, effect_by, registered, rows_of, switched, undecided};

use crate::orch_base::{Moment, OwnedText, Rule, ServerNo};
use crate::{Decided, Effect, Memory};
use asking_commands::switch_line;
use audit_log::Audit;
use book_views::label_at;
use commands::{Decision, Keys, Line, Lines};
use instance_keeper::{Book, Candidate, Change, Downtime, Key, Row, Table};
use std::alloc::Global;

/// How long a downtime lasts of which no duration is given, in seconds.
const DOWNTIME: u64 = 600;

/// How long a registration lasts, in seconds.
const REGISTERED: u64 = 3600;

fn effect_by(change: Option<Change>) -> Effect
    ensures { result ≡ effect_by change }
{
    match change {
        Some(change) => Effect::Change(change),
        None => Effect::Stays,
    }
}

fn decided_with(alloc: Global, line: Line, effect: Effect) -> Result<Decided, Memory>
    ensures { IfOk result (λ d. d ≡ decided_with line effect) }
{
    let mut lines = Vec::with_capacity(alloc, 1)?;
    lines.push(line)?;
    Ok(Decided {
        lines: Lines::new(lines),
        effect,
    })
}

// No instance is given.
fn undecided(alloc: Global) -> Decided
    ensures { result ≡ undecided }
{
    Decided {
        lines: Lines::new(Vec::new(alloc)),
        effect: Effect::Stays,
    }
}

fn text_or_empty(alloc: Global, text: &Option<OwnedText>) -> Result<OwnedText, Memory>
    ensures { IfOk result (λ t. t ≡ unwrap_or text.now []) }
{
    match text {
        Some(text) => text.copy(alloc),
        None => Ok(OwnedText::new(String::new(alloc))),
    }
}

fn downtime_of(alloc: Global, now: Moment, keys: &Keys, no: ServerNo) -> Result<Downtime, Memory>
    requires moment { now.0 ≤ 2 ^ 63 }
    requires duration { IfSome keys.now.duration (λ n. n ≤ 31536000) }
    ensures { IfOk result (λ d. d ≡ downtime_of now keys.now no) }
{
    let until = Moment(now.0 + keys.duration.unwrap_or(DOWNTIME));
    Ok(Downtime {
        no,
        begun: now,
        until,
        owner: text_or_empty(alloc, &keys.owner)?,
        reason: text_or_empty(alloc, &keys.reason)?,
    })
}

fn begin_downtime(alloc: Global, book: &Book, downtime: Downtime) -> Result<Decided, Memory>
    requires { downtime.no.0 < length book.now.names }
    ensures { IfOk result (λ d. d ≡ downtime_begun book.now downtime) }
{
    let line = Line::Downtime(downtime.no, downtime.until);
    let change = book.putting(Row::Downtime(downtime));
    decided_with(alloc, line, effect_by(change))
}

fn downtime_removal(book: &Book, no: ServerNo) -> Option<Change>
    requires { no.0 < length book.now.names }
    ensures { result ≡ downtime_removal book.now no }
{
    if book.downtime(no, Moment(0)).is_some() {
        Some(Change::Remove(Table::Downtime, Key::Server(no)))
    } else {
        None
    }
}

fn end_downtime(alloc: Global, book: &Book, no: ServerNo) -> Result<Decided, Memory>
    requires { no.0 < length book.now.names }
    ensures { IfOk result (λ d. d ≡ downtime_ended book.now no) }
{
    decided_with(
        alloc,
        Line::Server(no),
        effect_by(downtime_removal(book, no)),
    )
}

fn candidate_of(now: Moment, keys: &Keys, no: ServerNo) -> Candidate
    requires { now.0 ≤ 2 ^ 63 }
    ensures { result ≡ candidate_of now keys.now no }
{
    Candidate {
        no,
        rule: keys.rule.unwrap_or(Rule::Neutral),
        until: Moment(now.0 + REGISTERED),
    }
}

fn register(alloc: Global, book: &Book, candidate: Candidate) -> Result<Decided, Memory>
    requires { candidate.no.0 < length book.now.names }
    ensures { IfOk result (λ d. d ≡ registered book.now candidate) }
{
    let Candidate { no, rule, until } = candidate;
    let change = book.putting(Row::Candidate(candidate));
    decided_with(
        alloc,
        Line::Candidate { no, rule, until },
        effect_by(change),
    )
}

fn switch(alloc: Global, book: &Book, enabled: bool) -> Result<Decided, Memory>
    ensures { IfOk result (λ d. d ≡ switched book.now enabled) }
{
    let change = book.putting(Row::Switch(enabled));
    decided_with(alloc, switch_line(enabled), effect_by(change))
}

fn ack(alloc: Global, book: &Book, audit: &Audit, no: ServerNo) -> Result<Decided, Memory>
    requires { no.0 < length book.now.names }
    ensures { IfOk result (λ d. d ≡ acked book.now audit.now.audit no) }
{
    let cluster = label_at(book, no);
    let count = audit.count_new(cluster.as_str());
    decided_with(
        alloc,
        Line::Acknowledged(count),
        Effect::Acks(cluster.copy(alloc)?),
    )
}

/// What a decision answers and makes of what is known, by what the command is given. A row isn't put anew if the book
/// has that very row. The moment is at most 2^63, a duration at most 31,536,000 seconds. `Err` means out of memory.
pub fn decide(
    alloc: Global,
    book: &Book,
    audit: &Audit,
    now: Moment,
    keys: &Keys,
    instance: Option<ServerNo>,
    decision: Decision,
) -> Result<Decided, Memory>
    requires moment { now.0 ≤ 2 ^ 63 }
    requires duration { IfSome keys.now.duration (λ n. n ≤ 31536000) }
    requires within { IfSome instance (λ i. i.0 < length book.now.names) }
    ensures { IfOk result (λ d. d
        ≡ decided_of book.now audit.now.audit now keys.now instance decision) }
{
    match (decision, instance) {
        (Decision::BeginDowntime, Some(no)) => {
            let downtime = downtime_of(alloc, now, keys, no)?;
            begin_downtime(alloc, book, downtime)
        }
        (Decision::EndDowntime, Some(no)) => end_downtime(alloc, book, no),
        (Decision::RegisterCandidate, Some(no)) => {
            register(alloc, book, candidate_of(now, keys, no))
        }
        (Decision::DisableRecoveries, _) => switch(alloc, book, false),
        (Decision::EnableRecoveries, _) => switch(alloc, book, true),
        (Decision::AckRecoveries, Some(no)) => ack(alloc, book, audit, no),
        (
            Decision::BeginDowntime
            | Decision::EndDowntime
            | Decision::RegisterCandidate
            | Decision::AckRecoveries,
            None,
        ) => Ok(undecided(alloc)),
    }
}

fn acked_rows(alloc: Global, audit: &Audit, cluster: &str) -> Result<Vec<Change>, Memory>
    ensures { IfOk result (λ v. v.items ≡ map put_recovery (acking audit.now.audit cluster.now)) }
{
    let mut rows = Vec::new(alloc);
    'acked: for recovery in audit.acking(alloc, cluster)? {
        rows.push(Change::Put(Row::Recovery(recovery.into_row())))?;
    }
    Ok(rows)
}

/// The changes of the kept rows that an effect makes. `Err` means out of memory.
pub fn rows_of(alloc: Global, audit: &Audit, effect: &Effect) -> Result<Vec<Change>, Memory>
    ensures { IfOk result (λ v. v.items ≡ rows_of audit.now.audit effect.now) }
{
    match effect {
        Effect::Stays => Ok(Vec::new(alloc)),
        Effect::Change(change) => {
            let mut rows = Vec::with_capacity(alloc, 1)?;
            rows.push(change.copy(alloc)?)?;
            Ok(rows)
        }
        Effect::Acks(cluster) => acked_rows(alloc, audit, cluster.as_str()),
    }
}
