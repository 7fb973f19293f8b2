//! The book at an opening, and what is kept then.

ghost use Rattle.std.specs.Prelude.{◌≡◌, ◌<◌, ◌≤◌, ◌^◌, ◌++◌, IfOk, IfSome, OnOk, All, IsTrue, length};
ghost use Rattle.opening_book.specs.Prelude.{option_to_list, server_at};
ghost use Rattle.opening_book.specs.Opening.{after_opening, block_given, blocks_given, is_opening_change, loading, missing, missing_from, opened_book, opening_changes, opening_instance, registered, registering, registering_from};

use crate::Memory;
use crate::orch_base::{Moment, Rule, ServerNo};
use audit_log::{Audit, Periods, loaded_by};
use instance_keeper::{Book, Candidate, Change, Instance, Row};
use server_model::World;
use std::alloc::Global;

/// How long a registration of the scenario lasts, in seconds.
const REGISTERED_FOR: u64 = 3600;

// A server as it is known at the opening.
fn instance(alloc: Global, world: &World, moment: Moment, no: ServerNo) -> Result<Instance, Memory>
    requires { no.0 < length world.now.servers }
    ensures { IfOk result (λ i. IfSome (server_at world.now no.0)
        (λ s. i ≡ opening_instance world.now moment no.0 s)) }
{
    let valid = world.is_reached(no);
    let seen = world.shows(alloc, no)?;
    Ok(Instance {
        no,
        read: 0,
        moment,
        valid,
        seen,
    })
}

// What is put for a server: its instance, if it is known and the book has none.
fn missing(
    alloc: Global,
    world: &World,
    moment: Moment,
    book: &Book,
    no: ServerNo,
    known: bool,
) -> Result<Option<Change>, Memory>
    requires server { no.0 < length world.now.servers }
    requires book { length book.now.names ≡ length world.now.servers }
    ensures { IfOk result (λ c. c ≡ missing world.now moment book.now no.0 known) }
{
    if known && book.instance(no).is_none() {
        let instance = instance(alloc, world, moment, no)?;
        return Ok(Some(Change::Put(Row::Instance(instance))));
    }
    Ok(None)
}

fn push_some(changes: &mut Vec<Change>, change: Option<Change>) -> Result<(), Memory>
    ensures { OnOk result (changes.new.items ≡ changes.old.items ++ option_to_list change) }
{
    if let Some(change) = change {
        changes.push(change)?;
    }
    Ok(())
}

// The instances of the known servers that the book has none of.
fn missing_instances(
    alloc: Global,
    world: &World,
    moment: Moment,
    book: &Book,
    known: &[bool],
) -> Result<Vec<Change>, Memory>
    requires known { length known.now ≡ length world.now.servers }
    requires book { length book.now.names ≡ length world.now.servers }
    ensures { IfOk result (λ changes. changes.items
        ≡ missing_from world.now moment book.now 0 known.now) }
{
    let mut changes = Vec::new(alloc);
    for no in 0..world.servers() {
        let known = known[no as usize];
        let change = missing(alloc, world, moment, book, ServerNo(no), known)?;
        push_some(&mut changes, change)?;
    }
    Ok(changes)
}

fn registered(at: Moment, no: ServerNo, rule: Rule) -> Candidate
    requires { at.0 ≤ 2 ^ 63 }
    ensures { result ≡ registered at no.0 rule }
{
    Candidate {
        no,
        rule,
        until: Moment(at.0 + REGISTERED_FOR),
    }
}

// What is put for a server: its registration, if it has a rule, unless the book has it already.
fn registering(at: Moment, book: &Book, no: ServerNo, rule: Option<Rule>) -> Option<Change>
    requires moment { at.0 ≤ 2 ^ 63 }
    requires server { no.0 < length book.now.names }
    ensures { result ≡ registering at book.now no.0 rule }
{
    match rule {
        Some(rule) => book.putting(Row::Candidate(registered(at, no, rule))),
        None => None,
    }
}

// Appends the registrations of the servers that have a rule.
fn push_registrations(
    changes: &mut Vec<Change>,
    at: Moment,
    book: &Book,
    rules: &[Option<Rule>],
) -> Result<(), Memory>
    requires moment { at.0 ≤ 2 ^ 63 }
    requires rules { length rules.now ≡ length book.now.names }
    ensures { OnOk result (changes.new.items ≡ changes.old.items
        ++ registering_from at book.now 0 rules.now) }
{
    for no in 0..book.servers() {
        let rule = rules[no as usize];
        push_some(changes, registering(at, book, ServerNo(no), rule))?;
    }
    Ok(())
}

// Appends the change by which a recovery whose row has no block period is kept with its cluster's.
fn give_block<P: Periods>(
    changes: &mut Vec<Change>,
    alloc: Global,
    periods: &P,
    row: &Row,
) -> Result<(), Memory>
    ensures { OnOk result (changes.new.items ≡
        changes.old.items ++ option_to_list (block_given (P.period_of periods.now) row.now)) }
{
    match row {
        Row::Recovery(kept) if kept.block.is_none() => {
            let recovery = loaded_by(alloc, periods, kept)?;
            changes.push(Change::Put(Row::Recovery(recovery.into_row())))?;
        }
        Row::Recovery(_)
        | Row::Instance(_)
        | Row::Downtime(_)
        | Row::Candidate(_)
        | Row::Switch(_)
        | Row::Active { .. } => {}
    }
    Ok(())
}

fn give_blocks<P: Periods>(alloc: Global, periods: &P, rows: &[Row]) -> Result<Vec<Change>, Memory>
    ensures { IfOk result (λ changes. changes.items
        ≡ blocks_given (P.period_of periods.now) rows.now) }
{
    let mut changes = Vec::new(alloc);
    for row in rows {
        give_block(&mut changes, alloc, periods, row)?;
    }
    Ok(changes)
}

/// What a load of these rows keeps of recoveries, at this moment. First each one whose row has no block period, with
/// its cluster's. Then each unended one of their audit, as interrupted. `Err` means out of memory.
pub fn loading<P: Periods>(
    alloc: Global,
    periods: &P,
    rows: &[Row],
    audit: &Audit,
    at: Moment,
) -> Result<Vec<Change>, Memory>
    ensures { IfOk result (λ changes. changes.items ≡
        loading (P.period_of periods.now) rows.now audit.now.audit at) }
{
    let mut changes = give_blocks(alloc, periods, rows)?;
    'closed: for recovery in audit.closing(alloc, at)? {
        changes.push(Change::Put(Row::Recovery(recovery.into_row())))?;
    }
    Ok(changes)
}

/// The changes of the opening.
/// 1. The instance of each known server that the book has none of, with read number 0 and this moment. It is valid
///   exactly if orchestrator reaches the server. As seen it has what a status would report, reached or not.
/// 2. The registration of each server that has a rule, which lasts 3600 seconds from this moment, unless the book has
///   that very registration.
/// 3. What is kept of recoveries.
///
/// Moments are at most 2^63. `Err` means out of memory.
pub fn opening_changes(
    alloc: Global,
    world: &World,
    moment: Moment,
    book: &Book,
    known: &[bool],
    rules: &[Option<Rule>],
    recoveries: Vec<Change>,
) -> Result<Vec<Change>, Memory>
    requires moment { moment.0 ≤ 2 ^ 63 }
    requires known { length known.now ≡ length world.now.servers }
    requires rules { length rules.now ≡ length world.now.servers }
    requires book { length book.now.names ≡ length world.now.servers }
    ensures { IfOk result (λ changes. changes.items ≡
        opening_changes world.now moment book.now known.now rules.now recoveries.items) }
{
    let mut changes = missing_instances(alloc, world, moment, book, known)?;
    push_registrations(&mut changes, moment, book, rules)?;
    'recoveries: for change in recoveries {
        changes.push(change)?;
    }
    Ok(changes)
}

// Makes a change of an opening. Recoveries are in the audit.
fn open(book: &mut Book, change: Change)
    requires { IsTrue (is_opening_change (length book.old.names) change) }
    ensures after { book.new ≡ after_opening book.old change }
    ensures names { book.new.names ≡ book.old.names }
{
    match change {
        Change::Put(Row::Instance(instance)) => book.add(instance),
        Change::Put(Row::Downtime(downtime)) => book.set(Change::Put(Row::Downtime(downtime))),
        Change::Put(Row::Candidate(candidate)) => book.set(Change::Put(Row::Candidate(candidate))),
        Change::Put(Row::Recovery(_) | Row::Active { .. }) => {}
        Change::Put(Row::Switch(enabled)) => book.set(Change::Put(Row::Switch(enabled))),
        Change::Remove(table, key) => book.set(Change::Remove(table, key)),
    }
}

/// Makes these changes of an opening, one after another: the bridge that a valid instance shows goes into its ring. A
/// recovery isn't the book's. It takes no memory.
pub fn open_book(book: &mut Book, changes: Vec<Change>)
    requires { All (λ c. IsTrue (is_opening_change (length book.old.names) c)) changes.items }
    ensures book { book.new ≡ opened_book book.old changes.items }
    ensures names { book.new.names ≡ book.old.names }
{
    'changes: for change in changes {
        open(book, change);
    }
}
