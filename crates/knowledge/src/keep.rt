//! What is kept: the changes of rows, which are kept before they are made, and the rows that a row store hands back.

ghost use Rattle.std.specs.Prelude.{◌≡◌, ◌<◌, [], ◌∷◌, IfOk, IfSome, OnOk, OnErr, IsSomeAnd, None, Some, is_ok, length, true};
ghost use Rattle.std.specs.Bool.{OnTrue};
ghost use Rattle.command_outcomes.specs.InstanceKeeper.Book.{after_addition, instance_at};
ghost use Rattle.command_outcomes.specs.UnendedJobs.Jobs.{stored};
ghost use Rattle.command_outcomes.specs.KeptRows.Rows.{IsRising};
ghost use Rattle.command_outcomes.specs.KeptRows.Servers.{are_known, observed_servers, servers_of};
ghost use Rattle.knowledge.specs.Faults.{HasTurnCause};
ghost use Rattle.knowledge.specs.Kept.{Keeps, changes_by, kept_if};
ghost use Rattle.knowledge.specs.Newer.{IsNewer, reading_of};
ghost use Rattle.knowledge.specs.Replies.{reply_by, stored_reply};
ghost use Rattle.command_outcomes.specs.Turns.Plain.{is_plain};

use crate::TurnFault;
use crate::instance_keeper_items::{Book, Change, Instance, Keeper, Observation, Row, StoreAnswer};
use crate::kept_rows_items::row_map;
use crate::orch_base::{Name, ServerNo};
use crate::turns::Reply;
use std::alloc::Global;
use std::slice::from_ref;

#[tactic(auto, using(crate::proofs::Newer::newer))]
/// Keeps the changes that storing the slot's reading makes, if it makes any, and then stores it and empties the slot.
/// After a fault nothing has changed.
pub fn store_slot<K: Keeper>(
    alloc: Global,
    keeper: &mut K,
    book: &mut Book,
    slot: &mut Option<Observation>,
) -> Result<Reply, TurnFault>
    requires { IfSome slot.old
        (λ o. are_known (length book.old.names) (observed_servers o) ≡ true) }
    ensures reply { IfOk result (λ r. r ≡ stored_reply book.old slot.old) }
    ensures plain { IfOk result (λ r. is_plain r ≡ true) }
    ensures book { OnOk result (book.new ≡ stored book.old slot.old) }
    ensures emptied { OnOk result (slot.new ≡ None) }
    ensures err { OnErr result (book.new ≡ book.old) }
    ensures slot { OnErr result (slot.new ≡ slot.old) }
    ensures keeps { Keeps K.kept K.faults keeper.old keeper.new
        (changes_by book.old slot.old) result }
{
    if let Some(instance) = take_newer(book, slot) {
        return put_newer(alloc, keeper, book, slot, instance);
    }
    keep_store(alloc, keeper, book, slot)?;
    Ok(store(book, slot.take()))
}

// Whether the book has an earlier reading of an instance.
#[inline(always)]
fn has_earlier(book: &Book, no: ServerNo, read: u64) -> bool
    requires { no.0 < length book.now.names }
    ensures { OnTrue result (IsSomeAnd (instance_at book.now no) (λ kept. kept.read < read)) }
{
    match book.instance(no) {
        Some(kept) => kept.read < read,
        None => false,
    }
}

// Takes the slot's reading as the instance that it makes, if it reached its server and the book has an earlier one.
#[inline(always)]
fn take_newer(book: &Book, slot: &mut Option<Observation>) -> Option<Instance>
    requires { IfSome slot.old (λ o. o.no.0 < length book.now.names) }
    ensures taken { IfSome result (λ i. IsNewer book.now slot.old i) }
    ensures emptied { IfSome result (λ i. slot.new ≡ None) }
    ensures stays { result ≡ None → slot.new ≡ slot.old }
{
    let Observation {
        no,
        read,
        moment,
        seen,
    } = slot.take()?;
    match seen {
        Some(seen) if has_earlier(book, no, read) => Some(Instance {
            no,
            read,
            moment,
            valid: true,
            seen,
        }),
        seen => {
            *slot = Some(Observation {
                no,
                read,
                moment,
                seen,
            });
            None
        }
    }
}

// Keeps an instance, and then puts it into the book. If it isn't kept, its reading stays in the slot.
#[inline(always)]
fn put_newer<K: Keeper>(
    alloc: Global,
    keeper: &mut K,
    book: &mut Book,
    slot: &mut Option<Observation>,
    instance: Instance,
) -> Result<Reply, TurnFault>
    requires known { are_known (length book.old.names) (servers_of (Row.Instance instance)) ≡ true }
    requires empty { slot.old ≡ None }
    ensures reply { IfOk result (λ r. r ≡ Reply.Stored) }
    ensures book { OnOk result (book.new ≡ after_addition book.old instance) }
    ensures emptied { OnOk result (slot.new ≡ None) }
    ensures err { OnErr result (book.new ≡ book.old) }
    ensures slot { OnErr result (slot.new ≡ Some (reading_of instance)) }
    ensures kept { K.kept keeper.new ≡ kept_if (is_ok result) (K.kept keeper.old)
        (Change.Put (Row.Instance instance) ∷ []) }
    ensures cause { HasTurnCause (K.faults keeper.old) (K.faults keeper.new) result }
{
    let change = Change::Put(Row::Instance(instance));
    let kept = keep(alloc, keeper, book.names(), from_ref(&change));
    let Change::Put(row) = change else {
        unreachable!()
    };
    let Row::Instance(instance) = row else {
        unreachable!()
    };
    match kept {
        Ok(()) => {
            book.add(instance);
            Ok(Reply::Stored)
        }
        Err(fault) => {
            *slot = Some(reading_of(instance));
            Err(fault)
        }
    }
}

// The reading that makes an instance.
fn reading_of(instance: Instance) -> Observation
    ensures { result ≡ reading_of instance }
{
    Observation {
        no: instance.no,
        read: instance.read,
        moment: instance.moment,
        seen: Some(instance.seen),
    }
}

// Keeps the changes that storing the slot's reading makes, if it makes any.
fn keep_store<K: Keeper>(
    alloc: Global,
    keeper: &mut K,
    book: &Book,
    slot: &Option<Observation>,
) -> Result<(), TurnFault>
    requires { IfSome slot.now (λ o. o.no.0 < length book.now.names) }
    ensures { Keeps K.kept K.faults keeper.old keeper.new (changes_by book.now slot.now) result }
{
    let Some(o) = slot else {
        return Ok(());
    };
    match &book.change_by(o)? {
        Some(change) => keep(alloc, keeper, book.names(), from_ref(change)),
        None => Ok(()),
    }
}

#[inline(always)]
fn keep<K: Keeper>(
    alloc: Global,
    keeper: &mut K,
    names: &[Name],
    changes: &[Change],
) -> Result<(), TurnFault>
    ensures kept { K.kept keeper.new ≡ kept_if (is_ok result) (K.kept keeper.old) changes.now }
    ensures cause { HasTurnCause (K.faults keeper.old) (K.faults keeper.new) result }
{
    keeper.keep(alloc, names, changes)?;
    Ok(())
}

/// Keeps the changes, if there are any. `Keeper` comes only if the row store's count of faults rose.
pub fn keep_some<K: Keeper>(
    alloc: Global,
    keeper: &mut K,
    names: &[Name],
    changes: &[Change],
) -> Result<(), TurnFault>
    ensures { Keeps K.kept K.faults keeper.old keeper.new changes.now result }
{
    if changes.is_empty() {
        return Ok(());
    }
    keep(alloc, keeper, names, changes)
}

/// The rows that the row store hands back, in rising order: of two with one table and key the last that it gave.
/// `Keeper` comes only if the row store's count of faults rose.
pub fn given_rows<K: Keeper>(
    alloc: Global,
    keeper: &mut K,
    names: &[Name],
) -> Result<Vec<Row>, TurnFault>
    ensures told { IfSome (K.kept keeper.old) (λ rows. IfOk result (λ given. given.items ≡ rows)) }
    ensures rising { IfOk result (λ given. IsRising given.items) }
    ensures kept { K.kept keeper.new ≡ K.kept keeper.old }
    ensures cause { HasTurnCause (K.faults keeper.old) (K.faults keeper.new) result }
{
    let given = keeper.rows(alloc, names)?;
    Ok(row_map(alloc, given)?)
}

fn reply_by(answer: StoreAnswer) -> Reply
    ensures reply { result ≡ reply_by answer }
    ensures plain { is_plain result ≡ true }
{
    match answer {
        StoreAnswer::Unknown => Reply::Unknown,
        StoreAnswer::Old(read) => Reply::Old(read),
        StoreAnswer::Stored => Reply::Stored,
    }
}

// Empties the slot and stores its reading, if it has one. It takes no memory.
fn store(book: &mut Book, slot: Option<Observation>) -> Reply
    requires { IfSome slot (λ o. are_known (length book.old.names) (observed_servers o) ≡ true) }
    ensures reply { result ≡ stored_reply book.old slot }
    ensures plain { is_plain result ≡ true }
    ensures book { book.new ≡ stored book.old slot }
{
    match slot {
        None => Reply::Nothing,
        Some(o) => reply_by(book.store_observation(o)),
    }
}
