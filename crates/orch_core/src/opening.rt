//! What an opening lays out beside the servers: settings, the slots of pollers, the configuration, and the
//! book with what its rows leave open.

ghost use Rattle.std.specs.Prelude.{◌≡◌, ◌≤◌, ◌^◌, All, IfOk, IsTrue, None, [], is_ok, length, map};
ghost use Rattle.orch_core.specs.Prelude.{HasTurnCause, empty_book, is_opening_change, kept_if, opened_book, opening_changes, pollers};
ghost use Rattle.orch_core.specs.Polls.{empty_slots};
ghost use Rattle.orch_core.specs.Starts.{configuration_of};
ghost use Rattle.orch_core.specs.States.{HasKnownSource};

use crate::instance_keeper_items::{Book, Change, Keeper, Observation};
use crate::openings::ServerInit;
use crate::orch_base::{Memory, Moment};
use crate::server_model::World;
use crate::{Configuration, Scenario, TurnFault};
use knowledge::keep_some;
use opening_book::{open_book, opening_changes};
use std::alloc::Global;

/// So many pollers have a slot each.
const POLLERS: u32 = 64;

/// The book with what the opening brings, which is kept first, together with what is kept of recoveries.
pub(crate) fn complete<K: Keeper>(
    alloc: Global,
    keeper: &mut K,
    world: &World,
    moment: Moment,
    mut book: Book,
    s: &Scenario,
    recoveries: Vec<Change>,
) -> Result<Book, TurnFault>
    requires moment { moment.0 ≤ 2 ^ 63 }
    requires known { length s.now.known ≡ length world.now.servers }
    requires rules { length s.now.rules ≡ length world.now.servers }
    requires names { length book.names ≡ length world.now.servers }
    requires sources { All (HasKnownSource (length world.now.servers)) world.now.servers }
    requires recoveries { All (λ c. IsTrue (is_opening_change (length book.names) c))
        recoveries.items }
    ensures book { IfOk result (λ b. b ≡ opened_book book
        (opening_changes world.now moment book s.now.known s.now.rules recoveries.items)) }
    ensures kept { K.kept keeper.new ≡ kept_if (is_ok result) (K.kept keeper.old)
        (opening_changes world.now moment book s.now.known s.now.rules recoveries.items) }
    ensures cause { HasTurnCause (K.faults keeper.old) (K.faults keeper.new) result }
    ensures idle { opening_changes world.now moment book s.now.known s.now.rules
        recoveries.items ≡ [] → keeper.new ≡ keeper.old }
{
    let known = s.known.as_slice();
    let rules = s.rules.as_slice();
    let changes = opening_changes(alloc, world, moment, &book, known, rules, recoveries)?;
    keep_some(alloc, keeper, book.names(), &changes)?;
    open_book(&mut book, changes);
    Ok(book)
}

/// An empty slot for each poller.
pub(crate) fn make_slots(alloc: Global) -> Result<Vec<Option<Observation>>, Memory>
    ensures { IfOk result (λ slots. slots.items ≡ empty_slots) }
{
    let mut slots = Vec::with_capacity(alloc, POLLERS as usize)?;
    for _ in 0..POLLERS {
        slots.push(None)?;
    }
    Ok(slots)
}

// Empties a slot, if something is there.
fn empty_slot(slot: &mut Option<Observation>)
    ensures { slot.new ≡ None }
{
    if slot.is_some() {
        *slot = None;
    }
}

/// Empties all slots.
pub(crate) fn empty_slots(slots: &mut Vec<Option<Observation>>)
    requires { length slots.old.items ≡ pollers }
    ensures { slots.new.items ≡ empty_slots }
{
    for poller in 0..POLLERS {
        empty_slot(&mut slots[poller as usize]);
    }
}

/// The book of these servers, without a row.
pub(crate) fn book_of(alloc: Global, servers: &[ServerInit]) -> Result<Book, Memory>
    requires { length servers.now ≤ 1000 }
    ensures { IfOk result (λ b. b ≡ empty_book (map (λ i. i.settings) servers.now)) }
{
    let mut settings = Vec::with_capacity(alloc, servers.len())?;
    'servers: for server in servers {
        settings.push(&server.settings)?;
    }
    Book::of_servers(alloc, &settings)
}

/// The configuration of a scenario whose jobs wait at most `wait` times.
pub(crate) fn configure(alloc: Global, s: &Scenario, wait: u32) -> Result<Configuration, Memory>
    ensures { IfOk result (λ c. c ≡ configuration_of wait s.now) }
{
    Ok(Configuration {
        wait,
        every: s.pseudo,
        block: s.block,
        blocks: s.blocks.copy(alloc)?,
        master: s.filters.master.passes.copy(alloc)?,
        intermediate: s.filters.intermediate.passes.copy(alloc)?,
        hooks: s.hooks.share()?,
        aliases: s.aliases.copy(alloc)?,
    })
}
