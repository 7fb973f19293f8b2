//! What a turn of a recovery does to servers.

ghost use Rattle.std.specs.Prelude.{◌≡◌, ◌<◌, ◌∷◌, ◌++◌, [], All, IfOk, OnErr, OnOk, length, map, true};
ghost use Rattle.recovery_plans.specs.ServerModel.Run.{AllAllowed, Allowed, after, run};
ghost use Rattle.recovery_plans.specs.Operations.Changes.{server_of};
ghost use Rattle.recovery_plans.specs.Operations.Turns.{restarts};
ghost use Rattle.job_plans.specs.Acts.{exchanges_of as made_by, takes_memory as wants_memory};
ghost use Rattle.recovery_parts.specs.Doings.{exchange_of, exchanges_of, takes_memory};

use crate::binlog_coords_items::Coord;
use crate::gtid_sets::GtidSet;
use crate::orch_base::{Memory, ServerNo};
use crate::server_model::World;
use crate::server_words_items::{Ask, AttachFault, Spot};
use job_plans::{Act, JobView};
use std::alloc::Global;

/// A change that takes no memory.
#[derive(Clone, Copy)]
pub enum Change {
    /// This is asked of the server.
    Ask(ServerNo, Ask),
    /// The first server, which is at this position, goes below another at a coordinate of that one's log.
    Attach(ServerNo, Spot, ServerNo, Coord),
}

/// What a turn does to servers.
#[derive(Drop)]
pub enum Doing {
    /// The first server goes below another by this set that was seen of that one.
    BySet(ServerNo, GtidSet, ServerNo),
    /// These, in order.
    Each(Vec<Change>),
}

// Each of these servers is started.
fn starts(alloc: Global, hands: &[ServerNo]) -> Result<Vec<Change>, Memory>
    ensures { IfOk result (λ v. map exchange_of v.items ≡ restarts hands.now) }
{
    let mut changes = Vec::with_capacity(alloc, hands.len())?;
    for no in hands {
        changes.push(Change::Ask(*no, Ask::Start))?;
    }
    Ok(changes)
}

/// One change. `Err` means out of memory.
pub fn only(alloc: Global, change: Change) -> Result<Vec<Change>, Memory>
    ensures { IfOk result (λ v. v.items ≡ change ∷ []) }
{
    Ok(vec![in alloc; change]?)
}

/// Then each of these servers is started. `Err` means out of memory.
pub fn then_starts(
    alloc: Global,
    mut changes: Vec<Change>,
    hands: &[ServerNo],
) -> Result<Vec<Change>, Memory>
    ensures { IfOk result (λ v. map exchange_of v.items
        ≡ map exchange_of changes.items ++ restarts hands.now) }
{
    let mut started = starts(alloc, hands)?;
    changes.append(&mut started)?;
    Ok(changes)
}

/// What the act of a job does to servers. `Err` means out of memory.
pub fn doing_of(alloc: Global, job: &JobView<'_>, act: &Act) -> Result<Doing, Memory>
    ensures exchanges { IfOk result (λ d. exchanges_of d ≡ made_by job.now act.now) }
    ensures memory { IfOk result (λ d. takes_memory d ≡ true → wants_memory act.now ≡ true) }
{
    Ok(match act {
        Act::Fail => Doing::Each(starts(alloc, job.hands)?),
        Act::End | Act::Pass | Act::Keep(_) | Act::Found(_) | Act::Wait(_) => {
            Doing::Each(Vec::new(alloc))
        }
        Act::Ask(no, ask) => Doing::Each(only(alloc, Change::Ask(*no, *ask))?),
        Act::Attach(no, expect, to, at) => {
            Doing::Each(only(alloc, Change::Attach(*no, *expect, *to, *at))?)
        }
        Act::Auto(no, to) => match job.sight(*to) {
            None => Doing::Each(Vec::new(alloc)),
            Some(seen) => Doing::BySet(*no, seen.set.copy()?, *to),
        },
    })
}

// Makes a change. One that is refused changes nothing.
fn make_one(world: &mut World, change: Change)
    requires server { server_of (exchange_of change) < length world.old.servers }
    requires allowed { Allowed world.old (exchange_of change) }
    ensures { world.new ≡ after world.old (exchange_of change) }
{
    match change {
        Change::Ask(no, ask) => {
            let _ = world.ask(no, ask);
        }
        Change::Attach(no, expect, to, at) => {
            let _ = world.attach_at(no, expect, to, at);
        }
    }
}

// Makes these changes.
fn make(world: &mut World, changes: &[Change])
    requires servers { All (λ e. server_of e < length world.old.servers)
        (map exchange_of changes.now) }
    requires allowed { AllAllowed world.old (map exchange_of changes.now) }
    ensures { world.new ≡ run world.old (map exchange_of changes.now) }
{
    match changes {
        [] => {}
        [first, rest @ ..] => {
            make_one(world, *first);
            make(world, rest);
        }
    }
}

/// Does it. If memory runs out, nothing has changed.
pub fn perform(alloc: Global, world: &mut World, doing: Doing) -> Result<(), Memory>
    requires servers { All (λ e. server_of e < length world.old.servers) (exchanges_of doing) }
    requires allowed { AllAllowed world.old (exchanges_of doing) }
    ensures world { OnOk result (world.new ≡ run world.old (exchanges_of doing)) }
    ensures err { OnErr result (world.new ≡ world.old) }
    ensures memory { OnErr result (takes_memory doing ≡ true) }
{
    match doing {
        Doing::Each(changes) => {
            make(world, &changes);
            Ok(())
        }
        Doing::BySet(no, observed, to) => match world.attach_auto(alloc, no, &observed, to) {
            Err(AttachFault::Memory) => Err(Memory),
            Ok(())
            | Err(
                AttachFault::Unreachable
                | AttachFault::Running(_)
                | AttachFault::Interfered(_, _)
                | AttachFault::Loop
                | AttachFault::Errant(_)
                | AttachFault::Purged(_),
            ) => Ok(()),
        },
    }
}
