//! How the turn of a recovery with hooks is looked up.

ghost use Rattle.std.specs.Prelude.{◌≡◌, IfOk, length};
ghost use Rattle.unended_jobs.specs.Prelude.{CanTake, Recovery as ARecovery, World as AWorld, foretold, option_copied};
ghost use Rattle.unended_jobs.specs.Hooked.{hooked, name_of, own_turn, promoted_in};
ghost use Rattle.unended_jobs.specs.Looks.{hooked_by, CanGo};
ghost use Rattle.unended_jobs.specs.Unended.{IsReadyRecovery};
ghost use Rattle.unended_jobs.specs.declared.unended.Unended.TheVariants as unended;

use crate::instance_keeper_items::Book;
use crate::operations_items::JobStep;
use crate::orch_base::{Moment, Name, ServerNo};
use crate::server_model::World;
use crate::{Docket, Memory, Place, UnendedLook};
use recovery_turns::{BoxedLook, RecoveryJob};
use std::alloc::Global;

// The name of a promoted server.
fn name_of(book: &Book, promoted: Option<ServerNo>) -> Option<&Name>
    ensures { option_copied result ≡ name_of book.now promoted }
{
    let no = promoted?;
    book.names().get(no.0 as usize)
}

// The recovery's own turn, with the lines of its hooks.
fn with_hook_lines(
    alloc: Global,
    docket: &Docket,
    book: &Book,
    mut look: BoxedLook,
) -> Result<BoxedLook, Memory>
    ensures turn { IfOk result (λ l. (r : ARecovery) → foretold r l
        ≡ (own_turn docket.now (promoted_in book.now (foretold r look)) (foretold r look)).taken) }
    ensures can { IfOk result (λ l. (w : AWorld) (r : ARecovery) → CanTake w r look
        → CanTake w r l) }
{
    let promoted = name_of(book, look.as_look().promoted());
    let own = look.take_step();
    let step = docket.step_with(alloc, own, promoted)?;
    look.set_step(step);
    Ok(look)
}

/// What the next turn of a recovery with these hooks does: as `Unended::look`.
pub(crate) fn look_with_hooks(
    alloc: Global,
    recovery: &RecoveryJob,
    docket: &Docket,
    world: &World,
    book: &Book,
    read: u64,
    moment: Moment,
) -> Result<UnendedLook, Memory>
    requires ready { IsReadyRecovery (length world.now.servers) recovery.now }
    requires known { length book.now.names ≡ length world.now.servers }
    ensures turn { IfOk result (λ l. hooked_by recovery.now docket.now l
        ≡ hooked world.now book.now read moment recovery.now docket.now) }
    ensures can { IfOk result (CanGo world.now (unended.Recovery recovery.now docket.now)) }
{
    if let Some(step) = docket.step_before(alloc)? {
        return Ok(UnendedLook::Hook(step, Place::Before));
    }
    let look = recovery.look(alloc, world, book, read, moment)?;
    if docket.is_due_behind(&look.as_look().step) {
        return Ok(UnendedLook::Hook(JobStep::Going, Place::Behind));
    }
    Ok(UnendedLook::Recovery(with_hook_lines(alloc, docket, book, look)?))
}
