//! A look on the heap.

ghost use Rattle.std.specs.Prelude.{◌≡◌, IfOk};

use crate::RecoveryLook;
use crate::operations_items::JobStep;
use crate::orch_base::Memory;
use std::alloc::Global;
use std::marker::Model;
use std::mem::replace;

/// What the next turn of a recovery does, on the heap: it is large, and goes from hand to hand. Contracts see it as
/// that look.
#[derive(Drop)]
pub struct BoxedLook {
    look: Box<RecoveryLook>,
}

impl Model for BoxedLook {
    ghost use Rattle.std.specs.Prelude.{box_value};
    ghost use Rattle.recovery_turns.specs.declared.look.RecoveryLook.{RecoveryLook as ALook};

    ghost Value = { ALook };

    ghost view = { λ l. box_value l.look };
}

impl BoxedLook {
    // This look. `Err` means out of memory.
    pub(crate) fn new(alloc: Global, look: RecoveryLook) -> Result<BoxedLook, Memory>
        ensures { IfOk result (λ l. l ≡ look) }
    {
        Ok(BoxedLook {
            look: Box::new(alloc, look)?,
        })
    }

    /// The look.
    pub fn as_look(&self) -> &RecoveryLook
        ensures { result.now ≡ self.now }
    {
        &self.look
    }

    /// Takes what the turn answers, in place of which it answers that the job goes on.
    pub fn take_step(&mut self) -> JobStep
        ensures step { result ≡ self.old.step }
        ensures after { self.new ≡ record self.old { step = JobStep.Going } }
    {
        replace(&mut self.look.step, JobStep::Going)
    }

    /// The turn answers this.
    pub fn set_step(&mut self, step: JobStep)
        ensures { self.new ≡ record self.old { step = step } }
    {
        self.look.step = step;
    }

    // The look, no longer on the heap.
    pub(crate) fn into_look(self) -> RecoveryLook
        ensures { result ≡ self }
    {
        let BoxedLook { look } = self;
        Box::into_inner(look)
    }
}
