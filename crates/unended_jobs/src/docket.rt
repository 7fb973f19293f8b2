//! What goes with a recovery.

ghost use Rattle.std.specs.Prelude.{◌≡◌, IfOk, is_some};
ghost use Rattle.unended_jobs.specs.Prelude.{checked, option_copied, option_map};
ghost use Rattle.unended_jobs.specs.Hooked.{after_place, front_hook, no_docket, rear_hook, step_before, step_with, told_with, with_hooks_of, CanRun};

use crate::commands::Cause;
use crate::operations_items::JobStep;
use crate::orch_base::Name;
use crate::{Memory, Place};
use recovery_hooks::HookRun;
use std::alloc::Global;

/// What goes with a recovery: its entry in the audit, and its hooks.
pub struct Docket {
    /// The id of its entry in the audit: a regroup has none.
    pub entry: Option<u64>,
    /// Its hooks: just a recovery that a command or a scan began runs some.
    pub hooks: Option<HookRun>,
}

impl Drop for Docket {
    fn drop(self) {
        let Docket {
            entry: _,
            hooks: _hooks,
        } = self;
    }
}

// The answer of a recovery's own turn, with the lines of these hooks.
fn told_with(
    alloc: Global,
    hooks: &HookRun,
    step: JobStep,
    promoted: Option<&Name>,
) -> Result<JobStep, Memory>
    ensures { IfOk result (λ s. s ≡ told_with hooks.now (option_copied promoted.entry) step) }
{
    match step {
        JobStep::Going => Ok(JobStep::Going),
        JobStep::Done(lines) => {
            let lines = hooks.done(alloc, lines, promoted)?;
            Ok(JobStep::Done(lines))
        }
        JobStep::Failed(cause, _lines) => {
            let lines = hooks.failed(alloc)?;
            Ok(JobStep::Failed(cause, lines))
        }
    }
}

impl Docket {
    /// That of a recovery without an entry and hooks. It takes no memory.
    pub fn none() -> Docket
        ensures { result ≡ no_docket }
    {
        Docket {
            entry: None,
            hooks: None,
        }
    }

    // The answer of the hook that runs before the recovery in this turn, if one does.
    pub(crate) fn step_before(&self, alloc: Global) -> Result<Option<JobStep>, Memory>
        ensures { IfOk result (λ o. o
            ≡ option_map (step_before self.now.hooks) (front_hook self.now.hooks)) }
    {
        let Some(hooks) = &self.hooks else {
            return Ok(None);
        };
        let Some(hook) = hooks.due_before() else {
            return Ok(None);
        };
        if hook.exit == 0 {
            return Ok(Some(JobStep::Going));
        }
        let cause = Cause::HookFailed {
            number: hooks.number(),
            exit: hook.exit,
        };
        Ok(Some(JobStep::Failed(cause, hooks.stopped(alloc)?)))
    }

    // Whether a hook runs after the recovery, whose own turn would come to this.
    pub(crate) fn is_due_behind(&self, step: &JobStep) -> bool
        ensures { result ≡ is_some (rear_hook self.now.hooks step.now) }
    {
        match (&self.hooks, step) {
            (Some(hooks), JobStep::Done(_)) => hooks.due_after().is_some(),
            (Some(_) | None, JobStep::Going | JobStep::Failed(_, _)) | (None, JobStep::Done(_)) => {
                false
            }
        }
    }

    // The answer of the recovery's own turn, with the lines of the hooks that ran.
    pub(crate) fn step_with(
        &self,
        alloc: Global,
        step: JobStep,
        promoted: Option<&Name>,
    ) -> Result<JobStep, Memory>
        ensures { IfOk result (λ s. s
            ≡ step_with self.now.hooks (option_copied promoted.entry) step) }
    {
        match &self.hooks {
            Some(hooks) => told_with(alloc, hooks, step, promoted),
            None => Ok(step),
        }
    }

    // The recovery's own turn was taken.
    pub(crate) fn check(&mut self)
        ensures { self.new ≡ with_hooks_of self.old checked }
    {
        if let Some(hooks) = &mut self.hooks {
            hooks.check();
        }
    }

    // A hook ran.
    pub(crate) fn run(&mut self, place: Place)
        requires { CanRun self.old.hooks place }
        ensures { self.new ≡ with_hooks_of self.old (after_place place) }
    {
        if let Some(hooks) = &mut self.hooks {
            match place {
                Place::Before => hooks.run_before(),
                Place::Behind => hooks.run_after(),
            }
        }
    }
}
