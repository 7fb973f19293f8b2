//! What the next turn of a job does.

ghost use Rattle.std.specs.Prelude.{◌≡◌};
ghost use Rattle.unended_jobs.specs.Prelude.{option_copied};
ghost use Rattle.unended_jobs.specs.Looks.{observation_of, step_of};

use crate::instance_keeper_items::Observation;
use crate::operations_items::JobStep;
use job_plans::Look;
use recovery_turns::BoxedLook;

/// When a hook of a recovery runs.
#[derive(Clone, Copy, Debug, PartialEq, Eq)]
pub enum Place {
    /// Before what the recovery does, once it has looked at its failed server.
    Before,
    /// After it, if nothing is left to do.
    Behind,
}

/// What the next turn of a job does and answers, on the world and with the book on which it was looked up.
#[derive(Drop)]
pub enum UnendedLook {
    /// By the operation of a plan that is due.
    Plan(Look),
    /// By what a recovery decides.
    Recovery(BoxedLook),
    /// By a hook of a recovery, which answers this: it changes no server and reads none.
    Hook(JobStep, Place),
}

impl UnendedLook {
    /// What the turn answers.
    pub fn step(&self) -> &JobStep
        ensures { result.now ≡ step_of self.now }
    {
        match self {
            UnendedLook::Plan(look) => &look.step,
            UnendedLook::Recovery(look) => &look.as_look().step,
            UnendedLook::Hook(step, _) => step,
        }
    }

    /// What the turn observes for the book, if it reads a status.
    pub fn observation(&self) -> Option<&Observation>
        ensures { option_copied result ≡ observation_of self.now }
    {
        match self {
            UnendedLook::Plan(look) => look.observation.as_ref(),
            UnendedLook::Recovery(look) => look.as_look().observation.as_ref(),
            UnendedLook::Hook(_, _) => None,
        }
    }
}
