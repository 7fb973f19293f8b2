//! A recovery that begins.

ghost use Rattle.std.specs.Prelude.{◌≡◌, None};

use crate::instance_keeper_items::Recovery;
use crate::orch_base::{Code, ServerNo};
use recovery_hooks::HookRun;
use recovery_turns::RecoveryJob;
use std::marker::Model;

/// A recovery, or a takeover, that may begin: the servers of which its job takes the leases, the job, and its entry in
/// the audit. Then the analysis of the failed server for the hooks, which a takeover hasn't, because it runs none. Last
/// its hooks, with their values.
#[derive(Drop)]
pub struct Begun {
    list: Vec<ServerNo>,
    job: RecoveryJob,
    entry: Recovery,
    code: Option<Code>,
    hooks: Option<HookRun>,
}

impl Model for Begun {
    ghost use Rattle.recovery_core.specs.Tries.{Begins};

    ghost Value = { Begins };

    ghost view = { λ a. record {
      list = a.list.items;
      job = a.job;
      entry = a.entry;
      code = a.code;
      hooks = a.hooks;
    } };
}

impl Begun {
    pub(crate) fn new(
        list: Vec<ServerNo>,
        job: RecoveryJob,
        entry: Recovery,
        code: Option<Code>,
    ) -> Begun
        ensures { result
            ≡ record { list = list.items; job = job; entry = entry; code = code; hooks = None } }
    {
        Begun {
            list,
            job,
            entry,
            code,
            hooks: None,
        }
    }

    /// The servers of which the job takes the leases.
    pub fn list(&self) -> &[ServerNo]
        ensures { result.now ≡ self.now.list }
    {
        &self.list
    }

    /// The job.
    pub fn job(&self) -> &RecoveryJob
        ensures { result.now ≡ self.now.job }
    {
        &self.job
    }

    /// The job's entry in the audit.
    pub fn entry(&self) -> &Recovery
        ensures { result.now ≡ self.now.entry }
    {
        &self.entry
    }

    /// The analysis of the failed server, for the hooks: none if none run.
    pub fn code(&self) -> Option<Code>
        ensures { result ≡ self.now.code }
    {
        self.code
    }

    /// The same with these hooks. It takes no memory.
    pub fn with_hooks(self, hooks: Option<HookRun>) -> Begun
        ensures { result ≡ record self { hooks = hooks } }
    {
        Begun { hooks, ..self }
    }

    /// The list, the job, the entry and the hooks. It takes no memory.
    pub fn into_parts(self) -> (Vec<ServerNo>, RecoveryJob, Recovery, Option<HookRun>)
        ensures list { result.0.items ≡ self.list }
        ensures job { result.1 ≡ self.job }
        ensures entry { result.2 ≡ self.entry }
        ensures hooks { result.3 ≡ self.hooks }
    {
        (self.list, self.job, self.entry, self.hooks)
    }
}
