//! The hooks of one recovery.

use crate::Memory;
use crate::lines::add_lines;
use commands::{HookPhase, Line, Lines};
use hook_texts::{Hook, SharedHooks, Values};
use orch_base::Name;
use std::alloc::Global;
use std::marker::Model;

/// The hooks of one recovery: the values that they get, and how many have run.
pub struct HookRun {
    // Shared with all other recoveries.
    hooks: SharedHooks,
    // The values that they get until the recovery is done.
    told: Values,
    // Whether the recovery has looked at its failed server.
    checked: bool,
    // How many have run before it, and after it.
    before: u32,
    after: u32,
}

impl Drop for HookRun {
    fn drop(self) {
        let HookRun {
            hooks: _hooks,
            told: _told,
            checked: _,
            before: _,
            after: _,
        } = self;
    }
}

impl Model for HookRun {
    ghost use Rattle.recovery_hooks.specs.Runs.{HookState};

    ghost Value = { HookState };

    ghost view = { λ a. record {
      hooks = a.hooks;
      told = a.told;
      checked = a.checked;
      before = a.before;
      after = a.after;
    } };

    ghost use Rattle.recovery_hooks.specs.Runs.{IsWithin};

    ghost invariant = { λ a. IsWithin a.hooks a.before a.after };
}

impl HookRun {
    ghost use Rattle.std.specs.Prelude.{◌≡◌, ◌<◌, ◌+◌, ◌++◌, IfOk, OnOk, length};
    ghost use Rattle.std.specs.Option.{option_copied};
    ghost use Rattle.recovery_hooks.specs.Runs.{after_lines, before_lines, begun_hooks, checked, done_lines, due_after, due_before, failed_lines, ran_after, ran_before, unsuccessful_lines, when_done};

    /// The hooks of a recovery that begins, which get these values until it is done. It shares the hooks. `Memory`
    /// comes if more than 4,294,967,295 are to run before it, or after it, and if too many recoveries share the hooks.
    pub fn begin(hooks: &SharedHooks, told: Values) -> Result<HookRun, Memory>
        ensures { IfOk result (λ r. r ≡ begun_hooks hooks.now told) }
    {
        let before = hooks.all().pre_failover.as_slice().len();
        let after = hooks.all().post_failover.as_slice().len();
        if before.max(after) > u32::MAX as usize {
            return Err(Memory);
        }
        Ok(HookRun {
            hooks: hooks.share()?,
            told,
            checked: false,
            before: 0,
            after: 0,
        })
    }

    /// The hook that runs before the recovery in the next turn, if there is one.
    pub fn due_before(&self) -> Option<&Hook>
        ensures { option_copied result ≡ due_before self.now }
    {
        if self.checked {
            self.hooks
                .all()
                .pre_failover
                .as_slice()
                .get(self.before as usize)
        } else {
            None
        }
    }

    /// The hook that runs after the recovery in the next turn, if nothing else is left to do.
    pub fn due_after(&self) -> Option<&Hook>
        ensures { option_copied result ≡ due_after self.now }
    {
        if self.checked {
            self.hooks
                .all()
                .post_failover
                .as_slice()
                .get(self.after as usize)
        } else {
            None
        }
    }

    /// The number of the hook that is due before the recovery, counted from 1.
    pub fn number(&self) -> u32
        requires { self.now.before < length self.now.hooks.pre_failover }
        ensures { result ≡ self.now.before + 1 }
    {
        self.before + 1
    }

    /// The recovery has looked at its failed server. It takes no memory.
    pub fn check(&mut self)
        ensures { self.new ≡ checked self.old }
    {
        self.checked = true;
    }

    /// The hook that was due before the recovery ran. It takes no memory.
    pub fn run_before(&mut self)
        requires { self.old.before < length self.old.hooks.pre_failover }
        ensures { self.new ≡ ran_before self.old }
    {
        self.before += 1;
    }

    /// The hook that was due after the recovery ran. It takes no memory.
    pub fn run_after(&mut self)
        requires { self.old.after < length self.old.hooks.post_failover }
        ensures { self.new ≡ ran_after self.old }
    {
        self.after += 1;
    }

    // Appends the lines of the first hooks before the recovery.
    fn add_before(&self, alloc: Global, lines: &mut Vec<Line>) -> Result<(), Memory>
        ensures { OnOk result (lines.new.items ≡ lines.old.items ++ before_lines self.now) }
    {
        let hooks = &self.hooks.all().pre_failover.as_slice()[..self.before as usize];
        add_lines(alloc, lines, HookPhase::PreFailover, &self.told, hooks)
    }

    // Appends the lines of all hooks that run if the recovery failed.
    fn add_unsuccessful(&self, alloc: Global, lines: &mut Vec<Line>) -> Result<(), Memory>
        ensures { OnOk result (lines.new.items ≡ lines.old.items ++ unsuccessful_lines self.now) }
    {
        let hooks = self.hooks.all().post_unsuccessful.as_slice();
        add_lines(alloc, lines, HookPhase::PostUnsuccessful, &self.told, hooks)
    }

    // The values of the hooks after a recovery that is done.
    fn when_done(&self, alloc: Global, promoted: Option<&Name>) -> Result<Values, Memory>
        ensures { IfOk result (λ v. v ≡ when_done self.now.told (option_copied promoted.entry)) }
    {
        let successor = match promoted {
            Some(name) => Some(name.copy(alloc)?),
            None => None,
        };
        Ok(Values {
            failure_type: self.told.failure_type.copy(alloc)?,
            failed: self.told.failed.copy(alloc)?,
            cluster: self.told.cluster.copy(alloc)?,
            alias: self.told.alias.copy(alloc)?,
            successor,
            successful: true,
        })
    }

    /// The lines of the hooks of a recovery that fails: of those that ran, and of all that run then.
    pub fn failed(&self, alloc: Global) -> Result<Lines, Memory>
        ensures { IfOk result (λ l. l ≡ failed_lines self.now) }
    {
        let mut lines = Vec::new(alloc);
        self.add_before(alloc, &mut lines)?;
        self.add_unsuccessful(alloc, &mut lines)?;
        Ok(Lines::new(lines))
    }

    /// The lines of the hooks of a recovery that the hook which is due before it ends: of those that ran, that one too,
    /// and of all that run then. `Err` means out of memory.
    pub fn stopped(&self, alloc: Global) -> Result<Lines, Memory>
        requires { self.now.before < length self.now.hooks.pre_failover }
        ensures { IfOk result (λ l. l ≡ failed_lines (ran_before self.now)) }
    {
        let mut lines = Vec::new(alloc);
        let hooks = &self.hooks.all().pre_failover.as_slice()[..self.before as usize + 1];
        add_lines(alloc, &mut lines, HookPhase::PreFailover, &self.told, hooks)?;
        self.add_unsuccessful(alloc, &mut lines)?;
        Ok(Lines::new(lines))
    }

    /// The lines of a recovery that is done and promoted this server, and after them those of its hooks. `Err` means
    /// out of memory.
    pub fn done(
        &self,
        alloc: Global,
        lines: Lines,
        promoted: Option<&Name>,
    ) -> Result<Lines, Memory>
        ensures { IfOk result (λ l. l
            ≡ lines ++ done_lines self.now (option_copied promoted.entry)) }
    {
        let values = self.when_done(alloc, promoted)?;
        let hooks = &self.hooks.all().post_failover.as_slice()[..self.after as usize];
        let mut lines = lines.into_vec();
        self.add_before(alloc, &mut lines)?;
        add_lines(alloc, &mut lines, HookPhase::PostFailover, &values, hooks)?;
        Ok(Lines::new(lines))
    }
}
