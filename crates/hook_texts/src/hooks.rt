//! Hooks: what a recovery passes to commands outside, and how these end.

ghost use Rattle.std.specs.Prelude.{◌≡◌, ◌↔◌, [], IsTrue};

use orch_base::{Listed, Memory, OwnedText, Same};
use std::alloc::Global;
use std::marker::Model;
use std::sync::Arc;

/// A hook of a recovery (orchestrator's documentation, "Recovery hooks"). No process is started: what it answers is
/// given beside it.
pub struct Hook {
    /// What runs. A name in braces is replaced by that value of the recovery. 1 to 1,000 bytes, none of them a control
    /// character.
    pub text: OwnedText,
    /// The exit that it answers.
    pub exit: u8,
}

impl Drop for Hook {
    fn drop(self) {
        let Hook {
            text: _text,
            exit: _,
        } = self;
    }
}

impl Same for Hook {
    fn is_same(&self, other: &Hook) -> bool {
        self.text.is_same(&other.text) && self.exit == other.exit
    }
}

/// Hooks in the order in which they run, which contracts see as that list.
pub type HookList = Listed<Hook>;

/// The hooks of all recoveries, by when they run (orchestrator's configuration, PreFailoverProcesses,
/// PostFailoverProcesses, PostUnsuccessfulFailoverProcesses).
pub struct Hooks {
    /// Before a recovery; an exit that isn't 0 ends it.
    pub pre_failover: HookList,
    /// When a recovery is done.
    pub post_failover: HookList,
    /// When a recovery failed.
    pub post_unsuccessful: HookList,
}

impl Drop for Hooks {
    fn drop(self) {
        let Hooks {
            pre_failover: _pre_failover,
            post_failover: _post_failover,
            post_unsuccessful: _post_unsuccessful,
        } = self;
    }
}

impl Hooks {
    ghost use Rattle.std.specs.Prelude.{◌≡◌, ◌↔◌, IsTrue};
    ghost use Rattle.hook_texts.specs.Hooks.{no_hooks};

    /// No hooks. It takes no memory.
    pub fn none(alloc: Global) -> Hooks
        ensures { result ≡ no_hooks }
    {
        Hooks {
            pre_failover: HookList::new(Vec::new(alloc)),
            post_failover: HookList::new(Vec::new(alloc)),
            post_unsuccessful: HookList::new(Vec::new(alloc)),
        }
    }

    /// Whether the hooks are equal. It takes no memory.
    pub fn is_same(&self, other: &Hooks) -> bool
        ensures { IsTrue result ↔ (self.now ≡ other.now) }
    {
        self.pre_failover.is_same(&other.pre_failover)
            && self.post_failover.is_same(&other.post_failover)
            && self.post_unsuccessful.is_same(&other.post_unsuccessful)
    }
}

/// Hooks that several share, which contracts see as these hooks.
pub struct SharedHooks {
    hooks: Arc<Hooks>,
}

impl Drop for SharedHooks {
    fn drop(self) {
        let SharedHooks { hooks: _hooks } = self;
    }
}

impl Model for SharedHooks {
    ghost use Rattle.std.specs.Arc.{arc_value};
    ghost use Rattle.hook_texts.specs.declared.hooks.Hooks.{Hooks as SomeHooks};

    ghost Value = { SomeHooks };

    ghost view = { λ s. arc_value s.hooks };
}

impl SharedHooks {
    ghost use Rattle.std.specs.Prelude.{◌≡◌, ◌↔◌, IfOk, IsTrue};

    /// These hooks. `Err` means out of memory.
    pub fn new(alloc: Global, hooks: Hooks) -> Result<SharedHooks, Memory>
        ensures { IfOk result (λ s. s ≡ hooks) }
    {
        Ok(SharedHooks {
            hooks: Arc::new(alloc, hooks)?,
        })
    }

    /// The hooks.
    pub fn all(&self) -> &Hooks
        ensures { result.now ≡ self.now }
    {
        &self.hooks
    }

    /// The same hooks for one more: nothing is copied. `Memory` comes if more share them than can be counted.
    pub fn share(&self) -> Result<SharedHooks, Memory>
        ensures { IfOk result (λ s. s ≡ self.now) }
    {
        Ok(SharedHooks {
            hooks: Arc::try_clone(&self.hooks)?,
        })
    }

    /// Whether the hooks are equal. It takes no memory.
    pub fn is_same(&self, other: &SharedHooks) -> bool
        ensures { IsTrue result ↔ (self.now ≡ other.now) }
    {
        self.all().is_same(other.all())
    }
}
