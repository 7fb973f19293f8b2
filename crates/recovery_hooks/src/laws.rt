//! What holds of hooks, over their definitions alone.

ghost use Rattle.std.specs.Prelude.{◌≡◌, ◌≢◌, ◌<◌, [], None, Option, Some, false, true};
ghost use Rattle.orch_base.specs.Names.{HostPort};
ghost use Rattle.commands.specs.declared.line.HookPhase.TheVariants as phase;
ghost use Rattle.hook_texts.specs.declared.hooks.Hook.{Hook as AHook};
ghost use Rattle.hook_texts.specs.declared.hooks.Hooks.{Hooks as SomeHooks};
ghost use Rattle.hook_texts.specs.declared.values.Values.{Values as AValues};
ghost use Rattle.recovery_hooks.specs.Runs.{after_lines, before_lines, begun_hooks, checked, due_after, due_before, hooks_left, lines_of, ran_after, ran_before, running_before, when_done, AreInOrder, HookState, Passes};

/// Hooks are in order as a recovery begins, and stay so. This is so if it looks at its failed server, and if one runs
/// before it and passes. It is so if one runs after it when none is due before it. Each that runs leaves one less to
/// run.
pub fn hooks_run_in_order()
    ensures begun { (hooks : SomeHooks) (told : AValues) → AreInOrder (begun_hooks hooks told) }
    ensures checked { (s : HookState) → AreInOrder s → AreInOrder (checked s) }
    ensures before { (s : HookState) (h : AHook) → due_before s ≡ Some h → Passes h →
        AreInOrder s → AreInOrder (ran_before s) }
    ensures after { (s : HookState) (h : AHook) → due_before s ≡ None → due_after s ≡ Some h →
        AreInOrder s → AreInOrder (ran_after s) }
    ensures fewer_before { (s : HookState) (h : AHook) → due_before s ≡ Some h →
        hooks_left (ran_before s) < hooks_left s }
    ensures fewer_after { (s : HookState) (h : AHook) → due_after s ≡ Some h →
        hooks_left (ran_after s) < hooks_left s }
{}

/// Those that run before a recovery have their lines up to the first with another exit than 0. If none is due any more,
/// these are all. If the one that is due has such an exit, they are the others up to it. Those after it all have
/// theirs.
pub fn all_hooks_run()
    ensures before { (s : HookState) → AreInOrder s → s.checked ≡ true → due_before s ≡ None →
        before_lines s
        ≡ lines_of phase.PreFailover s.told (running_before s.hooks.pre_failover) }
    ensures stopped { (s : HookState) (h : AHook) → AreInOrder s → due_before s ≡ Some h →
        h.exit ≢ 0 → before_lines (ran_before s)
        ≡ lines_of phase.PreFailover s.told (running_before s.hooks.pre_failover) }
    ensures none { (s : HookState) → AreInOrder s → s.checked ≡ false → before_lines s ≡ [] }
    ensures after { (s : HookState) (promoted : Option HostPort) → s.checked ≡ true →
        due_after s ≡ None → after_lines s promoted
        ≡ lines_of phase.PostFailover (when_done s.told promoted) s.hooks.post_failover }
{}
