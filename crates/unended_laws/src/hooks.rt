//! Laws of the turns of recoveries with hooks.

ghost use Rattle.std.specs.Prelude.{◌≡◌, ◌++◌, ℕ, [], List, None, Some, false, true};
ghost use Rattle.unended_laws.specs.Prelude.{BookState, Docket as ADocket, Hooks as SomeHooks, IsOfDead, Line as ALine, Means as AMeans};
ghost use Rattle.unended_laws.specs.Prelude.{Moment as AMoment, Purpose as APurpose, ServerNo as Number, World, begun_recovery, hooked, is_going};
ghost use Rattle.unended_laws.specs.Prelude.{promoted_in, taken};
ghost use Rattle.unended_jobs.specs.Commands.declared.cause.Cause.{Cause as ACause};
ghost use Rattle.unended_jobs.specs.Commands.declared.cause.Cause.TheVariants as cause;
ghost use Rattle.unended_jobs.specs.HookTexts.declared.values.Values.{Values as AValues};
ghost use Rattle.unended_jobs.specs.Operations.declared.step.JobStep.TheVariants as step;
ghost use Rattle.unended_jobs.specs.RecoveryHooks.Runs.{begun_hooks, unsuccessful_lines, HookState};
ghost use Rattle.unended_jobs.specs.RecoveryPlans.Recoveries.{Recovery};
ghost use Rattle.unended_laws.specs.Tended.{all_before, all_behind, IsEarly, IsOfDocket, IsTended};

/// Until all hooks have run before it that are to, a recovery changes no server. It changes none in the turn in which
/// it looks at its failed server, nor in the turn of such a hook, whatever its exit.
pub fn hooks_before_recoveries_leave_servers()
    ensures { (w : World) (b : BookState) (read : ℕ) (now : AMoment) (r : Recovery)
        (d : ADocket) (s : HookState) →
        d.hooks ≡ Some s → IsTended r s → IsEarly s →
        (hooked w b read now r d).taken.exchanges ≡ [] }
{}

/// A recovery that is done has, after its own lines, those of all hooks before it and of all after it. One that fails
/// has those before it up to the one that ended it, and all that run then. One that hasn't looked at its failed server
/// fails exactly if that is reached, and has none before it. One without hooks has none.
pub fn recoveries_tell_their_hooks()
    ensures done { (w : World) (b : BookState) (read : ℕ) (now : AMoment) (r : Recovery)
        (d : ADocket) (s : HookState) (lines : List ALine) →
        d.hooks ≡ Some s → IsTended r s →
        (hooked w b read now r d).taken.step ≡ step.Done lines →
        (own : List ALine) × ((taken w b read now r).step ≡ step.Done own)
        × (lines ≡ own ++ (all_before s ++ all_behind s (promoted_in b (taken w b read now r)))) }
    ensures failed { (w : World) (b : BookState) (read : ℕ) (now : AMoment) (r : Recovery)
        (d : ADocket) (s : HookState) (c : ACause) (lines : List ALine) →
        d.hooks ≡ Some s → IsTended r s → s.checked ≡ true →
        (hooked w b read now r d).taken.step ≡ step.Failed c lines →
        lines ≡ all_before s ++ unsuccessful_lines s }
    ensures reached { (w : World) (b : BookState) (read : ℕ) (now : AMoment) (r : Recovery)
        (d : ADocket) (s : HookState) (c : ACause) (lines : List ALine) →
        d.hooks ≡ Some s → IsTended r s → s.checked ≡ false →
        (hooked w b read now r d).taken.step ≡ step.Failed c lines →
        (c ≡ cause.Reachable r.failed) × (lines ≡ unsuccessful_lines s) }
    ensures none { (w : World) (b : BookState) (read : ℕ) (now : AMoment) (r : Recovery)
        (d : ADocket) (c : ACause) (lines : List ALine) → d.hooks ≡ None →
        (hooked w b read now r d).taken.step ≡ step.Failed c lines → lines ≡ [] }
{}

/// Hooks of a recovery that begins are in order, and it is to look at its failed server. So they stay along its turns.
/// Once all have run before it that are to, none is left to run before it in any later turn.
pub fn hooks_stay_tended()
    ensures begun { (u : APurpose) (by : AMeans) (id wait : ℕ) (f : Number)
        (replicas order : List Number) (hooks : SomeHooks) (told : AValues) → IsOfDead u →
        IsTended (begun_recovery u by id wait f replicas order) (begun_hooks hooks told) }
    ensures turn { (w : World) (b : BookState) (read : ℕ) (now : AMoment) (r : Recovery)
        (d : ADocket) (s k : HookState) →
        d.hooks ≡ Some s → IsTended r s →
        is_going (hooked w b read now r d).taken.step ≡ true →
        (hooked w b read now r d).docket.hooks ≡ Some k →
        IsTended (hooked w b read now r d).taken.recovery k }
    ensures early { (w : World) (b : BookState) (read : ℕ) (now : AMoment) (r : Recovery)
        (d : ADocket) (s k : HookState) →
        d.hooks ≡ Some s → (hooked w b read now r d).docket.hooks ≡ Some k →
        IsEarly k → IsEarly s }
    ensures docket { (w : World) (b : BookState) (read : ℕ) (now : AMoment) (r : Recovery)
        (d : ADocket) → IsOfDocket d (hooked w b read now r d).docket }
{}
