//! The lines of hooks that ran.

ghost use Rattle.std.specs.Prelude.{◌≡◌, ◌++◌, IfOk, OnOk};
ghost use Rattle.recovery_hooks.specs.Runs.{line_of, lines_of};

use crate::Memory;
use commands::{HookPhase, Line};
use hook_texts::{Hook, Values, expand};
use orch_base::OwnedText;
use std::alloc::Global;

fn line_of(alloc: Global, phase: HookPhase, values: &Values, hook: &Hook) -> Result<Line, Memory>
    ensures { IfOk result (λ l. l ≡ line_of phase values.now hook.now) }
{
    let text = expand(alloc, hook.text.as_str(), values)?;
    Ok(Line::Hook {
        phase,
        text: OwnedText::new(text),
        exit: hook.exit,
    })
}

/// Appends the lines of these hooks, which ran in this phase with these values.
pub(crate) fn add_lines(
    alloc: Global,
    lines: &mut Vec<Line>,
    phase: HookPhase,
    values: &Values,
    hooks: &[Hook],
) -> Result<(), Memory>
    ensures { OnOk result (lines.new.items ≡ lines.old.items
        ++ lines_of phase values.now hooks.now) }
{
    for hook in hooks {
        lines.push(line_of(alloc, phase, values, hook)?)?;
    }
    Ok(())
}
