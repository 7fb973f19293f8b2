//! The text of a hook, with the recovery's values in it.

ghost use Rattle.std.specs.Prelude.{◌≡◌, ◌<◌, ◌≤◌, ◌++◌, ◌∷◌, length, IfOk, MatchOption, Some, None, string_bytes};
ghost use Rattle.hook_texts.specs.Expanded.{expanded, placeholder_at, placeholder_text, Lacks};

use crate::values::{Placeholder, Values, placeholder_named};
use orch_base::Memory;
use std::alloc::Global;

// What is before the first such byte, and what after it.
fn parted(text: &str, byte: char) -> Option<(&str, &str)>
    requires { byte < 128 }
    ensures { MatchOption result (Lacks byte text.now)
        (λ p. Lacks byte p.0.now × (text.now ≡ p.0.now ++ byte ∷ p.1.now)) }
{
    text.split_once(byte)
}

// The placeholder that an opening brace begins, and what is after it.
fn placeholder_behind(behind: &str) -> Option<(Placeholder, &str)>
    ensures { MatchOption result (placeholder_at (123 ∷ behind.now) ≡ None)
        (λ p. (placeholder_at (123 ∷ behind.now) ≡ Some p.0)
        × (123 ∷ behind.now ≡ placeholder_text p.0 ++ p.1.now)) }
{
    let (word, left) = parted(behind, '}')?;
    let placeholder = placeholder_named(word)?;
    Some((placeholder, left))
}

// Appends what an opening brace gives: a placeholder's value, or itself. The rest is still to be read.
fn push_opened<'a>(
    alloc: Global,
    out: &mut String,
    behind: &'a str,
    values: &Values,
) -> Result<&'a str, Memory>
    ensures gives { IfOk result (λ left. string_bytes out.new ++ expanded values.now left.now
        ≡ string_bytes out.old ++ expanded values.now (123 ∷ behind.now)) }
    ensures shorter { IfOk result (λ left. length left.now ≤ length behind.now) }
{
    match placeholder_behind(behind) {
        Some((placeholder, left)) => {
            out.push_str(&values.value(alloc, placeholder)?)?;
            Ok(left)
        }
        None => {
            out.push_str("{")?;
            Ok(behind)
        }
    }
}

/// The text with its placeholders' values in it, read from the left. What is no placeholder stays as it is, and a value
/// isn't read again (orchestrator's documentation, "Hooks", "Parameters"). `Err` means out of memory.
pub fn expand(alloc: Global, text: &str, values: &Values) -> Result<String, Memory>
    ensures { IfOk result (λ s. string_bytes s ≡ expanded values.now text.now) }
{
    let mut out = String::new(alloc);
    let mut left = text;
    while let Some((before, behind)) = parted(left, '{') {
        out.push_str(before)?;
        left = push_opened(alloc, &mut out, behind, values)?;
    }
    out.push_str(left)?;
    Ok(out)
}
