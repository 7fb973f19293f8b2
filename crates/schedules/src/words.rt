//! Names in texts.

ghost use Rattle.std.specs.Prelude.{◌≡◌, IfOk, string_bytes};
ghost use Rattle.scenarios.specs.OrchBase.Names.{printed};
ghost use Rattle.schedules.specs.Turns.{name_text};

use crate::orch_base::{Memory, Name, ServerNo};
use std::alloc::Global;

#[tactic(auto, using(crate::proofs::Texts::printed_is_utf8))]
fn printed(alloc: Global, name: &Name) -> Result<String, Memory>
    ensures { IfOk result (λ s. string_bytes s ≡ printed name.now) }
{
    let mut text = Vec::new(alloc);
    name.print(&mut text)?;
    Ok(String::from_utf8(text).unwrap())
}

/// The printed name of the server of a number, and no text if no server has it.
pub(crate) fn name_string(alloc: Global, names: &[Name], no: ServerNo) -> Result<String, Memory>
    ensures { IfOk result (λ s. string_bytes s ≡ name_text names.now no) }
{
    match names.get(no.0 as usize) {
        Some(name) => printed(alloc, name),
        None => Ok(String::new(alloc)),
    }
}
