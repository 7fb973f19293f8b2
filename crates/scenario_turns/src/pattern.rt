//! Patterns, and in which servers' names they are found.

ghost use Rattle.std.specs.Prelude.{◌≡◌, IfOk, map};
ghost use Rattle.scenario_turns.specs.Prelude.{Gives, fault_of, is_found, printed};
ghost use Rattle.scenario_turns.specs.Found.{found_in};

use crate::commands::{Answers, Found};
use crate::orch_base::{Memory, Name, OwnedText};
use cluster_filters::{FilterFault, Pattern};
use scenario_servers::printed_name;
use scenario_values::{FaultCode, ReadFault, fails};
use std::alloc::Global;

/// Each server's name as it is printed, `host:port`. `Err` means out of memory.
pub fn printed_names(alloc: Global, names: &[Name]) -> Result<Vec<OwnedText>, Memory>
    ensures { IfOk result (λ p. p.items ≡ map printed names.now) }
{
    let mut texts = Vec::with_capacity(alloc, names.len())?;
    for name in names {
        texts.push(printed_name(alloc, name)?)?;
    }
    Ok(texts)
}

fn answers(alloc: Global, pattern: &Pattern, printed: &[OwnedText]) -> Result<Answers, Memory>
    ensures { IfOk result (λ a. a ≡ map (is_found pattern.now) printed.now) }
{
    let mut search = pattern.search(alloc)?;
    let mut answers = Vec::with_capacity(alloc, printed.len())?;
    for name in printed {
        answers.push(search.found(name.as_str()))?;
    }
    Ok(Answers::new(answers))
}

/// A pattern with an answer for each server: whether it is found in the server's printed name, `host:port`. A text that
/// is no regular expression, or nests past the limit of `regex`, is `BadPattern`. `Memory` also comes for a pattern
/// past the room that `regex` grants one.
#[tactic(auto, unfolding(crate::specs::Found::found_in))]
pub fn found(alloc: Global, text: &str, printed: &[OwnedText]) -> Result<Found, ReadFault>
    ensures { Gives (λ f. f) fault_of result (found_in printed.now text.now) }
{
    match Pattern::read(alloc, text) {
        Ok(pattern) => {
            let answers = answers(alloc, &pattern, printed)?;
            let text = OwnedText::new(String::from_str(alloc, text)?);
            Ok(Found { text, answers })
        }
        Err(FilterFault::BadPattern(_)) => Err(fails(alloc, FaultCode::BadPattern)),
        Err(FilterFault::Memory) => Err(ReadFault::Memory),
    }
}
