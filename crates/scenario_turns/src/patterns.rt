//! The patterns that a scenario's turns ask for, each of which is compiled once.

use crate::commands::{Answers, Found};
use crate::orch_base::{Memory, OwnedText};
use crate::pattern::found;
use scenario_values::ReadFault;
use serde_json::Value;
use std::alloc::Global;
use std::collections::BTreeMap;
use std::marker::Model;

/// The servers' printed names, which contracts see as that list, and the answers of patterns that were compiled.
#[derive(Drop)]
pub struct Patterns {
    printed: Vec<OwnedText>,
    known: BTreeMap<String, Answers>,
}

impl Model for Patterns {
    ghost use Rattle.std.specs.Prelude.{List, ℕ};
    ghost use Rattle.scenario_turns.specs.KnownPatterns.{AreKnown};

    ghost Value = { List (List ℕ) };

    ghost view = { λ p. p.printed.items };

    ghost invariant = { λ p. AreKnown p.known p.printed.items };
}

// The text of the pattern that a listed turn asks for, if it looks like one that does: its last part gives it, or that
// of the turn in it.
fn asked(turn: &Value) -> Option<&str> {
    let last = turn.as_array()?.get(2)?;
    match last.as_array() {
        Some(inner) => inner.get(2)?.get("pattern")?.as_str(),
        None => last.get("pattern")?.as_str(),
    }
}

impl Patterns {
    ghost use Rattle.std.specs.Prelude.{◌≡◌, IfOk};
    ghost use Rattle.scenarios.specs.OrchBase.Gives.{Gives};
    ghost use Rattle.scenario_turns.specs.Found.{found_in};
    ghost use Rattle.scenario_values.specs.Faults.{fault_of};

    /// These printed names, and no pattern.
    pub fn new(alloc: Global, printed: Vec<OwnedText>) -> Patterns
        ensures { result ≡ printed.items }
    {
        Patterns {
            printed,
            known: BTreeMap::new(alloc),
        }
    }

    // Keeps the answers of a pattern. A text that can't be compiled is left for its turn to report.
    fn learn(&mut self, alloc: Global, text: &str) -> Result<(), Memory>
        ensures { self.new ≡ self.old }
    {
        if self.known.contains_key(text) {
            return Ok(());
        }
        if let Ok(found) = found(alloc, text, &self.printed) {
            let key = String::from_str(alloc, text)?;
            self.known.insert(key, found.answers)?;
        }
        Ok(())
    }

    /// These printed names, with the patterns that listed turns ask for. The time is that of the turns, and of each
    /// pattern on each name. `Err` means out of memory.
    pub fn of_turns(
        alloc: Global,
        printed: Vec<OwnedText>,
        turns: &[Value],
    ) -> Result<Patterns, Memory>
        ensures { IfOk result (λ p. p ≡ printed.items) }
    {
        let mut patterns = Patterns::new(alloc, printed);
        for turn in turns {
            if let Some(text) = asked(turn) {
                patterns.learn(alloc, text)?;
            }
        }
        Ok(patterns)
    }

    /// A pattern with an answer for each server, as `found` gives it. The faults are that call's.
    #[tactic(auto, unfolding(crate::specs::Found::found_in))]
    pub fn found(&self, alloc: Global, text: &str) -> Result<Found, ReadFault>
        ensures { Gives (λ f. f) fault_of result (found_in self.now text.now) }
    {
        match self.known.get(text) {
            Some(answers) => Ok(Found {
                text: OwnedText::new(String::from_str(alloc, text)?),
                answers: answers.copy(alloc)?,
            }),
            None => found(alloc, text, &self.printed),
        }
    }
}
