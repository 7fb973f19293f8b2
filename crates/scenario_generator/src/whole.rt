//! Scenarios drawn from three numbers, as one text.

ghost use Rattle.std.specs.Prelude.{◌≡◌, ◌<◌, IfOk, Some};
ghost use Rattle.std.specs.Io.{WritesAtMost};
ghost use Rattle.std.specs.Io.KnownBytes.{WriteAppends};
ghost use Rattle.orch_base.specs.Causes.{HasCause};
ghost use Rattle.orch_base.specs.Ends.{TakesSome};
ghost use Rattle.scenario_generator.specs.Texts.{scenario_text};

use crate::write_scenario;
use orch_base::{Failed, Memory, Sink};
use std::alloc::Global;

// A sink that keeps all that it takes, and fails if memory runs out.
#[derive(Drop)]
struct Whole {
    bytes: Vec<u8>,
    faults: u64,
}

impl Sink for Whole {
    ghost written = { λ s. Some s.bytes.items };

    ghost faults = { λ s. s.faults };

    fn write(&mut self, piece: &[u8]) -> Result<usize, Failed>
        ensures bound { WritesAtMost result piece.now }
        ensures some { TakesSome result piece.now }
        ensures bytes { WriteAppends (Some self.old.bytes.items) (Some self.new.bytes.items) result
            piece.now }
        ensures cause { HasCause self.old.faults self.new.faults result }
    {
        match self.bytes.extend_from_slice(piece) {
            Ok(()) => Ok(piece.len()),
            Err(_) => {
                self.faults = self.faults.saturating_add(1);
                Err(Failed)
            }
        }
    }
}

/// The text of the scenario that is drawn from a seed: so many servers, at least one, and so many turns. `Memory` comes
/// only if memory runs out.
pub fn generate(alloc: Global, seed: u64, servers: u32, turns: u32) -> Result<Vec<u8>, Memory>
    requires { 0 < servers }
    ensures { IfOk result (λ v. v.items ≡ scenario_text seed servers turns) }
{
    let mut whole = Whole {
        bytes: Vec::new(alloc),
        faults: 0,
    };
    match write_scenario(alloc, seed, servers, turns, &mut whole) {
        Ok(()) => Ok(whole.bytes),
        Err(_) => Err(Memory),
    }
}
