//! What the command line means.

ghost use Rattle.std.specs.Prelude.{◌≡◌, map};
ghost use Rattle.orch_base.specs.Gives.{Gives};
ghost use Rattle.command_line.specs.Places.{places_of};
ghost use Rattle.command_line.specs.Usages.{usage_fault};

use crate::options::{matches_of, texts_of};
use crate::parts::{Places, places_in};
use crate::usage::Usage;
use std::alloc::Global;

/// Reads a command line, whose first argument is the program's name. It is accepted if all this holds, else it is
/// `BadWords`:
/// - the arguments are UTF-8, and `clap` gives matches;
/// - `-c` names what the program itself does or a command, and has the options that it needs;
/// - each value reads, and what is to be drawn is within its bound;
/// - a plan is asked for only for a command that has one;
/// - the servers after it are asked for only for a command, and neither with its plan nor with the tables.
///
/// `Memory` comes only if memory runs out.
#[tactic(auto, unfolding(crate::specs::Places::places_of))]
pub fn places(alloc: Global, words: &[Vec<u8>]) -> Result<Places, Usage>
    ensures { Gives (λ p. p) usage_fault result (places_of (map (λ w. w.items) words.now)) }
{
    let texts = texts_of(alloc, words)?;
    let matches = matches_of(alloc, texts.as_slice())?;
    places_in(alloc, &matches)
}
