//! A command line that was read.

ghost use Rattle.std.specs.Prelude.{◌≡◌, IfOk, map};
ghost use Rattle.top_call.specs.Prelude.{IsTaken};
ghost use Rattle.top_call.specs.Ends.{IsParse};

use command_line::{Places, Usage, places};
use std::alloc::Global;
use std::marker::Model;

/// What a command line means, or why it isn't accepted: it is read once, and handed on.
#[derive(Drop)]
pub struct Parsed {
    places: Result<Places, Usage>,
}

impl Model for Parsed {
    ghost use Rattle.std.specs.Prelude.{IfOk, Result};
    ghost use Rattle.top_call.specs.Prelude.{IsTaken, Places as APlaces, Usage as AUsage};

    ghost Value = { Result APlaces AUsage };

    ghost view = { λ p. p.places };

    ghost invariant = { λ p. IfOk p.places IsTaken };
}

impl Parsed {
    /// Reads a command line, whose first argument is the program's name.
    pub fn read(alloc: Global, words: &[Vec<u8>]) -> Parsed
        ensures { IsParse (map (λ w. w.items) words.now) result }
    {
        Parsed {
            places: places(alloc, words),
        }
    }

    /// What it means, or why it isn't accepted.
    pub fn places(&self) -> &Result<Places, Usage>
        ensures value { result.now ≡ self.now }
        ensures taken { IfOk result.now IsTaken }
    {
        &self.places
    }
}
