//! Whether commands with what they are given are equal.

ghost use Rattle.std.specs.Prelude.{◌≡◌, ◌↔◌, IsTrue};

use crate::orch_base::Same;
use crate::{Command, CommandName, CommandTurn, Found, Keys};

impl Same for Found {
    fn is_same(&self, other: &Found) -> bool {
        self.text.is_same(&other.text) && self.answers.is_same(&other.answers)
    }
}

impl Same for Keys {
    fn is_same(&self, other: &Keys) -> bool {
        (self.rule == other.rule && self.duration == other.duration)
            && self.reason.is_same(&other.reason)
            && self.owner.is_same(&other.owner)
            && self.pattern.is_same(&other.pattern)
    }
}

fn same_name(name: CommandName, other: CommandName) -> bool
    ensures { IsTrue result ↔ (name ≡ other) }
{
    name == other
}

impl Same for Command {
    fn is_same(&self, other: &Command) -> bool {
        same_name(self.name, other.name) && self.i == other.i && self.d == other.d
    }
}

impl Same for CommandTurn {
    fn is_same(&self, other: &CommandTurn) -> bool {
        self.command.is_same(&other.command) && self.keys.is_same(&other.keys)
    }
}
