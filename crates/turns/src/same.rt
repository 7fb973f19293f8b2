//! Whether turns are equal.

ghost use Rattle.std.specs.Prelude.{◌≡◌, ◌↔◌, IsTrue};

use crate::orch_base::Same;
use crate::{Act, BoxedCommand, Step, Turn};

impl Same for BoxedCommand {
    fn is_same(&self, other: &BoxedCommand) -> bool {
        self.as_turn().is_same(other.as_turn())
    }
}

fn is_same_step(step: Step, other: Step) -> bool
    ensures { IsTrue result ↔ (step ≡ other) }
{
    step == other
}

impl Same for Act {
    fn is_same(&self, other: &Act) -> bool {
        match self {
            Act::PollRead(poller, no) =>
                matches!(other, Act::PollRead(p, n) if p == poller && n == no),
            Act::PollStore(poller) => matches!(other, Act::PollStore(p) if p == poller),
            Act::Command(command) => matches!(other, Act::Command(c) if command.is_same(c)),
            Act::Job(job) => matches!(other, Act::Job(j) if j == job),
            Act::Scan => matches!(other, Act::Scan),
            Act::Restart => matches!(other, Act::Restart),
        }
    }
}

impl Same for Turn {
    fn is_same(&self, other: &Turn) -> bool {
        match self {
            Turn::Step(step) => matches!(other, Turn::Step(s) if is_same_step(*step, *s)),
            Turn::Tick(seconds) => matches!(other, Turn::Tick(s) if s == seconds),
            Turn::Act(act) => matches!(other, Turn::Act(a) if act.is_same(a)),
            Turn::As(node, act) => matches!(other, Turn::As(n, a) if n == node && act.is_same(a)),
            Turn::Claim(node) => matches!(other, Turn::Claim(n) if n == node),
            Turn::Release(node) => matches!(other, Turn::Release(n) if n == node),
        }
    }
}
