//! How much room a run of a scenario takes.

ghost use Rattle.std.specs.Prelude.{◌≡◌, ◌≤◌, sum_by, count_by, length};
ghost use Rattle.openings.specs.Listed.{transactions};
ghost use Rattle.scenarios.specs.Scenarios.{flushes_of, listed_in, longest_flushes, room_of, IsScenario};
ghost use Rattle.scenarios.specs.ValidTurns.{is_rotate, is_write};

use crate::{Scenario, Step, Turn};
use openings::{ServerInit, transactions};

impl Scenario {
    /// The transactions of the listed histories, and one for each write turn: at most 4,000,000.
    pub fn room(&self) -> u64
        requires { IsScenario self.now }
        ensures room { result ≡ room_of self.now }
        ensures within { result ≤ 4000000 }
    {
        listed(self.opening.servers()) + writes(self.turns.as_slice())
    }

    /// The longest list of flush points, and one for each rotate turn: at most 4,000,000.
    pub fn flushes(&self) -> u64
        requires { IsScenario self.now }
        ensures flushes { result ≡ flushes_of self.now }
        ensures within { result ≤ 4000000 }
    {
        longest_flushes(self.opening.servers()) + rotations(self.turns.as_slice())
    }
}

fn listed(servers: &[ServerInit]) -> u64
    requires { listed_in servers.now ≤ 4000000 }
    ensures { result ≡ listed_in servers.now }
{
    let mut sum = 0;
    for server in servers {
        if let Some(parts) = &server.history {
            sum += transactions(parts.as_slice());
        }
    }
    sum
}

fn longest_flushes(servers: &[ServerInit]) -> u64
    ensures { result ≡ longest_flushes servers.now }
{
    let mut longest = 0;
    for server in servers {
        longest = (server.flushes.as_slice().len() as u64).max(longest);
    }
    longest
}

fn writes(turns: &[Turn]) -> u64
    ensures { result ≡ count_by is_write turns.now }
{
    let mut count = 0;
    for t in turns {
        if is_write(t) {
            count += 1;
        }
    }
    count
}

fn is_write(t: &Turn) -> bool
    ensures { result ≡ is_write t.now }
{
    matches!(t, Turn::Step(Step::Write(_, _)))
}

fn rotations(turns: &[Turn]) -> u64
    ensures value { result ≡ count_by is_rotate turns.now }
    ensures few { result ≤ length turns.now }
{
    let mut count = 0;
    for t in turns {
        if is_rotate(t) {
            count += 1;
        }
    }
    count
}

fn is_rotate(t: &Turn) -> bool
    ensures { result ≡ is_rotate t.now }
{
    matches!(t, Turn::Step(Step::Rotate(_)))
}
