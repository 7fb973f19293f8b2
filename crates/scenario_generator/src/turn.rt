//! Turns as they are drawn.

ghost use Rattle.std.specs.Prelude.{◌≡◌, ◌<◌, ◌++◌, OnOk};
ghost use Rattle.scenario_generator.specs.Texts.{turn_text};
ghost use Rattle.scenario_generator.specs.Turns.{after_turn, turn_from};

use crate::numbers::Numbers;
use crate::text::{print_between, print_number};
use orch_base::Memory;

/// A turn that was drawn, by servers' numbers, counted from 0.
#[derive(Clone, Copy)]
pub enum DrawnTurn {
    /// An ordinary client's transaction of this size, 1 to 1,000 bytes, at a root.
    Write { root: u32, size: u32 },
    /// The receiver of a server reads one step.
    Fetch(u32),
    /// The applier of a server executes one step.
    Apply(u32),
    /// The next file of a server's binary log begins.
    Rotate(u32),
    /// Poller 0 reads a server into its slot.
    PollRead(u32),
    /// What poller 0 has in its slot is stored.
    PollStore,
}

/// Draws a turn over so many servers.
pub(crate) fn draw_turn(servers: u32, numbers: &mut Numbers) -> DrawnTurn
    requires { 0 < servers }
    ensures turn { result ≡ turn_from servers numbers.old.last }
    ensures after { numbers.new.last ≡ after_turn numbers.old.last }
{
    let kind = numbers.draw(8);
    let no = numbers.draw(servers);
    match kind {
        0 => DrawnTurn::Write {
            root: no - no % 10,
            size: numbers.draw(1000) + 1,
        },
        1 | 2 => DrawnTurn::Fetch(no),
        3 | 4 => DrawnTurn::Apply(no),
        5 => DrawnTurn::Rotate(no),
        6 => DrawnTurn::PollRead(no),
        _ => DrawnTurn::PollStore,
    }
}

/// A turn as JSON.
pub(crate) fn print_turn(turn: DrawnTurn, out: &mut Vec<u8>) -> Result<(), Memory>
    ensures { OnOk result (out.new.items ≡ out.old.items ++ turn_text turn) }
{
    match turn {
        DrawnTurn::Write { root, size } => {
            print_between(b"[\"write\",\"", root, b"\",", out)?;
            print_number(size, out)?;
            out.extend_from_slice(b"]")
        }
        DrawnTurn::Fetch(no) => print_between(b"[\"fetch\",\"", no, b"\"]", out),
        DrawnTurn::Apply(no) => print_between(b"[\"apply\",\"", no, b"\"]", out),
        DrawnTurn::Rotate(no) => print_between(b"[\"rotate\",\"", no, b"\"]", out),
        DrawnTurn::PollRead(no) => print_between(b"[\"poll-read\",0,\"", no, b"\"]", out),
        DrawnTurn::PollStore => out.extend_from_slice(b"[\"poll-store\",0]"),
    }
}
