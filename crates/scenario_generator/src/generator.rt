//! Scenarios drawn from three numbers, written in pieces.

ghost use Rattle.std.specs.Prelude.{◌≡◌, ◌<◌, ◌++◌, [], length, OnErr, OnOk};
ghost use Rattle.std.specs.Io.KnownBytes.{Appends};
ghost use Rattle.orch_base.specs.Ends.{AppendsFront};
ghost use Rattle.scenario_generator.specs.Pieces.{HasWriteCause, Joins, JoinsFront};
ghost use Rattle.scenario_generator.specs.Servers.{servers_from};
ghost use Rattle.scenario_generator.specs.Texts.{scenario_text, servers_text, turns_text};
ghost use Rattle.scenario_generator.specs.Turns.{turns_from};

use crate::NotWritten;
use crate::numbers::Numbers;
use crate::pieces::hand_over_piece;
use crate::server::{draw_server, print_server};
use crate::text::print_comma;
use crate::turn::{draw_turn, print_turn};
use orch_base::{Sink, write_all};
use std::alloc::Global;

// Draws so many servers and adds them to the text.
fn add_servers<K: Sink>(
    servers: u32,
    numbers: &mut Numbers,
    held: &mut Vec<u8>,
    sink: &mut K,
) -> Result<(), NotWritten>
    ensures ok { OnOk result (Joins (servers_text (servers_from numbers.old.last servers).drawn)
        (K.written sink.old) held.old.items (K.written sink.new) held.new.items) }
    ensures numbers { OnOk result
        (numbers.new.last ≡ (servers_from numbers.old.last servers).number) }
    ensures err { OnErr result (JoinsFront
        (servers_text (servers_from numbers.old.last servers).drawn)
        (K.written sink.old) held.old.items (K.written sink.new)) }
    ensures cause { HasWriteCause (K.faults sink.old) (K.faults sink.new) result }
{
    let mut counts = [0u32; 10];
    for no in 0..servers {
        print_comma(no > 0, held)?;
        print_server(no, draw_server(no, &mut counts, numbers), held)?;
        hand_over_piece(held, sink)?;
    }
    Ok(())
}

// Draws so many turns over these servers and adds them to the text.
fn add_turns<K: Sink>(
    servers: u32,
    turns: u32,
    numbers: &mut Numbers,
    held: &mut Vec<u8>,
    sink: &mut K,
) -> Result<(), NotWritten>
    requires { 0 < servers }
    ensures ok { OnOk result (Joins (turns_text (turns_from servers numbers.old.last turns).drawn)
        (K.written sink.old) held.old.items (K.written sink.new) held.new.items) }
    ensures err { OnErr result (JoinsFront
        (turns_text (turns_from servers numbers.old.last turns).drawn)
        (K.written sink.old) held.old.items (K.written sink.new)) }
    ensures cause { HasWriteCause (K.faults sink.old) (K.faults sink.new) result }
{
    for at in 0..turns {
        print_comma(at > 0, held)?;
        print_turn(draw_turn(servers, numbers), held)?;
        hand_over_piece(held, sink)?;
    }
    Ok(())
}

/// Writes the scenario that is drawn from a seed: so many servers, at least one, and so many turns. It goes to the sink
/// in pieces of 64 KiB and a line, and takes no more memory however many servers and turns there are. If it isn't
/// written whole, the sink took a prefix of it. `Sink` comes only if the sink failed and counted it.
pub fn write_scenario<K: Sink>(
    alloc: Global,
    seed: u64,
    servers: u32,
    turns: u32,
    sink: &mut K,
) -> Result<(), NotWritten>
    requires { 0 < servers }
    ensures ok { OnOk result
        (Appends (K.written sink.old) (K.written sink.new) (scenario_text seed servers turns)) }
    ensures err { OnErr result
        (AppendsFront (K.written sink.old) (K.written sink.new)
        (scenario_text seed servers turns)) }
    ensures cause { HasWriteCause (K.faults sink.old) (K.faults sink.new) result }
{
    let mut numbers = Numbers { last: seed };
    let mut held = Vec::from_slice(alloc, b"{\"servers\":[")?;
    add_servers(servers, &mut numbers, &mut held, sink)?;
    held.extend_from_slice(b"],\"turns\":[")?;
    add_turns(servers, turns, &mut numbers, &mut held, sink)?;
    held.extend_from_slice(b"],\"version\":1}\n")?;
    write_all(sink, &held)?;
    Ok(())
}
