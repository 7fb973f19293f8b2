//! A text on its way to a sink.

ghost use Rattle.std.specs.Prelude.{◌≡◌, ℕ, List, Option, OnErr, OnOk};
ghost use Rattle.orch_base.specs.Causes.{HasCause};
ghost use Rattle.scenario_generator.specs.Pieces.{Stays, StaysFront};

use orch_base::{Failed, Sink, write_all};

// A piece is handed over once it has so many bytes: 64 KiB.
const PIECE: usize = 65_536;

/// Hands over what is waiting, once that is a piece. If the sink fails, it took a prefix of the text.
pub(crate) fn hand_over_piece<K: Sink>(held: &mut Vec<u8>, sink: &mut K) -> Result<(), Failed>
    ensures ok { OnOk result
        (Stays (K.written sink.old) held.old.items (K.written sink.new) held.new.items) }
    ensures err { OnErr result (StaysFront (K.written sink.old) held.old.items
        (K.written sink.new)) }
    ensures cause { HasCause (K.faults sink.old) (K.faults sink.new) result }
{
    if held.len() < PIECE {
        return Ok(());
    }
    let written = write_all(sink, held);
    held.clear();
    written
}
