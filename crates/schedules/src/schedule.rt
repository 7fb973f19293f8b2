//! The line of a schedule.

ghost use Rattle.std.specs.Prelude.{◌≡◌, ◌++◌, IfOk, OnErr, OnOk, map, string_bytes};
ghost use Rattle.serde_json.specs.Written.{comma_if, compact_text};
ghost use Rattle.scenario_dump.specs.Texts.{list_data};
ghost use Rattle.schedules.specs.Turns.{schedule_line, turn_data};

use crate::orch_base::{Memory, Name};
use crate::turn::turn_value;
use crate::turns::{Reply, Turn};
use std::alloc::Global;

// A comma, if something is before.
fn comma(later: bool) -> &'static [u8]
    ensures { result.now ≡ comma_if later }
{
    if later { b"," } else { b"" }
}

#[tactic(auto, using(crate::proofs::Texts::no_float))]
fn turn_text(alloc: Global, names: &[Name], turn: &Turn) -> Result<String, Memory>
    ensures { IfOk result (λ s. string_bytes s ≡ compact_text (turn_data names.now turn.now)) }
{
    let value = turn_value(alloc, names, turn)?;
    value.to_string(alloc)
}

// Adds a turn to the list, after a comma if something is before.
fn add_turn(
    alloc: Global,
    names: &[Name],
    later: bool,
    turn: &Turn,
    line: &mut Vec<u8>,
) -> Result<(), Memory>
    ensures { OnOk result (line.new.items ≡ line.old.items
        ++ (comma_if later ++ compact_text (turn_data names.now turn.now))) }
{
    let text = turn_text(alloc, names, turn)?;
    line.extend_from_slice(comma(later))?;
    line.extend_from_slice(text.as_str().as_bytes())
}

// Adds the turns of these entries as a list.
fn add_turns(
    alloc: Global,
    names: &[Name],
    entries: &[(u32, Turn, Reply)],
    line: &mut Vec<u8>,
) -> Result<(), Memory>
    ensures { OnOk result (line.new.items ≡ line.old.items
        ++ compact_text (list_data (turn_data names.now) (map (λ e. e.1) entries.now))) }
{
    line.extend_from_slice(b"[")?;
    for (n, entry) in entries.iter().enumerate() {
        add_turn(alloc, names, n > 0, &entry.1, line)?;
    }
    line.extend_from_slice(b"]")
}

/// Appends the line of a schedule: `schedule`, and the turns of these entries in order as one compact JSON list in the
/// scenario's form, and a newline. If memory runs out, it appends nothing. The names are those of the servers by
/// number.
pub fn schedule_text(
    entries: &[(u32, Turn, Reply)],
    names: &[Name],
    out: &mut Vec<u8>,
) -> Result<(), Memory>
    ensures ok { OnOk result (out.new.items ≡ out.old.items
        ++ schedule_line names.now (map (λ e. e.1) entries.now)) }
    ensures err { OnErr result (out.new.items ≡ out.old.items) }
{
    let alloc = *out.allocator();
    let mut line = Vec::from_slice(alloc, b"schedule ")?;
    add_turns(alloc, names, entries, &mut line)?;
    line.extend_from_slice(b"\n")?;
    out.extend_from_slice(&line)
}
