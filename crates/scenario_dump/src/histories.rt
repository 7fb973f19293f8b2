//! What servers have executed.

ghost use Rattle.std.specs.Prelude.{◌≡◌, ◌++◌, ◌<◌, length, OnOk};
ghost use Rattle.scenario_dump.specs.Prelude.{comma_if};
ghost use Rattle.scenario_dump.specs.Histories.{is_like, part_of};
ghost use Rattle.scenario_dump.specs.Parts.{history_text, part_text};

use crate::openings::Part;
use crate::orch_base::{Memory, ServerNo, Txn};
use crate::values::{comma, print_named, print_number};
use server_model::World;

fn part_of(t: Txn) -> Part
    ensures { result ≡ part_of t }
{
    Part {
        origin: t.origin,
        size: t.size,
        count: 1,
    }
}

fn is_like(t: Txn, part: Part) -> bool
    ensures { result ≡ is_like t part }
{
    t.origin.0 == part.origin.0 && t.size == part.size
}

fn print_part(world: &World, part: Part, later: bool, out: &mut Vec<u8>) -> Result<(), Memory>
    ensures { OnOk result
        (out.new.items ≡ out.old.items ++ (comma_if later ++ part_text world.now part)) }
{
    out.extend_from_slice(comma(later))?;
    print_named(b"[", world, part.origin, out)?;
    print_number(b",", u64::from(part.size), out)?;
    print_number(b",", part.count, out)?;
    out.extend_from_slice(b"]")
}

/// What a server has executed, as JSON.
pub(crate) fn print_history(world: &World, no: ServerNo, out: &mut Vec<u8>) -> Result<(), Memory>
    requires { no.0 < length world.now.servers }
    ensures { OnOk result (out.new.items ≡ out.old.items ++ history_text world.now no.0) }
{
    let executed = world.executed(no);
    if executed == 0 {
        return out.extend_from_slice(b"[]");
    }
    out.extend_from_slice(b"[")?;
    let mut part = part_of(world.transaction(no, 0));
    let mut later = false;
    for k in 1..executed {
        let t = world.transaction(no, k);
        if is_like(t, part) {
            part.count += 1;
        } else {
            print_part(world, part, later, out)?;
            later = true;
            part = part_of(t);
        }
    }
    print_part(world, part, later, out)?;
    out.extend_from_slice(b"]")
}
