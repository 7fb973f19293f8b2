//! After how many transactions logs were flushed.

ghost use Rattle.std.specs.Prelude.{◌≡◌, ℕ, ◌++◌, ◌<◌, ◌||◌, List, length, nat_lt, replicate, OnOk};
ghost use Rattle.scenario_dump.specs.Prelude.{compact_text, items_text};
ghost use Rattle.scenario_dump.specs.Files.{flush_points};
ghost use Rattle.scenario_dump.specs.Parts.{flushes_text};
ghost use Rattle.scenario_dump.specs.Texts.{count_data, items_of, list_data};

use crate::binlog_coords_items::LogIndex;
use crate::orch_base::{Memory, ServerNo};
use crate::values::{comma, print_number};
use server_model::World;

// A count so many times, before more in a list.
fn print_repeated(count: u64, times: u64, later: bool, out: &mut Vec<u8>) -> Result<(), Memory>
    ensures { (rest : List ℕ) → OnOk result
        (out.new.items ++ items_text (later || nat_lt 0 times) (items_of count_data rest)
        ≡ out.old.items ++ items_text later (items_of count_data (replicate times count ++ rest))) }
{
    for n in 0..times {
        print_number(comma(later || n > 0), count, out)?;
    }
    Ok(())
}

// After how many transactions a log of this limit was flushed.
fn print_points(log: &LogIndex, limit: u64, out: &mut Vec<u8>) -> Result<(), Memory>
    ensures { OnOk result (out.new.items
        ≡ out.old.items ++ compact_text (list_data count_data (flush_points limit log.now.log))) }
{
    out.extend_from_slice(b"[")?;
    let mut later = false;
    let mut file = 1;
    for count in 0..log.len() {
        let end = log.coord_after(count + 1);
        let ends = u64::from(end.file);
        let flushes = ends.saturating_sub(file);
        print_repeated(count, flushes, later, out)?;
        later = later || flushes > 0;
        file = if limit <= end.pos { ends + 1 } else { ends };
    }
    print_repeated(
        log.len(),
        u64::from(log.files()).saturating_sub(file),
        later,
        out,
    )?;
    out.extend_from_slice(b"]")
}

/// After how many of its transactions a server's log was flushed, as JSON.
pub(crate) fn print_flushes(world: &World, no: ServerNo, out: &mut Vec<u8>) -> Result<(), Memory>
    requires { no.0 < length world.now.servers }
    ensures { OnOk result (out.new.items ≡ out.old.items ++ flushes_text world.now no.0) }
{
    match world.log(no) {
        Some(log) => print_points(log, world.settings(no).limit, out),
        None => out.extend_from_slice(b"[]"),
    }
}
