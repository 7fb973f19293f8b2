//! The tables.

ghost use Rattle.std.specs.Prelude.{◌≡◌, ◌++◌, ◌<◌, [], length, map, IfOk, OnOk, OnErr};
ghost use Rattle.std.specs.Option.{option_copied};
ghost use Rattle.server_model.specs.Worlds.{server_at};
ghost use Rattle.report_text.specs.Told.{told_lines};
ghost use Rattle.report_text.specs.Tables.{up_text, on_text, end_text, until_text, auto_text, places_text, threads_text, standing_text, name_text, source_text, state_text, log_text, purged_text, line_at, servers_text, job_text, jobs_text, names_in, errant_text, tables_text};

use crate::binlog_coords_items::{Coord, LogIndex, print_coord};
use crate::line::print_told_lines;
use crate::names::PrintedNames;
use crate::number::{print_counted, print_number};
use crate::orch_base::{Memory, Name, ServerNo, SourceState};
use crate::words::mode_word;
use commands::Line;
use server_model::{Plain, World};
use std::alloc::Global;

fn up_word(up: bool) -> &'static [u8]
    ensures { result.now ≡ up_text up }
{
    if up { b"up" } else { b"down" }
}

fn on_word(on: bool) -> &'static [u8]
    ensures { result.now ≡ on_text on }
{
    if on { b"on" } else { b"off" }
}

fn auto_word(auto: bool) -> &'static [u8]
    ensures { result.now ≡ auto_text auto }
{
    if auto { b" auto" } else { b"" }
}

fn print_end(log: Option<&LogIndex>, out: &mut Vec<u8>) -> Result<(), Memory>
    ensures { OnOk result (out.new.items ≡ out.old.items ++ end_text (option_copied log.entry)) }
{
    match log {
        Some(log) => print_coord(log.end(), out),
        None => out.extend_from_slice(b"none"),
    }
}

fn print_until(until: Option<Coord>, out: &mut Vec<u8>) -> Result<(), Memory>
    ensures { OnOk result (out.new.items ≡ out.old.items ++ until_text until) }
{
    match until {
        Some(coord) => {
            out.extend_from_slice(b" until ")?;
            print_coord(coord, out)
        }
        None => Ok(()),
    }
}

fn print_places(plain: &Plain, out: &mut Vec<u8>) -> Result<(), Memory>
    ensures { OnOk result (out.new.items ≡ out.old.items ++ places_text plain.now) }
{
    out.extend_from_slice(b" at ")?;
    print_coord(plain.exec, out)?;
    out.extend_from_slice(b" read ")?;
    print_coord(plain.read, out)
}

fn print_threads(plain: &Plain, out: &mut Vec<u8>) -> Result<(), Memory>
    ensures { OnOk result (out.new.items ≡ out.old.items ++ threads_text plain.now) }
{
    out.extend_from_slice(b" io ")?;
    out.extend_from_slice(on_word(plain.receiver))?;
    out.extend_from_slice(b" sql ")?;
    out.extend_from_slice(on_word(plain.applier))?;
    print_until(plain.until, out)?;
    out.extend_from_slice(auto_word(plain.auto))
}

fn print_standing(plain: &Plain, out: &mut Vec<u8>) -> Result<(), Memory>
    ensures { OnOk result (out.new.items ≡ out.old.items ++ standing_text plain.now) }
{
    print_places(plain, out)?;
    print_threads(plain, out)
}

fn print_name(world: &World, no: ServerNo, out: &mut Vec<u8>) -> Result<(), Memory>
    ensures { OnOk result (out.new.items ≡ out.old.items ++ name_text (server_at world.now no.0)) }
{
    if no.0 >= world.servers() {
        return Ok(());
    }
    world.settings(no).name.print(out)
}

fn print_source(world: &World, plain: &Plain, out: &mut Vec<u8>) -> Result<(), Memory>
    ensures { OnOk result (out.new.items ≡ out.old.items
        ++ source_text world.now plain.now plain.now.source) }
{
    match plain.source {
        SourceState::Without => out.extend_from_slice(b"none"),
        SourceState::Attached(source) => {
            print_name(world, source, out)?;
            print_standing(plain, out)
        }
        SourceState::Detached(source) => {
            print_name(world, source, out)?;
            out.extend_from_slice(b" detached")?;
            print_standing(plain, out)
        }
    }
}

fn print_state(name: &Name, plain: &Plain, out: &mut Vec<u8>) -> Result<(), Memory>
    ensures { OnOk result (out.new.items ≡ out.old.items ++ state_text name.now plain.now) }
{
    out.extend_from_slice(b"server ")?;
    name.print(out)?;
    out.extend_from_slice(b" ")?;
    out.extend_from_slice(up_word(plain.up))?;
    out.extend_from_slice(b" ")?;
    out.extend_from_slice(mode_word(plain.read_only))
}

fn print_log(executed: u64, log: Option<&LogIndex>, out: &mut Vec<u8>) -> Result<(), Memory>
    ensures { OnOk result (out.new.items ≡ out.old.items
        ++ log_text executed (option_copied log.entry)) }
{
    out.extend_from_slice(b" executed ")?;
    print_number(executed, out)?;
    out.extend_from_slice(b" end ")?;
    print_end(log, out)
}

fn print_purged(first: u32, out: &mut Vec<u8>) -> Result<(), Memory>
    ensures { OnOk result (out.new.items ≡ out.old.items ++ purged_text first) }
{
    if first <= 1 {
        return Ok(());
    }
    print_counted(b" purged ", u64::from(first), out)
}

#[tactic(auto, using(crate::proofs::ServerLines::told_is_line))]
fn print_server(world: &World, no: ServerNo, out: &mut Vec<u8>) -> Result<(), Memory>
    requires { no.0 < length world.now.servers }
    ensures { OnOk result (out.new.items ≡ out.old.items
        ++ line_at world.now (server_at world.now no.0)) }
{
    let plain = world.plain(no);
    print_state(&world.settings(no).name, &plain, out)?;
    print_log(world.executed(no), world.log(no), out)?;
    out.extend_from_slice(b" source ")?;
    print_source(world, &plain, out)?;
    print_purged(plain.first, out)?;
    out.extend_from_slice(b"\n")
}

fn print_servers(world: &World, out: &mut Vec<u8>) -> Result<(), Memory>
    ensures { OnOk result (out.new.items ≡ out.old.items
        ++ servers_text world.now world.now.servers) }
{
    for no in 0..world.servers() {
        print_server(world, ServerNo(no), out)?;
    }
    Ok(())
}

fn print_job(job: u64, out: &mut Vec<u8>) -> Result<(), Memory>
    ensures { OnOk result (out.new.items ≡ out.old.items ++ job_text job) }
{
    print_counted(b"job ", job, out)?;
    out.extend_from_slice(b" open\n")
}

fn print_jobs(jobs: &[u64], out: &mut Vec<u8>) -> Result<(), Memory>
    ensures { OnOk result (out.new.items ≡ out.old.items ++ jobs_text jobs.now) }
{
    for job in jobs {
        print_job(*job, out)?;
    }
    Ok(())
}

// The servers' names, in order.
fn names_in(alloc: Global, world: &World) -> Result<Vec<&Name>, Memory>
    ensures { IfOk result (λ names. map (λ n. n.now) names.items ≡ names_in world.now) }
{
    let mut names = Vec::new(alloc);
    for no in 0..world.servers() {
        names.push(&world.settings(ServerNo(no)).name)?;
    }
    Ok(names)
}

fn print_recoveries(world: &World, lines: &[Line], out: &mut Vec<u8>) -> Result<(), Memory>
    ensures { OnOk result (out.new.items ≡ out.old.items
        ++ told_lines [] (names_in world.now) lines.now) }
{
    let alloc = *out.allocator();
    let names = PrintedNames::of(alloc, names_in(alloc, world)?)?;
    print_told_lines(b"", lines, &names, out)
}

/// The line of how many writes servers with a source accepted.
pub(crate) fn print_errant(world: &World, out: &mut Vec<u8>) -> Result<(), Memory>
    ensures { OnOk result (out.new.items ≡ out.old.items ++ errant_text world.now) }
{
    print_counted(b"errant ", world.errant(), out)?;
    out.extend_from_slice(b"\n")
}

fn print_tables(
    world: &World,
    recoveries: &[Line],
    jobs: &[u64],
    out: &mut Vec<u8>,
) -> Result<(), Memory>
    ensures { OnOk result (out.new.items ≡ out.old.items
        ++ tables_text world.now recoveries.now jobs.now) }
{
    print_servers(world, out)?;
    print_recoveries(world, recoveries, out)?;
    print_jobs(jobs, out)?;
    print_errant(world, out)
}

/// Appends a line for each server in the world's order, then these lines of recoveries. Then comes a line for each of
/// the unended jobs, given by their numbers, and then how many writes servers with a source accepted. If memory runs
/// out, it appends nothing.
pub fn tables(
    world: &World,
    recoveries: &[Line],
    jobs: &[u64],
    out: &mut Vec<u8>,
) -> Result<(), Memory>
    ensures ok { OnOk result (out.new.items ≡ out.old.items
        ++ tables_text world.now recoveries.now jobs.now) }
    ensures err { OnErr result (out.new.items ≡ out.old.items) }
{
    let mut lines = Vec::new(*out.allocator());
    print_tables(world, recoveries, jobs, &mut lines)?;
    out.append(&mut lines)
}
