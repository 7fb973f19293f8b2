//! Servers as JSON.

ghost use Rattle.std.specs.Prelude.{◌≡◌, ◌++◌, ◌<◌, length, OnOk, option_map, Some};
ghost use Rattle.scenario_dump.specs.Prelude.{Without, is_detached, server_at};
ghost use Rattle.scenario_dump.specs.Parts.{end_text, fixed_text, server_text, until_text};
ghost use Rattle.scenario_dump.specs.Servers.{source_in};

use crate::binlog_coords_items::Coord;
use crate::files::print_flushes;
use crate::histories::print_history;
use crate::orch_base::{Memory, ServerNo, Settings, SourceState};
use crate::values::{
    print_flag, print_name, print_named, print_number, print_place, print_text, print_uuid,
    print_version,
};
use server_model::World;
use std::alloc::Global;

// The members from `limit` to `purged`.
fn print_fixed(settings: &Settings, first: u32, out: &mut Vec<u8>) -> Result<(), Memory>
    ensures { OnOk result (out.new.items ≡ out.old.items ++ fixed_text settings.now first) }
{
    print_number(b",\"limit\":", settings.limit, out)?;
    print_flag(b",\"logs\":", settings.logs, out)?;
    print_name(b",\"name\":", &settings.name, out)?;
    print_number(b",\"purged\":", u64::from(first), out)
}

fn print_until(until: Option<Coord>, out: &mut Vec<u8>) -> Result<(), Memory>
    ensures { OnOk result (out.new.items ≡ out.old.items ++ until_text until) }
{
    match until {
        Some(c) => print_place(b",\"until\":", c, out),
        None => Ok(()),
    }
}

// The members from `up` on.
fn print_end(settings: &Settings, up: bool, out: &mut Vec<u8>) -> Result<(), Memory>
    ensures { OnOk result (out.new.items ≡ out.old.items ++ end_text settings.now up) }
{
    print_flag(b",\"up\":", up, out)?;
    print_uuid(b",\"uuid\":", settings.uuid, out)?;
    print_version(b",\"version\":", settings.version, out)?;
    out.extend_from_slice(b"}")
}

// A server without a source.
fn print_root(alloc: Global, world: &World, no: ServerNo, out: &mut Vec<u8>) -> Result<(), Memory>
    requires server { no.0 < length world.now.servers }
    requires root { option_map (λ s. s.source) (server_at world.now no.0) ≡ Some Without }
    ensures { OnOk result (out.new.items ≡ out.old.items ++ server_text world.now no.0) }
{
    let settings = world.settings(no);
    let plain = world.plain(no);
    print_text(alloc, b"{\"cluster\":", settings.cluster.as_str(), out)?;
    print_text(alloc, b",\"dc\":", settings.dc.as_str(), out)?;
    print_flag(b",\"desk\":", plain.desk, out)?;
    print_flag(b",\"feed\":", plain.feed, out)?;
    out.extend_from_slice(b",\"flushes\":")?;
    print_flushes(world, no, out)?;
    out.extend_from_slice(b",\"history\":")?;
    print_history(world, no, out)?;
    print_fixed(settings, plain.first, out)?;
    print_flag(b",\"read_only\":", plain.read_only, out)?;
    print_number(b",\"server_id\":", u64::from(settings.server_id), out)?;
    print_end(settings, plain.up, out)
}

// A server with this source.
fn print_replica(
    alloc: Global,
    world: &World,
    no: ServerNo,
    source: ServerNo,
    detached: bool,
    out: &mut Vec<u8>,
) -> Result<(), Memory>
    requires server { no.0 < length world.now.servers }
    requires source { option_map (λ s. source_in s.source) (server_at world.now no.0)
        ≡ Some (Some source) }
    requires state { option_map (λ s. is_detached s.source) (server_at world.now no.0)
        ≡ Some detached }
    ensures { OnOk result (out.new.items ≡ out.old.items ++ server_text world.now no.0) }
{
    let settings = world.settings(no);
    let plain = world.plain(no);
    print_place(b"{\"at\":", plain.exec, out)?;
    print_flag(b",\"auto\":", plain.auto, out)?;
    print_text(alloc, b",\"cluster\":", settings.cluster.as_str(), out)?;
    print_text(alloc, b",\"dc\":", settings.dc.as_str(), out)?;
    print_flag(b",\"desk\":", plain.desk, out)?;
    print_flag(b",\"detached\":", detached, out)?;
    print_number(b",\"executed\":", world.executed(no), out)?;
    print_flag(b",\"feed\":", plain.feed, out)?;
    out.extend_from_slice(b",\"flushes\":")?;
    print_flushes(world, no, out)?;
    print_flag(b",\"io\":", plain.receiver, out)?;
    print_fixed(settings, plain.first, out)?;
    print_place(b",\"read\":", plain.read, out)?;
    print_flag(b",\"read_only\":", plain.read_only, out)?;
    print_number(b",\"server_id\":", u64::from(settings.server_id), out)?;
    print_named(b",\"source\":", world, source, out)?;
    print_flag(b",\"sql\":", plain.applier, out)?;
    print_until(plain.until, out)?;
    print_end(settings, plain.up, out)
}

/// A server as JSON.
pub(crate) fn print_server(
    alloc: Global,
    world: &World,
    no: ServerNo,
    out: &mut Vec<u8>,
) -> Result<(), Memory>
    requires { no.0 < length world.now.servers }
    ensures { OnOk result (out.new.items ≡ out.old.items ++ server_text world.now no.0) }
{
    match world.plain(no).source {
        SourceState::Without => print_root(alloc, world, no, out),
        SourceState::Attached(source) => print_replica(alloc, world, no, source, false, out),
        SourceState::Detached(source) => print_replica(alloc, world, no, source, true, out),
    }
}
