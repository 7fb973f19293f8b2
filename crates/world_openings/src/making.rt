//! How the servers of an opening are made.

ghost use Rattle.std.specs.Prelude.{◌≡◌, ◌<◌, ◌≤◌, IfOk, Some, length, option_map, slice_get};
ghost use Rattle.openings.specs.Servers.{exec_in, exec_of, read_in, read_of};
ghost use Rattle.world_openings.specs.Opening.{opened_from, source_state, Fits};
ghost use Rattle.world_openings.specs.Makings.{bare_server, AreBare, ArePlaced, HaveLogs, IsPlacedIn};

use crate::binlog_coords_items::{Coord, LogIndex};
use crate::orch_base::{Memory, ServerNo, SourceState};
use openings::{Opening, ServerInit, history_at, laid_history};
use server_model::Server;
use std::alloc::Global;

fn source_state(detached: bool, source: Option<ServerNo>) -> SourceState
    ensures { result ≡ source_state detached source }
{
    match source {
        None => SourceState::Without,
        Some(m) if detached => SourceState::Detached(m),
        Some(m) => SourceState::Attached(m),
    }
}

// A server at the opening, except for its coordinates, for which its source's log has to be there.
fn bare_server(
    alloc: Global,
    from: &Opening,
    no: ServerNo,
    init: &ServerInit,
    room: u64,
    flushes: u64,
) -> Result<Server, Memory>
    requires at { slice_get from.now.servers no.0 ≡ Some init.now }
    requires fits { Fits from.now room flushes }
    requires room { room ≤ 4000000 }
    requires flushes { flushes ≤ 4000000 }
    ensures { IfOk result (λ s. s ≡ bare_server from.now.servers room flushes no.0 init.now) }
{
    let txns = history_at(alloc, from.servers(), no, room)?;
    let log = laid_history(alloc, init, &txns, room, flushes)?;
    let settings = init.settings.copy(alloc)?;
    let start = Coord { file: 1, pos: 4 };
    let is_replica = init.source.is_some();
    Ok(Server {
        settings,
        log,
        first: init.purged,
        source: source_state(init.detached, init.source),
        exec: start,
        read: start,
        auto: init.auto,
        receiver: is_replica && init.io,
        applier: is_replica && init.sql,
        until: init.until,
        read_only: init.read_only,
        up: init.up,
        desk: init.desk,
        feed: init.feed,
    })
}

// All servers, except for their coordinates.
fn bare_servers(
    alloc: Global,
    from: &Opening,
    room: u64,
    flushes: u64,
) -> Result<Vec<Server>, Memory>
    requires fits { Fits from.now room flushes }
    requires room { room ≤ 4000000 }
    requires flushes { flushes ≤ 4000000 }
    ensures { IfOk result (λ v. AreBare from.now room flushes (length from.now.servers) v.items) }
{
    let mut servers = Vec::new(alloc);
    for (n, init) in from.servers().iter().enumerate() {
        let no = ServerNo(n as u32);
        let server = bare_server(alloc, from, no, init, room, flushes)?;
        servers.push(server)?;
    }
    Ok(servers)
}

// The position of a server with a source in its source's log at the opening: its executed and its read coordinate.
fn standing_in(init: &ServerInit, log: &LogIndex) -> (Coord, Coord)
    requires { IsPlacedIn log.now.log init.now }
    ensures exec { result.0 ≡ exec_in log.now.log init.now }
    ensures read { result.1 ≡ read_in log.now.log init.now }
{
    let exec = match init.at {
        Some(at) => at,
        None => log.coord_after(init.executed),
    };
    let read = match init.read {
        Some(read) => read,
        None => exec,
    };
    (exec, read)
}

// The position of a server at the opening: at the start if it has no source.
fn standing_of(from: &Opening, no: ServerNo, servers: &[Server]) -> (Coord, Coord)
    requires there { no.0 < length from.now.servers }
    requires logs { HaveLogs from.now.servers servers.now }
    ensures exec { option_map (λ i. exec_of from.now.servers i) (slice_get from.now.servers no.0)
        ≡ Some result.0 }
    ensures read { option_map (λ i. read_of from.now.servers i) (slice_get from.now.servers no.0)
        ≡ Some result.1 }
{
    let inits = from.servers();
    let init = &inits[no.0 as usize];
    let start = Coord { file: 1, pos: 4 };
    match init.source {
        None => (start, start),
        Some(m) => {
            let source = &servers[m.0 as usize];
            standing_in(init, &source.log)
        }
    }
}

// Sets the coordinates of all servers, whose logs are there.
fn place_servers(from: &Opening, servers: &mut [Server])
    requires { HaveLogs from.now.servers servers.old }
    ensures { ArePlaced from.now.servers (length from.now.servers) servers.old servers.new }
{
    let count = from.servers().len();
    for n in 0..count {
        let (exec, read) = standing_of(from, ServerNo(n as u32), servers);
        let s = &mut servers[n];
        s.exec = exec;
        s.read = read;
    }
}

/// The servers of an opening.
pub(crate) fn servers_of(
    alloc: Global,
    from: &Opening,
    room: u64,
    flushes: u64,
) -> Result<Vec<Server>, Memory>
    requires fits { Fits from.now room flushes }
    requires room { room ≤ 4000000 }
    requires flushes { flushes ≤ 4000000 }
    ensures { IfOk result (λ v. v.items
        ≡ opened_from from.now.servers room flushes 0 from.now.servers) }
{
    let _checked = from.servers();
    let mut servers = bare_servers(alloc, from, room, flushes)?;
    place_servers(from, &mut servers);
    Ok(servers)
}
