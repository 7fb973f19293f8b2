//! A change of source by a coordinate.

ghost use Rattle.std.specs.Prelude.{◌≡◌, length, slice_get};
ghost use Rattle.server_model.specs.Attach.{attach_decision, chain_meets, first_kept, live_spot, purged_answer, same_spot, spot_below};
ghost use Rattle.server_model.specs.Worlds.{sources_in};

use crate::Server;
use crate::binlog_coords_items::Coord;
use crate::orch_base::{ServerNo, SourceState};
use server_words::{AttachFault, Spot};

fn same_spot(x: Spot, y: Spot) -> bool
    ensures { result ≡ same_spot x y }
{
    match (x, y) {
        (Spot::At(m, c), Spot::At(n, d)) => m.0 == n.0 && c.is_same(d),
        (Spot::OwnEnd(c), Spot::OwnEnd(d)) => c.is_same(d),
        _ => false,
    }
}

pub(crate) fn spot_below(s: &Server) -> Spot
    ensures { result ≡ spot_below s.now s.now.source }
{
    match s.source {
        SourceState::Without => Spot::Nowhere,
        SourceState::Attached(m) | SourceState::Detached(m) => Spot::At(m, s.exec),
    }
}

fn live_spot(s: &Server, expect: Spot) -> Spot
    ensures { result ≡ live_spot s.now expect }
{
    match expect {
        Spot::At(_, _) => spot_below(s),
        Spot::OwnEnd(_) => {
            if s.settings.logs {
                Spot::OwnEnd(s.log.end())
            } else {
                Spot::Nowhere
            }
        }
        Spot::Nowhere => Spot::Nowhere,
    }
}

/// The first file that the log of a server keeps, if it is there.
pub(crate) fn first_kept(servers: &[Server], no: ServerNo) -> u32
    ensures { result ≡ first_kept (slice_get servers.now no.0) }
{
    match servers.get(no.0 as usize) {
        Some(s) => s.first,
        None => 1,
    }
}

/// Purged, if the new source, which keeps its log from this file on, has purged what is needed of it.
pub(crate) fn purged_answer(is_purged: bool, first: u32) -> Result<(), AttachFault>
    ensures { result ≡ purged_answer is_purged first }
{
    if is_purged {
        return Err(AttachFault::Purged(first));
    }
    Ok(())
}

/// What an attachment of the server at a coordinate answers, by whether it would close a loop, and by the first file
/// that the new source keeps.
pub(crate) fn attach_decision(
    s: &Server,
    expect: Spot,
    loops: bool,
    first: u32,
    at: Coord,
) -> Result<(), AttachFault>
    ensures { result ≡ attach_decision s.now expect loops first at }
{
    if !(s.up && s.desk) {
        return Err(AttachFault::Unreachable);
    }
    if s.receiver || s.applier {
        return Err(AttachFault::Running(spot_below(s)));
    }
    let found = live_spot(s, expect);
    if !same_spot(expect, found) {
        return Err(AttachFault::Interfered(expect, found));
    }
    if loops {
        return Err(AttachFault::Loop);
    }
    purged_answer(at.file < first, first)
}

/// The server above a server, if there are both.
fn source_no(servers: &[Server], n: u32) -> Option<u32>
    ensures { result ≡ sources_in servers.now n }
{
    match servers.get(n as usize) {
        None => None,
        Some(s) => s.source.number(),
    }
}

/// Whether the chain of sources from a server meets another.
#[tactic(auto, using(crate::proofs::Chains::chain_steps))]
pub(crate) fn chain_meets(servers: &[Server], from: u32, n: u32) -> bool
    ensures { result ≡ chain_meets (sources_in servers.now) (length servers.now) from n }
{
    let mut at = from;
    for i in 0..servers.len() {
        if at == n {
            return true;
        }
        match source_no(servers, at) {
            None => return false,
            Some(m) => at = m,
        }
    }
    true
}
