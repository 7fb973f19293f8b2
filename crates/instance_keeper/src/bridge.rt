//! Bridges, and each server's ring of the latest ones.

ghost use Rattle.std.specs.Prelude.{◌≡◌, [], IfOk};
ghost use Rattle.instance_keeper.specs.Prelude.{last_item};
ghost use Rattle.instance_keeper.specs.Bridges.{bridge_by, has_exec, has_own, is_same, latest_that, over, same_bridge, with_bridge};

use crate::binlog_coords_items::Coord;
use crate::orch_base::{ServerNo, SourceState};
use crate::{Memory, Seen};
use circular_buffer::HeapCircularBuffer;
use std::alloc::Global;
use std::marker::Model;

/// So many bridges are kept of a server.
const RING_SIZE: usize = 16;

/// The own end and the executed coordinate that one status of a replica reported. They are one point of its binary log
/// and of its source's.
#[derive(Clone, Copy, Debug, PartialEq, Eq)]
pub struct Bridge {
    /// The replica.
    pub no: ServerNo,
    /// Its source, attached or detached.
    pub source: ServerNo,
    /// The end of the replica's own binary log.
    pub own: Coord,
    /// What it had executed of its source's.
    pub exec: Coord,
}

fn are_same(a: &Bridge, b: &Bridge) -> bool
    ensures { result ≡ same_bridge a.now b.now }
{
    (a.no == b.no && a.source == b.source) && (a.own == b.own && a.exec == b.exec)
}

/// The bridge that a status shows: of a server that logs and has a source, attached or detached.
pub fn bridge_in(no: ServerNo, seen: &Seen) -> Option<Bridge>
    ensures { result ≡ bridge_by no seen.now.own_end seen.now.source seen.now.exec }
{
    let own = seen.own_end?;
    match seen.source {
        SourceState::Attached(source) | SourceState::Detached(source) => Some(Bridge {
            no,
            source,
            own,
            exec: seen.exec,
        }),
        SourceState::Without => None,
    }
}

/// The latest bridges of a server, the oldest first.
pub(crate) struct Ring {
    bridges: HeapCircularBuffer<Bridge>,
}

impl Drop for Ring {
    fn drop(self) {
        let Ring { bridges: _bridges } = self;
    }
}

impl Model for Ring {
    ghost use Rattle.std.specs.Prelude.{◌≡◌, List};
    ghost use Rattle.instance_keeper.specs.declared.bridge.Bridge.{Bridge as ABridge};
    ghost use Rattle.instance_keeper.specs.Bridges.{ring_size};

    ghost Value = { List ABridge };

    ghost view = { λ r. r.bridges.items };

    ghost invariant = { λ r. r.bridges.capacity ≡ ring_size };
}

impl Ring {
    /// An empty ring, with room for all its bridges.
    pub(crate) fn with_room(alloc: Global) -> Result<Ring, Memory>
        ensures { IfOk result (λ r. r ≡ []) }
    {
        Ok(Ring {
            bridges: HeapCircularBuffer::with_capacity(alloc, RING_SIZE)?,
        })
    }

    fn is_latest(&self, bridge: &Bridge) -> bool
        ensures { result ≡ is_same (last_item self.now) bridge.now }
    {
        match self.bridges.back() {
            Some(latest) => are_same(latest, bridge),
            None => false,
        }
    }

    /// Adds a bridge that isn't equal to the latest; the oldest makes room.
    pub(crate) fn add(&mut self, bridge: Bridge)
        ensures { self.new ≡ with_bridge self.old bridge }
    {
        if !self.is_latest(&bridge) {
            self.bridges.push_back(bridge);
        }
    }

    /// Drops all bridges.
    pub(crate) fn clear(&mut self)
        ensures { self.new ≡ [] }
    {
        self.bridges.clear();
    }

    /// The latest bridge under this source with this executed coordinate.
    pub(crate) fn by_exec(&self, source: ServerNo, exec: Coord) -> Option<Bridge>
        ensures { result ≡ latest_that (has_exec source exec) self.now }
    {
        let mut found = None;
        for k in 0..self.bridges.len() {
            found = exec_over(found, self.bridges.get(k).copied(), source, exec);
        }
        found
    }

    /// The latest bridge under this source with this own coordinate.
    pub(crate) fn by_own(&self, source: ServerNo, own: Coord) -> Option<Bridge>
        ensures { result ≡ latest_that (has_own source own) self.now }
    {
        let mut found = None;
        for k in 0..self.bridges.len() {
            found = own_over(found, self.bridges.get(k).copied(), source, own);
        }
        found
    }
}

// The bridge, if it is under this source with this executed coordinate, else what was found before.
fn exec_over(
    found: Option<Bridge>,
    bridge: Option<Bridge>,
    source: ServerNo,
    exec: Coord,
) -> Option<Bridge>
    ensures { result ≡ over (has_exec source exec) found bridge }
{
    match bridge {
        Some(bridge) if bridge.source == source && bridge.exec == exec => Some(bridge),
        _ => found,
    }
}

fn own_over(
    found: Option<Bridge>,
    bridge: Option<Bridge>,
    source: ServerNo,
    own: Coord,
) -> Option<Bridge>
    ensures { result ≡ over (has_own source own) found bridge }
{
    match bridge {
        Some(bridge) if bridge.source == source && bridge.own == own => Some(bridge),
        _ => found,
    }
}
