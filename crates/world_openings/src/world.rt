//! Worlds made from openings.

ghost use Rattle.std.specs.Prelude.{◌≡◌, ◌≤◌, IfOk, length};
ghost use Rattle.world_openings.specs.Opening.{opened_world, Fits};

use crate::making::servers_of;
use crate::orch_base::Memory;
use openings::Opening;
use server_model::World;
use std::alloc::Global;

/// What an opening opens.
pub trait OpenedWorld: Sized {
    /// The world that an opening opens. Each server has room for `room` transactions and `flushes` calls of `rotate`,
    /// the listed flushes among them: at most 4,000,000 of each. `Err` means out of memory.
    fn make(alloc: Global, from: &Opening, room: u64, flushes: u64) -> Result<Self, Memory>
        requires fits { Fits from.now room flushes }
        requires room { room ≤ 4000000 }
        requires flushes { flushes ≤ 4000000 };
}

impl OpenedWorld for World {
    fn make(alloc: Global, from: &Opening, room: u64, flushes: u64) -> Result<World, Memory>
        requires fits { Fits from.now room flushes }
        requires room { room ≤ 4000000 }
        requires flushes { flushes ≤ 4000000 }
        ensures world { IfOk result (λ w. w ≡ opened_world from.now room flushes) }
        ensures servers { IfOk result (λ w. length w.servers ≡ length from.now.servers) }
    {
        let _checked = from.servers();
        let servers = servers_of(alloc, from, room, flushes)?;
        World::of(alloc, servers, from.gtid())
    }
}
