//! Servers read.

ghost use Rattle.std.specs.Prelude.{◌≡◌, ◌<◌, IfOk, length};
ghost use Rattle.command_outcomes.specs.Readings.{reading_by};

use crate::instance_keeper_items::Observation;
use crate::orch_base::{Memory, Moment, ServerNo};
use crate::server_model::World;
use std::alloc::Global;

/// A reading of a server, with this number, at this moment. `Err` means out of memory.
pub fn read_server(
    alloc: Global,
    world: &World,
    no: ServerNo,
    read: u64,
    moment: Moment,
) -> Result<Observation, Memory>
    requires { no.0 < length world.now.servers }
    ensures { IfOk result (λ o. o ≡ reading_by world.now no read moment.0) }
{
    let seen = if world.is_reached(no) {
        Some(world.shows(alloc, no)?)
    } else {
        None
    };
    Ok(Observation {
        no,
        read,
        moment,
        seen,
    })
}
