//! Drained replicas divided by how they go.

ghost use Rattle.std.specs.Prelude.{◌≡◌, ◌<◌, ◌++◌, All, IfOk, OnOk, filter, length, map};
ghost use Rattle.recovery_plans.specs.Deciding.{losses_in, lot_by, may_lead, moves_in, unfit, without_stopped};
ghost use Rattle.recovery_parts.specs.Grounds.{ground_by};

use crate::choices::{Ground, lot_by, may_lead, unfit};
use crate::orch_base::{Memory, ServerNo};
use crate::server_model::World;
use recovery_plans::{LostReplica, Means, Stopped, Task};
use std::alloc::Global;

/// The drained replicas that might be chosen. `Err` means out of memory.
pub fn leaders(alloc: Global, by: &Ground<'_>, list: &[Stopped]) -> Result<Vec<Stopped>, Memory>
    requires { All (λ s. s.no.0 < length by.now.book.now.names) list.now }
    ensures { IfOk result (λ v. v.items ≡ filter (may_lead (ground_by by.now)) list.now) }
{
    let mut leaders = Vec::new(alloc);
    for replica in list {
        if may_lead(by, replica) {
            leaders.push(*replica)?;
        }
    }
    Ok(leaders)
}

/// The others beside one of them. `Err` means out of memory.
pub fn without(alloc: Global, list: &[Stopped], no: ServerNo) -> Result<Vec<Stopped>, Memory>
    ensures { IfOk result (λ v. v.items ≡ without_stopped list.now no) }
{
    let mut others = Vec::new(alloc);
    for replica in list {
        if replica.no.0 != no.0 {
            others.push(*replica)?;
        }
    }
    Ok(others)
}

/// How the others go beside the chosen one, by these means: their moves. Those that are lost are put after the ones
/// that are lost already. `Err` means out of memory.
pub fn divide(
    alloc: Global,
    by: &Ground<'_>,
    means: Means,
    failed: ServerNo,
    chosen: &Stopped,
    others: &[Stopped],
    lost: &mut Vec<LostReplica>,
) -> Result<Vec<Task>, Memory>
    requires { chosen.now.no.0 < length by.now.book.now.names }
    ensures moves { IfOk result (λ v. v.items
        ≡ moves_in (lot_by means (ground_by by.now) failed chosen.now) others.now) }
    ensures lost { OnOk result (lost.new.items ≡ lost.old.items ++ losses_in (lot_by means
        (ground_by by.now) failed chosen.now) others.now) }
{
    let mut moves = Vec::new(alloc);
    for replica in others {
        let no = replica.no;
        match lot_by(by, means, failed, chosen, replica) {
            Ok(way) => moves.push(Task::Moving(no, way))?,
            Err(why) => lost.push(LostReplica {
                no,
                why,
                detached: false,
            })?,
        }
    }
    Ok(moves)
}

/// Each is lost if none may be promoted. `Err` means out of memory.
pub fn lose_all(world: &World, list: &[Stopped], lost: &mut Vec<LostReplica>) -> Result<(), Memory>
    ensures { OnOk result (lost.new.items ≡ lost.old.items ++ map (unfit world.now) list.now) }
{
    for replica in list {
        lost.push(unfit(world, replica))?;
    }
    Ok(())
}
