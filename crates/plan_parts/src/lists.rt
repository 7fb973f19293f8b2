//! The parts of several replicas, one after another.

ghost use Rattle.std.specs.Prelude.{◌≡◌, IfOk};
ghost use Rattle.plan_parts.specs.Parts.{autos, matchings, unders, ups};

use crate::Memory;
use crate::orch_base::ServerNo;
use crate::parts::{auto, matching, under, up};
use operations::Op;
use std::alloc::Global;

/// Replicas of `i`, which is below `x`, go to `x`. `Err` means out of memory.
pub fn ups(
    alloc: Global,
    replicas: &[ServerNo],
    i: ServerNo,
    x: ServerNo,
) -> Result<Vec<Op>, Memory>
    ensures { IfOk result (λ ops. ops.items ≡ ups replicas.now i x) }
{
    let mut ops = Vec::new(alloc);
    for r in replicas {
        ops.append(&mut up(alloc, *r, i, x)?)?;
    }
    Ok(ops)
}

/// Siblings of `d`, all below `s`, go below `d`. `Err` means out of memory.
pub fn unders(
    alloc: Global,
    siblings: &[ServerNo],
    d: ServerNo,
    s: ServerNo,
) -> Result<Vec<Op>, Memory>
    ensures { IfOk result (λ ops. ops.items ≡ unders siblings.now d s) }
{
    let mut ops = Vec::new(alloc);
    for r in siblings {
        ops.append(&mut under(alloc, *r, d, s)?)?;
    }
    Ok(ops)
}

/// Replicas go below `d`, by what was executed. `Err` means out of memory.
pub fn autos(alloc: Global, replicas: &[ServerNo], d: ServerNo) -> Result<Vec<Op>, Memory>
    ensures { IfOk result (λ ops. ops.items ≡ autos replicas.now d) }
{
    let mut ops = Vec::new(alloc);
    for r in replicas {
        ops.append(&mut auto(alloc, *r, d)?)?;
    }
    Ok(ops)
}

/// Replicas go below `d`, if their logs match that of `d` by marks of this distance. `Err` means out of memory.
pub fn matchings(
    alloc: Global,
    replicas: &[ServerNo],
    d: ServerNo,
    every: u64,
) -> Result<Vec<Op>, Memory>
    ensures { IfOk result (λ ops. ops.items ≡ matchings replicas.now d every) }
{
    let mut ops = Vec::new(alloc);
    for r in replicas {
        ops.append(&mut matching(alloc, *r, d, every)?)?;
    }
    Ok(ops)
}
