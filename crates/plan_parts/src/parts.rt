//! The parts of plans.

ghost use Rattle.std.specs.Prelude.{◌≡◌, ◌∷◌, [], IfOk, None};
ghost use Rattle.operations.specs.Plans.{again, asking, auto, swap, under, up};
ghost use Rattle.plan_parts.specs.Parts.{again_auto, matching};

use crate::Memory;
use crate::orch_base::ServerNo;
use operations::{Aim, Crossing, Op};
use std::alloc::Global;

/// `i`, which is below `x`, goes to `x`'s source `g`. `Err` means out of memory.
pub fn up(alloc: Global, i: ServerNo, x: ServerNo, g: ServerNo) -> Result<Vec<Op>, Memory>
    ensures { IfOk result (λ ops. ops.items ≡ up i x g) }
{
    Ok(vec![in alloc;
        Op::Stop(i),
        Op::Stop(x),
        Op::Status(x, Some(g)),
        Op::Status(i, Some(x)),
        Op::Until(i, Aim::EndOf(x)),
        Op::Await(i, Aim::EndOf(x)),
        Op::Stop(i),
        Op::Cross(Crossing::Up, i, x),
        Op::Start(i),
        Op::Start(x),
        Op::Status(i, None),
    ]?)
}

/// `i` goes below its sibling `d`: both are below `s`, and are levelled first. `Err` means out of memory.
pub fn under(alloc: Global, i: ServerNo, d: ServerNo, s: ServerNo) -> Result<Vec<Op>, Memory>
    ensures { IfOk result (λ ops. ops.items ≡ under i d s) }
{
    Ok(vec![in alloc;
        Op::Stop(i),
        Op::Stop(d),
        Op::Status(i, Some(s)),
        Op::Status(d, Some(s)),
        Op::Until(i, Aim::ExecOf(d)),
        Op::Await(i, Aim::ExecOf(d)),
        Op::Until(d, Aim::ExecOf(i)),
        Op::Await(d, Aim::ExecOf(i)),
        Op::Stop(i),
        Op::Stop(d),
        Op::Status(d, Some(s)),
        Op::Cross(Crossing::Down, i, d),
        Op::Start(d),
        Op::Start(i),
        Op::Status(i, None),
    ]?)
}

/// `i` goes on under its source `x`, by coordinates. `Err` means out of memory.
pub fn again(alloc: Global, i: ServerNo, x: ServerNo) -> Result<Vec<Op>, Memory>
    ensures { IfOk result (λ ops. ops.items ≡ again i x) }
{
    Ok(vec![in alloc;
        Op::Stop(i),
        Op::Status(i, Some(x)),
        Op::Same(i),
        Op::Start(i),
        Op::Status(i, None),
    ]?)
}

/// `r` goes below `d`, by what was executed. `Err` means out of memory.
pub fn auto(alloc: Global, r: ServerNo, d: ServerNo) -> Result<Vec<Op>, Memory>
    ensures { IfOk result (λ ops. ops.items ≡ auto r d) }
{
    Ok(vec![in alloc;
        Op::Stop(r),
        Op::Status(r, None),
        Op::AwaitSet(d, r),
        Op::Status(d, None),
        Op::Auto(r, d),
        Op::Start(r),
        Op::Status(r, None),
    ]?)
}

/// `i` finds its place under its source `x` by what was executed, from now on. `Err` means out of memory.
pub fn again_auto(alloc: Global, i: ServerNo, x: ServerNo) -> Result<Vec<Op>, Memory>
    ensures { IfOk result (λ ops. ops.items ≡ again_auto i x) }
{
    Ok(vec![in alloc;
        Op::Stop(i),
        Op::Status(i, Some(x)),
        Op::Status(x, None),
        Op::Auto(i, x),
        Op::Start(i),
        Op::Status(i, None),
    ]?)
}

/// `r` goes below `d`, if its log matches that of `d` by marks of this distance. `Err` means out of memory.
pub fn matching(alloc: Global, r: ServerNo, d: ServerNo, every: u64) -> Result<Vec<Op>, Memory>
    ensures { IfOk result (λ ops. ops.items ≡ matching r d every) }
{
    Ok(vec![in alloc;
        Op::Stop(r),
        Op::Status(r, None),
        Op::Match(r, d, every),
        Op::CrossMatch(r, d),
        Op::Start(r),
        Op::Status(r, None),
    ]?)
}

/// `i`, which is below `x`, and `x` change places under `x`'s source `g`. `Err` means out of memory.
pub fn swap(alloc: Global, i: ServerNo, x: ServerNo, g: ServerNo) -> Result<Vec<Op>, Memory>
    ensures { IfOk result (λ ops. ops.items ≡ swap i x g) }
{
    Ok(vec![in alloc;
        Op::Stop(i),
        Op::Stop(x),
        Op::Status(x, Some(g)),
        Op::Status(i, Some(x)),
        Op::Until(i, Aim::EndOf(x)),
        Op::Await(i, Aim::EndOf(x)),
        Op::Stop(i),
        Op::Status(i, Some(x)),
        Op::Cross(Crossing::Up, i, x),
        Op::Cross(Crossing::About, x, i),
        Op::Start(i),
        Op::Start(x),
        Op::Status(i, None),
        Op::Status(x, None),
    ]?)
}

/// One operation of `i`, which is read then. `Err` means out of memory.
pub fn asking(alloc: Global, op: Op, i: ServerNo) -> Result<Vec<Op>, Memory>
    ensures { IfOk result (λ ops. ops.items ≡ asking op i) }
{
    Ok(vec![in alloc; op, Op::Status(i, None)]?)
}

/// One operation of `i`, which is started and read then. `Err` means out of memory.
pub fn restarted(alloc: Global, op: Op, i: ServerNo) -> Result<Vec<Op>, Memory>
    ensures { IfOk result (λ ops. ops.items ≡ op ∷ asking (Op.Start i) i) }
{
    Ok(vec![in alloc; op, Op::Start(i), Op::Status(i, None)]?)
}
