//! How plans end.

ghost use Rattle.std.specs.Prelude.{◌≡◌, ◌∷◌, [], IfOk};
ghost use Rattle.operations.specs.Plans.{finished};
ghost use Rattle.plan_parts.specs.Parts.{following};

use crate::Memory;
use crate::commands::{Line, Lines};
use crate::orch_base::ServerNo;
use operations::Op;
use std::alloc::Global;

/// These operations, and at last the end with these lines. `Err` means out of memory.
pub fn finished(mut ops: Vec<Op>, lines: Lines) -> Result<Vec<Op>, Memory>
    ensures { IfOk result (λ all. all.items ≡ finished ops.items lines) }
{
    ops.push(Op::Finish(lines))?;
    Ok(ops)
}

fn one_line(alloc: Global, line: Line) -> Result<Lines, Memory>
    ensures { IfOk result (λ lines. lines ≡ line ∷ []) }
{
    let mut lines = Vec::with_capacity(alloc, 1)?;
    lines.push(line)?;
    Ok(Lines::new(lines))
}

/// The operations of a move, and its line at the end. `Err` means out of memory.
pub fn moved(alloc: Global, ops: Vec<Op>, no: ServerNo, source: ServerNo) -> Result<Vec<Op>, Memory>
    ensures { IfOk result (λ all. all.items ≡ finished ops.items (Line.Follows no source ∷ [])) }
{
    finished(ops, one_line(alloc, Line::Follows(no, source))?)
}

/// The operations about an instance, and its name at the end. `Err` means out of memory.
pub fn ended_by_name(alloc: Global, ops: Vec<Op>, no: ServerNo) -> Result<Vec<Op>, Memory>
    ensures { IfOk result (λ all. all.items ≡ finished ops.items (Line.Server no ∷ [])) }
{
    finished(ops, one_line(alloc, Line::Server(no))?)
}

/// The lines of moves to one source, in order. `Err` means out of memory.
pub fn following(alloc: Global, replicas: &[ServerNo], source: ServerNo) -> Result<Lines, Memory>
    ensures { IfOk result (λ lines. lines ≡ following replicas.now source) }
{
    let mut lines = Vec::with_capacity(alloc, replicas.len())?;
    for no in replicas {
        lines.push(Line::Follows(*no, source))?;
    }
    Ok(Lines::new(lines))
}

/// The operations of moves to one source, and their lines at the end, in order. `Err` means out of memory.
pub fn moved_each(
    alloc: Global,
    ops: Vec<Op>,
    replicas: &[ServerNo],
    source: ServerNo,
) -> Result<Vec<Op>, Memory>
    ensures { IfOk result (λ all. all.items ≡ finished ops.items (following replicas.now source)) }
{
    finished(ops, following(alloc, replicas, source)?)
}
