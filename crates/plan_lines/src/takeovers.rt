//! The plan of a takeover in which nobody is lost on the way.

ghost use Rattle.std.specs.Prelude.{◌≡◌, IfOk};
ghost use Rattle.plan_lines.specs.Prelude.{but};
ghost use Rattle.plan_lines.specs.Takeovers.{lines_below, shut, takeover_lines, yielded};

use crate::Memory;
use crate::operations_items::{Aim, Crossing, Op};
use crate::orch_base::ServerNo;
use crate::pieces::as_told;
use plan_texts::{Expect, Line};
use std::alloc::Global;

// The master takes no more writes, and its replica comes to the end of its log.
fn shut(alloc: Global, m: ServerNo, d: ServerNo) -> Result<Vec<Line>, Memory>
    ensures { IfOk result (λ lines. lines.items ≡ shut m d) }
{
    Ok(vec![in alloc;
        Line::Does(Op::Status(m, None), Expect::Root),
        as_told(Op::ReadOnly(m, true)),
        as_told(Op::Status(m, None)),
        as_told(Op::Status(d, Some(m))),
        as_told(Op::Until(d, Aim::EndOf(m))),
        as_told(Op::Await(d, Aim::EndOf(m))),
        as_told(Op::Stop(d)),
        as_told(Op::Status(d, Some(m))),
    ]?)
}

// Another replica comes to the position at which that one stopped, and goes below it.
fn lines_below(alloc: Global, m: ServerNo, d: ServerNo, no: ServerNo) -> Result<Vec<Line>, Memory>
    ensures { IfOk result (λ lines. lines.items ≡ lines_below m d no) }
{
    Ok(vec![in alloc;
        Line::Does(Op::Status(no, None), Expect::Below(m)),
        as_told(Op::Until(no, Aim::ExecOf(d))),
        as_told(Op::Await(no, Aim::ExecOf(d))),
        as_told(Op::Stop(no)),
        Line::Does(Op::Status(no, None), Expect::Below(m)),
        as_told(Op::Cross(Crossing::Down, no, d)),
        as_told(Op::Start(no)),
    ]?)
}

// It loses its source, which goes below it, and takes writes.
fn yielded(alloc: Global, m: ServerNo, d: ServerNo) -> Result<Vec<Line>, Memory>
    ensures { IfOk result (λ lines. lines.items ≡ yielded m d) }
{
    Ok(vec![in alloc;
        as_told(Op::Reset(d)),
        as_told(Op::Cross(Crossing::About, m, d)),
        as_told(Op::ReadOnly(d, false)),
        as_told(Op::Status(m, None)),
        as_told(Op::Status(d, None)),
    ]?)
}

/// The lines by which `d` takes the place of its master `m`, which has these replicas, if nobody is lost on the way.
pub(crate) fn takeover_lines(
    alloc: Global,
    m: ServerNo,
    d: ServerNo,
    replicas: &[ServerNo],
) -> Result<Vec<Line>, Memory>
    ensures { IfOk result (λ lines. lines.items ≡ takeover_lines m d (but replicas.now d)) }
{
    let mut lines = shut(alloc, m, d)?;
    for no in replicas {
        if no.0 != d.0 {
            lines.append(&mut lines_below(alloc, m, d, *no)?)?;
        }
    }
    lines.append(&mut yielded(alloc, m, d)?)?;
    Ok(lines)
}
