//! The plan of a job that goes one way.

ghost use Rattle.std.specs.Prelude.{◌≡◌, IfOk};
ghost use Rattle.plan_lines.specs.Branches.{detach_line};
ghost use Rattle.plan_lines.specs.Straight.{attached_as, detached_as, straight_line, straight_lines};

use crate::Memory;
use crate::instance_keeper_items::Book;
use crate::operations_items::Op;
use crate::orch_base::ServerNo;
use crate::pieces::{as_told, push_some};
use permission::is_auto;
use plan_texts::{Expect, Line};
use std::alloc::Global;

// A server in auto position keeps it.
fn attached_as(auto: bool) -> Expect
    ensures { result ≡ attached_as auto }
{
    if auto {
        Expect::AttachedByAuto
    } else {
        Expect::AsTold
    }
}

fn detached_as(auto: bool) -> Expect
    ensures { result ≡ detached_as auto }
{
    if auto {
        Expect::DetachedByAuto
    } else {
        Expect::AsTold
    }
}

/// The line of a detachment.
pub(crate) fn detach_line(book: &Book, no: ServerNo) -> Line
    ensures { result ≡ detach_line book.now no }
{
    Line::Does(Op::Detach(no), attached_as(is_auto(book, no)))
}

// The line of an operation; none of the end.
fn straight_line(book: &Book, op: &Op) -> Option<Line>
    ensures { result ≡ straight_line book.now op.now }
{
    Some(match op {
        Op::Detach(no) => Line::Does(Op::Detach(*no), attached_as(is_auto(book, *no))),
        Op::Reattach(no) => Line::Does(Op::Reattach(*no), detached_as(is_auto(book, *no))),
        Op::Status(no, from) => as_told(Op::Status(*no, *from)),
        Op::Stop(no) => as_told(Op::Stop(*no)),
        Op::StopReceiver(no) => as_told(Op::StopReceiver(*no)),
        Op::Start(no) => as_told(Op::Start(*no)),
        Op::Reset(no) => as_told(Op::Reset(*no)),
        Op::ReadOnly(no, on) => as_told(Op::ReadOnly(*no, *on)),
        Op::Until(no, aim) => as_told(Op::Until(*no, *aim)),
        Op::Await(no, aim) => as_told(Op::Await(*no, *aim)),
        Op::AwaitSet(no, of) => as_told(Op::AwaitSet(*no, *of)),
        Op::Settle(no) => as_told(Op::Settle(*no)),
        Op::Cross(crossing, no, other) => as_told(Op::Cross(*crossing, *no, *other)),
        Op::Same(no) => as_told(Op::Same(*no)),
        Op::Auto(no, to) => as_told(Op::Auto(*no, *to)),
        Op::Match(no, with, every) => as_told(Op::Match(*no, *with, *every)),
        Op::CrossMatch(no, to) => as_told(Op::CrossMatch(*no, *to)),
        Op::Finish(_) => return None,
    })
}

/// The lines of a job's operations, by what the book knows of their servers. `Memory` comes only if memory runs out.
pub fn straight_lines(alloc: Global, book: &Book, ops: &[Op]) -> Result<Vec<Line>, Memory>
    ensures { IfOk result (λ lines. lines.items ≡ straight_lines book.now ops.now) }
{
    let mut lines = Vec::new(alloc);
    for op in ops {
        push_some(&mut lines, straight_line(book, op))?;
    }
    Ok(lines)
}
