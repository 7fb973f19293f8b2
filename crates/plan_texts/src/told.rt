//! The sources that lines have.

ghost use Rattle.std.specs.Prelude.{◌≡◌};
ghost use Rattle.plan_texts.specs.Statements.{below_in, expected_by, latest_source, told_by, told_in};

use crate::letters::subject;
use crate::line::{Expect, Line};
use crate::orch_base::ServerNo;
use operations::Op;

// That of a server, if the operation reads it and names one.
fn told_by(op: &Op, no: ServerNo) -> Option<ServerNo>
    ensures { result ≡ told_by no op.now }
{
    match op {
        Op::Status(read, from) => { if read.0 == no.0 { *from } else { None } }
        Op::Stop(_)
        | Op::StopReceiver(_)
        | Op::Start(_)
        | Op::Reset(_)
        | Op::Detach(_)
        | Op::Reattach(_)
        | Op::ReadOnly(_, _)
        | Op::Until(_, _)
        | Op::Await(_, _)
        | Op::AwaitSet(_, _)
        | Op::Settle(_)
        | Op::Cross(_, _, _)
        | Op::Same(_)
        | Op::Auto(_, _)
        | Op::Match(_, _, _)
        | Op::CrossMatch(_, _)
        | Op::Finish(_) => None,
    }
}

// The source that an expectation names.
fn below_in(expect: Expect) -> Option<ServerNo>
    ensures { result ≡ below_in expect }
{
    match expect {
        Expect::Below(source) => Some(source),
        Expect::AsTold
        | Expect::Root
        | Expect::Away
        | Expect::Gone
        | Expect::AttachedByAuto
        | Expect::DetachedByAuto
        | Expect::ByHand(_)
        | Expect::Behind(_) => None,
    }
}

// That of a server, if the operation is sent to it.
fn expected_by(no: ServerNo, sent: Option<ServerNo>, expect: Expect) -> Option<ServerNo>
    ensures { result ≡ expected_by no sent expect }
{
    match sent {
        Some(sent) => {
            if sent.0 == no.0 {
                below_in(expect)
            } else {
                None
            }
        }
        None => None,
    }
}

fn told_in(line: &Line, no: ServerNo) -> Option<ServerNo>
    ensures { result ≡ told_in no line.now }
{
    match line {
        Line::Does(op, expect) => told_by(op, no).or(expected_by(no, subject(op), *expect)),
        Line::Chosen { .. } | Line::Lost { .. } => None,
    }
}

/// The latest source of a server that these lines have.
pub(crate) fn latest_source(before: &[Line], no: ServerNo) -> Option<ServerNo>
    ensures { result ≡ latest_source before.now no }
{
    let mut found = None;
    for line in before {
        found = told_in(line, no).or(found);
    }
    found
}
