//! How a stage ends.

ghost use Rattle.std.specs.Prelude.{◌≡◌};
ghost use Rattle.recovery_plans.specs.Operations.Deeds.{deed_of};
ghost use Rattle.recovery_plans.specs.Stages.{ends, is_finish, is_look, moves};

use crate::operations_items::Op;
use crate::table::info_of;
use recovery_plans::Stage;

// Whether what an operation may change is a source, or whether clients may write.
fn moves(op: &Op) -> bool
    ensures { result ≡ moves (deed_of op.now) }
{
    match op {
        Op::Detach(_)
        | Op::Reattach(_)
        | Op::Reset(_)
        | Op::ReadOnly(_, _)
        | Op::Cross(_, _, _)
        | Op::Same(_)
        | Op::Auto(_, _)
        | Op::CrossMatch(_, _) => true,
        Op::Status(_, _)
        | Op::Stop(_)
        | Op::StopReceiver(_)
        | Op::Start(_)
        | Op::Until(_, _)
        | Op::Await(_, _)
        | Op::AwaitSet(_, _)
        | Op::Settle(_)
        | Op::Match(_, _, _)
        | Op::Finish(_) => false,
    }
}

fn is_look(op: &Op) -> bool
    ensures { result ≡ is_look (deed_of op.now) }
{
    match op {
        Op::Status(_, _) => true,
        Op::Detach(_)
        | Op::Reattach(_)
        | Op::Reset(_)
        | Op::ReadOnly(_, _)
        | Op::Cross(_, _, _)
        | Op::Same(_)
        | Op::Auto(_, _)
        | Op::Match(_, _, _)
        | Op::CrossMatch(_, _)
        | Op::Stop(_)
        | Op::StopReceiver(_)
        | Op::Start(_)
        | Op::Until(_, _)
        | Op::Await(_, _)
        | Op::AwaitSet(_, _)
        | Op::Settle(_)
        | Op::Finish(_) => false,
    }
}

fn is_finish(op: &Op) -> bool
    ensures { result ≡ is_finish (deed_of op.now) }
{
    match op {
        Op::Finish(_) => true,
        Op::Detach(_)
        | Op::Reattach(_)
        | Op::Reset(_)
        | Op::ReadOnly(_, _)
        | Op::Cross(_, _, _)
        | Op::Same(_)
        | Op::Auto(_, _)
        | Op::Match(_, _, _)
        | Op::CrossMatch(_, _)
        | Op::Status(_, _)
        | Op::Stop(_)
        | Op::StopReceiver(_)
        | Op::Start(_)
        | Op::Until(_, _)
        | Op::Await(_, _)
        | Op::AwaitSet(_, _)
        | Op::Settle(_) => false,
    }
}

/// Whether an operation ends a stage.
pub fn ends(stage: &Stage, op: &Op) -> bool
    ensures { result ≡ ends stage.now (deed_of op.now) }
{
    moves(op) || (info_of(stage).reads && is_look(op)) || is_finish(op)
}
