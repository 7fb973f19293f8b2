//! The operations of stages.

ghost use Rattle.std.specs.Prelude.{◌≡◌, ◌≤◌, ◌∷◌, ◌++◌, [], IfOk, true, vec_capacity};
ghost use Rattle.recovery_plans.specs.Recoveries.{sight_of};
ghost use Rattle.recovery_plans.specs.Stages.{before, drain, gather, level, move, target, trail};

use crate::gtid_sets::GtidSet;
use crate::instance_keeper_items::Bridge;
use crate::operations_items::{Aim, Crossing, Op, Position, Sight};
use crate::orch_base::{Memory, ServerNo, SourceState};
use recovery_plans::Way;
use std::alloc::Global;

/// Room for the operations of a stage. `Err` means out of memory.
pub fn room(alloc: Global) -> Result<Vec<Op>, Memory>
    ensures items { IfOk result (λ ops. ops.items ≡ []) }
    ensures room { IfOk result (λ ops. 8 ≤ vec_capacity ops) }
{
    Ok(Vec::with_capacity(alloc, 8)?)
}

/// One operation, in this room.
pub fn one(mut ops: Vec<Op>, op: Op) -> Vec<Op>
    requires { 8 ≤ vec_capacity ops }
    ensures { result.items ≡ op ∷ [] }
{
    ops.clear();
    ops.push_reserved(op);
    ops
}

/// Two operations.
pub fn two(mut ops: Vec<Op>, first: Op, second: Op) -> Vec<Op>
    requires { 8 ≤ vec_capacity ops }
    ensures { result.items ≡ first ∷ second ∷ [] }
{
    ops.clear();
    ops.push_reserved(first);
    ops.push_reserved(second);
    ops
}

/// Three operations.
pub fn three(mut ops: Vec<Op>, first: Op, second: Op, third: Op) -> Vec<Op>
    requires { 8 ≤ vec_capacity ops }
    ensures { result.items ≡ first ∷ second ∷ third ∷ [] }
{
    ops.clear();
    ops.push_reserved(first);
    ops.push_reserved(second);
    ops.push_reserved(third);
    ops
}

/// A replica is stopped once it has executed what it has received.
pub fn drain(mut ops: Vec<Op>, no: ServerNo) -> Vec<Op>
    requires { 8 ≤ vec_capacity ops }
    ensures { result.items ≡ drain no }
{
    ops.clear();
    ops.push_reserved(Op::StopReceiver(no));
    ops.push_reserved(Op::Settle(no));
    ops.push_reserved(Op::Stop(no));
    ops.push_reserved(Op::Status(no, None));
    ops
}

/// The follower `q` comes to the end of its source's log and loses the source, which goes below it.
pub fn level(mut ops: Vec<Op>, p: ServerNo, q: ServerNo) -> Vec<Op>
    requires { 8 ≤ vec_capacity ops }
    ensures { result.items ≡ level p q }
{
    ops.clear();
    ops.push_reserved(Op::Status(p, None));
    ops.push_reserved(Op::Status(q, Some(p)));
    ops.push_reserved(Op::Until(q, Aim::EndOf(p)));
    ops.push_reserved(Op::Await(q, Aim::EndOf(p)));
    ops.push_reserved(Op::Stop(q));
    ops.push_reserved(Op::Status(q, Some(p)));
    ops.push_reserved(Op::Reset(q));
    ops.push_reserved(Op::Cross(Crossing::About, p, q));
    ops
}

/// The master `m` refuses writes, and its replica `d` comes to the end of its log.
pub fn shut(mut ops: Vec<Op>, m: ServerNo, d: ServerNo) -> Vec<Op>
    requires { 8 ≤ vec_capacity ops }
    ensures { result.items ≡ Op.ReadOnly m true ∷ gather m d }
{
    ops.clear();
    ops.push_reserved(Op::ReadOnly(m, true));
    ops.push_reserved(Op::Status(m, None));
    ops.push_reserved(Op::Status(d, Some(m)));
    ops.push_reserved(Op::Until(d, Aim::EndOf(m)));
    ops.push_reserved(Op::Await(d, Aim::EndOf(m)));
    ops.push_reserved(Op::Stop(d));
    ops.push_reserved(Op::Status(d, Some(m)));
    ops
}

/// A replica comes to the position at which another was seen.
pub fn trail(mut ops: Vec<Op>, no: ServerNo, d: ServerNo) -> Vec<Op>
    requires { 8 ≤ vec_capacity ops }
    ensures { result.items ≡ trail no d }
{
    ops.clear();
    ops.push_reserved(Op::Until(no, Aim::ExecOf(d)));
    ops.push_reserved(Op::Await(no, Aim::ExecOf(d)));
    ops.push_reserved(Op::Stop(no));
    ops.push_reserved(Op::Status(no, None));
    ops
}

fn going(way: Way, no: ServerNo) -> Op
    ensures { result ≡ move way no }
{
    match way {
        Way::Down(bridge) => Op::Cross(Crossing::Down, no, bridge.no),
        Way::Up(bridge) => Op::Cross(Crossing::Up, no, bridge.no),
        Way::Auto { to, exec: _ } => Op::Auto(no, to),
        Way::Match {
            to,
            exec: _,
            every: _,
        } => Op::CrossMatch(no, to),
    }
}

/// A replica goes a way, after a match of its log if it needs one, and is started.
pub fn moving(ops: Vec<Op>, no: ServerNo, way: Way) -> Vec<Op>
    requires { 8 ≤ vec_capacity ops }
    ensures { result.items ≡ before way no ++ move way no ∷ Op.Start no ∷ [] }
{
    let (go, start) = (going(way, no), Op::Start(no));
    match way {
        Way::Match { to, exec: _, every } => three(ops, Op::Match(no, to, every), go, start),
        Way::Down(_) | Way::Up(_) | Way::Auto { to: _, exec: _ } => two(ops, go, start),
    }
}

/// The new source to which a way goes.
pub(crate) fn target(way: Way) -> ServerNo
    ensures { result ≡ target way }
{
    match way {
        Way::Down(bridge) => bridge.no,
        Way::Up(bridge) => bridge.source,
        Way::Auto { to, exec: _ } => to,
        Way::Match {
            to,
            exec: _,
            every: _,
        } => to,
    }
}

/// The position of a bridge's server when the bridge was taken.
pub fn sight_of(alloc: Global, bridge: Bridge) -> Sight
    ensures { result ≡ record { no = bridge.no; seen = sight_of bridge } }
{
    Sight {
        no: bridge.no,
        seen: Position {
            own_end: Some(bridge.own),
            source: SourceState::Attached(bridge.source),
            exec: bridge.exec,
            set: GtidSet::empty(alloc),
        },
    }
}
