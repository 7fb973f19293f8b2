//! The letters of servers.

ghost use Rattle.std.specs.Prelude.{◌≡◌, ◌++◌, ◌==◌, IfOk, OnOk, position};
ghost use Rattle.plan_texts.specs.Prelude.{list_any};
ghost use Rattle.plan_texts.specs.Letters.{expected_of, letter, letter_at, order_of, other, server_of, subject, with_given, with_server, with_spoken};

use crate::Memory;
use crate::line::{Expect, Line};
use crate::orch_base::ServerNo;
use crate::words::print_number;
use operations::{Aim, Op};
use std::alloc::Global;

fn is_among(order: &[ServerNo], no: ServerNo) -> bool
    ensures { result ≡ list_any (λ m. m.0 == no.0) order.now }
{
    order.iter().any(|other| other.0 == no.0)
}

// The server, unless it is there.
fn add_server(order: &mut Vec<ServerNo>, no: ServerNo) -> Result<(), Memory>
    ensures { OnOk result (order.new.items ≡ with_server order.old.items no) }
{
    if is_among(order, no) {
        return Ok(());
    }
    order.push(no)?;
    Ok(())
}

fn add_given(order: &mut Vec<ServerNo>, given: Option<ServerNo>) -> Result<(), Memory>
    ensures { OnOk result (order.new.items ≡ with_given order.old.items given) }
{
    match given {
        Some(no) => add_server(order, no),
        None => Ok(()),
    }
}

/// The server to which an operation's statements are sent.
pub(crate) fn subject(op: &Op) -> Option<ServerNo>
    ensures { result ≡ subject op.now }
{
    match op {
        Op::Status(no, _)
        | Op::Stop(no)
        | Op::StopReceiver(no)
        | Op::Start(no)
        | Op::Reset(no)
        | Op::Detach(no)
        | Op::Reattach(no)
        | Op::ReadOnly(no, _)
        | Op::Until(no, _)
        | Op::Await(no, _)
        | Op::AwaitSet(no, _)
        | Op::Settle(no)
        | Op::Cross(_, no, _)
        | Op::Same(no)
        | Op::Auto(no, _)
        | Op::Match(no, _, _)
        | Op::CrossMatch(no, _) => Some(*no),
        Op::Finish(_) => None,
    }
}

fn server_of(aim: Aim) -> ServerNo
    ensures { result ≡ server_of aim }
{
    match aim {
        Aim::EndOf(no) | Aim::ExecOf(no) => no,
    }
}

// The other server of which it speaks.
fn other(op: &Op) -> Option<ServerNo>
    ensures { result ≡ other op.now }
{
    match op {
        Op::Status(_, from) => *from,
        Op::Until(_, aim) | Op::Await(_, aim) => Some(server_of(*aim)),
        Op::AwaitSet(_, no)
        | Op::Cross(_, _, no)
        | Op::Auto(_, no)
        | Op::Match(_, no, _)
        | Op::CrossMatch(_, no) => Some(*no),
        Op::Stop(_)
        | Op::StopReceiver(_)
        | Op::Start(_)
        | Op::Reset(_)
        | Op::Detach(_)
        | Op::Reattach(_)
        | Op::ReadOnly(_, _)
        | Op::Settle(_)
        | Op::Same(_)
        | Op::Finish(_) => None,
    }
}

// The server of which an expectation speaks.
fn expected_of(expect: Expect) -> Option<ServerNo>
    ensures { result ≡ expected_of expect }
{
    match expect {
        Expect::Below(no) | Expect::ByHand(no) | Expect::Behind(no) => Some(no),
        Expect::AsTold
        | Expect::Root
        | Expect::Away
        | Expect::Gone
        | Expect::AttachedByAuto
        | Expect::DetachedByAuto => None,
    }
}

#[tactic(auto, unfolding(crate::specs::Letters::with_spoken))]
fn add_spoken(order: &mut Vec<ServerNo>, line: &Line) -> Result<(), Memory>
    ensures { OnOk result (order.new.items ≡ with_spoken order.old.items line.now) }
{
    match line {
        Line::Does(op, expect) => {
            add_given(order, subject(op))?;
            add_given(order, other(op))?;
            add_given(order, expected_of(*expect))
        }
        Line::Chosen {
            no,
            before: other,
            ..
        }
        | Line::Lost {
            no,
            beside: other,
            ..
        } => {
            add_server(order, *no)?;
            add_server(order, *other)
        }
    }
}

/// The servers of which lines speak, each once, in the order in which they are first spoken of.
pub(crate) fn order_of(alloc: Global, lines: &[Line]) -> Result<Vec<ServerNo>, Memory>
    ensures { IfOk result (λ order. order.items ≡ order_of lines.now) }
{
    let mut order = Vec::new(alloc);
    for line in lines {
        add_spoken(&mut order, line)?;
    }
    Ok(order)
}

// A to Z, and then each of them with a number.
fn print_letter_at(place: u64, out: &mut Vec<u8>) -> Result<(), Memory>
    ensures { OnOk result (out.new.items ≡ out.old.items ++ letter_at place) }
{
    out.push(b'A' + (place % 26) as u8)?;
    if place < 26 {
        return Ok(());
    }
    print_number(u128::from(place / 26), out)
}

fn place_of(order: &[ServerNo], no: ServerNo) -> Option<usize>
    ensures { result ≡ position (λ m. m.0 == no.0) order.now }
{
    order.iter().position(|other| other.0 == no.0)
}

/// The letter of a server by its place in the order.
#[tactic(auto, unfolding(crate::specs::Letters::letter))]
pub(crate) fn print_letter(
    order: &[ServerNo],
    no: ServerNo,
    out: &mut Vec<u8>,
) -> Result<(), Memory>
    ensures { OnOk result (out.new.items ≡ out.old.items ++ letter order.now no) }
{
    match place_of(order, no) {
        Some(place) => print_letter_at(place as u64, out),
        None => Ok(()),
    }
}
