//! What is expected of the replicas of a failed server.

ghost use Rattle.std.specs.Prelude.{◌≡◌, ◌<◌, ◌++◌, All, IfOk, OnOk, length};
ghost use Rattle.plan_lines.specs.Prelude.{instance_at, option_to_list};
ghost use Rattle.plan_lines.specs.Expected.{all_drained, drained, expected, expected_at};

use crate::Memory;
use crate::instance_keeper_items::{Book, Instance};
use crate::operations_items::Op;
use crate::orch_base::ServerNo;
use crate::pieces::as_told;
use permission::is_valid;
use plan_texts::{Expect, Line};
use recovery_plans::Stopped;
use std::alloc::Global;

// The position at which an instance stops that is drained; none for one that wasn't reached.
fn expected_of(no: ServerNo, instance: &Instance) -> Option<Stopped>
    ensures { result ≡ expected_at no (Some instance.now) }
{
    let seen = &instance.seen;
    instance.valid.then_some(Stopped {
        no,
        exec: if seen.sql { seen.read } else { seen.exec },
        own_end: seen.own_end,
    })
}

fn expected_at(book: &Book, no: ServerNo) -> Option<Stopped>
    requires { no.0 < length book.now.names }
    ensures { result ≡ expected_at no (instance_at book.now no) }
{
    match book.instance(no) {
        Some(instance) => expected_of(no, instance),
        None => None,
    }
}

fn push_some(list: &mut Vec<Stopped>, stopped: Option<Stopped>) -> Result<(), Memory>
    ensures { OnOk result (list.new.items ≡ list.old.items ++ option_to_list stopped) }
{
    if let Some(stopped) = stopped {
        list.push(stopped)?;
    }
    Ok(())
}

/// The positions at which these replicas are expected to stop.
pub(crate) fn expected(
    alloc: Global,
    book: &Book,
    replicas: &[ServerNo],
) -> Result<Vec<Stopped>, Memory>
    requires { All (λ n. n.0 < length book.now.names) replicas.now }
    ensures { IfOk result (λ list. list.items ≡ expected book.now replicas.now) }
{
    let mut list = Vec::new(alloc);
    for no in replicas {
        push_some(&mut list, expected_at(book, *no))?;
    }
    Ok(list)
}

// A replica is drained, or is lost because it isn't reached.
fn drained(alloc: Global, book: &Book, failed: ServerNo, no: ServerNo) -> Result<Vec<Line>, Memory>
    ensures { IfOk result (λ lines. lines.items ≡ drained book.now failed no) }
{
    Ok(if is_valid(book, no) {
        vec![in alloc;
            as_told(Op::StopReceiver(no)),
            as_told(Op::Settle(no)),
            as_told(Op::Stop(no)),
            Line::Does(Op::Status(no, None), Expect::Below(failed)),
        ]?
    } else {
        vec![in alloc; Line::Does(Op::StopReceiver(no), Expect::Gone)]?
    })
}

/// Adds the lines by which replicas are drained.
pub(crate) fn add_drained(
    alloc: Global,
    book: &Book,
    failed: ServerNo,
    replicas: &[ServerNo],
    lines: &mut Vec<Line>,
) -> Result<(), Memory>
    ensures { OnOk result (lines.new.items
        ≡ lines.old.items ++ all_drained book.now failed replicas.now) }
{
    for no in replicas {
        lines.append(&mut drained(alloc, book, failed, *no)?)?;
    }
    Ok(())
}
