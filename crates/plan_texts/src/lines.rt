//! Numbered lines, and the whole.

ghost use Rattle.std.specs.Prelude.{◌≡◌, ◌++◌, [], codes, decimal, slice_get, OnOk};
ghost use Rattle.plan_texts.specs.Conditions.{expected_condition};
ghost use Rattle.plan_texts.specs.Letters.{order_of, subject};
ghost use Rattle.plan_texts.specs.Statements.{expected_statement};
ghost use Rattle.plan_texts.specs.Texts.{branch_lines, branch_words, head_words, line_text, line_texts, op_line, ordered_text, plan_text, server_line, server_lines, warning};
ghost use Rattle.operations.specs.OrchBase.Names.{printed_at};

use crate::Memory;
use crate::conditions::{print_chosen, print_expectation, print_lost};
use crate::letters::{order_of, print_letter, subject};
use crate::line::{Expect, Line};
use crate::orch_base::{Name, ServerNo};
use crate::statements::{Told, print_expected};
use crate::words::{print_lettered, print_number};
use operations::Op;
use std::alloc::Global;

// What a plan doesn't say.
#[tactic(auto, unfolding(crate::specs::Texts::warning))]
fn warning() -> &'static [u8]
    ensures { result.now ≡ warning }
{
    b"# Rehearsed on a model: no failing statements, no parts of transactions, no locks, no clock; its coordinates aren't your servers'.\n\
# It holds only where each server logs what it applies, no replica has transactions of its own, appliers are single, unfiltered, not\n\
# delayed and without errors, and nobody else changes replication. Take each coordinate from the line that noted it, never from the\n\
# rehearsal. Stop where a condition fails. STOP may wait. A restart starts threads and forgets read_only that isn't persisted;\n\
# privileged users pass it. What a replica received and hasn't executed is gone once it is reset, detached or moved.\n"
}

// The name of the server of this number.
fn print_name(names: &[Name], no: ServerNo, out: &mut Vec<u8>) -> Result<(), Memory>
    ensures { OnOk result (out.new.items
        ≡ out.old.items ++ printed_at (slice_get names.now no.0)) }
{
    match names.get(no.0 as usize) {
        Some(name) => name.print(out),
        None => Ok(()),
    }
}

// server LETTER NAME
fn print_server(
    names: &[Name],
    order: &[ServerNo],
    no: ServerNo,
    out: &mut Vec<u8>,
) -> Result<(), Memory>
    ensures { OnOk result (out.new.items ≡ out.old.items ++ server_line names.now order.now no) }
{
    print_lettered(b"server ", order, no, out)?;
    out.extend_from_slice(b" ")?;
    print_name(names, no, out)?;
    out.extend_from_slice(b"\n")
}

fn print_servers(names: &[Name], order: &[ServerNo], out: &mut Vec<u8>) -> Result<(), Memory>
    ensures { OnOk result (out.new.items
        ≡ out.old.items ++ server_lines names.now order.now order.now) }
{
    for no in order {
        print_server(names, order, *no, out)?;
    }
    Ok(())
}

// The number of a line and the letter of its server.
fn print_head(
    order: &[ServerNo],
    number: u128,
    no: ServerNo,
    out: &mut Vec<u8>,
) -> Result<(), Memory>
    ensures { OnOk result (out.new.items ≡ out.old.items ++ head_words order.now number no) }
{
    print_number(number, out)?;
    print_lettered(b" ", order, no, out)
}

// What is after the head of an operation's line.
fn print_rest(
    told: &Told<'_>,
    op: &Op,
    no: ServerNo,
    expect: Expect,
    out: &mut Vec<u8>,
) -> Result<(), Memory>
    ensures { OnOk result (out.new.items ≡ out.old.items
        ++ (codes " " ++ expected_statement told.now.names.now told.now.order.now
        told.now.before.now op.now no expect ++ codes ";"
        ++ expected_condition told.now.order.now told.now.before.now op.now no expect)) }
{
    out.extend_from_slice(b" ")?;
    print_expected(told, op, no, expect, out)?;
    out.extend_from_slice(b";")?;
    print_expectation(told.order, told.before, op, no, expect, out)
}

// The line of an operation, if it has one.
fn print_op(
    told: &Told<'_>,
    number: u128,
    op: &Op,
    expect: Expect,
    out: &mut Vec<u8>,
) -> Result<(), Memory>
    ensures { OnOk result (out.new.items ≡ out.old.items
        ++ op_line told.now.names.now told.now.order.now told.now.before.now number op.now expect
        (subject op.now)) }
{
    let Some(no) = subject(op) else {
        return Ok(());
    };
    print_head(told.order, number, no, out)?;
    print_rest(told, op, no, expect, out)?;
    out.extend_from_slice(b"\n")
}

fn print_line(told: &Told<'_>, number: u128, line: &Line, out: &mut Vec<u8>) -> Result<(), Memory>
    ensures { OnOk result (out.new.items ≡ out.old.items
        ++ line_text told.now.names.now told.now.order.now told.now.before.now number line.now) }
{
    match line {
        Line::Does(op, expect) => print_op(told, number, op, *expect, out),
        Line::Chosen { no, before, less } => {
            print_head(told.order, number, *no, out)?;
            print_chosen(told.order, *no, *before, *less, out)?;
            out.extend_from_slice(b"\n")
        }
        Line::Lost { no, beside, apart } => {
            print_head(told.order, number, *no, out)?;
            print_lost(told.order, *no, *beside, *apart, out)?;
            out.extend_from_slice(b"\n")
        }
    }
}

fn print_lines(
    names: &[Name],
    order: &[ServerNo],
    lines: &[Line],
    out: &mut Vec<u8>,
) -> Result<(), Memory>
    ensures { OnOk result (out.new.items
        ≡ out.old.items ++ line_texts names.now order.now 1 [] lines.now) }
{
    for (at, line) in lines.iter().enumerate() {
        let told = Told {
            names,
            order,
            before: &lines[..at],
        };
        print_line(&told, 1 + at as u128, line, out)?;
    }
    Ok(())
}

// What the plan of a recovery is, and what it can't know.
#[tactic(auto, unfolding(crate::specs::Texts::branch_words))]
fn branch() -> &'static [u8]
    ensures { result.now ≡ branch_words }
{
    b"# This is one branch: the expected one, as the book stands. Lines with \"chosen\" or \"lost\" say on what noted coordinates it depends.\n\
# Where a condition fails, start the replicas that are stopped, read the servers again, and print the plan anew.\n\
# A server that is reached again hasn't failed: don't go on.\n\
# A line \"by hand\" wants a coordinate of the new source's log. Find it there: a pair that was kept of a working server may be wrong.\n\
# No plan knows what the failed server executed and no replica received.\n"
}

fn print_branch(branches: bool, out: &mut Vec<u8>) -> Result<(), Memory>
    ensures { OnOk result (out.new.items ≡ out.old.items ++ branch_lines branches) }
{
    if branches {
        out.extend_from_slice(branch())
    } else {
        Ok(())
    }
}

// The plan, by servers in an order.
#[tactic(auto, unfolding(crate::specs::Texts::ordered_text))]
fn print_ordered(
    names: &[Name],
    order: &[ServerNo],
    branches: bool,
    lines: &[Line],
    out: &mut Vec<u8>,
) -> Result<(), Memory>
    ensures { OnOk result (out.new.items
        ≡ out.old.items ++ ordered_text names.now order.now branches lines.now) }
{
    out.extend_from_slice(warning())?;
    print_branch(branches, out)?;
    print_servers(names, order, out)?;
    print_lines(names, order, lines, out)
}

/// Appends the text of a plan's lines, for servers of these names: statements of MySQL 8 with what must be true before
/// each (MySQL 8.0 Reference Manual, "Replication Statements"). If the plan is one of several branches, which a
/// recovery may go, the text has that. `Memory` comes only if memory runs out; `out` may have a part of it then.
#[tactic(auto, unfolding(crate::specs::Texts::plan_text))]
pub fn print_plan(
    alloc: Global,
    names: &[Name],
    branches: bool,
    lines: &[Line],
    out: &mut Vec<u8>,
) -> Result<(), Memory>
    ensures { OnOk result (out.new.items
        ≡ out.old.items ++ plan_text names.now branches lines.now) }
{
    let order = order_of(alloc, lines)?;
    print_ordered(names, &order, branches, lines, out)
}
