//! What is after a line's statements.

ghost use Rattle.std.specs.Prelude.{◌≡◌, ◌++◌, codes, true, OnOk};
ghost use Rattle.plan_texts.specs.Conditions.{below_at_words, below_words, by_hand_words, chosen_words, condition, contained_words, cross_condition, ends_words, expected_condition, lost_words, note_words, noted_words, over_words, passes_words, reaches_words, source_letter, stands_words, still_words};
ghost use Rattle.plan_texts.specs.Letters.{letter};
ghost use Rattle.plan_texts.specs.Statements.{latest_source};

use crate::Memory;
use crate::letters::print_letter;
use crate::line::{Apart, Expect, Line};
use crate::orch_base::ServerNo;
use crate::told::latest_source;
use crate::words::{print_aim, print_lettered};
use operations::{Aim, Crossing, Op};

// What is read of the server is noted.
fn print_note(order: &[ServerNo], no: ServerNo, out: &mut Vec<u8>) -> Result<(), Memory>
    ensures { OnOk result (out.new.items ≡ out.old.items ++ note_words order.now no) }
{
    print_lettered(b" -- note ", order, no, out)
}

// What is read of the server is noted. It must be below its source, if one is named.
fn print_read(
    order: &[ServerNo],
    no: ServerNo,
    from: Option<ServerNo>,
    out: &mut Vec<u8>,
) -> Result<(), Memory>
    ensures { OnOk result (out.new.items
        ≡ out.old.items ++ (note_words order.now no ++ below_words order.now from)) }
{
    print_note(order, no, out)?;
    match from {
        Some(source) => print_lettered(b"; must be below ", order, source, out),
        None => Ok(()),
    }
}

// Noted, and a word about the server.
fn print_noted(
    order: &[ServerNo],
    no: ServerNo,
    word: &[u8],
    out: &mut Vec<u8>,
) -> Result<(), Memory>
    ensures { OnOk result (out.new.items ≡ out.old.items ++ noted_words order.now no word.now) }
{
    print_note(order, no, out)?;
    print_lettered(b"; only where ", order, no, out)?;
    out.extend_from_slice(word)
}

// The server has executed so far.
fn print_reaches(
    order: &[ServerNo],
    no: ServerNo,
    aim: Aim,
    out: &mut Vec<u8>,
) -> Result<(), Memory>
    ensures { OnOk result (out.new.items ≡ out.old.items ++ reaches_words order.now no aim) }
{
    print_letter(order, no, out)?;
    out.extend_from_slice(b".exec >= ")?;
    print_aim(order, aim, out)
}

fn print_again(order: &[ServerNo], no: ServerNo, aim: Aim, out: &mut Vec<u8>) -> Result<(), Memory>
    ensures { OnOk result (out.new.items ≡ out.old.items
        ++ (note_words order.now no ++ codes "; again until " ++ reaches_words order.now no aim)) }
{
    print_note(order, no, out)?;
    out.extend_from_slice(b"; again until ")?;
    print_reaches(order, no, aim, out)
}

fn print_unless(order: &[ServerNo], no: ServerNo, aim: Aim, out: &mut Vec<u8>) -> Result<(), Memory>
    ensures { OnOk result (out.new.items
        ≡ out.old.items ++ (codes " -- not where " ++ reaches_words order.now no aim)) }
{
    out.extend_from_slice(b" -- not where ")?;
    print_reaches(order, no, aim, out)
}

fn print_settled(order: &[ServerNo], no: ServerNo, out: &mut Vec<u8>) -> Result<(), Memory>
    ensures { OnOk result (out.new.items ≡ out.old.items
        ++ (note_words order.now no ++ codes "; again until " ++ letter order.now no
        ++ codes ".exec = " ++ letter order.now no ++ codes ".read or its applier is off")) }
{
    print_note(order, no, out)?;
    print_lettered(b"; again until ", order, no, out)?;
    print_lettered(b".exec = ", order, no, out)?;
    out.extend_from_slice(b".read or its applier is off")
}

// The source of a server: by its letter if an earlier line has it, else as it was noted.
fn print_source_letter(
    order: &[ServerNo],
    no: ServerNo,
    told: Option<ServerNo>,
    out: &mut Vec<u8>,
) -> Result<(), Memory>
    ensures { OnOk result (out.new.items ≡ out.old.items ++ source_letter order.now no told) }
{
    match told {
        Some(source) => print_letter(order, source, out),
        None => {
            print_letter(order, no, out)?;
            out.extend_from_slice(b".source")
        }
    }
}

// The server is below the source of another, so far, and stopped.
#[tactic(auto, unfolding(crate::specs::Conditions::below_at_words))]
fn print_below_at(
    order: &[ServerNo],
    no: ServerNo,
    of: ServerNo,
    told: Option<ServerNo>,
    aim: Aim,
    out: &mut Vec<u8>,
) -> Result<(), Memory>
    ensures { OnOk result (out.new.items ≡ out.old.items
        ++ below_at_words order.now no (source_letter order.now of told) aim) }
{
    print_lettered(b"only where ", order, no, out)?;
    out.extend_from_slice(b" is below ")?;
    print_source_letter(order, of, told, out)?;
    out.extend_from_slice(b" at ")?;
    print_aim(order, aim, out)?;
    out.extend_from_slice(b", stopped")
}

fn print_stands(
    order: &[ServerNo],
    no: ServerNo,
    of: ServerNo,
    told: Option<ServerNo>,
    aim: Aim,
    out: &mut Vec<u8>,
) -> Result<(), Memory>
    ensures { OnOk result (out.new.items ≡ out.old.items
        ++ stands_words order.now no (source_letter order.now of told) aim) }
{
    out.extend_from_slice(b" -- ")?;
    print_below_at(order, no, of, told, aim, out)
}

// The server's own log ends there, and it is stopped.
fn print_ends(order: &[ServerNo], no: ServerNo, aim: Aim, out: &mut Vec<u8>) -> Result<(), Memory>
    ensures { OnOk result (out.new.items ≡ out.old.items ++ ends_words order.now no aim) }
{
    print_lettered(b" -- only where ", order, no, out)?;
    out.extend_from_slice(b" ends at ")?;
    print_aim(order, aim, out)?;
    out.extend_from_slice(b", stopped")
}

// The first has executed all that the second has, or more.
#[tactic(auto, unfolding(crate::specs::Conditions::passes_words))]
fn print_passes(
    order: &[ServerNo],
    no: ServerNo,
    other: ServerNo,
    more: bool,
    out: &mut Vec<u8>,
) -> Result<(), Memory>
    ensures { OnOk result (out.new.items ≡ out.old.items ++ passes_words order.now no other more) }
{
    print_lettered(b"; only where ", order, no, out)?;
    out.extend_from_slice(over(more))?;
    print_letter(order, other, out)?;
    out.extend_from_slice(b".exec")
}

fn over(more: bool) -> &'static [u8]
    ensures { result.now ≡ over_words more }
{
    if more { b".exec > " } else { b".exec >= " }
}

fn print_crossing(
    order: &[ServerNo],
    before: &[Line],
    crossing: Crossing,
    a: ServerNo,
    b: ServerNo,
    out: &mut Vec<u8>,
) -> Result<(), Memory>
    ensures { OnOk result (out.new.items
        ≡ out.old.items ++ cross_condition order.now before.now crossing a b) }
{
    match crossing {
        Crossing::Up => print_stands(order, a, b, Some(b), Aim::EndOf(b), out),
        Crossing::Down => print_stands(order, a, b, latest_source(before, b), Aim::ExecOf(b), out),
        Crossing::About => print_ends(order, a, Aim::ExecOf(b), out),
        Crossing::Back => print_ends(order, a, Aim::EndOf(a), out),
    }
}

// All that the first has executed is of the second, and all that the second has purged is of the first.
fn print_contained(
    order: &[ServerNo],
    no: ServerNo,
    of: ServerNo,
    out: &mut Vec<u8>,
) -> Result<(), Memory>
    ensures { OnOk result (out.new.items ≡ out.old.items ++ contained_words order.now no of) }
{
    print_lettered(b" -- only where ", order, no, out)?;
    print_lettered(b".gtids are in ", order, of, out)?;
    print_lettered(b".gtids, stopped; only where ", order, of, out)?;
    print_lettered(b".purged is in ", order, no, out)?;
    out.extend_from_slice(b".gtids")
}

// The place at which the logs match, to be found by hand.
fn print_match(
    order: &[ServerNo],
    no: ServerNo,
    with: ServerNo,
    out: &mut Vec<u8>,
) -> Result<(), Memory>
    ensures { OnOk result (out.new.items ≡ out.old.items
        ++ (note_words order.now no ++ codes ".match, by hand: the place in the log of "
        ++ letter order.now with ++ codes " behind all that " ++ letter order.now no
        ++ codes " shows behind its last mark")) }
{
    print_note(order, no, out)?;
    print_lettered(
        b".match, by hand: the place in the log of ",
        order,
        with,
        out,
    )?;
    print_lettered(b" behind all that ", order, no, out)?;
    out.extend_from_slice(b" shows behind its last mark")
}

fn print_matched(order: &[ServerNo], no: ServerNo, out: &mut Vec<u8>) -> Result<(), Memory>
    ensures { OnOk result (out.new.items ≡ out.old.items
        ++ (codes " -- only where " ++ letter order.now no
        ++ codes " stands as it did then, stopped")) }
{
    print_lettered(b" -- only where ", order, no, out)?;
    out.extend_from_slice(b" stands as it did then, stopped")
}

// What is after an operation's statements.
fn print_condition(
    order: &[ServerNo],
    before: &[Line],
    op: &Op,
    out: &mut Vec<u8>,
) -> Result<(), Memory>
    ensures { OnOk result (out.new.items
        ≡ out.old.items ++ condition order.now before.now op.now) }
{
    match op {
        Op::Status(no, from) => print_read(order, *no, *from, out),
        Op::Detach(no) => print_noted(order, *no, b" is attached, stopped", out),
        Op::Reattach(no) => print_noted(order, *no, b" is detached, stopped", out),
        Op::Until(no, aim) => print_unless(order, *no, *aim, out),
        Op::Await(no, aim) => print_again(order, *no, *aim, out),
        Op::AwaitSet(_, _) => out.extend_from_slice(awaiting()),
        Op::Settle(no) => print_settled(order, *no, out),
        Op::Cross(crossing, a, b) => print_crossing(order, before, *crossing, *a, *b, out),
        Op::Same(no) => print_stands(
            order,
            *no,
            *no,
            latest_source(before, *no),
            Aim::ExecOf(*no),
            out,
        ),
        Op::Auto(no, of) => print_contained(order, *no, *of, out),
        Op::Match(no, with, _) => print_match(order, *no, *with, out),
        Op::CrossMatch(no, _) => print_matched(order, *no, out),
        Op::Stop(_)
        | Op::StopReceiver(_)
        | Op::Start(_)
        | Op::Reset(_)
        | Op::ReadOnly(_, _)
        | Op::Finish(_) => Ok(()),
    }
}

fn awaiting() -> &'static [u8]
    ensures { result.now ≡ codes " -- again until it answers 0; until then its applier must be on" }
{
    b" -- again until it answers 0; until then its applier must be on"
}

// The server has no source.
fn print_root(order: &[ServerNo], no: ServerNo, out: &mut Vec<u8>) -> Result<(), Memory>
    ensures { OnOk result (out.new.items
        ≡ out.old.items ++ (note_words order.now no ++ codes "; must be below nothing")) }
{
    print_note(order, no, out)?;
    out.extend_from_slice(b"; must be below nothing")
}

// The place of a server in the log of its new source is found by hand.
fn print_by_hand(
    order: &[ServerNo],
    no: ServerNo,
    to: ServerNo,
    out: &mut Vec<u8>,
) -> Result<(), Memory>
    ensures { OnOk result (out.new.items ≡ out.old.items ++ by_hand_words order.now no to) }
{
    print_note(order, no, out)?;
    print_lettered(b".match, by hand: the place in the log of ", order, to, out)?;
    print_lettered(b" behind the last transaction that ", order, no, out)?;
    out.extend_from_slice(b" has executed")
}

// The server is still below its source, if it was noted.
fn print_still(
    order: &[ServerNo],
    before: &[Line],
    no: ServerNo,
    out: &mut Vec<u8>,
) -> Result<(), Memory>
    ensures { OnOk result (out.new.items ≡ out.old.items ++ still_words order.now before.now no) }
{
    out.extend_from_slice(b"; ")?;
    print_below_at(
        order,
        no,
        no,
        latest_source(before, no),
        Aim::ExecOf(no),
        out,
    )
}

fn print_by_hand_still(
    order: &[ServerNo],
    before: &[Line],
    no: ServerNo,
    to: ServerNo,
    out: &mut Vec<u8>,
) -> Result<(), Memory>
    ensures { OnOk result (out.new.items ≡ out.old.items
        ++ (by_hand_words order.now no to ++ still_words order.now before.now no)) }
{
    print_by_hand(order, no, to, out)?;
    print_still(order, before, no, out)
}

// The same of one that has executed less than its new source.
fn print_behind(
    order: &[ServerNo],
    before: &[Line],
    no: ServerNo,
    to: ServerNo,
    out: &mut Vec<u8>,
) -> Result<(), Memory>
    ensures { OnOk result (out.new.items ≡ out.old.items
        ++ (by_hand_words order.now no to ++ passes_words order.now to no true
        ++ still_words order.now before.now no)) }
{
    print_by_hand(order, no, to, out)?;
    print_passes(order, to, no, true, out)?;
    print_still(order, before, no, out)
}

/// What is after an operation's statements, if this is expected of the server to which they are sent.
pub(crate) fn print_expectation(
    order: &[ServerNo],
    before: &[Line],
    op: &Op,
    no: ServerNo,
    expect: Expect,
    out: &mut Vec<u8>,
) -> Result<(), Memory>
    ensures { OnOk result (out.new.items
        ≡ out.old.items ++ expected_condition order.now before.now op.now no expect) }
{
    match expect {
        Expect::AsTold => print_condition(order, before, op, out),
        Expect::Below(source) => print_read(order, no, Some(source), out),
        Expect::Root => print_root(order, no, out),
        Expect::Away => out.extend_from_slice(b" -- only while it isn't reached"),
        Expect::Gone => {
            out.extend_from_slice(b" -- lost, unreachable; only while it isn't reached")
        }
        Expect::AttachedByAuto => {
            print_noted(order, no, b" is attached by auto position, stopped", out)
        }
        Expect::DetachedByAuto => {
            print_noted(order, no, b" is detached by auto position, stopped", out)
        }
        Expect::ByHand(to) => print_by_hand_still(order, before, no, to, out),
        Expect::Behind(to) => print_behind(order, before, no, to, out),
    }
}

/// Whom a server is chosen before, and what must be so of what was noted.
#[tactic(auto, unfolding(crate::specs::Conditions::chosen_words))]
pub(crate) fn print_chosen(
    order: &[ServerNo],
    no: ServerNo,
    before: ServerNo,
    less: bool,
    out: &mut Vec<u8>,
) -> Result<(), Memory>
    ensures { OnOk result (out.new.items ≡ out.old.items ++ chosen_words order.now no before less) }
{
    print_lettered(b" -- chosen before ", order, before, out)?;
    print_passes(order, no, before, less, out)
}

/// Why a replica is lost, and what must be so of what was noted.
pub(crate) fn print_lost(
    order: &[ServerNo],
    no: ServerNo,
    beside: ServerNo,
    apart: Apart,
    out: &mut Vec<u8>,
) -> Result<(), Memory>
    ensures { OnOk result (out.new.items ≡ out.old.items ++ lost_words order.now no beside apart) }
{
    match apart {
        Apart::Behind => {
            print_lettered(b" -- lost, behind ", order, beside, out)?;
            print_passes(order, beside, no, true, out)
        }
        Apart::Ahead => {
            print_lettered(b" -- lost, ahead of ", order, beside, out)?;
            print_passes(order, no, beside, true, out)
        }
        Apart::Refused => {
            print_lettered(b" -- lost, ahead of ", order, beside, out)?;
            print_passes(order, no, beside, true, out)
        }
        Apart::Unpaired => { print_lettered(b" -- lost, no kept pair of ", order, beside, out) }
    }
}
