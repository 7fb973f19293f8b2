//! The names of turns.

ghost use Rattle.std.specs.Prelude.{◌≡◌, ◌++◌, OnOk};
ghost use Rattle.report_text.specs.Turns.{act_text, amount_text, linked_text, poll_text, step_text, words_text};

use crate::command::print_command;
use crate::names::{PrintedNames, print_at_server};
use crate::number::print_counted;
use crate::orch_base::{Memory, ServerNo};
use server_words::Link;
use turns::{Act, Step, Turn};

// The word, a space, the server's name, a space and the link.
fn print_link(
    word: &[u8],
    names: &PrintedNames<'_>,
    no: ServerNo,
    link: Link,
    out: &mut Vec<u8>,
) -> Result<(), Memory>
    ensures { OnOk result (out.new.items ≡ out.old.items
        ++ linked_text word.now names.now no link) }
{
    print_at_server(word, names, no, out)?;
    out.extend_from_slice(b" ")?;
    out.extend_from_slice(link.word().as_bytes())
}

// `poll-read `, the poller, a space and the server's name.
fn print_poll_read(
    poller: u32,
    names: &PrintedNames<'_>,
    no: ServerNo,
    out: &mut Vec<u8>,
) -> Result<(), Memory>
    ensures { OnOk result (out.new.items ≡ out.old.items ++ poll_text names.now poller no) }
{
    print_counted(b"poll-read ", u64::from(poller), out)?;
    print_at_server(b" ", names, no, out)
}

// The word, a space, the server's name, a space and the number.
fn print_amount(
    word: &[u8],
    names: &PrintedNames<'_>,
    no: ServerNo,
    amount: u32,
    out: &mut Vec<u8>,
) -> Result<(), Memory>
    ensures { OnOk result (out.new.items ≡ out.old.items
        ++ amount_text word.now names.now no amount) }
{
    print_at_server(word, names, no, out)?;
    print_counted(b" ", u64::from(amount), out)
}

fn print_step(step: Step, names: &PrintedNames<'_>, out: &mut Vec<u8>) -> Result<(), Memory>
    ensures { OnOk result (out.new.items ≡ out.old.items ++ step_text names.now step) }
{
    match step {
        Step::Write(no, size) => print_amount(b"write ", names, no, size, out),
        Step::Fetch(no) => print_at_server(b"fetch ", names, no, out),
        Step::Apply(no) => print_at_server(b"apply ", names, no, out),
        Step::Fail(no) => print_at_server(b"fail ", names, no, out),
        Step::Heal(no) => print_at_server(b"heal ", names, no, out),
        Step::Cut(no, link) => print_link(b"cut ", names, no, link, out),
        Step::Join(no, link) => print_link(b"join ", names, no, link, out),
        Step::Rotate(no) => print_at_server(b"rotate ", names, no, out),
        Step::Purge(no, file) => print_amount(b"purge ", names, no, file, out),
    }
}

fn print_act(act: &Act, names: &PrintedNames<'_>, out: &mut Vec<u8>) -> Result<(), Memory>
    ensures { OnOk result (out.new.items ≡ out.old.items ++ act_text names.now act.now) }
{
    match act {
        Act::PollRead(poller, no) => print_poll_read(*poller, names, *no, out),
        Act::PollStore(poller) => print_counted(b"poll-store ", u64::from(*poller), out),
        Act::Command(held) => print_command(&held.as_turn().command, names, out),
        Act::Job(job) => print_counted(b"job ", *job, out),
        Act::Scan => out.extend_from_slice(b"scan"),
        Act::Restart => out.extend_from_slice(b"restart"),
    }
}

/// What the turn is called, and what it is given.
pub(crate) fn print_words(
    t: &Turn,
    names: &PrintedNames<'_>,
    out: &mut Vec<u8>,
) -> Result<(), Memory>
    ensures { OnOk result (out.new.items ≡ out.old.items ++ words_text names.now t.now) }
{
    match t {
        Turn::Step(step) => print_step(*step, names, out),
        Turn::Tick(seconds) => print_counted(b"tick ", *seconds, out),
        Turn::Act(act) => print_act(act, names, out),
        Turn::As(node, act) => {
            print_counted(b"as ", u64::from(*node), out)?;
            out.extend_from_slice(b" ")?;
            print_act(act, names, out)
        }
        Turn::Claim(node) => print_counted(b"claim ", u64::from(*node), out),
        Turn::Release(node) => print_counted(b"release ", u64::from(*node), out),
    }
}
