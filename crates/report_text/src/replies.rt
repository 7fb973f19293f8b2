//! The line of a turn with its reply.

ghost use Rattle.std.specs.Prelude.{◌≡◌, ◌++◌, decimal, OnOk, OnErr};
ghost use Rattle.report_text.specs.Lines.{behind, plain_text_of, write_text, fetch_text, apply_text, rotate_text, purge_text, answer_text, line_text, own_text};
ghost use Rattle.server_words.specs.BinlogCoords.Text.{coord_text};

use crate::binlog_coords_items::{Coord, print_coord};
use crate::cause::print_cause;
use crate::line::print_told_lines;
use crate::names::PrintedNames;
use crate::number::{print_counted, print_number};
use crate::orch_base::{Memory, Name};
use crate::refusal::print_refusal;
use crate::turn::print_words;
use commands::Line;
use server_words::{ApplyAnswer, FetchAnswer, PurgeAnswer, RotateAnswer, WriteAnswer};
use turns::{Reply, Turn};

fn print_write(answer: &WriteAnswer, out: &mut Vec<u8>) -> Result<(), Memory>
    ensures { OnOk result (out.new.items ≡ out.old.items ++ write_text answer.now) }
{
    match answer {
        WriteAnswer::Done(seq) => print_counted(b"done ", *seq, out),
        WriteAnswer::Down => out.extend_from_slice(b"down"),
        WriteAnswer::ReadOnly => out.extend_from_slice(b"read only"),
        WriteAnswer::Full => out.extend_from_slice(b"full"),
    }
}

// The word, a space and the coordinate.
fn print_at(word: &[u8], c: Coord, out: &mut Vec<u8>) -> Result<(), Memory>
    ensures { OnOk result (out.new.items ≡ out.old.items ++ (word.now ++ coord_text c)) }
{
    out.extend_from_slice(word)?;
    print_coord(c, out)
}

fn print_fetch(answer: &FetchAnswer, out: &mut Vec<u8>) -> Result<(), Memory>
    ensures { OnOk result (out.new.items ≡ out.old.items ++ fetch_text answer.now) }
{
    match answer {
        FetchAnswer::Got(c) => print_at(b"got ", *c, out),
        FetchAnswer::Rotated(c) => print_at(b"rotated ", *c, out),
        FetchAnswer::Purged(first) => print_counted(b"purged ", u64::from(*first), out),
        FetchAnswer::Nothing => out.extend_from_slice(b"nothing"),
        FetchAnswer::Stopped => out.extend_from_slice(b"stopped"),
        FetchAnswer::NoLink => out.extend_from_slice(b"no link"),
    }
}

fn print_apply(answer: &ApplyAnswer, out: &mut Vec<u8>) -> Result<(), Memory>
    ensures { OnOk result (out.new.items ≡ out.old.items ++ apply_text answer.now) }
{
    match answer {
        ApplyAnswer::Done(c) => print_at(b"done ", *c, out),
        ApplyAnswer::Skipped(c) => print_at(b"skipped ", *c, out),
        ApplyAnswer::Rotated(c) => print_at(b"rotated ", *c, out),
        ApplyAnswer::Nothing => out.extend_from_slice(b"nothing"),
        ApplyAnswer::Stopped => out.extend_from_slice(b"stopped"),
        ApplyAnswer::AtUntil => out.extend_from_slice(b"at until"),
        ApplyAnswer::Full => out.extend_from_slice(b"full"),
    }
}

fn print_rotate(answer: &RotateAnswer, out: &mut Vec<u8>) -> Result<(), Memory>
    ensures { OnOk result (out.new.items ≡ out.old.items ++ rotate_text answer.now) }
{
    match answer {
        RotateAnswer::Done(c) => print_at(b"done ", *c, out),
        RotateAnswer::Down => out.extend_from_slice(b"down"),
        RotateAnswer::NotLogging => out.extend_from_slice(b"not logging"),
        RotateAnswer::Full => out.extend_from_slice(b"full"),
    }
}

fn print_purge(answer: &PurgeAnswer, out: &mut Vec<u8>) -> Result<(), Memory>
    ensures { OnOk result (out.new.items ≡ out.old.items ++ purge_text answer.now) }
{
    match answer {
        PurgeAnswer::Done(first) => print_counted(b"done ", u64::from(*first), out),
        PurgeAnswer::Down => out.extend_from_slice(b"down"),
        PurgeAnswer::NotLogging => out.extend_from_slice(b"not logging"),
        PurgeAnswer::NoFile => out.extend_from_slice(b"no file"),
    }
}

// The number between the texts.
fn print_between(before: &[u8], number: u64, after: &[u8], out: &mut Vec<u8>) -> Result<(), Memory>
    ensures { OnOk result (out.new.items ≡ out.old.items
        ++ (before.now ++ decimal number ++ after.now)) }
{
    print_counted(before, number, out)?;
    out.extend_from_slice(after)
}

fn print_answer(r: &Reply, names: &PrintedNames<'_>, out: &mut Vec<u8>) -> Result<(), Memory>
    ensures { OnOk result (out.new.items ≡ out.old.items ++ answer_text names.now r.now) }
{
    match r {
        Reply::Write(answer) => print_write(answer, out),
        Reply::Fetch(answer) => print_fetch(answer, out),
        Reply::Apply(answer) => print_apply(answer, out),
        Reply::Done => out.extend_from_slice(b"done"),
        Reply::Rotate(answer) => print_rotate(answer, out),
        Reply::Purge(answer) => print_purge(answer, out),
        Reply::Now(now) => print_counted(b"now ", now.0, out),
        Reply::Read(number) => print_counted(b"read ", *number, out),
        Reply::ReadUnreachable(number) => print_between(b"read ", *number, b" unreachable", out),
        Reply::Unknown => out.extend_from_slice(b"unknown"),
        Reply::Stored => out.extend_from_slice(b"stored"),
        Reply::Old(number) => print_counted(b"old ", *number, out),
        Reply::Nothing => out.extend_from_slice(b"nothing"),
        Reply::Told(_) => out.extend_from_slice(b"done"),
        Reply::Refused(refusal) => {
            out.extend_from_slice(b"refused ")?;
            print_refusal(refusal, names, out)
        }
        Reply::Begun(job) => print_counted(b"begun ", *job, out),
        Reply::Going => out.extend_from_slice(b"going"),
        Reply::Failed(held) => {
            out.extend_from_slice(b"failed ")?;
            print_cause(&held.as_failure().cause, names, out)
        }
        Reply::NoJob => out.extend_from_slice(b"no job"),
        Reply::Held(until) => print_counted(b"held until ", until.0, out),
        Reply::Taken { node, until } => {
            print_counted(b"taken ", u64::from(*node), out)?;
            print_counted(b" until ", until.0, out)
        }
        Reply::Released => out.extend_from_slice(b"released"),
        Reply::NotHeld => out.extend_from_slice(b"not held"),
        Reply::Lapsed => out.extend_from_slice(b"lapsed"),
    }
}

// Whether a reply that is alone has its own line, and the lines after it: those of what is done, or of the hooks of a
// recovery that failed.
fn behind(r: &Reply) -> (bool, &[Line])
    ensures own { result.0 ≡ (behind r.now).0 }
    ensures lines { result.1.now ≡ (behind r.now).1 }
{
    match r {
        Reply::Told(lines) => (false, lines.as_slice()),
        Reply::Failed(held) => (true, held.as_failure().lines.as_slice()),
        Reply::Write(_)
        | Reply::Fetch(_)
        | Reply::Apply(_)
        | Reply::Done
        | Reply::Rotate(_)
        | Reply::Purge(_)
        | Reply::Now(_)
        | Reply::Read(_)
        | Reply::ReadUnreachable(_)
        | Reply::Unknown
        | Reply::Stored
        | Reply::Old(_)
        | Reply::Nothing
        | Reply::Refused(_)
        | Reply::Begun(_)
        | Reply::Going
        | Reply::NoJob
        | Reply::Held(_)
        | Reply::Taken { .. }
        | Reply::Released
        | Reply::NotHeld
        | Reply::Lapsed => (true, &[]),
    }
}

#[tactic(auto, unfolding(crate::specs::Lines::line_text))]
fn print_line(
    number: u64,
    t: &Turn,
    r: &Reply,
    names: &PrintedNames<'_>,
    out: &mut Vec<u8>,
) -> Result<(), Memory>
    ensures { OnOk result (out.new.items ≡ out.old.items
        ++ line_text names.now number t.now r.now) }
{
    print_number(number, out)?;
    out.extend_from_slice(b" ")?;
    print_words(t, names, out)?;
    out.extend_from_slice(b": ")?;
    print_answer(r, names, out)?;
    out.extend_from_slice(b"\n")?;
    print_told_lines(b"  ", behind(r).1, names, out)
}

/// Appends the line of a turn with its reply: the number, the turn's text, `: ` and the reply. After it come the lines
/// of what is done, or of the hooks of a recovery that failed, each after two spaces. If memory runs out, it appends
/// nothing. A server has its name in `names` by its number.
pub fn reply_text(
    number: u64,
    t: &Turn,
    r: &Reply,
    names: &[Name],
    out: &mut Vec<u8>,
) -> Result<(), Memory>
    ensures ok { OnOk result (out.new.items ≡ out.old.items
        ++ line_text names.now number t.now r.now) }
    ensures err { OnErr result (out.new.items ≡ out.old.items) }
{
    let alloc = *out.allocator();
    let names = PrintedNames::new(alloc, names)?;
    reply_text_by(number, t, r, &names, &mut Vec::new(alloc), out)
}

/// As `reply_text`, by names that are printed once for many lines. `line` is room for a line, which the caller keeps
/// from one to the next: what it holds is lost. `Err` means out of memory.
pub fn reply_text_by(
    number: u64,
    t: &Turn,
    r: &Reply,
    names: &PrintedNames<'_>,
    line: &mut Vec<u8>,
    out: &mut Vec<u8>,
) -> Result<(), Memory>
    ensures ok { OnOk result (out.new.items ≡ out.old.items
        ++ line_text names.now number t.now r.now) }
    ensures err { OnErr result (out.new.items ≡ out.old.items) }
{
    line.clear();
    print_line(number, t, r, names, line)?;
    out.extend_from_slice(line)
}

// The reply's own line, if it has one.
fn print_own(
    r: &Reply,
    own: bool,
    names: &PrintedNames<'_>,
    out: &mut Vec<u8>,
) -> Result<(), Memory>
    ensures { OnOk result (out.new.items ≡ out.old.items ++ own_text names.now r.now own) }
{
    if !own {
        return Ok(());
    }
    print_answer(r, names, out)?;
    out.extend_from_slice(b"\n")
}

#[tactic(auto, unfolding(crate::specs::Lines::plain_text_of))]
fn print_plain(r: &Reply, names: &PrintedNames<'_>, out: &mut Vec<u8>) -> Result<(), Memory>
    ensures { OnOk result (out.new.items ≡ out.old.items ++ plain_text_of names.now r.now) }
{
    let (own, lines) = behind(r);
    print_own(r, own, names, out)?;
    print_told_lines(b"", lines, names, out)
}

/// Appends what a single command writes of its reply: the lines of one that is done, else the reply's own line and the
/// lines after it. If memory runs out, it appends nothing. A server has its name in `names` by its number.
pub fn plain_text(r: &Reply, names: &[Name], out: &mut Vec<u8>) -> Result<(), Memory>
    ensures ok { OnOk result (out.new.items ≡ out.old.items ++ plain_text_of names.now r.now) }
    ensures err { OnErr result (out.new.items ≡ out.old.items) }
{
    let alloc = *out.allocator();
    let names = PrintedNames::new(alloc, names)?;
    let mut text = Vec::new(alloc);
    print_plain(r, &names, &mut text)?;
    out.append(&mut text)
}
