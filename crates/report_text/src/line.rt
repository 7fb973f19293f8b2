//! The lines of what is done.

ghost use Rattle.std.specs.Prelude.{◌≡◌, ◌++◌, codes, OnOk};
ghost use Rattle.report_text.specs.Told.{counts_text, depth_text, detached_text, hook_text, levels_text, lost_text, marks_text, named_text, told_lines, told_text, two_text};
ghost use Rattle.server_words.specs.OrchBase.Words.{version_text};

use crate::binlog_coords_items::print_coord;
use crate::cause::{print_spot, print_unnamed};
use crate::names::{PrintedNames, print_at_server, print_name};
use crate::number::{print_counted, print_number};
use crate::orch_base::{Memory, ServerNo, Version};
use crate::recovery::print_recovery;
use crate::refusal::print_refusal;
use crate::words::{mode_word, phase_word, state_word};
use commands::{HookPhase, Line, Lost, StateWord};

fn print_version(version: Version, out: &mut Vec<u8>) -> Result<(), Memory>
    ensures { OnOk result (out.new.items ≡ out.old.items ++ version_text version) }
{
    print_number(u64::from(version.major), out)?;
    out.extend_from_slice(b".")?;
    print_number(u64::from(version.minor), out)?;
    out.extend_from_slice(b".")?;
    print_number(u64::from(version.patch), out)
}

// Two spaces for each level.
#[tactic(auto, using(crate::proofs::Levels::levels_go_on))]
fn print_levels(levels: u32, out: &mut Vec<u8>) -> Result<(), Memory>
    ensures { OnOk result (out.new.items ≡ out.old.items ++ levels_text levels) }
{
    for _ in 0..levels {
        out.extend_from_slice(b"  ")?;
    }
    Ok(())
}

// What is before an instance so far below its tree's root: two spaces for each level except the first, and `+ `.
fn print_depth(depth: u32, out: &mut Vec<u8>) -> Result<(), Memory>
    ensures { OnOk result (out.new.items ≡ out.old.items ++ depth_text depth) }
{
    if depth == 0 {
        return Ok(());
    }
    print_levels(depth - 1, out)?;
    out.extend_from_slice(b"+ ")
}

// [STATE,VERSION,rw|ro]
fn print_marks(
    state: StateWord,
    version: Version,
    read_only: bool,
    out: &mut Vec<u8>,
) -> Result<(), Memory>
    ensures { OnOk result (out.new.items ≡ out.old.items ++ marks_text state version read_only) }
{
    out.extend_from_slice(b" [")?;
    out.extend_from_slice(state_word(state))?;
    out.extend_from_slice(b",")?;
    print_version(version, out)?;
    out.extend_from_slice(b",")?;
    out.extend_from_slice(mode_word(read_only))?;
    out.extend_from_slice(b"]")
}

// ` ahead C`, ` behind C`, ` purged C`, ` unreachable`, ` moved SPOT`, ` not logging` or ` must not`
fn print_lost(why: Lost, names: &PrintedNames<'_>, out: &mut Vec<u8>) -> Result<(), Memory>
    ensures { OnOk result (out.new.items ≡ out.old.items ++ lost_text names.now why) }
{
    match why {
        Lost::Ahead(coord) => {
            out.extend_from_slice(b" ahead ")?;
            print_coord(coord, out)
        }
        Lost::Behind(coord) => {
            out.extend_from_slice(b" behind ")?;
            print_coord(coord, out)
        }
        Lost::Purged(coord) => {
            out.extend_from_slice(b" purged ")?;
            print_coord(coord, out)
        }
        Lost::Unreachable => out.extend_from_slice(b" unreachable"),
        Lost::Moved(spot) => {
            out.extend_from_slice(b" moved ")?;
            print_spot(spot, names, out)
        }
        Lost::NotLogging => out.extend_from_slice(b" not logging"),
        Lost::MustNot => out.extend_from_slice(b" must not"),
    }
}

fn detached_word(detached: bool) -> &'static [u8]
    ensures { result.now ≡ detached_text detached }
{
    if detached { b" detached" } else { b"" }
}

// Two names, each with its number.
fn print_two(first: &[u8], a: u32, second: &[u8], b: u32, out: &mut Vec<u8>) -> Result<(), Memory>
    ensures { OnOk result (out.new.items ≡ out.old.items ++ two_text first.now a second.now b) }
{
    print_counted(first, u64::from(a), out)?;
    print_counted(second, u64::from(b), out)
}

// The replicas of an instance: all, the valid ones, those that replicate, and those that lag.
fn print_counts(
    replicas: u32,
    valid: u32,
    replicating: u32,
    lagging: u32,
    out: &mut Vec<u8>,
) -> Result<(), Memory>
    ensures { OnOk result (out.new.items ≡ out.old.items
        ++ counts_text replicas valid replicating lagging) }
{
    print_two(b" replicas ", replicas, b" valid ", valid, out)?;
    print_two(b" replicating ", replicating, b" lagging ", lagging, out)
}

// The name, a space and the word.
fn print_name_word(
    no: ServerNo,
    word: &[u8],
    names: &PrintedNames<'_>,
    out: &mut Vec<u8>,
) -> Result<(), Memory>
    ensures { OnOk result (out.new.items ≡ out.old.items ++ named_text names.now no word.now) }
{
    print_name(names, no, out)?;
    out.extend_from_slice(b" ")?;
    out.extend_from_slice(word)
}

// hook PHASE TEXT exit E
fn print_hook(phase: HookPhase, text: &str, exit: u8, out: &mut Vec<u8>) -> Result<(), Memory>
    ensures { OnOk result (out.new.items ≡ out.old.items ++ hook_text phase text.now exit) }
{
    out.extend_from_slice(b"hook ")?;
    out.extend_from_slice(phase_word(phase))?;
    out.extend_from_slice(b" ")?;
    out.extend_from_slice(text.as_bytes())?;
    print_counted(b" exit ", u64::from(exit), out)
}

fn print_told(line: &Line, names: &PrintedNames<'_>, out: &mut Vec<u8>) -> Result<(), Memory>
    ensures { OnOk result (out.new.items ≡ out.old.items ++ told_text names.now line.now) }
{
    match line {
        Line::Server(no) => print_name(names, *no, out),
        Line::NoMaster => out.extend_from_slice(b"none"),
        Line::Cluster(label) => out.extend_from_slice(label.as_str().as_bytes()),
        Line::Instance {
            depth,
            no,
            state,
            version,
            read_only,
        } => {
            print_depth(*depth, out)?;
            print_name(names, *no, out)?;
            print_marks(*state, *version, *read_only, out)
        }
        Line::Follows(no, source) => {
            print_name(names, *no, out)?;
            print_at_server(b"<", names, *source, out)
        }
        Line::Promoted(no) => print_at_server(b"promoted ", names, *no, out),
        Line::Successor(no) => print_at_server(b"successor ", names, *no, out),
        Line::Lost { no, why, detached } => {
            print_name(names, *no, out)?;
            print_lost(*why, names, out)?;
            out.extend_from_slice(detached_word(*detached))
        }
        Line::Analysis {
            no,
            code,
            replicas,
            valid,
            replicating,
            lagging,
        } => {
            print_name_word(*no, code.word().as_bytes(), names, out)?;
            print_counts(*replicas, *valid, *replicating, *lagging, out)
        }
        Line::Downtime(no, until) => {
            print_name(names, *no, out)?;
            print_counted(b" until ", until.0, out)
        }
        Line::Candidate { no, rule, until } => {
            print_name_word(*no, rule.word().as_bytes(), names, out)?;
            print_counted(b" until ", until.0, out)
        }
        Line::Acknowledged(count) => print_counted(b"acknowledged ", *count, out),
        Line::Enabled => out.extend_from_slice(b"enabled"),
        Line::Disabled => out.extend_from_slice(b"disabled"),
        Line::Recovery(recovery) => print_recovery(recovery, names, out),
        Line::Begun { no, code, job } => {
            print_name_word(*no, code.word().as_bytes(), names, out)?;
            print_counted(b" begun ", *job, out)
        }
        Line::Refused { no, code, refusal } => {
            print_name_word(*no, code.word().as_bytes(), names, out)?;
            out.extend_from_slice(b" refused ")?;
            print_refusal(refusal, names, out)
        }
        Line::Hook { phase, text, exit } => print_hook(*phase, text.as_str(), *exit, out),
        Line::Unmatched { no, why } => {
            print_name(names, *no, out)?;
            out.extend_from_slice(b" ")?;
            print_unnamed(why, names, out)
        }
    }
}

// A line after an indentation.
fn print_told_line(
    indent: &[u8],
    line: &Line,
    names: &PrintedNames<'_>,
    out: &mut Vec<u8>,
) -> Result<(), Memory>
    ensures { OnOk result (out.new.items ≡ out.old.items
        ++ (indent.now ++ told_text names.now line.now ++ codes "\n")) }
{
    out.extend_from_slice(indent)?;
    print_told(line, names, out)?;
    out.extend_from_slice(b"\n")
}

/// Each line after an indentation, with a newline byte.
pub(crate) fn print_told_lines(
    indent: &[u8],
    lines: &[Line],
    names: &PrintedNames<'_>,
    out: &mut Vec<u8>,
) -> Result<(), Memory>
    ensures { OnOk result (out.new.items ≡ out.old.items
        ++ told_lines indent.now names.now lines.now) }
{
    for line in lines {
        print_told_line(indent, line, names, out)?;
    }
    Ok(())
}
