//! The texts of causes.

ghost use Rattle.std.specs.Prelude.{◌≡◌, ◌++◌, OnOk};
ghost use Rattle.report_text.specs.Causes.{cause_text, details_text, server_of, source_text, spot_text, spots_text, unnamed_text};

use crate::binlog_coords_items::print_coord;
use crate::names::{PrintedNames, print_given, print_name};
use crate::number::print_counted;
use crate::orch_base::{Memory, ServerNo, SourceState};
use commands::Cause;
use server_words::Spot;

/// The position of a server.
pub(crate) fn print_spot(
    spot: Spot,
    names: &PrintedNames<'_>,
    out: &mut Vec<u8>,
) -> Result<(), Memory>
    ensures { OnOk result (out.new.items ≡ out.old.items ++ spot_text names.now spot) }
{
    match spot {
        Spot::At(source, coord) => {
            print_name(names, source, out)?;
            out.extend_from_slice(b" ")?;
            print_coord(coord, out)
        }
        Spot::OwnEnd(coord) => {
            out.extend_from_slice(b"end ")?;
            print_coord(coord, out)
        }
        Spot::Nowhere => out.extend_from_slice(b"nowhere"),
    }
}

fn print_source(
    source: SourceState,
    names: &PrintedNames<'_>,
    out: &mut Vec<u8>,
) -> Result<(), Memory>
    ensures { OnOk result (out.new.items ≡ out.old.items ++ source_text names.now source) }
{
    match source {
        SourceState::Without => out.extend_from_slice(b"none"),
        SourceState::Attached(source) => print_name(names, source, out),
        SourceState::Detached(source) => {
            print_name(names, source, out)?;
            out.extend_from_slice(b" detached")
        }
    }
}

// `expected SPOT found SPOT`
fn print_spots(
    expected: Spot,
    found: Spot,
    names: &PrintedNames<'_>,
    out: &mut Vec<u8>,
) -> Result<(), Memory>
    ensures { OnOk result (out.new.items ≡ out.old.items ++ spots_text names.now expected found) }
{
    out.extend_from_slice(b" expected ")?;
    print_spot(expected, names, out)?;
    out.extend_from_slice(b" found ")?;
    print_spot(found, names, out)
}

// The server that the cause speaks of.
fn server_of(cause: &Cause) -> Option<ServerNo>
    ensures { result ≡ server_of cause.now }
{
    match cause {
        Cause::Unreachable(no)
        | Cause::WaitSpent(no)
        | Cause::Interfered { no, .. }
        | Cause::Running(no)
        | Cause::Loop(no)
        | Cause::Errant(no, _)
        | Cause::Moved(no, _)
        | Cause::Reachable(no)
        | Cause::Purged(no, _)
        | Cause::NoMark(no)
        | Cause::Mismatch(no, _) => Some(*no),
        Cause::NoCandidate | Cause::HookFailed { .. } => None,
    }
}

// What else it speaks of, each value after a space.
fn print_details(cause: &Cause, names: &PrintedNames<'_>, out: &mut Vec<u8>) -> Result<(), Memory>
    ensures { OnOk result (out.new.items ≡ out.old.items ++ details_text names.now cause.now) }
{
    match cause {
        Cause::Interfered {
            expected,
            found,
            ..
        } => print_spots(*expected, *found, names, out),
        Cause::Errant(_, set) => {
            out.extend_from_slice(b" ")?;
            set.as_set().print(out)
        }
        Cause::Moved(_, source) => {
            out.extend_from_slice(b" ")?;
            print_source(*source, names, out)
        }
        Cause::Purged(_, first) => print_counted(b" ", u64::from(*first), out),
        Cause::Mismatch(_, entry) => print_counted(b" ", *entry, out),
        Cause::HookFailed { number, exit } => {
            print_counted(b" ", u64::from(*number), out)?;
            print_counted(b" exit ", u64::from(*exit), out)
        }
        Cause::Unreachable(_)
        | Cause::WaitSpent(_)
        | Cause::Running(_)
        | Cause::Loop(_)
        | Cause::Reachable(_)
        | Cause::NoCandidate
        | Cause::NoMark(_) => Ok(()),
    }
}

/// The cause's name, the server and what else it speaks of.
pub(crate) fn print_cause(
    cause: &Cause,
    names: &PrintedNames<'_>,
    out: &mut Vec<u8>,
) -> Result<(), Memory>
    ensures { OnOk result (out.new.items ≡ out.old.items ++ cause_text names.now cause.now) }
{
    out.extend_from_slice(cause.name().word().as_bytes())?;
    print_given(names, server_of(cause), out)?;
    print_details(cause, names, out)
}

/// The same without the server.
pub(crate) fn print_unnamed(
    cause: &Cause,
    names: &PrintedNames<'_>,
    out: &mut Vec<u8>,
) -> Result<(), Memory>
    ensures { OnOk result (out.new.items ≡ out.old.items ++ unnamed_text names.now cause.now) }
{
    out.extend_from_slice(cause.name().word().as_bytes())?;
    print_details(cause, names, out)
}
