//! The lines of recoveries.

ghost use Rattle.std.specs.Prelude.{◌≡◌, ◌++◌, OnOk};
ghost use Rattle.report_text.specs.Recoveries.{begun_text, ended_text, ending_text, recovery_text};

use crate::names::{PrintedNames, print_at_server};
use crate::number::print_counted;
use crate::orch_base::{Ending, Memory, Moment};
use crate::words::acked_word;
use commands::RecoveryLine;

fn print_ended(ended: Option<Moment>, out: &mut Vec<u8>) -> Result<(), Memory>
    ensures { OnOk result (out.new.items ≡ out.old.items ++ ended_text ended) }
{
    match ended {
        Some(moment) => print_counted(b" ended ", moment.0, out),
        None => Ok(()),
    }
}

// ` open`, or when it ended and how
fn print_ending(
    ended: Option<Moment>,
    outcome: Ending,
    names: &PrintedNames<'_>,
    out: &mut Vec<u8>,
) -> Result<(), Memory>
    ensures { OnOk result (out.new.items ≡ out.old.items ++ ending_text names.now ended outcome) }
{
    match outcome {
        Ending::Unended => out.extend_from_slice(b" open"),
        Ending::Promoted(no) => {
            print_ended(ended, out)?;
            print_at_server(b" promoted ", names, no, out)
        }
        Ending::Failed(cause) => {
            print_ended(ended, out)?;
            out.extend_from_slice(b" failed ")?;
            out.extend_from_slice(cause.word().as_bytes())
        }
        Ending::Interrupted => {
            print_ended(ended, out)?;
            out.extend_from_slice(b" interrupted")
        }
    }
}

// recovery ID CLUSTER KIND FAILED begun T
fn print_begun(r: &RecoveryLine, names: &PrintedNames<'_>, out: &mut Vec<u8>) -> Result<(), Memory>
    ensures { OnOk result (out.new.items ≡ out.old.items ++ begun_text names.now r.now) }
{
    print_counted(b"recovery ", r.id, out)?;
    out.extend_from_slice(b" ")?;
    out.extend_from_slice(r.cluster.as_str().as_bytes())?;
    out.extend_from_slice(b" ")?;
    out.extend_from_slice(r.kind.word().as_bytes())?;
    print_at_server(b" ", names, r.failed, out)?;
    print_counted(b" begun ", r.begun.0, out)
}

/// The line of a recovery: what is recovered, when it began, when and how it ended, and whether it is acknowledged.
pub(crate) fn print_recovery(
    r: &RecoveryLine,
    names: &PrintedNames<'_>,
    out: &mut Vec<u8>,
) -> Result<(), Memory>
    ensures { OnOk result (out.new.items ≡ out.old.items ++ recovery_text names.now r.now) }
{
    print_begun(r, names, out)?;
    print_ending(r.ended, r.outcome, names, out)?;
    out.extend_from_slice(b" ")?;
    out.extend_from_slice(acked_word(r.acked))
}
