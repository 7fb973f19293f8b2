//! The texts of refusals.

ghost use Rattle.std.specs.Prelude.{◌≡◌, ◌++◌, OnOk};
ghost use Rattle.report_text.specs.Refusals.{refusal_name, refusal_text, values_text};

use crate::names::{PrintedNames, print_at_server};
use crate::number::{print_counted, print_number};
use crate::orch_base::Memory;
use commands::Refusal;

fn name_word(refusal: &Refusal) -> &'static [u8]
    ensures { result.now ≡ refusal_name refusal.now }
{
    match refusal {
        Refusal::UnknownInstance => b"UnknownInstance",
        Refusal::SameInstance => b"SameInstance",
        Refusal::Busy(_, _) => b"Busy",
        Refusal::Unreachable(_) => b"Unreachable",
        Refusal::NoSource => b"NoSource",
        Refusal::NotDetached => b"NotDetached",
        Refusal::AlreadyDetached => b"AlreadyDetached",
        Refusal::OtherCluster => b"OtherCluster",
        Refusal::Below => b"Below",
        Refusal::SourceHasNoSource => b"SourceHasNoSource",
        Refusal::NotSibling => b"NotSibling",
        Refusal::NotSameLog => b"NotSameLog",
        Refusal::DestNotLogging => b"DestNotLogging",
        Refusal::SameServerId(_) => b"SameServerId",
        Refusal::VersionLower(_) => b"VersionLower",
        Refusal::GtidOff => b"GtidOff",
        Refusal::Errant(_) => b"Errant",
        Refusal::NoPath => b"NoPath",
        Refusal::NotActionable(_) => b"NotActionable",
        Refusal::GloballyDisabled => b"GloballyDisabled",
        Refusal::Downtimed(_) => b"Downtimed",
        Refusal::FilteredOut => b"FilteredOut",
        Refusal::OpenRecovery(_) => b"OpenRecovery",
        Refusal::Blocked(_, _) => b"Blocked",
        Refusal::NoCandidate => b"NoCandidate",
        Refusal::NotMaster => b"NotMaster",
        Refusal::NotReplica => b"NotReplica",
        Refusal::NotQuiet(_) => b"NotQuiet",
        Refusal::Purged(_, _) => b"Purged",
        Refusal::PseudoOff => b"PseudoOff",
        Refusal::MovedNotLogging(_) => b"MovedNotLogging",
    }
}

// What the refusal speaks of, each value after a space.
fn print_values(
    refusal: &Refusal,
    names: &PrintedNames<'_>,
    out: &mut Vec<u8>,
) -> Result<(), Memory>
    ensures { OnOk result (out.new.items ≡ out.old.items ++ values_text names.now refusal.now) }
{
    match refusal {
        Refusal::Busy(no, job) => {
            print_at_server(b" ", names, *no, out)?;
            print_counted(b" ", *job, out)
        }
        Refusal::Unreachable(no)
        | Refusal::SameServerId(no)
        | Refusal::VersionLower(no)
        | Refusal::MovedNotLogging(no) => print_at_server(b" ", names, *no, out),
        Refusal::Errant(set) => {
            out.extend_from_slice(b" ")?;
            set.as_set().print(out)
        }
        Refusal::NotActionable(code) => {
            out.extend_from_slice(b" ")?;
            out.extend_from_slice(code.word().as_bytes())
        }
        Refusal::Downtimed(until) => print_counted(b" until ", until.0, out),
        Refusal::OpenRecovery(id) => print_counted(b" ", *id, out),
        Refusal::Blocked(id, until) => {
            print_counted(b" ", *id, out)?;
            print_counted(b" until ", until.0, out)
        }
        Refusal::NotQuiet(count) => print_counted(b" ", *count, out),
        Refusal::Purged(no, first) => {
            print_at_server(b" ", names, *no, out)?;
            print_counted(b" ", u64::from(*first), out)
        }
        Refusal::UnknownInstance
        | Refusal::SameInstance
        | Refusal::NoSource
        | Refusal::NotDetached
        | Refusal::AlreadyDetached
        | Refusal::OtherCluster
        | Refusal::Below
        | Refusal::SourceHasNoSource
        | Refusal::NotSibling
        | Refusal::NotSameLog
        | Refusal::DestNotLogging
        | Refusal::GtidOff
        | Refusal::NoPath
        | Refusal::GloballyDisabled
        | Refusal::FilteredOut
        | Refusal::NoCandidate
        | Refusal::NotMaster
        | Refusal::NotReplica
        | Refusal::PseudoOff => Ok(()),
    }
}

/// The refusal's number, its name, and what it speaks of.
pub(crate) fn print_refusal(
    refusal: &Refusal,
    names: &PrintedNames<'_>,
    out: &mut Vec<u8>,
) -> Result<(), Memory>
    ensures { OnOk result (out.new.items ≡ out.old.items ++ refusal_text names.now refusal.now) }
{
    print_number(u64::from(refusal.number()), out)?;
    out.extend_from_slice(b" ")?;
    out.extend_from_slice(name_word(refusal))?;
    print_values(refusal, names, out)
}
