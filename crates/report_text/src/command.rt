//! The names of commands.

ghost use Rattle.std.specs.Prelude.{◌≡◌, ◌++◌, OnOk};
ghost use Rattle.report_text.specs.Commands.{command_text};

use crate::names::{PrintedNames, print_given};
use crate::orch_base::Memory;
use commands::Command;

/// `command COMMAND`, then the instance and the destination if they are given.
pub(crate) fn print_command(
    command: &Command,
    names: &PrintedNames<'_>,
    out: &mut Vec<u8>,
) -> Result<(), Memory>
    ensures { OnOk result (out.new.items ≡ out.old.items ++ command_text names.now command.now) }
{
    out.extend_from_slice(b"command ")?;
    out.extend_from_slice(command.name.word().as_bytes())?;
    print_given(names, command.i, out)?;
    print_given(names, command.d, out)
}
