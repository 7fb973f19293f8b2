//! The lowest refusal: an instance that a command uses isn't known.

ghost use Rattle.std.specs.Prelude.{◌≡◌};
ghost use Rattle.commands.specs.Unknown.{is_missing, is_unknown, takes_any, unknown_of};

use crate::orch_base::ServerNo;
use crate::{Command, CommandName, Refusal};

fn takes_any(name: CommandName) -> bool
    ensures { result ≡ takes_any name }
{
    name.row().arguments.is_any()
}

fn is_missing(needed: bool, tested: bool, no: Option<ServerNo>, known: bool) -> bool
    ensures { result ≡ is_missing needed tested no known }
{
    match no {
        None => needed,
        Some(_) => tested && !known,
    }
}

fn is_unknown(command: Command, i_known: bool, d_known: bool) -> bool
    ensures { result ≡ is_unknown command i_known d_known }
{
    let needs = command.name.needs();
    let uses = command.name.uses();
    let i_tested = uses.i && !takes_any(command.name);
    is_missing(needs.i, i_tested, command.i, i_known)
        || is_missing(needs.d, uses.d, command.d, d_known)
}

/// `UnknownInstance`, exactly if the instance or the destination that the command uses isn't known. That is: one that
/// it needs isn't given, or one that it uses is given and isn't known. `discover` takes any server. `i_known` and
/// `d_known` are whether the given instance and the given destination are known.
pub fn unknown_instance(command: Command, i_known: bool, d_known: bool) -> Option<Refusal>
    ensures { result ≡ unknown_of command i_known d_known }
{
    if is_unknown(command, i_known, d_known) {
        Some(Refusal::UnknownInstance)
    } else {
        None
    }
}
