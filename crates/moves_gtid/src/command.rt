//! The commands of this crate.

ghost use Rattle.std.specs.Prelude.{◌≡◌};
ghost use Rattle.moves_gtid.specs.Commands.{gtid_command};

use crate::commands::{CommandName, GtidCommand, Planner, Route};

/// Which command by GTIDs a command is; none of any other command.
pub fn gtid_command(name: CommandName) -> Option<GtidCommand>
    ensures { result ≡ gtid_command name }
{
    match Route::of(name).planner() {
        Some(Planner::Gtids(command)) => Some(command),
        Some(Planner::Coordinates(_) | Planner::Paths(_) | Planner::Matches(_)) | None => None,
    }
}
