//! The commands of this crate.

ghost use Rattle.std.specs.Prelude.{◌≡◌};
ghost use Rattle.regroup.specs.Commands.{regroup_command};

use crate::commands::{CommandName, PathCommand, Planner, Route};

/// Which of these commands a command is; none of any other command.
pub fn regroup_command(name: CommandName) -> Option<PathCommand>
    ensures { result ≡ regroup_command name }
{
    match Route::of(name).planner() {
        Some(Planner::Paths(command)) => Some(command),
        Some(Planner::Coordinates(_) | Planner::Gtids(_) | Planner::Matches(_)) | None => None,
    }
}
