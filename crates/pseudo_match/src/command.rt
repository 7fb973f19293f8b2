//! The commands of this crate.

ghost use Rattle.std.specs.Prelude.{◌≡◌};
ghost use Rattle.pseudo_match.specs.Commands.{pseudo_command};

use crate::commands::{CommandName, MatchCommand, Planner, Route};

/// Which of these commands a command is; none of any other command.
pub fn pseudo_command(name: CommandName) -> Option<MatchCommand>
    ensures { result ≡ pseudo_command name }
{
    match Route::of(name).planner() {
        Some(Planner::Matches(command)) => Some(command),
        Some(Planner::Coordinates(_) | Planner::Gtids(_) | Planner::Paths(_)) | None => None,
    }
}
