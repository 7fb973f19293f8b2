//! The commands of this crate.

ghost use Rattle.std.specs.Prelude.{◌≡◌};
ghost use Rattle.moves_coords.specs.Commands.{coords_command};

use crate::commands::{CommandName, CoordsCommand, Planner, Route};

/// Which command that moves or changes servers by coordinates a command is; none of any other command.
pub fn coords_command(name: CommandName) -> Option<CoordsCommand>
    ensures { result ≡ coords_command name }
{
    match Route::of(name).planner() {
        Some(Planner::Coordinates(command)) => Some(command),
        Some(Planner::Gtids(_) | Planner::Paths(_) | Planner::Matches(_)) | None => None,
    }
}
