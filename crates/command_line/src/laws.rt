//! Laws of accepted command lines, over their definitions alone.

ghost use Rattle.std.specs.Prelude.{◌≡◌, ℕ, List, Ok};
ghost use Rattle.command_line.specs.declared.parts.Places.{Places};
ghost use Rattle.command_line.specs.Places.{places_of};
ghost use Rattle.command_line.specs.Taken.{AreTaken};

/// An accepted command line names what the program itself does or a command. Each option that the command needs is
/// there. Each number, text and pattern is in its range, and what is to be drawn is within its bound. A command of
/// which a plan is asked for has one. The servers after it are asked for of a command alone, and neither with its plan
/// nor with the tables.
pub fn taken_words_are_sound()
    ensures { (words : List (List ℕ)) (p : Places) → places_of words ≡ Ok p → AreTaken p }
{}
