//! Laws of reading turns, over their definitions alone.

ghost use Rattle.std.specs.Prelude.{◌≡◌, ℕ, List, Ok, Option, length};
ghost use Rattle.scenario_turns.specs.Prelude.{CommandTurn, Data, HostPort, IsCommand, Items};
ghost use Rattle.scenario_turns.specs.Commands.{command_in};
ghost use Rattle.scenario_turns.specs.Expansion.{IsListedTurn};
ghost use Rattle.scenario_turns.specs.Turns.{turn_in};
ghost use Rattle.scenario_turns.specs.declared.expansion.ListedTurn.{ListedTurn};

/// A command turn that is read meets the condition of the calls that take one: what it needs is there, and each number,
/// text and instance is in its range.
pub fn read_commands_are_sound()
    ensures { (names : List (Option HostPort)) (printed : List (List ℕ)) (rest : Items)
        (t : CommandTurn) → length printed ≡ length names → command_in names printed rest ≡ Ok t
        → IsCommand (length names) t }
{}

/// A turn that is read meets the condition of the calls that take one, or means such turns.
pub fn read_turns_are_sound()
    ensures { (names : List (Option HostPort)) (printed : List (List ℕ)) (nodes : ℕ) (d : Data)
        (t : ListedTurn) → length printed ≡ length names → turn_in names printed nodes d ≡ Ok t
        → IsListedTurn (length names) nodes t }
{}
