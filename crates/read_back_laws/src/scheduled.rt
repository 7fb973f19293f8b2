//! Laws of schedules that read: what is written of turns reads as those turns.

ghost use Rattle.std.specs.Prelude.{◌≡◌, ℕ, All, List, Ok, Option, length};
ghost use Rattle.read_back_laws.specs.Prelude.{HostPort, Turn, each, items_of, turn_data, turn_in};
ghost use Rattle.read_back_laws.specs.Reading.{IsToldTurn, NamesRead, listed_of};

/// What a schedule's list has of turns of one orchestrator, over servers whose names read, reads as those turns, each
/// as one.
pub fn schedules_read()
    ensures { (listed : List (Option HostPort)) (names : List HostPort) (printed : List (List ℕ))
        (ts : List Turn)
        → NamesRead listed names → All (IsToldTurn (length names) printed) ts
        → each (turn_in listed printed 1) (items_of (turn_data names) ts) ≡ Ok (listed_of ts) }
{}
