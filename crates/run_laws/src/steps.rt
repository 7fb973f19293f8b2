//! Laws of single turns and of openings.

ghost use Rattle.run_laws.specs.Ready.{Ready};
ghost use Rattle.run_laws.specs.States.{HeldState, SoundState};
ghost use Rattle.run_laws.specs.SingleTurns.{AtEveryOpening, IsItsPassages, TurnLeaves, TurnMayPass, TurnPassesWell, WhereHeld, WhereReady, WhereSound};
ghost use Rattle.run_laws.specs.Prelude.{IsQuiet};
ghost use Rattle.std.specs.Prelude.{length};

/// Each turn leaves all that is kept speaking of the servers, whatever rows the row store hands back.
pub fn turns_leave_all_ready()
    ensures { WhereReady (λ count. TurnLeaves (Ready count)) }
{}

/// A scenario's run begins so.
pub fn openings_are_ready()
    ensures { AtEveryOpening (λ s. Ready (length s.opening.servers)) }
{}

/// In a state in which all that is kept speaks of its servers a turn is its `Passage`s. Each of them may happen if the
/// state has `Held`, and happens well if it has `Sound`. So it leaves the state, whatever rows the row store hands
/// back.
pub fn turns_are_flown()
    ensures passages { WhereReady (λ count. IsItsPassages) }
    ensures may { WhereHeld TurnMayPass }
    ensures well { WhereSound TurnPassesWell }
    ensures held { WhereHeld (TurnLeaves HeldState) }
    ensures sound { WhereSound (TurnLeaves (λ now. IsQuiet now.world → SoundState now)) }
{}

/// A scenario's run begins with `Held` and `Sound`, whatever rows the row store hands back: the bridges of an opening
/// are those of the servers' statuses.
pub fn openings_are_flights()
    ensures held { AtEveryOpening (λ s. HeldState) }
    ensures sound { AtEveryOpening (λ s. SoundState) }
{}
