//! Permitted relocations go by what was seen to be kept.

ghost use Rattle.std.specs.Prelude.{◌≡◌, None};
ghost use Rattle.move_laws.specs.Prelude.{BookState, Command as ACommand, Moment as AMoment, World};
ghost use Rattle.move_laws.specs.ByKept.{AllGoByKept};
ghost use Rattle.regroup.specs.Plans.{plan_of};
ghost use Rattle.regroup.specs.Permits.{refusal_of};

/// If nothing refuses a relocation, the moves of its plan go by what is kept, at each level of a path. No operation
/// goes up by the coordinate of a server, or on by its own, whose source was seen to have purged that coordinate's
/// file. None goes by GTIDs to a source that was seen to have purged what wasn't seen of the server that moves.
pub fn permitted_relocations_go_by_what_is_kept()
    ensures { (w : World) (b : BookState) (now : AMoment) (given : ACommand) →
        refusal_of w b now given ≡ None → AllGoByKept b (plan_of w b given) }
{}
