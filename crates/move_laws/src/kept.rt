//! Permitted moves go by what was seen to be kept.

ghost use Rattle.std.specs.Prelude.{◌≡◌, None};
ghost use Rattle.move_laws.specs.Prelude.{BookState, Command as ACommand, World, plan_of as gtid_plan_of, refusal_of as gtid_refusal_of};
ghost use Rattle.move_laws.specs.Prelude.Permits.{refusal_of};
ghost use Rattle.move_laws.specs.Prelude.Plans.{plan_of};
ghost use Rattle.move_laws.specs.ByKept.{AllGoByKept};

/// If nothing refuses a command, the moves of its plan go by what is kept (MySQL 8.0 Reference Manual, "PURGE BINARY
/// LOGS Statement"). No operation goes up by the coordinate of a server, or on by its own, whose source was seen to
/// have purged that coordinate's file. None goes by GTIDs to a source that was seen to have purged what wasn't seen of
/// the server that moves.
pub fn permitted_moves_go_by_what_is_kept()
    ensures coordinates { (w : World) (b : BookState) (given : ACommand) →
        refusal_of w b given ≡ None → AllGoByKept b (plan_of w b given) }
    ensures gtids { (w : World) (b : BookState) (given : ACommand) →
        gtid_refusal_of w b given ≡ None → AllGoByKept b (gtid_plan_of b given) }
{}
