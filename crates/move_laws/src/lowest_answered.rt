//! The refusal with the lowest number.

ghost use Rattle.move_laws.specs.Prelude.{Attempt as AnAttempt, AuditState, BookState, Command as ACommand, Moment as AMoment, ServerNo as Number, World};
ghost use Rattle.move_laws.specs.Prelude.{coords_command, gtid_command, pseudo_command, recovery_refusal, regroup_command, takeover_refusal};
ghost use Rattle.move_laws.specs.Prelude.Permits as coords;
ghost use Rattle.move_laws.specs.Prelude.gtids;
ghost use Rattle.move_laws.specs.Prelude.PseudoMatch as matches;
ghost use Rattle.move_laws.specs.Prelude.paths;
ghost use Rattle.std.specs.Prelude.{ℕ};
ghost use Rattle.move_laws.specs.Lowest.{IsAnswer, coords_checks, gtid_checks, match_checks, path_checks, recovery_checks, takeover_checks};

/// What refuses a command is what one of its checks refuses, and none of its checks refuses with a lower number.
/// Nothing refuses it exactly if each of its checks passes. So it is for every command that begins a job, for
/// recoveries and for takeovers, in whatever order the checks are looked at.
pub fn the_lowest_number_is_answered()
    ensures coords { (w : World) (b : BookState) (given : ACommand) →
        IsAnswer (coords_checks w b (coords_command given.name) given)
        (coords.refusal_of w b given) }
    ensures gtids { (w : World) (b : BookState) (given : ACommand) →
        IsAnswer (gtid_checks w b (gtid_command given.name) given)
        (gtids.refusal_of w b given) }
    ensures paths { (w : World) (b : BookState) (now : AMoment) (given : ACommand) →
        IsAnswer (path_checks w b now (regroup_command given.name) given)
        (paths.refusal_of w b now given) }
    ensures matches { (w : World) (b : BookState) (now : AMoment) (every : ℕ) (given : ACommand) →
        IsAnswer (match_checks w b now every (pseudo_command given.name) given)
        (matches.refusal_of w b now every given) }
    ensures recovery { (w : World) (b : BookState) (audit : AuditState) (a : AnAttempt)
        (f : Number) →
        IsAnswer (recovery_checks w b audit a f) (recovery_refusal w b audit a f) }
    ensures takeover { (w : World) (b : BookState) (audit : AuditState) (a : AnAttempt)
        (i d : Number) →
        IsAnswer (takeover_checks w b audit a i d) (takeover_refusal w b audit a i d) }
{}
