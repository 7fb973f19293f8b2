//! Permits, lists and plans go by the book.

ghost use Rattle.std.specs.Prelude.{◌≡◌, ℕ};
ghost use Rattle.move_laws.specs.Prelude.{Attempt as AnAttempt, AuditState, BookState, Command as ACommand, Moment as AMoment, ServerNo as Number, World};
ghost use Rattle.move_laws.specs.Prelude.{recovery_refusal, takeover_refusal};
ghost use Rattle.move_laws.specs.Prelude.Permits as coords;
ghost use Rattle.move_laws.specs.Prelude.Plans as coords_plans;
ghost use Rattle.move_laws.specs.Prelude.gtids;
ghost use Rattle.move_laws.specs.Prelude.PseudoMatch as matches;
ghost use Rattle.move_laws.specs.Prelude.path_plans;
ghost use Rattle.move_laws.specs.Prelude.paths;
ghost use Rattle.move_laws.specs.Settings.{SameSettings};

/// What refuses a command, a recovery or a takeover is the same over all servers with the same settings, whatever their
/// states are. Whether they are up, what they have executed and whom they follow is asked only of the book.
pub fn permits_go_by_the_book()
    ensures coords { (w v : World) (b : BookState) (given : ACommand) → SameSettings w v →
        coords.refusal_of w b given ≡ coords.refusal_of v b given }
    ensures gtids { (w v : World) (b : BookState) (given : ACommand) → SameSettings w v →
        gtids.refusal_of w b given ≡ gtids.refusal_of v b given }
    ensures paths { (w v : World) (b : BookState) (now : AMoment) (given : ACommand) →
        SameSettings w v → paths.refusal_of w b now given ≡ paths.refusal_of v b now given }
    ensures matches { (w v : World) (b : BookState) (now : AMoment) (every : ℕ) (given : ACommand) →
        SameSettings w v →
        matches.refusal_of w b now every given ≡ matches.refusal_of v b now every given }
    ensures recovery { (w v : World) (b : BookState) (audit : AuditState) (a : AnAttempt)
        (f : Number) →
        SameSettings w v → recovery_refusal w b audit a f ≡ recovery_refusal v b audit a f }
    ensures takeover { (w v : World) (b : BookState) (audit : AuditState) (a : AnAttempt)
        (i d : Number) →
        SameSettings w v → takeover_refusal w b audit a i d ≡ takeover_refusal v b audit a i d }
{}

/// So are the lists of servers whose leases are taken, and the plans. By GTIDs and by matches neither asks the servers
/// for anything.
pub fn plans_go_by_the_book()
    ensures coords { (w v : World) (b : BookState) (given : ACommand) → SameSettings w v →
        coords_plans.plan_of w b given ≡ coords_plans.plan_of v b given }
    ensures lists { (w v : World) (b : BookState) (given : ACommand) → SameSettings w v →
        paths.leased_by w b given ≡ paths.leased_by v b given }
    ensures paths { (w v : World) (b : BookState) (given : ACommand) → SameSettings w v →
        path_plans.plan_of w b given ≡ path_plans.plan_of v b given }
{}
