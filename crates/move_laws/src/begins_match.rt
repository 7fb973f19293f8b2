//! Permitted commands by matches begin.

ghost use Rattle.std.specs.Prelude.{◌≡◌, ℕ, List, None};
ghost use Rattle.move_laws.specs.Prelude.{Begins, BookState, Command as ACommand, Job, Moment as AMoment, World, job_with, leases_of};
ghost use Rattle.move_laws.specs.Prelude.PseudoMatch.{leased_by, refusal_of};
ghost use Rattle.move_laws.specs.Prelude.PseudoMatchPlans.{plan_of};

/// If nothing refuses one of the commands that match logs, the job of its plan may begin. Its operations have `Held`,
/// and each change of source has its match. Each server that one of them may change is in the command's list, and
/// nobody has a lease of a server of that list. So it is for every book and for servers in any state.
pub fn permitted_matches_begin()
    ensures { (w : World) (b : BookState) (jobs : List Job) (now : AMoment) (every : ℕ)
        (given : ACommand) (id wait : ℕ) →
        refusal_of w b now every given ≡ None →
        Begins w jobs (leases_of b.leases) (leased_by b given)
        (job_with id wait (plan_of b every given)) }
{}
