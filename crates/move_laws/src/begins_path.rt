//! Permitted commands begin.

ghost use Rattle.std.specs.Prelude.{◌≡◌, ℕ, List, None};
ghost use Rattle.move_laws.specs.Prelude.{Begins, BookState, Command as ACommand, Job, Moment as AMoment, World, job_with, leases_of};
ghost use Rattle.regroup.specs.Permits.{leased_by, refusal_of};
ghost use Rattle.regroup.specs.Plans.{plan_of};

/// If nothing refuses one of these commands, the job of its plan may begin. Its operations have `Held`, and each server
/// that one of them may change is in the command's list. Nobody has a lease of a server of that list. So it is for
/// every book and for servers in any state.
pub fn permitted_relocations_begin()
    ensures { (w : World) (b : BookState) (now : AMoment) (jobs : List Job) (given : ACommand)
        (id wait : ℕ) →
        refusal_of w b now given ≡ None →
        Begins w jobs (leases_of b.leases) (leased_by w b given)
        (job_with id wait (plan_of w b given)) }
{}
