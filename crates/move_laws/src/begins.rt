//! Permitted commands by coordinates begin.

ghost use Rattle.std.specs.Prelude.{◌≡◌, ℕ, List, None};
ghost use Rattle.move_laws.specs.Prelude.{Begins, BookState, Command as ACommand, Job, World, job_with, leases_of};
ghost use Rattle.move_laws.specs.Prelude.Permits.{leased_by, refusal_of};
ghost use Rattle.move_laws.specs.Prelude.Plans.{plan_of};

/// If nothing refuses one of the commands by coordinates, the job of its plan may begin. Its operations have `Held`,
/// and each server that one of them may change is in the command's list. Nobody has a lease of a server of that list.
/// So it is for every book and for servers in any state.
pub fn permitted_commands_begin()
    ensures { (w : World) (b : BookState) (jobs : List Job) (given : ACommand) (id wait : ℕ) →
        refusal_of w b given ≡ None →
        Begins w jobs (leases_of b.leases) (leased_by b given)
        (job_with id wait (plan_of w b given)) }
{}
