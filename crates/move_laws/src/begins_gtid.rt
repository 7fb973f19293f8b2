//! Permitted commands by GTIDs begin.

ghost use Rattle.std.specs.Prelude.{◌≡◌, ℕ, List, None};
ghost use Rattle.move_laws.specs.Prelude.{Begins, BookState, Command as ACommand, Job, World, job_with, leased_by, leases_of, plan_of, refusal_of};

/// If nothing refuses one of the commands by GTIDs, the job of its plan may begin. Its operations have `Held`, and each
/// server that one of them may change is in the command's list. Nobody has a lease of a server of that list. So it is
/// for every book and for servers in any state.
pub fn permitted_gtid_commands_begin()
    ensures { (w : World) (b : BookState) (jobs : List Job) (given : ACommand) (id wait : ℕ) →
        refusal_of w b given ≡ None →
        Begins w jobs (leases_of b.leases) (leased_by b given)
        (job_with id wait (plan_of b given)) }
{}
