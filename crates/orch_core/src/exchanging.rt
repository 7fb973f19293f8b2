//! What one turn does beside what orchestrator knows: an exchange with the servers and its reply, a later moment, and
//! what a poll answers.

ghost use Rattle.std.specs.Prelude.{◌≡◌, ◌∷◌, [], length, true};
ghost use Rattle.orch_core.specs.Replies.{read_reply, step_reply};
ghost use Rattle.orch_core.specs.TurnExchanges.{exchange_of, later};
ghost use Rattle.orch_core.specs.Prelude.{IsStep, is_plain, run};

use crate::Reply;
use crate::instance_keeper_items::Observation;
use crate::orch_base::Moment;
use crate::server_model::World;
use crate::turns::Step;

/// The last moment: the moment never passes it.
const LAST_MOMENT: u64 = 1 << 63;

/// The moment, so many seconds later.
pub(crate) fn later(now: Moment, seconds: u64) -> Moment
    ensures { result.0 ≡ later now.0 seconds }
{
    Moment(now.0.saturating_add(seconds).min(LAST_MOMENT))
}

/// Does the exchange that a step is, and returns its reply.
pub(crate) fn exchange(world: &mut World, step: Step) -> Reply
    requires { IsStep (length world.old.servers) step }
    ensures reply { result ≡ step_reply world.old step }
    ensures plain { is_plain result ≡ true }
    ensures world { world.new ≡ run world.old (exchange_of step ∷ []) }
    ensures servers { length world.new.servers ≡ length world.old.servers }
{
    match step {
        Step::Write(no, size) => Reply::Write(world.write(no, size)),
        Step::Fetch(no) => Reply::Fetch(world.fetch(no)),
        Step::Apply(no) => Reply::Apply(world.apply(no)),
        Step::Fail(no) => {
            world.fail(no);
            Reply::Done
        }
        Step::Heal(no) => {
            world.heal(no);
            Reply::Done
        }
        Step::Cut(no, link) => {
            world.cut_link(no, link);
            Reply::Done
        }
        Step::Join(no, link) => {
            world.join_link(no, link);
            Reply::Done
        }
        Step::Rotate(no) => Reply::Rotate(world.rotate(no)),
        Step::Purge(no, file) => Reply::Purge(world.purge(no, file)),
    }
}

/// What a poll answers that made this reading.
pub(crate) fn read_reply(o: &Observation) -> Reply
    ensures reply { result ≡ read_reply o.now }
    ensures plain { is_plain result ≡ true }
{
    if o.seen.is_some() {
        Reply::Read(o.read)
    } else {
        Reply::ReadUnreachable(o.read)
    }
}
