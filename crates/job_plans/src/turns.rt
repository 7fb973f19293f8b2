//! What a turn changes.

ghost use Rattle.std.specs.Prelude.{◌≡◌, ◌<◌, ◌≤◌, ◌+◌, length, vec_len, vec_capacity, All};
ghost use Rattle.job_plans.specs.Prelude.{IsOneOf, hands_after, restarts, run, with_seen, without};

use crate::orch_base::ServerNo;
use crate::server_model::World;
use crate::server_words_items::Ask;
use operations::Sight;

/// This is the latest that was seen of its server.
pub fn keep(seen: &mut Vec<Sight>, sight: Sight)
    requires room { vec_len seen.old < vec_capacity seen.old }
    ensures items { seen.new.items ≡ with_seen seen.old.items sight.no sight.seen }
    ensures len { vec_len seen.new ≤ vec_len seen.old + 1 }
    ensures capacity { vec_capacity seen.new ≡ vec_capacity seen.old }
{
    let no = sight.no.0;
    seen.retain(|x| !(x.no.0 == no));
    seen.push_reserved(sight);
}

// The server isn't in the hands.
fn let_go(hands: &mut Vec<ServerNo>, no: ServerNo)
    ensures items { hands.new.items ≡ without hands.old.items no }
    ensures len { vec_len hands.new ≤ vec_len hands.old }
    ensures capacity { vec_capacity hands.new ≡ vec_capacity hands.old }
{
    let number = no.0;
    hands.retain(|k| !(k.0 == number));
}

/// The hands after this was asked of a server.
pub fn change_hands(hands: &mut Vec<ServerNo>, no: ServerNo, ask: Ask)
    requires room { vec_len hands.old < vec_capacity hands.old }
    ensures items { hands.new.items ≡ hands_after hands.old.items no ask }
    ensures capacity { vec_capacity hands.new ≡ vec_capacity hands.old }
{
    match ask {
        Ask::Stop(_) => {
            let_go(hands, no);
            hands.push_reserved(no);
        }
        Ask::Start => let_go(hands, no),
        Ask::StartUntil(_) | Ask::Detach | Ask::Reattach | Ask::Reset | Ask::SetReadOnly(_) => {}
    }
}

/// Starts each of the servers. One that isn't reached is passed over.
pub(crate) fn restart(world: &mut World, hands: &[ServerNo])
    requires { All (IsOneOf (length world.old.servers)) hands.now }
    ensures { world.new ≡ run world.old (restarts hands.now) }
{
    match hands {
        [] => {}
        [first, rest @ ..] => {
            let _ = world.ask(*first, Ask::Start);
            restart(world, rest);
        }
    }
}
