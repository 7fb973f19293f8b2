//! The job of a recovery, whose operations are those that are left of its stage.

ghost use Rattle.std.specs.Prelude.{◌≡◌, ◌<◌, ◌≤◌, ◌+◌, length, vec_capacity};
ghost use Rattle.recovery_turns.specs.Prelude.{CanFollow, ended, hands_after, job_after, next, rest_of, saw_at, with_match};
ghost use Rattle.recovery_turns.specs.Cores.{HasRoomFor, IsAsWide, core_of};

use crate::operations_items::{Match, Op, Sight};
use crate::orch_base::ServerNo;
use crate::server_words_items::Ask;
use job_plans::{Act, change_hands, keep};

/// The job of a recovery, by its parts.
pub(crate) struct JobParts {
    pub(crate) id: u64,
    pub(crate) wait: u32,
    pub(crate) ops: Vec<Op>,
    // How many of them are done.
    pub(crate) done: usize,
    pub(crate) waited: u32,
    pub(crate) seen: Vec<Sight>,
    pub(crate) matches: Vec<Match>,
    // The servers that it stopped and hasn't started.
    pub(crate) hands: Vec<ServerNo>,
}

impl Drop for JobParts {
    fn drop(self) {
        let JobParts {
            id: _,
            wait: _,
            ops: _ops,
            done: _,
            waited: _,
            seen: _seen,
            matches: _matches,
            hands: _hands,
        } = self;
    }
}

impl JobParts {
    // The operation is done.
    fn pass(&mut self)
        requires { self.old.done < length self.old.ops.items }
        ensures core { core_of self.new ≡ next (core_of self.old) (rest_of (core_of self.old)) }
        ensures wide { IsAsWide self.old self.new }
    {
        self.done += 1;
        self.waited = 0;
    }

    // This was seen of a server.
    pub(crate) fn see(&mut self, sight: Sight)
        requires within { self.old.done ≤ length self.old.ops.items }
        requires room { length self.old.seen.items < vec_capacity self.old.seen }
        ensures core { core_of self.new ≡ saw_at (core_of self.old) sight.no sight.seen }
        ensures done { self.new.done ≡ self.old.done }
        ensures ops { self.new.ops ≡ self.old.ops }
        ensures wide { IsAsWide self.old self.new }
    {
        keep(&mut self.seen, sight);
    }

    // The operation is done, and this was seen.
    fn pass_with(&mut self, sight: Sight)
        requires due { self.old.done < length self.old.ops.items }
        requires room { length self.old.seen.items < vec_capacity self.old.seen }
        ensures core { core_of self.new ≡ next (saw_at (core_of self.old) sight.no sight.seen)
            (rest_of (core_of self.old)) }
        ensures wide { IsAsWide self.old self.new }
    {
        self.see(sight);
        self.pass();
    }

    // The operation is done, and this match was found.
    fn pass_found(&mut self, found: Match)
        requires due { self.old.done < length self.old.ops.items }
        requires room { length self.old.matches.items < vec_capacity self.old.matches }
        ensures core { core_of self.new ≡ next (with_match (core_of self.old) found)
            (rest_of (core_of self.old)) }
        ensures wide { IsAsWide self.old self.new }
    {
        self.matches.push_reserved(found);
        self.pass();
    }

    // This was seen in one more wait.
    fn wait_with(&mut self, sight: Sight)
        requires within { self.old.done ≤ length self.old.ops.items }
        requires wait { self.old.waited + 1 < self.old.wait }
        requires room { length self.old.seen.items < vec_capacity self.old.seen }
        ensures core { core_of self.new ≡ record (saw_at (core_of self.old) sight.no sight.seen)
            { waited = self.old.waited + 1 } }
        ensures wide { IsAsWide self.old self.new }
    {
        self.see(sight);
        self.waited += 1;
    }

    // The operation is done: this was asked of a server.
    fn pass_asking(&mut self, no: ServerNo, ask: Ask)
        requires due { self.old.done < length self.old.ops.items }
        requires room { length self.old.hands.items < vec_capacity self.old.hands }
        ensures core { core_of self.new ≡ record (next (core_of self.old)
            (rest_of (core_of self.old))) { hands = hands_after self.old.hands.items no ask } }
        ensures wide { IsAsWide self.old self.new }
    {
        change_hands(&mut self.hands, no, ask);
        self.pass();
    }

    /// No operation is left, and nothing is in the hands.
    pub(crate) fn end(&mut self)
        requires { self.old.done ≤ length self.old.ops.items }
        ensures core { core_of self.new ≡ ended (core_of self.old) }
        ensures wide { IsAsWide self.old self.new }
    {
        self.done = self.ops.len();
        self.hands.clear();
    }

    /// The job after what was looked up on it. Nothing is done to servers.
    pub(crate) fn follow(&mut self, act: Act)
        requires within { self.old.done ≤ length self.old.ops.items }
        requires can { CanFollow (core_of self.old) act }
        requires room { HasRoomFor self.old }
        ensures core { core_of self.new ≡ job_after (core_of self.old) act }
        ensures wide { IsAsWide self.old self.new }
    {
        match act {
            Act::Fail | Act::End => self.end(),
            Act::Pass | Act::Attach(_, _, _, _) | Act::Auto(_, _) => self.pass(),
            Act::Keep(sight) => self.pass_with(sight),
            Act::Found(found) => self.pass_found(found),
            Act::Wait(sight) => self.wait_with(sight),
            Act::Ask(no, ask) => self.pass_asking(no, ask),
        }
    }
}
