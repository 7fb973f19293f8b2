//! Turns, by floors: what happens to servers, what orchestrator does, and what several orchestrators take turns in.

ghost use Rattle.std.specs.Prelude.{◌≡◌, IfOk};

use crate::orch_base::{Copied, Memory, ServerNo};
use commands::CommandTurn;
use server_words::Link;
use std::alloc::Global;
use std::marker::Model;
use std::mem::size_of;

/// A command turn on the heap, which contracts see as that turn.
pub struct BoxedCommand {
    turn: Box<CommandTurn>,
}

impl Drop for BoxedCommand {
    fn drop(self) {
        let BoxedCommand { turn: _turn } = self;
    }
}

impl Model for BoxedCommand {
    ghost use Rattle.std.specs.Prelude.{box_value};
    ghost use Rattle.commands.specs.declared.turn.CommandTurn.{CommandTurn as ATurn};

    ghost Value = { ATurn };

    ghost view = { λ c. box_value c.turn };
}

impl BoxedCommand {
    /// This turn. `Err` means out of memory.
    pub fn new(alloc: Global, turn: CommandTurn) -> Result<BoxedCommand, Memory>
        ensures { IfOk result (λ c. c ≡ turn) }
    {
        Ok(BoxedCommand {
            turn: Box::new(alloc, turn)?,
        })
    }

    /// The turn.
    pub fn as_turn(&self) -> &CommandTurn
        ensures { result.now ≡ self.now }
    {
        &self.turn
    }

    /// The same turn once more. `Err` means out of memory.
    pub fn copy(&self, alloc: Global) -> Result<BoxedCommand, Memory>
        ensures { IfOk result (λ c. c ≡ self.now) }
    {
        BoxedCommand::new(alloc, self.turn.copy(alloc)?)
    }
}

/// What happens to servers, without orchestrator.
#[derive(Clone, Copy, Debug, PartialEq, Eq)]
pub enum Step {
    /// An ordinary client's transaction of this size, 1 to 1,000,000 bytes.
    Write(ServerNo, u32),
    /// The receiver of a replica reads one step of its source's binary log.
    Fetch(ServerNo),
    /// The applier of a replica executes one step of its relay log.
    Apply(ServerNo),
    /// The server goes down.
    Fail(ServerNo),
    /// A down server is up again.
    Heal(ServerNo),
    /// A link of the server is cut.
    Cut(ServerNo, Link),
    /// A link of the server is joined again.
    Join(ServerNo, Link),
    /// The next file of the server's binary log begins (FLUSH BINARY LOGS).
    Rotate(ServerNo),
    /// The files of the server's binary log before this one are purged (PURGE BINARY LOGS): 1 to 4,294,967,295.
    Purge(ServerNo, u32),
}

/// What orchestrator does.
#[derive(Drop)]
pub enum Act {
    /// This poller, 0 to 63, reads a server into its slot.
    PollRead(u32, ServerNo),
    /// What this poller, 0 to 63, has in its slot is stored.
    PollStore(u32),
    /// A command, with what it is given.
    Command(BoxedCommand),
    /// The job of this number does what is due.
    Job(u64),
    /// Orchestrator analyses its instances, and begins the recoveries that are due.
    Scan,
    /// Orchestrator starts again.
    Restart,
}

/// What happens next.
#[derive(Drop)]
pub enum Turn {
    /// Something happens to a server.
    Step(Step),
    /// So many seconds pass: 0 to 1,000,000,000.
    Tick(u64),
    /// Orchestrator does something.
    Act(Act),
    /// This one of several orchestrators, 1 to 16, does something.
    As(u32, Act),
    /// This one of several orchestrators asks to be the active one.
    Claim(u32),
    /// This one of several orchestrators gives up to be the active one.
    Release(u32),
}

// A scenario of a million turns has as many.
const _: () = prove!(size_of::<Turn>() == 24);

impl Act {
    /// The same once more. `Err` means out of memory.
    pub fn copy(&self, alloc: Global) -> Result<Act, Memory>
        ensures { IfOk result (λ a. a ≡ self.now) }
    {
        Ok(match self {
            Act::PollRead(poller, no) => Act::PollRead(*poller, *no),
            Act::PollStore(poller) => Act::PollStore(*poller),
            Act::Command(command) => Act::Command(command.copy(alloc)?),
            Act::Job(job) => Act::Job(*job),
            Act::Scan => Act::Scan,
            Act::Restart => Act::Restart,
        })
    }
}

impl Copied for Turn {
    fn copy(&self, alloc: Global) -> Result<Turn, Memory> {
        Ok(match self {
            Turn::Step(step) => Turn::Step(*step),
            Turn::Tick(seconds) => Turn::Tick(*seconds),
            Turn::Act(act) => Turn::Act(act.copy(alloc)?),
            Turn::As(node, act) => Turn::As(*node, act.copy(alloc)?),
            Turn::Claim(node) => Turn::Claim(*node),
            Turn::Release(node) => Turn::Release(*node),
        })
    }
}
