//! The desk: a run, and what is left of its scenario's turns.

ghost use Rattle.std.specs.Prelude.{◌≡◌, ◌<◌, ◌≤◌, ◌+◌, ◌∷◌, ◌++◌, ◌↔◌, [], All, IsTrue, IfOk, OnOk, OnErr, true, false, IfSome, MatchOption, length};
ghost use Rattle.orch_core.specs.Due.{IsDue};
ghost use Rattle.orch_core.specs.Scenarios.Scenarios.{IsScenario};
ghost use Rattle.orch_core.specs.Replies.{reply_of};
ghost use Rattle.orch_core.specs.Scenarios.ValidTurns.{IsTurn, NamesOneOf};
ghost use Rattle.live_desk.specs.Entries.{Stands, drives, entries_of, is_of, turns_in};
ghost use Rattle.live_desk.specs.Desks.{IsDesk, IsIdle, IsNext, MayTake, made, taken};

use crate::cursor::{is_command, moved, next_at, turn_at};
use crate::orch_base::{Memory, ServerNo};
use crate::pass::Pass;
use crate::rows::DeskRows;
use crate::scenarios_items::Scenario;
use crate::turns::{Reply, Turn};
use orch_core::{Orch, TurnFault};
use std::alloc::Global;
use std::marker::Model;

/// A run of a scenario, who took which of its turns, and what is left of the scenario's turns.
#[derive(Drop)]
pub struct Desk {
    scenario: Scenario,
    wait: u32,
    rows: DeskRows,
    orch: Orch,
    // who took the turns of the journal
    numbers: Vec<u32>,
    // the index of the next command, and of the next turn that is none
    command: usize,
    listed: usize,
}

impl Model for Desk {
    ghost use Rattle.live_desk.specs.Desks.{DeskState};

    ghost Value = { DeskState };

    ghost use Rattle.live_desk.specs.DeskBy.{desk_of, KeepsDesk};

    ghost view = { desk_of };

    ghost invariant = { KeepsDesk };
}

// The caller and the driver take the turns that are no command in their order.
fn drives(by: u32, t: &Turn) -> bool
    ensures { result ≡ drives by t.now }
{
    !is_command(t) && by <= 1
}

impl Desk {
    /// The opening state without kept rows, and an empty journal. `Err` means out of memory.
    pub fn make(alloc: Global, s: &Scenario, wait: u32) -> Result<Desk, Memory>
        requires { IsScenario s.now }
        ensures { IfOk result (λ d. d ≡ made s.now wait) }
    {
        let scenario = s.copy(alloc)?;
        let mut rows = DeskRows::new(alloc)?;
        let orch = match Orch::make(alloc, s, &mut rows, wait) {
            Ok(orch) => orch,
            Err(TurnFault::Memory) => return Err(Memory),
            Err(TurnFault::Keeper) => unreachable!(),
        };
        let command = next_at(s.turns.as_slice(), 0, true);
        let listed = next_at(s.turns.as_slice(), 0, false);
        Ok(Desk {
            scenario,
            wait,
            rows,
            orch,
            numbers: Vec::new(alloc),
            command,
            listed,
        })
    }

    /// What the desk keeps: its state and every reply in its journal are those of its scenario's run over the journal's
    /// turns. The commands in the journal are the first of the scenario's. Compare the turns that the driver and the
    /// caller took with the scenario's turns that are no command: one list begins with the other.
    pub fn keeps(&self)
        ensures { IsDesk self.now }
    {
        let _wait = self.wait;
    }

    /// The scenario's first command that hasn't been taken; none if none is left.
    pub fn next_command(&self) -> Option<&Turn>
        ensures next { MatchOption result (self.now.commands ≡ [])
            (λ t. IsNext t.now self.now.commands) }
        ensures turn { IfSome result (λ t. IsTurn (length self.now.scenario.opening.servers)
            t.now) }
        ensures named { IfSome result (λ t. NamesOneOf self.now.scenario.nodes t.now) }
        ensures kind { IfSome result (λ t. is_of true t.now ≡ true) }
    {
        let turns = self.scenario.turns.as_slice();
        turn_at(turns, self.command, true)
    }

    /// The scenario's first turn that is no command and hasn't been taken; none if none is left.
    pub fn next_listed(&self) -> Option<&Turn>
        ensures next { MatchOption result (self.now.listed ≡ [])
            (λ t. IsNext t.now self.now.listed) }
        ensures turn { IfSome result (λ t. IsTurn (length self.now.scenario.opening.servers)
            t.now) }
        ensures named { IfSome result (λ t. NamesOneOf self.now.scenario.nodes t.now) }
        ensures kind { IfSome result (λ t. is_of false t.now ≡ true) }
    {
        let turns = self.scenario.turns.as_slice();
        turn_at(turns, self.listed, false)
    }

    /// The server with the least number among those that had no poll-read turn yet. If each had one, the server whose
    /// last poll-read turn is the earliest.
    pub fn due(&self) -> ServerNo
        ensures { IsDue (length self.now.scenario.opening.servers)
            (turns_in self.now.entries) result.0 }
    {
        self.orch.due()
    }

    /// Whether it is the desk of this scenario, whose jobs wait so often.
    pub fn is_of(&self, s: &Scenario, wait: u32) -> bool
        ensures { IsTrue result ↔ ((self.now.scenario ≡ s.now) × (self.now.wait ≡ wait)) }
    {
        self.scenario.same(s) && self.wait == wait
    }

    /// Whether all of the scenario's turns are taken and no job is unended.
    pub fn idle(&self) -> bool
        ensures { IsTrue result ↔ IsIdle self.now }
    {
        self.next_command().is_none()
            && self.next_listed().is_none()
            && self.orch.open_jobs().is_empty()
    }

    // What a desk is made of: the run, the kept rows, and who took its turns.
    pub(crate) fn into_parts(self) -> (Orch, DeskRows, Vec<u32>)
        ensures orch { result.0 ≡ self.run }
        ensures rows { result.1 ≡ self.rows }
        ensures entries { self.entries ≡ entries_of result.2.items result.0.journal }
        ensures numbers { length result.2.items ≡ length result.0.journal }
        ensures desk { IsDesk self }
    {
        (self.orch, self.rows, self.numbers)
    }

    /// The servers, in name order.
    pub(crate) fn order(&self) -> &[ServerNo]
        ensures within { All (λ n. n.0 < length self.now.scenario.opening.servers) result.now }
        ensures some { 0 < length result.now }
    {
        self.orch.order()
    }

    /// One turn, which joins the journal with the pass's number and its reply. The pass has then seen the whole
    /// journal. After Memory nothing has changed. `Err` means out of memory.
    pub fn turn(&mut self, alloc: Global, pass: &mut Pass, t: Turn) -> Result<Reply, Memory>
        requires turn { IsTurn (length self.old.scenario.opening.servers) t }
        requires named { NamesOneOf self.old.scenario.nodes t }
        requires may { MayTake self.old pass.old.by t }
        ensures reply { IfOk result (λ r. r ≡ reply_of self.old.run.state t) }
        ensures ok { OnOk result (self.new ≡ taken self.old pass.old.by t) }
        ensures err { OnErr result (self.new ≡ self.old) }
        ensures by { pass.new.by ≡ pass.old.by }
        ensures seen { OnOk result (pass.new.seen ≡ length self.new.entries) }
        ensures mine { OnOk result
            (pass.new.mine.items ≡ pass.old.mine.items ++ length self.new.entries ∷ []) }
        ensures later { OnOk result
            (Stands pass.old.by pass.old.seen pass.old.mine.items self.old.entries
            → pass.old.seen < length self.new.entries) }
        ensures still { OnErr result ((pass.new.seen ≡ pass.old.seen)
            × (pass.new.mine.items ≡ pass.old.mine.items)) }
        ensures stands { Stands pass.old.by pass.old.seen pass.old.mine.items self.old.entries
            → Stands pass.new.by pass.new.seen pass.new.mine.items self.new.entries }
    {
        let by = pass.by;
        let command = is_command(&t);
        let listed = drives(by, &t);
        self.numbers.reserve(1)?;
        pass.mine.reserve(1)?;
        let reply = match self.orch.turn(alloc, &mut self.rows, t) {
            Ok(reply) => reply,
            Err(TurnFault::Memory) => return Err(Memory),
            Err(TurnFault::Keeper) => unreachable!(),
        };
        let turns = self.scenario.turns.as_slice();
        self.numbers.push_reserved(by);
        self.command = moved(turns, self.command, true, command);
        self.listed = moved(turns, self.listed, false, listed);
        pass.seen = self.numbers.len() as u64;
        pass.mine.push_reserved(pass.seen);
        Ok(reply)
    }
}
