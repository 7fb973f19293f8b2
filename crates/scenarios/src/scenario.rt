//! Scenarios: the servers as they begin, and the turns that follow.

ghost use Rattle.std.specs.Prelude.{◌≡◌, IfOk};

use crate::orch_base::{Listed, Memory, Moment, Rule};
use crate::{Aliases, Answers, Blocks, ClusterFilters, SharedHooks, Turn};
use openings::Opening;
use std::alloc::Global;

/// Turns in order, which contracts see as that list.
pub type Turns = Listed<Turn>;

/// A rule of promotion for each server that has one, by number, which contracts see as that list.
pub type Rules = Listed<Option<Rule>>;

/// A scenario: the servers at first, the moment, which transactions are marks, how many orchestrators there are, the
/// block periods, and the clusters' aliases. Then whose recoveries may begin by themselves and their hooks, and what is
/// known at the opening and how it is promoted. Last the turns that follow.
pub struct Scenario {
    pub opening: Opening,
    /// When it begins: at most 1,000,000,000,000,000.
    pub moment: Moment,
    /// Each transaction whose number is divisible by this is a mark by which logs can be matched; 0 for no marks. At
    /// most 1,000,000.
    pub pseudo: u64,
    /// How many orchestrators share what is kept: 1 to 16.
    pub nodes: u32,
    /// The block period in seconds (RecoveryPeriodBlockSeconds): at most 1,000,000,000.
    pub block: u64,
    /// Clusters with block periods of their own.
    pub blocks: Blocks,
    pub aliases: Aliases,
    pub filters: ClusterFilters,
    pub hooks: SharedHooks,
    /// For each server whether the book knows it at the opening.
    pub known: Answers,
    /// For each server the rule with which it is registered at the opening, if any.
    pub rules: Rules,
    pub turns: Turns,
}

impl Drop for Scenario {
    fn drop(self) {
        let Scenario {
            opening: _opening,
            moment: _,
            pseudo: _,
            nodes: _,
            block: _,
            blocks: _blocks,
            aliases: _aliases,
            filters: _filters,
            hooks: _hooks,
            known: _known,
            rules: _rules,
            turns: _turns,
        } = self;
    }
}

impl Scenario {
    /// The same scenario once more. `Err` means out of memory.
    pub fn copy(&self, alloc: Global) -> Result<Scenario, Memory>
        ensures { IfOk result (λ s. s ≡ self.now) }
    {
        Ok(Scenario {
            opening: self.opening.copy(alloc)?,
            moment: self.moment,
            pseudo: self.pseudo,
            nodes: self.nodes,
            block: self.block,
            blocks: self.blocks.copy(alloc)?,
            aliases: self.aliases.copy(alloc)?,
            filters: self.filters.copy(alloc)?,
            hooks: self.hooks.share()?,
            known: self.known.copy(alloc)?,
            rules: self.rules.copy(alloc)?,
            turns: self.turns.copy_each(alloc)?,
        })
    }
}
