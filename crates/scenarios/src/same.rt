//! Whether scenarios are equal.

ghost use Rattle.std.specs.Prelude.{◌≡◌, ◌↔◌, IsTrue, map, string_bytes};

use crate::orch_base::Same;
use crate::{Alias, ClusterFilters, FilterList, Scenario, Texts};

fn same_text(text: &str, other: &str) -> bool
    ensures { IsTrue result ↔ (text.now ≡ other.now) }
{
    text.as_bytes() == other.as_bytes()
}

fn same_texts(texts: &[String], others: &[String]) -> bool
    ensures { IsTrue result ↔ (map string_bytes texts.now ≡ map string_bytes others.now) }
{
    if texts.len() != others.len() {
        return false;
    }
    for (n, text) in texts.iter().enumerate() {
        if !same_text(text.as_str(), others[n].as_str()) {
            return false;
        }
    }
    true
}

impl Same for Alias {
    fn is_same(&self, other: &Alias) -> bool {
        self.cluster.is_same(&other.cluster) && self.alias.is_same(&other.alias)
    }
}

impl Texts {
    /// Whether the texts are equal, byte for byte. It takes no memory.
    pub fn is_same(&self, other: &Texts) -> bool
        ensures { IsTrue result ↔ (self.now ≡ other.now) }
    {
        same_texts(self.as_slice(), other.as_slice())
    }
}

impl FilterList {
    /// Whether the filters and their answers are equal. It takes no memory.
    pub fn is_same(&self, other: &FilterList) -> bool
        ensures { IsTrue result ↔ (self.now ≡ other.now) }
    {
        self.texts.is_same(&other.texts) && self.passes.is_same(&other.passes)
    }
}

impl ClusterFilters {
    /// Whether both lists are equal. It takes no memory.
    pub fn is_same(&self, other: &ClusterFilters) -> bool
        ensures { IsTrue result ↔ (self.now ≡ other.now) }
    {
        self.master.is_same(&other.master) && self.intermediate.is_same(&other.intermediate)
    }
}

impl Scenario {
    /// Whether the scenarios are equal. It takes no memory, and time in their size.
    pub fn same(&self, other: &Scenario) -> bool
        ensures { IsTrue result ↔ (self.now ≡ other.now) }
    {
        (self.opening.same(&other.opening) && self.moment == other.moment)
            && (self.pseudo == other.pseudo && self.nodes == other.nodes)
            && (self.block == other.block && self.blocks.is_same(&other.blocks))
            && self.hooks.is_same(&other.hooks)
            && (self.aliases.is_same(&other.aliases) && self.filters.is_same(&other.filters))
            && (self.known.is_same(&other.known) && self.rules.is_same(&other.rules))
            && self.turns.is_same(&other.turns)
    }
}
