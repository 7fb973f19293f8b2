//! Which clusters a recovery may touch, from the scenario.

ghost use Rattle.std.specs.Prelude.{◌≡◌, IfOk, map, string_bytes};
ghost use Rattle.scenarios.specs.Aliases.{alias_of};
ghost use Rattle.scenarios.specs.Labels.{alias_label, entry_at, text_of};

use crate::labels::{ByLabel, Labelled, is_below};
use crate::orch_base::{Memory, OwnedText, ServerNo};
use commands::Answers;
use std::alloc::Global;
use std::marker::Model;

/// A cluster's label, and the alias by which filters may name the cluster.
pub struct Alias {
    /// 1 to 261 bytes.
    pub cluster: OwnedText,
    /// At most 255 bytes.
    pub alias: OwnedText,
}

impl Drop for Alias {
    fn drop(self) {
        let Alias {
            cluster: _cluster,
            alias: _alias,
        } = self;
    }
}

impl Labelled for Alias {
    ghost label_of = { alias_label };

    fn label(&self) -> &str {
        self.cluster.as_str()
    }

    fn count_below(entries: &[Alias], label: &str) -> usize {
        entries.partition_point(|own| is_below(own.cluster.as_str(), label))
    }
}

// The alias of the entry at this place, if there is one.
fn text_at(aliases: &[Alias], at: Option<usize>) -> &str
    ensures { result.now ≡ text_of (entry_at aliases.now at) }
{
    match at {
        Some(at) => match aliases.get(at) {
            Some(own) => own.alias.as_str(),
            None => "",
        },
        None => "",
    }
}

/// Aliases by the bytes of their clusters' labels, which contracts see as that list. Copies share it.
pub type Aliases = ByLabel<Alias>;

impl ByLabel<Alias> {
    /// The alias of a cluster: empty if it has none. It takes no memory. The time grows with the list's logarithm if
    /// the labels rise, and with the list if they don't.
    #[tactic(auto, using(crate::proofs::Places::alias_found))]
    pub fn alias(&self, cluster: &str) -> &str
        ensures { result.now ≡ alias_of self.now cluster.now }
    {
        text_at(self.as_slice(), self.place(cluster))
    }

    /// The same for a cluster that a server is expected in. It takes constant time if its place was looked up.
    #[tactic(auto, using(crate::proofs::Places::alias_found))]
    pub fn alias_at(&self, server: ServerNo, cluster: &str) -> &str
        ensures { result.now ≡ alias_of self.now cluster.now }
    {
        text_at(self.as_slice(), self.place_at(server, cluster))
    }
}

/// Texts in order, which contracts see as the list of their bytes.
#[derive(Drop)]
pub struct Texts {
    texts: Vec<String>,
}

impl Model for Texts {
    ghost use Rattle.std.specs.Prelude.{List, ℕ, map, string_bytes};

    ghost Value = { List (List ℕ) };

    ghost view = { λ t. map string_bytes t.texts.items };
}

impl Texts {
    /// These texts. It takes no memory.
    pub fn new(texts: Vec<String>) -> Texts
        ensures { result ≡ map string_bytes texts.items }
    {
        Texts { texts }
    }

    /// The texts in order.
    pub fn as_slice(&self) -> &[String]
        ensures { map string_bytes result.now ≡ self.now }
    {
        &self.texts
    }

    /// Gives the texts back. It takes no memory.
    pub fn into_vec(self) -> Vec<String>
        ensures { map string_bytes result.items ≡ self }
    {
        self.texts
    }

    /// The same texts once more. `Err` means out of memory.
    pub fn copy(&self, alloc: Global) -> Result<Texts, Memory>
        ensures { IfOk result (λ t. t ≡ self.now) }
    {
        let texts = copy_texts(alloc, &self.texts)?;
        Ok(Texts { texts })
    }
}

fn copy_texts(alloc: Global, texts: &[String]) -> Result<Vec<String>, Memory>
    ensures { IfOk result (λ copy. map string_bytes copy.items ≡ map string_bytes texts.now) }
{
    let mut copy = Vec::with_capacity(alloc, texts.len())?;
    for text in texts {
        copy.push(String::from_str(alloc, text.as_str())?)?;
    }
    Ok(copy)
}

/// A list of filters over clusters.
#[derive(Drop)]
pub struct FilterList {
    /// The filters as the scenario writes them.
    pub texts: Texts,
    /// For each server whether its cluster passes the list.
    pub passes: Answers,
}

impl FilterList {
    /// The same list once more. `Err` means out of memory.
    pub fn copy(&self, alloc: Global) -> Result<FilterList, Memory>
        ensures { IfOk result (λ l. l ≡ self.now) }
    {
        Ok(FilterList {
            texts: self.texts.copy(alloc)?,
            passes: self.passes.copy(alloc)?,
        })
    }
}

/// Whose recoveries may begin by themselves: the filters over dead masters' clusters, and those over dead intermediate
/// masters' clusters (RecoverMasterClusterFilters, RecoverIntermediateMasterClusterFilters).
#[derive(Drop)]
pub struct ClusterFilters {
    pub master: FilterList,
    pub intermediate: FilterList,
}

impl ClusterFilters {
    /// The same filters once more. `Err` means out of memory.
    pub fn copy(&self, alloc: Global) -> Result<ClusterFilters, Memory>
        ensures { IfOk result (λ f. f ≡ self.now) }
    {
        Ok(ClusterFilters {
            master: self.master.copy(alloc)?,
            intermediate: self.intermediate.copy(alloc)?,
        })
    }
}
