//! Which servers' clusters pass the filters.

ghost use Rattle.std.specs.Prelude.{◌≡◌, ℕ, All, List, false, map, IfOk, OnOk};
ghost use Rattle.cluster_filters.specs.Forms.{forms_of, some_matches, Form};
ghost use Rattle.scenario_reader.specs.AliasTable.{alias_at, answered_by, passes_by, AreKnown, AreUnjudged, IsAnswer};
ghost use Rattle.scenario_reader.specs.Filters.{HavePatterns, AreRead, answered};

use crate::aliases::{alias_of, table_of};
use crate::commands::Answers;
use crate::filters::FilterTexts;
use crate::openings::ServerInit;
use crate::orch_base::Memory;
use cluster_filters::{FilterFault, Filters, Judged};
use scenarios::{Aliases, ClusterFilters, FilterList, Texts};
use std::alloc::Global;
use std::collections::{HashMap, HashSet};

// The filters of texts that have patterns.
fn filters_of(alloc: Global, texts: &Texts) -> Result<Filters, Memory>
    requires { HavePatterns texts.now }
    ensures { IfOk result (λ f. f ≡ forms_of texts.now) }
{
    match Filters::read(alloc, texts.as_slice()) {
        Ok(filters) => Ok(filters),
        Err(FilterFault::BadPattern(_)) => unreachable!(),
        Err(FilterFault::Memory) => Err(Memory),
    }
}

// The clusters of these servers, each once, with their aliases.
fn clusters_of<'a>(
    alloc: Global,
    aliases: &HashMap<&str, &'a str>,
    servers: &'a [ServerInit],
) -> Result<Vec<Judged<'a>>, Memory>
    ensures { IfOk result (λ v. AreUnjudged (alias_at aliases.now) v.items) }
{
    let mut names = HashSet::new(alloc);
    let mut clusters = Vec::new(alloc);
    for server in servers {
        let name = server.settings.cluster.as_str();
        if names.insert(name)? {
            clusters.push(Judged {
                name,
                alias: alias_of(aliases, name),
                matches: false,
            })?;
        }
    }
    Ok(clusters)
}

// The answers by the clusters' labels.
fn by_label<'a>(alloc: Global, clusters: &[Judged<'a>]) -> Result<HashMap<&'a str, bool>, Memory>
    ensures { IfOk result (λ known. (alias : List ℕ → List ℕ) (forms : List Form) →
        All (IsAnswer alias forms) clusters.now → AreKnown known alias forms) }
{
    let mut known = HashMap::new(alloc);
    for cluster in clusters {
        known.insert(cluster.name, cluster.matches)?;
    }
    Ok(known)
}

// The answers for the servers' clusters, by their labels: each filter goes from cluster to cluster.
fn known_of<'a>(
    alloc: Global,
    filters: &Filters,
    aliases: &HashMap<&str, &'a str>,
    servers: &'a [ServerInit],
) -> Result<HashMap<&'a str, bool>, Memory>
    ensures { IfOk result (λ known. AreKnown known (alias_at aliases.now) filters.now) }
{
    let mut clusters = clusters_of(alloc, aliases, servers)?;
    let judged = clusters.as_mut_slice();
    filters.judge(alloc, judged)?;
    let known = by_label(alloc, judged)?;
    Ok(known)
}

// Whether a cluster passes the filters: by its label, if it is known.
fn passes<'a>(
    alloc: Global,
    filters: &Filters,
    aliases: &HashMap<&str, &str>,
    known: &mut HashMap<&'a str, bool>,
    cluster: &'a str,
) -> Result<bool, Memory>
    requires { AreKnown known.old (alias_at aliases.now) filters.now }
    ensures exact { IfOk result (λ b. b
        ≡ some_matches cluster.now (alias_at aliases.now cluster.now) filters.now) }
    ensures known { OnOk result (AreKnown known.new (alias_at aliases.now) filters.now) }
{
    if let Some(passes) = known.get(cluster).copied() {
        return Ok(passes);
    }
    let passes = filters.matches(alloc, cluster, alias_of(aliases, cluster))?;
    known.insert(cluster, passes)?;
    Ok(passes)
}

fn answers(
    alloc: Global,
    filters: &Filters,
    aliases: &HashMap<&str, &str>,
    servers: &[ServerInit],
) -> Result<Answers, Memory>
    ensures { IfOk result (λ a. a
        ≡ map (passes_by (alias_at aliases.now) filters.now) servers.now) }
{
    let mut known = known_of(alloc, filters, aliases, servers)?;
    let mut answers = Vec::with_capacity(alloc, servers.len())?;
    for server in servers {
        let cluster = server.settings.cluster.as_str();
        answers.push(passes(alloc, filters, aliases, &mut known, cluster)?)?;
    }
    Ok(Answers::new(answers))
}

// The answers without a filter: no cluster passes.
fn none_pass(alloc: Global, servers: &[ServerInit]) -> Result<Vec<bool>, Memory>
    ensures { IfOk result (λ v. v.items ≡ map (λ i. false) servers.now) }
{
    servers.iter().map(|_| false).collect(alloc)
}

// The texts, with an answer for each server.
fn answered_list(
    alloc: Global,
    texts: Texts,
    aliases: &HashMap<&str, &str>,
    servers: &[ServerInit],
) -> Result<FilterList, Memory>
    requires { HavePatterns texts }
    ensures { IfOk result (λ l. l ≡ answered_by (alias_at aliases.now) texts servers.now) }
{
    if texts.as_slice().is_empty() {
        let passes = Answers::new(none_pass(alloc, servers)?);
        return Ok(FilterList { texts, passes });
    }
    let filters = filters_of(alloc, &texts)?;
    let passes = answers(alloc, &filters, aliases, servers)?;
    Ok(FilterList { texts, passes })
}

/// The lists of filters with, for each server, whether its cluster passes them. `Memory` also comes for a regular
/// expression past the room that `regex` grants one. The time is that of the aliases, the servers, and the filters for
/// each cluster.
pub fn answered(
    alloc: Global,
    texts: FilterTexts,
    aliases: &Aliases,
    servers: &[ServerInit],
) -> Result<ClusterFilters, Memory>
    requires { AreRead texts }
    ensures { IfOk result (λ f. f ≡ answered texts aliases.now servers.now) }
{
    let aliases = table_of(alloc, aliases.as_slice())?;
    let master = answered_list(alloc, texts.master, &aliases, servers)?;
    let intermediate = answered_list(alloc, texts.intermediate, &aliases, servers)?;
    Ok(ClusterFilters {
        master,
        intermediate,
    })
}
