//! One filter of a list.

ghost use Rattle.std.specs.Prelude.{◌≡◌, true, false, IfOk, IfErr, OnOk, IfSome, map, option_map};
ghost use Rattle.cluster_filters.specs.Faults.{bad_place};
ghost use Rattle.cluster_filters.specs.Forms.{behind, form_of, form_seen, form_matches, has_pattern};
ghost use Rattle.cluster_filters.specs.Judging.{form_sought, judged_by};

use crate::Memory;
use crate::fault::FilterFault;
use crate::judge::{FormSearch, Judged};
use crate::pattern::Pattern;
use std::alloc::Global;

/// A filter that was read.
#[derive(Drop)]
pub(crate) enum Filter {
    /// `*`: every cluster.
    Everything,
    /// `alias=TEXT`: the cluster whose alias is the text.
    AliasIs(String),
    /// `alias~=REGEX`: the clusters in whose alias the regular expression is found.
    AliasHas(Pattern),
    /// `REGEX`: the clusters in whose name the regular expression is found.
    NameHas(Pattern),
}

impl Filter {
    /// Reads the form at this index of a list.
    pub(crate) fn read(alloc: Global, index: usize, form: &str) -> Result<Filter, FilterFault>
        ensures value { IfOk result (λ filter. form_seen filter ≡ form_of form.now) }
        ensures taken { OnOk result (has_pattern (form_of form.now) ≡ true) }
        ensures refused { IfErr result (λ fault. IfSome (bad_place fault)
            (λ place. (place ≡ index) × (has_pattern (form_of form.now) ≡ false))) }
    {
        if form == "*" {
            return Ok(Filter::Everything);
        }
        if let Some(text) = behind("alias=", form) {
            return Ok(Filter::AliasIs(String::from_str(alloc, text)?));
        }
        if let Some(regex) = behind("alias~=", form) {
            return Ok(Filter::AliasHas(Pattern::read_at(alloc, index, regex)?));
        }
        Ok(Filter::NameHas(Pattern::read_at(alloc, index, form)?))
    }

    /// Whether it matches the cluster with this name and this alias.
    pub(crate) fn matches(&self, alloc: Global, name: &str, alias: &str) -> Result<bool, Memory>
        ensures { IfOk result (λ matched. matched
            ≡ form_matches name.now alias.now (form_seen self.now)) }
    {
        match self {
            Filter::Everything => Ok(true),
            Filter::AliasIs(text) => Ok(alias == text.as_str()),
            Filter::AliasHas(pattern) => pattern.found(alloc, alias),
            Filter::NameHas(pattern) => pattern.found(alloc, name),
        }
    }

    // The search for it. `Memory` only if memory runs out.
    fn search(&self, alloc: Global) -> Result<FormSearch<'_>, Memory>
        ensures { IfOk result (λ s. form_sought s ≡ form_seen self.now) }
    {
        match self {
            Filter::Everything => Ok(FormSearch::Everything),
            Filter::AliasIs(text) => Ok(FormSearch::AliasIs(text.as_str())),
            Filter::AliasHas(pattern) => Ok(FormSearch::AliasHas(pattern.search(alloc)?)),
            Filter::NameHas(pattern) => Ok(FormSearch::NameHas(pattern.search(alloc)?)),
        }
    }

    /// Judges each cluster, by one search. `Memory` only if memory runs out.
    pub(crate) fn judge(&self, alloc: Global, clusters: &mut [Judged<'_>]) -> Result<(), Memory>
        ensures { OnOk result (clusters.new ≡ map (judged_by (form_seen self.now)) clusters.old) }
    {
        let mut search = self.search(alloc)?;
        search.judge_each(clusters);
        Ok(())
    }
}

fn behind<'t>(prefix: &str, text: &'t str) -> Option<&'t str>
    ensures { option_map (λ rest. rest.now) result ≡ behind prefix.now text.now }
{
    text.strip_prefix(prefix)
}
