//! The list of filters by which a cluster is allowed.

ghost use Rattle.std.specs.Prelude.{◌≡◌, true, false, Some, None, IfOk, IfErr, OnOk, IfSome, map};
ghost use Rattle.cluster_filters.specs.Faults.{bad_place};
ghost use Rattle.cluster_filters.specs.Forms.{form_of, has_pattern, texts_of, forms_of, first_bad, some_matches};
ghost use Rattle.cluster_filters.specs.Judging.{judged};

use crate::Memory;
use crate::fault::FilterFault;
use crate::filter::Filter;
use crate::judge::Judged;
use std::alloc::Global;
use std::marker::Model;

/// Filters for clusters, which contracts see as the list of their forms.
#[derive(Drop)]
pub struct Filters {
    filters: Vec<Filter>,
}

impl Model for Filters {
    ghost use Rattle.std.specs.Prelude.{List, map};
    ghost use Rattle.cluster_filters.specs.Forms.{Form, form_seen};

    ghost Value = { List Form };

    ghost view = { λ f. map form_seen f.filters.items };
}

impl Filters {
    /// Reads each form.
    /// - `*` is for every cluster.
    /// - `alias=TEXT` is for the cluster whose alias is exactly the text.
    /// - `alias~=REGEX` is for clusters in whose alias the regular expression is found.
    /// - Any other form is a regular expression that is found anywhere in the cluster's name.
    ///
    /// `BadPattern` has the index of the first form whose regular expression is none, or nests past the limit of
    /// `regex`. No list with such a form is read.
    pub fn read(alloc: Global, forms: &[String]) -> Result<Filters, FilterFault>
        ensures value { IfOk result (λ filters. filters ≡ forms_of (texts_of forms.now)) }
        ensures taken { OnOk result (first_bad (forms_of (texts_of forms.now)) ≡ None) }
        ensures refused { IfErr result (λ fault. IfSome (bad_place fault)
            (λ place. first_bad (forms_of (texts_of forms.now)) ≡ Some place)) }
    {
        let mut filters = Vec::new(alloc);
        for (index, form) in forms.iter().enumerate() {
            filters.push(Filter::read(alloc, index, form.as_str())?)?;
        }
        Ok(Filters { filters })
    }

    /// Whether a list may have this form: nothing, or `BadPattern(0)` if its regular expression is none, or nests past
    /// the limit of `regex`. `Memory` comes only if memory runs out, or for a compiled regular expression past the room
    /// that `regex` grants one.
    pub fn test(alloc: Global, form: &str) -> Result<(), FilterFault>
        ensures taken { OnOk result (has_pattern (form_of form.now) ≡ true) }
        ensures refused { IfErr result (λ fault. IfSome (bad_place fault)
            (λ place. (place ≡ 0) × (has_pattern (form_of form.now) ≡ false))) }
    {
        Filter::read(alloc, 0, form)?;
        Ok(())
    }

    /// Whether some form matches the cluster with this name and this alias. `Memory` only if memory runs out.
    pub fn matches(&self, alloc: Global, name: &str, alias: &str) -> Result<bool, Memory>
        ensures { IfOk result (λ matched. matched ≡ some_matches name.now alias.now self.now) }
    {
        for filter in &self.filters {
            if filter.matches(alloc, name, alias)? {
                return Ok(true);
            }
        }
        Ok(false)
    }

    /// Judges clusters: each also matches if some form matches it. Each form goes from cluster to cluster, so that its
    /// regular expression is prepared once. `Memory` only if memory runs out.
    pub fn judge(&self, alloc: Global, clusters: &mut [Judged<'_>]) -> Result<(), Memory>
        ensures { OnOk result (clusters.new ≡ map (judged self.now) clusters.old) }
    {
        for filter in &self.filters {
            filter.judge(alloc, clusters)?;
        }
        Ok(())
    }
}
