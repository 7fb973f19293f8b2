//! Clusters that are judged by one filter after another.

ghost use Rattle.std.specs.Prelude.{◌≡◌, map};
ghost use Rattle.cluster_filters.specs.Forms.{form_matches};
ghost use Rattle.cluster_filters.specs.Judging.{form_sought, judged_by};

use crate::pattern::Search;

/// A cluster, and whether a filter matches it.
#[derive(Clone, Copy)]
pub struct Judged<'t> {
    /// Its name.
    pub name: &'t str,
    /// Its alias: empty if it has none.
    pub alias: &'t str,
    /// Whether a filter that judged it matches it.
    pub matches: bool,
}

/// A filter that goes from cluster to cluster.
#[derive(Drop)]
pub(crate) enum FormSearch<'f> {
    Everything,
    AliasIs(&'f str),
    AliasHas(Search<'f>),
    NameHas(Search<'f>),
}

impl<'f> FormSearch<'f> {
    // Whether it matches the cluster with this name and this alias.
    fn matches(&mut self, name: &str, alias: &str) -> bool
        ensures exact { result ≡ form_matches name.now alias.now (form_sought self.old) }
        ensures same { form_sought self.new ≡ form_sought self.old }
    {
        match self {
            FormSearch::Everything => true,
            FormSearch::AliasIs(text) => alias == *text,
            FormSearch::AliasHas(search) => search.found(alias),
            FormSearch::NameHas(search) => search.found(name),
        }
    }

    // Judges a cluster that no filter before it matches.
    fn judge(&mut self, cluster: &mut Judged<'_>)
        ensures after { cluster.new ≡ judged_by (form_sought self.old) cluster.old }
        ensures same { form_sought self.new ≡ form_sought self.old }
    {
        if !cluster.matches {
            cluster.matches = self.matches(cluster.name, cluster.alias);
        }
    }

    /// Judges the clusters, one after another. It takes no memory.
    pub(crate) fn judge_each(&mut self, clusters: &mut [Judged<'_>])
        ensures { clusters.new ≡ map (judged_by (form_sought self.old)) clusters.old }
    {
        for cluster in clusters.iter_mut() {
            self.judge(cluster);
        }
    }
}
