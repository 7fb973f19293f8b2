//! Rows that a book has.

ghost use Rattle.std.specs.Prelude.{◌≡◌, ◌<◌, length, true};
ghost use Rattle.instance_keeper.specs.Prelude.{row_fits, same_bool, same_instance};
ghost use Rattle.instance_keeper.specs.Book.{instance_at};
ghost use Rattle.instance_keeper.specs.Had.{candidate_kept, downtime_kept, had, has_row, put_change, same_candidate, same_downtime};

use crate::book::Book;
use kept_rows::{Candidate, Change, Downtime, Instance, Row};

fn same_instance(kept: &Instance, instance: &Instance) -> bool
    ensures { result ≡ same_instance kept.now instance.now }
{
    kept.is_same(instance)
}

#[tactic(auto, using(crate::proofs::HadRows::told_downtime))]
fn same_downtime(kept: &Downtime, downtime: &Downtime) -> bool
    ensures { result ≡ same_downtime kept.now downtime.now }
{
    kept.is_same(downtime)
}

#[tactic(auto, using(crate::proofs::HadRows::told_candidate))]
fn same_candidate(kept: Candidate, candidate: Candidate) -> bool
    ensures { result ≡ same_candidate kept candidate }
{
    kept == candidate
}

fn same_bool(kept: bool, enabled: bool) -> bool
    ensures { result ≡ same_bool kept enabled }
{
    kept == enabled
}

impl Book {
    fn has_instance(&self, instance: &Instance) -> bool
        requires { instance.now.no.0 < length self.now.names }
        ensures { result ≡ had same_instance (instance_at self.now instance.now.no) instance.now }
    {
        match self.instance(instance.no) {
            Some(kept) => same_instance(kept, instance),
            None => false,
        }
    }

    fn has_downtime(&self, downtime: &Downtime) -> bool
        requires { downtime.now.no.0 < length self.now.names }
        ensures { result ≡ had same_downtime (downtime_kept self.now downtime.now.no) downtime.now }
    {
        match self.kept_downtime(downtime.no) {
            Some(kept) => same_downtime(kept, downtime),
            None => false,
        }
    }

    fn has_candidate(&self, candidate: Candidate) -> bool
        requires { candidate.no.0 < length self.now.names }
        ensures { result ≡ had same_candidate (candidate_kept self.now candidate.no) candidate }
    {
        match self.kept_candidate(candidate.no) {
            Some(kept) => same_candidate(kept, candidate),
            None => false,
        }
    }

    fn has_switch(&self, enabled: bool) -> bool
        ensures { result ≡ had same_bool self.now.switch enabled }
    {
        match self.kept_switch() {
            Some(kept) => same_bool(kept, enabled),
            None => false,
        }
    }

    /// Whether the book has this very row. It has no row of the recovery table or the claim's.
    pub fn has(&self, row: &Row) -> bool
        requires { row_fits (length self.now.names) row.now ≡ true }
        ensures { result ≡ has_row self.now row.now }
    {
        match row {
            Row::Instance(instance) => self.has_instance(instance),
            Row::Downtime(downtime) => self.has_downtime(downtime),
            Row::Candidate(candidate) => self.has_candidate(*candidate),
            Row::Recovery(_) | Row::Active { .. } => false,
            Row::Switch(enabled) => self.has_switch(*enabled),
        }
    }

    /// The change by which the book gets a row: none if it has this very row.
    pub fn putting(&self, row: Row) -> Option<Change>
        requires { row_fits (length self.now.names) row ≡ true }
        ensures { result ≡ put_change self.now row }
    {
        if self.has(&row) {
            None
        } else {
            Some(Change::Put(row))
        }
    }
}
