//! The servers that rows name, and the rows that a book takes.

ghost use Rattle.std.specs.Prelude.{◌≡◌, nat_lt};
ghost use Rattle.kept_rows.specs.Servers.{are_known, ending_servers, fits, is_of_book, key_servers, observed_servers, row_fits, servers_of, source_servers};

use crate::observation::Observation;
use crate::orch_base::{Ending, ServerNo, SourceState};
use crate::row::{Change, Key, Row, Table};

fn is_known(count: u32, no: ServerNo) -> bool
    ensures { result ≡ nat_lt no.0 count }
{
    no.0 < count
}

fn is_source_known(count: u32, source: SourceState) -> bool
    ensures { result ≡ are_known count (source_servers source) }
{
    match source {
        SourceState::Without => true,
        SourceState::Attached(no) | SourceState::Detached(no) => is_known(count, no),
    }
}

fn is_ending_known(count: u32, outcome: Ending) -> bool
    ensures { result ≡ are_known count (ending_servers outcome) }
{
    match outcome {
        Ending::Promoted(no) => is_known(count, no),
        Ending::Unended | Ending::Failed(_) | Ending::Interrupted => true,
    }
}

fn is_key_known(count: u32, key: Key) -> bool
    ensures { result ≡ are_known count (key_servers key) }
{
    match key {
        Key::Server(no) => is_known(count, no),
        Key::Id(_) | Key::Global | Key::Active => true,
    }
}

// Whether a book has the table.
fn is_of_book(table: Table) -> bool
    ensures { result ≡ is_of_book table }
{
    match table {
        Table::Instance | Table::Downtime | Table::Candidate | Table::Switch => true,
        Table::Recovery | Table::Active => false,
    }
}

impl Row {
    /// Whether each server that the row names is one of so many.
    #[inline]
    pub fn are_servers_known(&self, count: u32) -> bool
        ensures { result ≡ are_known count (servers_of self.now) }
    {
        match self {
            Row::Instance(i) => is_known(count, i.no) && is_source_known(count, i.seen.source),
            Row::Downtime(downtime) => is_known(count, downtime.no),
            Row::Candidate(candidate) => is_known(count, candidate.no),
            Row::Recovery(r) => is_known(count, r.failed) && is_ending_known(count, r.outcome),
            Row::Switch(_) | Row::Active { .. } => true,
        }
    }

    /// Whether a book of so many servers takes the row: it isn't of the recovery table nor the claim's, and its servers
    /// are known.
    #[inline]
    pub fn fits(&self, count: u32) -> bool
        ensures { result ≡ row_fits count self.now }
    {
        is_of_book(self.table()) && self.are_servers_known(count)
    }
}

impl Observation {
    /// Whether each server that the observation names is one of so many.
    pub fn are_servers_known(&self, count: u32) -> bool
        ensures { result ≡ are_known count (observed_servers self.now) }
    {
        match &self.seen {
            Some(seen) => is_known(count, self.no) && is_source_known(count, seen.source),
            None => is_known(count, self.no),
        }
    }
}

impl Change {
    /// Whether a book of so many servers takes the change: it isn't of the recovery table nor the claim's, and its
    /// servers are known.
    pub fn fits(&self, count: u32) -> bool
        ensures { result ≡ fits count self.now }
    {
        match self {
            Change::Put(row) => row.fits(count),
            Change::Remove(table, key) => is_of_book(*table) && is_key_known(count, *key),
        }
    }
}
