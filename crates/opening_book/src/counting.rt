//! Kept rows that count.

ghost use Rattle.std.specs.Prelude.{◌≡◌, IfOk, filter, map};
ghost use Rattle.opening_book.specs.Prelude.{IsRising, list_all};
ghost use Rattle.opening_book.specs.Prelude.row;
ghost use Rattle.opening_book.specs.Counting.{counts, counted, is_block_in_range, is_end_in_range, is_in_range, last_read, later_read, latest, raised};

use crate::Memory;
use crate::orch_base::Moment;
use instance_keeper::{RecoveryRow, Row, row_map};
use std::alloc::Global;

/// Read numbers and moments of rows that count are at most this.
const GREATEST: u64 = 1 << 63;

/// Ids of recoveries that count at an opening are at most this.
pub const GREATEST_ID: u64 = 1 << 62;

/// Block periods of recoveries that count are at most this, in seconds.
const LONGEST_BLOCK: u64 = 1_000_000_000;

/// Numbers of nodes are at most this.
const LAST_NODE: u32 = 16;

fn is_end_in_range(ended: Option<Moment>) -> bool
    ensures { result ≡ is_end_in_range ended }
{
    match ended {
        Some(ended) => ended.0 <= GREATEST,
        None => true,
    }
}

fn is_block_in_range(block: Option<u64>) -> bool
    ensures { result ≡ is_block_in_range block }
{
    match block {
        Some(block) => block <= LONGEST_BLOCK,
        None => true,
    }
}

fn is_recovery_in_range(kept: &RecoveryRow, last: u64) -> bool
    ensures { result ≡ is_in_range last (row.Recovery kept.now) }
{
    (1 <= kept.id && kept.id <= last)
        && (kept.begun.0 <= GREATEST
            && (is_end_in_range(kept.ended) && is_block_in_range(kept.block)))
}

fn is_in_range(row: &Row, last: u64) -> bool
    ensures { result ≡ is_in_range last row.now }
{
    match row {
        Row::Instance(i) => i.read <= GREATEST && i.moment.0 <= GREATEST,
        Row::Downtime(d) => d.begun.0 <= GREATEST && d.until.0 <= GREATEST,
        Row::Candidate(candidate) => candidate.until.0 <= GREATEST,
        Row::Recovery(kept) => is_recovery_in_range(kept, last),
        Row::Switch(_) => true,
        Row::Active { node, until } => (1 <= *node && *node <= LAST_NODE) && until.0 <= GREATEST,
    }
}

// Whether a row counts among so many servers, by the last id that counts.
#[inline(always)]
fn counts(row: &Row, servers: u32, last: u64) -> bool
    ensures { result ≡ counts servers last row.now }
{
    row.are_servers_known(servers) && is_in_range(row, last)
}

// Whether all of these rows count.
fn do_all_count(servers: u32, last: u64, rows: &[Row]) -> bool
    ensures { result ≡ list_all (counts servers last) rows.now }
{
    rows.iter().all(|row| counts(row, servers, last))
}

// Those of these rows that count.
fn counting(servers: u32, last: u64, mut rows: Vec<Row>) -> Vec<Row>
    ensures { result.items ≡ filter (counts servers last) rows.items }
{
    if do_all_count(servers, last, &rows) {
        return rows;
    }
    rows.retain(|row| counts(row, servers, last));
    rows
}

/// The rows that count, by table, then key: of two with one table and key the last is looked at.
///
/// A row counts if each server that it names is one of so many, and its read number and moments are at most 2^63. A
/// recovery's id is 1 to this last one: `GREATEST_ID` at an opening, and at a restart the last id that was given. Its
/// block period, if it has one, is at most 1,000,000,000 seconds. A claim's node is 1 to 16. `Err` means out of memory.
pub fn counted(alloc: Global, servers: u32, last: u64, rows: Vec<Row>) -> Result<Vec<Row>, Memory>
    ensures { IfOk result (λ counting. counting.items ≡ counted servers last rows.items) }
{
    let map = row_map(alloc, rows)?;
    Ok(counting(servers, last, map))
}

/// The rows that count, as `counted` gives them. The rows are in order by table, then key, one of each. It takes no
/// memory.
pub fn counted_in_order(servers: u32, last: u64, rows: Vec<Row>) -> Vec<Row>
    requires { IsRising rows.items }
    ensures { result.items ≡ counted servers last rows.items }
{
    counting(servers, last, rows)
}

// The moment, raised to the latest begun or ended moment of the row.
fn raised(now: Moment, row: &Row) -> Moment
    ensures { result.0 ≡ raised now.0 row.now }
{
    match row {
        Row::Downtime(downtime) => now.max(downtime.begun),
        Row::Recovery(kept) => {
            let begun = now.max(kept.begun);
            match kept.ended {
                Some(ended) => begun.max(ended),
                None => begun,
            }
        }
        Row::Instance(_) | Row::Candidate(_) | Row::Switch(_) | Row::Active { .. } => now,
    }
}

/// The latest of this moment and all begun and ended moments of these rows.
pub fn latest_moment(now: Moment, rows: &[Row]) -> Moment
    ensures { result.0 ≡ latest now.0 rows.now }
{
    let mut latest = now;
    'rows: for row in rows {
        latest = raised(latest, row);
    }
    latest
}

fn later_read(read: u64, row: &Row) -> u64
    ensures { result ≡ later_read read row.now }
{
    match row {
        Row::Instance(instance) => read.max(instance.read),
        Row::Downtime(_)
        | Row::Candidate(_)
        | Row::Recovery(_)
        | Row::Switch(_)
        | Row::Active { .. } => read,
    }
}

/// The greatest read number of these rows, or 0.
pub fn last_read(rows: &[Row]) -> u64
    ensures { result ≡ last_read rows.now }
{
    let mut last = 0;
    'rows: for row in rows {
        last = later_read(last, row);
    }
    last
}
