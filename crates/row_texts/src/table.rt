//! The tables' rows, field by field.

ghost use Rattle.std.specs.Prelude.{◌≡◌};
ghost use Rattle.row_texts.specs.Prelude.{Gives, view};
ghost use Rattle.row_texts.specs.Fields.{fault_of};
ghost use Rattle.row_texts.specs.Tables.{active_at, block_at, candidate_at, downtime_at, instance_at, is_version, recovery_at, switch_at, tail_at};

use crate::fault::RowFault;
use crate::field::{
    coord_at, end_at, maybe_coord_at, maybe_moment_at, moment_at, name_at, outcome_at, set_at,
    small_at, source_at, text_at, truth_at, whole_at, word_at,
};
use crate::gtid_sets::GtidSet;
use crate::key::{ending_of, key_id, key_name, key_word, server_of, state_of};
use crate::orch_base::{IoState, Kind, Name, Rule};
use crate::word::SourceWord;
use kept_rows::{Candidate, Downtime, Instance, RecoveryRow, Row, Seen, Table};
use serde_json::Value;
use std::alloc::Global;

/// Whether a table has this version.
pub(crate) fn is_version(table: Table, version: u64) -> bool
    ensures { result ≡ is_version table version }
{
    match table {
        Table::Instance | Table::Recovery => 1 <= version && version <= 2,
        Table::Downtime | Table::Candidate | Table::Switch | Table::Active => version == 1,
    }
}

// The first kept file and the purged set, which version 1 hasn't.
#[tactic(auto, unfolding(crate::specs::Tables::first_tail, crate::specs::Tables::second_tail))]
fn tail_at(alloc: Global, version: u64, list: &Value) -> Result<(u32, GtidSet), RowFault>
    ensures { Gives (λ t. t) fault_of result (tail_at version (view list.now)) }
{
    if version == 1 {
        end_at(list, 13)?;
        return Ok((1, GtidSet::empty(alloc)));
    }
    let first = small_at(list, 13)?;
    let purged = set_at(alloc, list, 14)?;
    end_at(list, 15)?;
    Ok((first, purged))
}

/// Table 1, by its version.
#[tactic(auto, unfolding(crate::specs::Tables::instance_at))]
pub(crate) fn instance_at(
    alloc: Global,
    version: u64,
    names: &[Name],
    key: &str,
    list: &Value,
) -> Result<Row, RowFault>
    ensures { Gives (λ r. r) fault_of result
        (instance_at version names.now key.now (view list.now)) }
{
    let number = whole_at(list, 0)?;
    let moment = moment_at(list, 1)?;
    let valid = truth_at(list, 2)?;
    let own_end = maybe_coord_at(list, 3)?;
    let words = [
        SourceWord::Without,
        SourceWord::Attached,
        SourceWord::Detached,
    ];
    let word = word_at(&words, list, 4)?;
    let from = source_at(alloc, word, list, 5)?;
    let exec = coord_at(list, 6)?;
    let read = coord_at(list, 7)?;
    let auto = truth_at(list, 8)?;
    let io = word_at(&[IoState::Yes, IoState::Connecting, IoState::No], list, 9)?;
    let sql = truth_at(list, 10)?;
    let read_only = truth_at(list, 11)?;
    let set = set_at(alloc, list, 12)?;
    let (first, purged) = tail_at(alloc, version, list)?;
    let name = key_name(alloc, key)?;
    let no = server_of(names, &name)?;
    let source = state_of(names, &from)?;
    Ok(Row::Instance(Instance {
        no,
        read: number,
        moment,
        valid,
        seen: Seen {
            own_end,
            source,
            exec,
            read,
            auto,
            io,
            sql,
            read_only,
            set,
            first,
            purged,
        },
    }))
}

/// Table 2.
#[tactic(auto, unfolding(crate::specs::Tables::downtime_at))]
pub(crate) fn downtime_at(
    alloc: Global,
    names: &[Name],
    key: &str,
    list: &Value,
) -> Result<Row, RowFault>
    ensures { Gives (λ r. r) fault_of result (downtime_at names.now key.now (view list.now)) }
{
    let begun = moment_at(list, 0)?;
    let until = moment_at(list, 1)?;
    let owner = text_at(alloc, list, 2)?;
    let reason = text_at(alloc, list, 3)?;
    end_at(list, 4)?;
    let name = key_name(alloc, key)?;
    let no = server_of(names, &name)?;
    Ok(Row::Downtime(Downtime {
        no,
        begun,
        until,
        owner,
        reason,
    }))
}

/// Table 3.
#[tactic(auto, unfolding(crate::specs::Tables::candidate_at))]
pub(crate) fn candidate_at(
    alloc: Global,
    names: &[Name],
    key: &str,
    list: &Value,
) -> Result<Row, RowFault>
    ensures { Gives (λ r. r) fault_of result (candidate_at names.now key.now (view list.now)) }
{
    let rules = [Rule::Prefer, Rule::Neutral, Rule::PreferNot, Rule::MustNot];
    let rule = word_at(&rules, list, 0)?;
    let until = moment_at(list, 1)?;
    end_at(list, 2)?;
    let name = key_name(alloc, key)?;
    let no = server_of(names, &name)?;
    Ok(Row::Candidate(Candidate { no, rule, until }))
}

// The block, which version 1 hasn't.
#[tactic(auto, unfolding(crate::specs::Tables::first_block, crate::specs::Tables::second_block))]
fn block_at(version: u64, list: &Value) -> Result<Option<u64>, RowFault>
    ensures { Gives (λ b. b) fault_of result (block_at version (view list.now)) }
{
    if version == 1 {
        end_at(list, 7)?;
        return Ok(None);
    }
    let block = whole_at(list, 7)?;
    end_at(list, 8)?;
    Ok(Some(block))
}

/// Table 4, by its version.
#[tactic(auto, unfolding(crate::specs::Tables::recovery_at))]
pub(crate) fn recovery_at(
    alloc: Global,
    version: u64,
    names: &[Name],
    key: &str,
    list: &Value,
) -> Result<Row, RowFault>
    ensures { Gives (λ r. r) fault_of result
        (recovery_at version names.now key.now (view list.now)) }
{
    let cluster = text_at(alloc, list, 0)?;
    let kind = word_at(&[Kind::Master, Kind::Intermediate, Kind::Takeover], list, 1)?;
    let failed = name_at(alloc, list, 2)?;
    let begun = moment_at(list, 3)?;
    let ended = maybe_moment_at(list, 4)?;
    let how = outcome_at(alloc, list, 5)?;
    let acked = truth_at(list, 6)?;
    let block = block_at(version, list)?;
    let id = key_id(key)?;
    let failed = server_of(names, &failed)?;
    let outcome = ending_of(names, &how)?;
    Ok(Row::Recovery(RecoveryRow {
        id,
        cluster,
        kind,
        failed,
        begun,
        ended,
        outcome,
        acked,
        block,
    }))
}

/// Table 5.
#[tactic(auto, unfolding(crate::specs::Tables::switch_at))]
pub(crate) fn switch_at(key: &str, list: &Value) -> Result<Row, RowFault>
    ensures { Gives (λ r. r) fault_of result (switch_at key.now (view list.now)) }
{
    let enabled = truth_at(list, 0)?;
    end_at(list, 1)?;
    key_word("global", key)?;
    Ok(Row::Switch(enabled))
}

/// Table 6.
#[tactic(auto, unfolding(crate::specs::Tables::active_at))]
pub(crate) fn active_at(key: &str, list: &Value) -> Result<Row, RowFault>
    ensures { Gives (λ r. r) fault_of result (active_at key.now (view list.now)) }
{
    let node = small_at(list, 0)?;
    let until = moment_at(list, 1)?;
    end_at(list, 2)?;
    key_word("active", key)?;
    Ok(Row::Active { node, until })
}
