//! Recoveries, and the rows that keep them.

ghost use Rattle.std.specs.Prelude.{◌≡◌};
ghost use Rattle.kept_rows.specs.Recoveries.{as_recovery, as_row};

use crate::Memory;
use crate::orch_base::{Ending, Kind, Moment, OwnedText, Same, ServerNo};
use std::alloc::Global;

/// A recovery, as the audit has it (orchestrator's documentation, "Topology recovery").
pub struct Recovery {
    /// Its number, counted from 1.
    pub id: u64,
    /// The label of the cluster that is recovered.
    pub cluster: OwnedText,
    /// What is recovered.
    pub kind: Kind,
    /// The server that failed, or is replaced.
    pub failed: ServerNo,
    /// When it began.
    pub begun: Moment,
    /// When it ended: none for one that hasn't.
    pub ended: Option<Moment>,
    /// How it ended.
    pub outcome: Ending,
    /// Whether it is acknowledged, so that it blocks no other.
    pub acked: bool,
    /// For how many seconds from its begin it blocks others: the period of its cluster when it was begun.
    pub block: u64,
}

impl Drop for Recovery {
    fn drop(self) {
        let Recovery {
            id: _,
            cluster: _cluster,
            kind: _,
            failed: _,
            begun: _,
            ended: _,
            outcome: _,
            acked: _,
            block: _,
        } = self;
    }
}

impl Recovery {
    ghost use Rattle.std.specs.Prelude.{◌≡◌, ◌↔◌, IfOk, IsTrue};

    /// The same recovery once more. `Err` means out of memory.
    pub fn copy(&self, alloc: Global) -> Result<Recovery, Memory>
        ensures { IfOk result (λ r. r ≡ self.now) }
    {
        Ok(Recovery {
            id: self.id,
            cluster: self.cluster.copy(alloc)?,
            kind: self.kind,
            failed: self.failed,
            begun: self.begun,
            ended: self.ended,
            outcome: self.outcome,
            acked: self.acked,
            block: self.block,
        })
    }

    /// Whether the recoveries are equal.
    pub fn is_same(&self, other: &Recovery) -> bool
        ensures { IsTrue result ↔ (self.now ≡ other.now) }
    {
        self.cluster.is_same(&other.cluster)
            && (self.id == other.id && self.kind == other.kind)
            && (self.failed == other.failed && self.begun == other.begun)
            && (self.ended == other.ended && self.outcome == other.outcome)
            && (self.acked == other.acked && self.block == other.block)
    }

    /// The row that keeps it. It takes no memory.
    pub fn into_row(self) -> RecoveryRow
        ensures { result ≡ as_row self }
    {
        let Recovery {
            id,
            cluster,
            kind,
            failed,
            begun,
            ended,
            outcome,
            acked,
            block,
        } = self;
        RecoveryRow {
            id,
            cluster,
            kind,
            failed,
            begun,
            ended,
            outcome,
            acked,
            block: Some(block),
        }
    }
}

/// A recovery, as its row keeps it.
pub struct RecoveryRow {
    /// Its number, counted from 1.
    pub id: u64,
    /// The label of the cluster that is recovered.
    pub cluster: OwnedText,
    /// What is recovered.
    pub kind: Kind,
    /// The server that failed, or is replaced.
    pub failed: ServerNo,
    /// When it began.
    pub begun: Moment,
    /// When it ended: none for one that hasn't.
    pub ended: Option<Moment>,
    /// How it ended.
    pub outcome: Ending,
    /// Whether it is acknowledged, so that it blocks no other.
    pub acked: bool,
    /// For how many seconds from its begin it blocks others: none in a row that was kept before rows had it.
    pub block: Option<u64>,
}

impl Drop for RecoveryRow {
    fn drop(self) {
        let RecoveryRow {
            id: _,
            cluster: _cluster,
            kind: _,
            failed: _,
            begun: _,
            ended: _,
            outcome: _,
            acked: _,
            block: _,
        } = self;
    }
}

impl RecoveryRow {
    ghost use Rattle.std.specs.Prelude.{◌≡◌, ◌↔◌, IfOk, IsTrue};

    /// The same row once more. `Err` means out of memory.
    pub fn copy(&self, alloc: Global) -> Result<RecoveryRow, Memory>
        ensures { IfOk result (λ r. r ≡ self.now) }
    {
        Ok(RecoveryRow {
            id: self.id,
            cluster: self.cluster.copy(alloc)?,
            kind: self.kind,
            failed: self.failed,
            begun: self.begun,
            ended: self.ended,
            outcome: self.outcome,
            acked: self.acked,
            block: self.block,
        })
    }

    // Whether it began in the same way.
    fn has_same_begin(&self, other: &RecoveryRow) -> bool
        ensures { IsTrue result ↔ ((self.now.id ≡ other.now.id)
            × (self.now.cluster ≡ other.now.cluster) × (self.now.kind ≡ other.now.kind)
            × (self.now.failed ≡ other.now.failed) × (self.now.begun ≡ other.now.begun)) }
    {
        self.cluster.is_same(&other.cluster)
            && (self.id == other.id && self.kind == other.kind)
            && (self.failed == other.failed && self.begun == other.begun)
    }

    /// Whether the rows are equal.
    pub fn is_same(&self, other: &RecoveryRow) -> bool
        ensures { IsTrue result ↔ (self.now ≡ other.now) }
    {
        (self.has_same_begin(other) && self.ended == other.ended)
            && (self.outcome == other.outcome && self.acked == other.acked)
            && self.block == other.block
    }

    /// The recovery that it keeps, by a block period for a row that has none. It takes no memory.
    pub fn into_recovery(self, period: u64) -> Recovery
        ensures { result ≡ as_recovery period self }
    {
        let RecoveryRow {
            id,
            cluster,
            kind,
            failed,
            begun,
            ended,
            outcome,
            acked,
            block,
        } = self;
        Recovery {
            id,
            cluster,
            kind,
            failed,
            begun,
            ended,
            outcome,
            acked,
            block: block.unwrap_or(period),
        }
    }
}
