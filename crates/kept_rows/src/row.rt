//! The rows that are kept, and their keys.

ghost use Rattle.std.specs.Prelude.{◌≡◌, nat_lt};
ghost use Rattle.kept_rows.specs.Rows.{key_number, sort_key, table_number};

use crate::observation::Instance;
use crate::orch_base::{Moment, OwnedText, Same, ServerNo};
use crate::recovery::RecoveryRow;
use crate::{Memory, Rule};
use std::alloc::Global;

/// A time for which a server's analysis begins no recovery (orchestrator's documentation, "Downtime").
pub struct Downtime {
    /// The server.
    pub no: ServerNo,
    /// The moment at which it was asked for.
    pub begun: Moment,
    /// The first moment that is no longer of it.
    pub until: Moment,
    /// Who asked for it: at most 255 bytes.
    pub owner: OwnedText,
    /// Why: at most 255 bytes.
    pub reason: OwnedText,
}

impl Drop for Downtime {
    fn drop(self) {
        let Downtime {
            no: _,
            begun: _,
            until: _,
            owner: _owner,
            reason: _reason,
        } = self;
    }
}

impl Downtime {
    ghost use Rattle.std.specs.Prelude.{◌≡◌, ◌↔◌, IfOk, IsTrue};

    /// The same downtime once more. `Err` means out of memory.
    pub fn copy(&self, alloc: Global) -> Result<Downtime, Memory>
        ensures { IfOk result (λ d. d ≡ self.now) }
    {
        Ok(Downtime {
            no: self.no,
            begun: self.begun,
            until: self.until,
            owner: self.owner.copy(alloc)?,
            reason: self.reason.copy(alloc)?,
        })
    }

    /// Whether the downtimes are equal.
    pub fn is_same(&self, other: &Downtime) -> bool
        ensures { IsTrue result ↔ (self.now ≡ other.now) }
    {
        (self.no == other.no && self.begun == other.begun && self.until == other.until)
            && self.owner.is_same(&other.owner)
            && self.reason.is_same(&other.reason)
    }
}

/// A server's registration with a rule of promotion (orchestrator's documentation, "register-candidate").
#[derive(Clone, Copy, Debug, PartialEq, Eq)]
pub struct Candidate {
    /// The server.
    pub no: ServerNo,
    /// Its rule of promotion.
    pub rule: Rule,
    /// The first moment at which it no longer lasts.
    pub until: Moment,
}

/// A table of kept rows, in their order.
#[derive(Clone, Copy, Debug, PartialEq, Eq)]
pub enum Table {
    /// Table 1: the instances, by server.
    Instance,
    /// Table 2: the downtimes, by server.
    Downtime,
    /// Table 3: the candidates, by server.
    Candidate,
    /// Table 4: the recoveries, by id.
    Recovery,
    /// Table 5: the switch of recoveries, one row.
    Switch,
    /// Table 6: the claim of the node that is active, one row.
    Active,
}

/// The key of a row in its table.
#[derive(Clone, Copy, Debug, PartialEq, Eq)]
pub enum Key {
    /// The key of an instance, a downtime or a candidate.
    Server(ServerNo),
    /// The key of a recovery.
    Id(u64),
    /// The key of the switch.
    Global,
    /// The key of the claim.
    Active,
}

/// The sort key of a row: by table, then key.
#[derive(Clone, Copy)]
pub(crate) struct SortKey {
    pub(crate) table: Table,
    pub(crate) key: Key,
}

// A table's number, from 1.
fn number_of(table: Table) -> u8
    ensures { result ≡ table_number table }
{
    match table {
        Table::Instance => 1,
        Table::Downtime => 2,
        Table::Candidate => 3,
        Table::Recovery => 4,
        Table::Switch => 5,
        Table::Active => 6,
    }
}

impl Key {
    // Whether it is before the other in one table.
    fn is_before(self, other: Key) -> bool
        ensures { result ≡ nat_lt (key_number self) (key_number other) }
    {
        match (self, other) {
            (Key::Server(this), Key::Server(that)) => this.0 < that.0,
            (Key::Server(_), Key::Id(_) | Key::Global | Key::Active) => true,
            (Key::Id(this), Key::Id(that)) => this < that,
            (Key::Id(_), Key::Global | Key::Active) | (Key::Global, Key::Active) => true,
            (Key::Id(_), Key::Server(_))
            | (Key::Global, Key::Server(_) | Key::Id(_) | Key::Global)
            | (Key::Active, Key::Server(_) | Key::Id(_) | Key::Global | Key::Active) => false,
        }
    }

    /// The index of its row if each server with a lower number has a row of the first table: past all rows for a key of
    /// no server.
    pub(crate) fn guess(self) -> usize {
        match self {
            Key::Server(no) => no.0 as usize,
            Key::Id(_) | Key::Global | Key::Active => usize::MAX,
        }
    }
}

impl SortKey {
    /// Whether it is before the other.
    pub(crate) fn is_before(self, other: SortKey) -> bool
        ensures { result ≡ nat_lt (sort_key self.table self.key) (sort_key other.table other.key) }
    {
        let (this, that) = (number_of(self.table), number_of(other.table));
        if this == that {
            self.key.is_before(other.key)
        } else {
            this < that
        }
    }
}

/// A kept row.
#[derive(Drop)]
pub enum Row {
    /// An instance as it was last read.
    Instance(Instance),
    /// A server's downtime.
    Downtime(Downtime),
    /// A server's registration.
    Candidate(Candidate),
    /// A recovery of the audit.
    Recovery(RecoveryRow),
    /// Whether recoveries are enabled.
    Switch(bool),
    /// The claim of the node that is active, of several that share the rows.
    Active {
        /// The node, counted from 1.
        node: u32,
        /// The first moment at which its claim no longer lasts.
        until: Moment,
    },
}

impl Row {
    ghost use Rattle.std.specs.Prelude.{◌≡◌, ◌↔◌, IfOk, IsTrue, OnOk, OnErr};
    ghost use Rattle.kept_rows.specs.Rows.{table_of, key_of};

    /// The row's table.
    pub fn table(&self) -> Table
        ensures { result ≡ table_of self.now }
    {
        match self {
            Row::Instance(_) => Table::Instance,
            Row::Downtime(_) => Table::Downtime,
            Row::Candidate(_) => Table::Candidate,
            Row::Recovery(_) => Table::Recovery,
            Row::Switch(_) => Table::Switch,
            Row::Active { .. } => Table::Active,
        }
    }

    /// The row's key in its table.
    pub fn key(&self) -> Key
        ensures { result ≡ key_of self.now }
    {
        match self {
            Row::Instance(instance) => Key::Server(instance.no),
            Row::Downtime(downtime) => Key::Server(downtime.no),
            Row::Candidate(candidate) => Key::Server(candidate.no),
            Row::Recovery(recovery) => Key::Id(recovery.id),
            Row::Switch(_) => Key::Global,
            Row::Active { .. } => Key::Active,
        }
    }

    /// The row's table and its key there.
    pub(crate) fn sort_key(&self) -> SortKey
        ensures { result ≡ record { table = table_of self.now; key = key_of self.now } }
    {
        SortKey {
            table: self.table(),
            key: self.key(),
        }
    }

    /// The same row once more. `Err` means out of memory.
    #[inline]
    pub fn copy(&self, alloc: Global) -> Result<Row, Memory>
        ensures { IfOk result (λ r. r ≡ self.now) }
    {
        Ok(match self {
            Row::Instance(instance) => Row::Instance(instance.copy()?),
            Row::Downtime(downtime) => Row::Downtime(downtime.copy(alloc)?),
            Row::Candidate(candidate) => Row::Candidate(*candidate),
            Row::Recovery(recovery) => Row::Recovery(recovery.copy(alloc)?),
            Row::Switch(enabled) => Row::Switch(*enabled),
            Row::Active { node, until } => Row::Active {
                node: *node,
                until: *until,
            },
        })
    }

    /// Becomes the same as the other. If memory runs out, it stays as it was.
    #[inline(always)]
    pub(crate) fn set_to(&mut self, alloc: Global, other: &Row) -> Result<(), Memory>
        ensures ok { OnOk result (self.new ≡ other.now) }
        ensures err { OnErr result (self.new ≡ self.old) }
    {
        if let (Row::Instance(kept), Row::Instance(instance)) = (&mut *self, other) {
            return kept.set_to(instance);
        }
        *self = other.copy(alloc)?;
        Ok(())
    }

    /// Whether the rows are equal.
    pub fn is_same(&self, other: &Row) -> bool
        ensures { IsTrue result ↔ (self.now ≡ other.now) }
    {
        match (self, other) {
            (Row::Instance(this), Row::Instance(that)) => this.is_same(that),
            (Row::Downtime(this), Row::Downtime(that)) => this.is_same(that),
            (Row::Candidate(this), Row::Candidate(that)) => this == that,
            (Row::Recovery(this), Row::Recovery(that)) => this.is_same(that),
            (Row::Switch(this), Row::Switch(that)) => this == that,
            (Row::Active { node, until }, Row::Active { node: n, until: u }) => {
                node == n && until == u
            }
            (
                Row::Instance(_)
                | Row::Downtime(_)
                | Row::Candidate(_)
                | Row::Recovery(_)
                | Row::Switch(_)
                | Row::Active { .. },
                Row::Instance(_)
                | Row::Downtime(_)
                | Row::Candidate(_)
                | Row::Recovery(_)
                | Row::Switch(_)
                | Row::Active { .. },
            ) => false,
        }
    }
}

/// A change of the kept rows.
#[derive(Drop)]
pub enum Change {
    /// This row is kept, in place of one with its table and key.
    Put(Row),
    /// No row of this table and key is kept.
    Remove(Table, Key),
}

impl Change {
    ghost use Rattle.std.specs.Prelude.{◌≡◌, IfOk};

    /// The same change once more. `Err` means out of memory.
    pub fn copy(&self, alloc: Global) -> Result<Change, Memory>
        ensures { IfOk result (λ c. c ≡ self.now) }
    {
        Ok(match self {
            Change::Put(row) => Change::Put(row.copy(alloc)?),
            Change::Remove(table, key) => Change::Remove(*table, *key),
        })
    }
}
