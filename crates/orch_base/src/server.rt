//! Servers by their numbers, and their settings.

use crate::name::Name;
use crate::text::OwnedText;
use crate::{Memory, Same};
use std::alloc::Global;

/// A server of the scenario by its number, counted from 0 in the scenario's order.
#[derive(Clone, Copy, Debug, PartialEq, Eq, PartialOrd, Ord, Hash)]
pub struct ServerNo(pub u32);

/// A moment, in seconds. The scenario decides which moment is 0.
#[derive(Clone, Copy, Debug, PartialEq, Eq, PartialOrd, Ord)]
pub struct Moment(pub u64);

/// A transaction (MySQL 8.0 Reference Manual, "The Binary Log").
#[derive(Clone, Copy, Debug, PartialEq, Eq)]
pub struct Txn {
    /// The server that took it from a client.
    pub origin: ServerNo,
    /// The bytes that it takes in a binary log: 1 to 1,000,000.
    pub size: u32,
    /// Its number among the origin's own transactions, counted from 1.
    pub seq: u64,
}

/// A server's version, as `8.0.36`.
#[derive(Clone, Copy, Debug, PartialEq, Eq)]
pub struct Version {
    /// The first part: 8 of `8.0.36`.
    pub major: u16,
    /// The second part.
    pub minor: u16,
    /// The third part.
    pub patch: u16,
}

/// The source that a server replicates from (MySQL 8.0 Reference Manual, "CHANGE REPLICATION SOURCE TO Statement").
#[derive(Clone, Copy, Debug, PartialEq, Eq)]
pub enum SourceState {
    /// The server has no source.
    Without,
    /// It replicates from this one.
    Attached(ServerNo),
    /// It keeps this one, and doesn't replicate from it until it is attached again.
    Detached(ServerNo),
}

impl SourceState {
    ghost use Rattle.std.specs.Prelude.{◌≡◌};
    ghost use Rattle.orch_base.specs.Sources.{source_no};

    /// The source's number, attached or detached: none if the server has no source.
    pub fn number(self) -> Option<u32>
        ensures { result ≡ source_no self }
    {
        match self {
            SourceState::Without => None,
            SourceState::Attached(source) | SourceState::Detached(source) => Some(source.0),
        }
    }
}

/// The state of a replica's receiver (MySQL 8.0 Reference Manual, "SHOW REPLICA STATUS Statement", Replica_IO_Running).
#[derive(Clone, Copy, Debug, PartialEq, Eq)]
pub enum IoState {
    /// The receiver is on and connected to the source.
    Yes,
    /// The receiver is on and has no connection.
    Connecting,
    /// The receiver is off.
    No,
}

/// The settings of a server, which never change.
pub struct Settings {
    /// The server's name, by which every command and text names it.
    pub name: Name,
    /// The server's UUID, which is the first half of its GTIDs.
    pub uuid: u128,
    /// The server's `server_id`: 1 to 4,294,967,295.
    pub server_id: u32,
    pub version: Version,
    /// The label of the cluster that the server belongs to: 1 to 261 bytes.
    pub cluster: OwnedText,
    /// Whether the server writes a binary log, with what it replicates in it.
    pub logs: bool,
    /// The size at which a file of the binary log is full, `max_binlog_size`: 100 to 1,073,741,824 bytes.
    pub limit: u64,
    /// The server's data centre: 0 to 255 bytes, empty if none is given.
    pub dc: OwnedText,
}

impl Drop for Settings {
    fn drop(self) {
        let Settings {
            name: _name,
            uuid: _,
            server_id: _,
            version: _,
            cluster: _cluster,
            logs: _,
            limit: _,
            dc: _dc,
        } = self;
    }
}

impl Settings {
    ghost use Rattle.std.specs.Prelude.{◌≡◌, ◌↔◌, IfOk, IsTrue};

    /// The same settings once more. `Err` means out of memory.
    pub fn copy(&self, alloc: Global) -> Result<Settings, Memory>
        ensures { IfOk result (λ s. s ≡ self.now) }
    {
        Ok(Settings {
            name: self.name.copy(alloc)?,
            uuid: self.uuid,
            server_id: self.server_id,
            version: self.version,
            cluster: self.cluster.copy(alloc)?,
            logs: self.logs,
            limit: self.limit,
            dc: self.dc.copy(alloc)?,
        })
    }

    /// Whether the settings are equal.
    pub fn is_same(&self, other: &Settings) -> bool
        ensures { IsTrue result ↔ (self.now ≡ other.now) }
    {
        self.name.is_same(&other.name)
            && (self.cluster.is_same(&other.cluster) && self.dc.is_same(&other.dc))
            && (self.uuid == other.uuid && self.server_id == other.server_id)
            && (self.version == other.version && self.logs == other.logs)
            && self.limit == other.limit
    }
}
