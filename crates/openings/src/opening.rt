//! Openings.

ghost use Rattle.std.specs.Prelude.{◌≡◌, ◌↔◌, IfOk, IsTrue, map};

use crate::ServerInit;
use crate::orch_base::{Memory, Name, copy_of, same_values};
use std::alloc::Global;
use std::fmt;
use std::marker::Model;

/// What is wrong with the servers of a scenario, in the order in which it is looked for: each flaw at all servers
/// before the next one.
#[derive(Clone, Copy, Debug, PartialEq, Eq)]
pub enum Flaw {
    /// A server has both a history and a source.
    BothGiven,
    /// The server's source has no binary log.
    SourceNotLogging,
    /// The server is below itself.
    Loop,
    /// The server's source, or the origin of a part of its history, is of another cluster.
    OtherCluster,
    /// The server has executed more transactions than its source.
    TooMany,
    /// A coordinate or a file is out of place. One of these holds:
    /// - The flush points fall, pass the number of transactions, or are given for a server without a log.
    /// - The first kept file is above the last one of the log, or above 1 for a server without a log.
    /// - The executed coordinate hasn't the place of what was executed.
    /// - The read coordinate has no place, or is before the executed one.
    BadPlace,
    /// The server's history doesn't agree with those of the others.
    NotKin,
}

impl fmt::Display for Flaw {
    fn fmt<W: fmt::Write>(&self, f: &mut fmt::Formatter<W>) -> fmt::Result {
        match self {
            Flaw::BothGiven => write!(f, "a history beside a source"),
            Flaw::SourceNotLogging => write!(f, "a source without a binary log"),
            Flaw::Loop => write!(f, "a loop of sources"),
            Flaw::OtherCluster => write!(f, "another cluster"),
            Flaw::TooMany => write!(f, "more transactions than the source has"),
            Flaw::BadPlace => write!(
                f,
                "a flush point, a first kept file or a coordinate out of place"
            ),
            Flaw::NotKin => write!(f, "a history that isn't kin to the others"),
        }
    }
}

/// The servers of a scenario, without a flaw and within the limits.
#[derive(Drop)]
pub struct Opening {
    servers: Vec<ServerInit>,
    names: Vec<Name>,
    gtid: bool,
}

impl Model for Opening {
    ghost use Rattle.openings.specs.Opening.{Opened};

    ghost Value = { Opened };

    ghost use Rattle.openings.specs.OpeningBy.{opened_of, IsCheckedInside};

    ghost view = { opened_of };

    ghost invariant = { IsCheckedInside };
}

// The servers' names, in the scenario's order.
fn names_of(alloc: Global, servers: &[ServerInit]) -> Result<Vec<Name>, Memory>
    ensures { IfOk result (λ names. names.items ≡ map (λ i. i.settings.name) servers.now) }
{
    let mut names = Vec::with_capacity(alloc, servers.len())?;
    for server in servers {
        names.push(server.settings.name.copy(alloc)?)?;
    }
    Ok(names)
}

impl Opening {
    ghost use Rattle.std.specs.Prelude.{◌≡◌, ◌↔◌, IfOk, IsTrue, map};
    ghost use Rattle.openings.specs.Opening.{opening, IsChecked};

    /// The opening of these servers, which are within the limits and without a flaw. `Err` means out of memory.
    pub fn of_checked(
        alloc: Global,
        servers: Vec<ServerInit>,
        gtid: bool,
    ) -> Result<Opening, Memory>
        requires { IsChecked (opening servers.items gtid) }
        ensures { IfOk result (λ o. o ≡ opening servers.items gtid) }
    {
        let names = names_of(alloc, &servers)?;
        Ok(Opening {
            servers,
            names,
            gtid,
        })
    }

    /// The servers in the scenario's order.
    pub fn servers(&self) -> &[ServerInit]
        ensures value { result.now ≡ self.now.servers }
        ensures checked { IsChecked self.now }
    {
        &self.servers
    }

    /// The servers' names in the scenario's order.
    pub fn names(&self) -> &[Name]
        ensures { result.now ≡ map (λ i. i.settings.name) self.now.servers }
    {
        &self.names
    }

    /// Whether the servers use GTIDs.
    pub fn gtid(&self) -> bool
        ensures { result ≡ self.now.gtid }
    {
        self.gtid
    }

    /// The same opening once more. `Err` means out of memory.
    pub fn copy(&self, alloc: Global) -> Result<Opening, Memory>
        ensures { IfOk result (λ o. o ≡ self.now) }
    {
        Ok(Opening {
            servers: copy_of(alloc, &self.servers)?,
            names: names_of(alloc, &self.servers)?,
            gtid: self.gtid,
        })
    }

    /// Whether the openings are equal.
    pub fn same(&self, other: &Opening) -> bool
        ensures { IsTrue result ↔ (self.now ≡ other.now) }
    {
        same_values(&self.servers, &other.servers) && self.gtid == other.gtid
    }
}
