//! One server as the text gives it, with the defaults that need no other server.

ghost use Rattle.std.specs.Prelude.{◌≡◌, IfOk};
ghost use Rattle.scenario_servers.specs.Openings.{known_of, rules_of};

use crate::binlog_coords_items::Coord;
use crate::orch_base::{Memory, Name, OwnedText, Rule, ServerNo, Version};
use openings::{Counts, Parts};
use std::alloc::Global;

/// Who a server is.
#[derive(Drop)]
pub struct Identity {
    pub name: Name,
    pub uuid: u128,
    pub server_id: u32,
    pub version: Version,
    /// The cluster's label. If it isn't given, that of the root of the server's tree.
    pub cluster: Option<OwnedText>,
}

/// How a server is set up, and what reaches it.
#[derive(Clone, Copy)]
pub struct Setup {
    pub logs: bool,
    /// Whether the server refuses ordinary clients' writes.
    pub read_only: bool,
    /// After how many bytes a file of the log is full.
    pub limit: u64,
    pub up: bool,
    pub desk: bool,
    pub feed: bool,
}

/// How a server replicates.
#[derive(Clone, Copy)]
pub struct Replication {
    pub executed: u64,
    pub at: Option<Coord>,
    pub read: Option<Coord>,
    /// Whether the receiver is on. If it isn't given, it is if the server isn't detached.
    pub io: Option<bool>,
    /// Whether the applier is on. If it isn't given, it is if the server isn't detached.
    pub sql: Option<bool>,
    /// Whether the server finds its place by GTIDs (SOURCE_AUTO_POSITION).
    pub auto: bool,
    pub detached: bool,
    pub until: Option<Coord>,
}

/// A server as the text gives it.
#[derive(Drop)]
pub struct Given {
    pub identity: Identity,
    pub setup: Setup,
    /// Whether the book knows it at the opening.
    pub known: bool,
    /// The rule of promotion with which it is registered at the opening.
    pub rule: Option<Rule>,
    pub history: Option<Parts>,
    pub source: Option<ServerNo>,
    pub replication: Replication,
    pub flushes: Counts,
    /// The first file that its binary log keeps: 1 to 4,294,967,295.
    pub purged: u32,
    /// The server's data centre, at most 255 bytes: empty if it has none.
    pub dc: OwnedText,
}

/// For each server whether the book knows it at the opening. `Err` means out of memory.
pub fn known_of(alloc: Global, given: &[Given]) -> Result<Vec<bool>, Memory>
    ensures { IfOk result (λ v. v.items ≡ known_of given.now) }
{
    given.iter().map(|one| one.known).collect(alloc)
}

/// For each server the rule with which it is registered at the opening, if any. `Err` means out of memory.
pub fn rules_of(alloc: Global, given: &[Given]) -> Result<Vec<Option<Rule>>, Memory>
    ensures { IfOk result (λ v. v.items ≡ rules_of given.now) }
{
    given.iter().map(|one| one.rule).collect(alloc)
}
