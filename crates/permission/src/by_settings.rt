//! The checks that go by the servers' settings. The settings of a number that no server has are empty.

ghost use Rattle.std.specs.Prelude.{◌≡◌, option_map};
ghost use Rattle.permission.specs.Prelude.{option_copied, server_at};
ghost use Rattle.permission.specs.Checks.{of_lower_version, of_other_cluster, of_same_id, unlogged, without_log};
ghost use Rattle.permission.specs.Lists.{first_about};
ghost use Rattle.permission.specs.Views.{has_log, id_in, label_in, lower_version, same_label, uuid_of, version_in};

use crate::case::Move;
use crate::commands::Refusal;
use crate::orch_base::{ServerNo, Settings, Version};
use crate::server_model::World;

fn settings(world: &World, no: ServerNo) -> Option<&Settings>
    ensures { option_copied result ≡ option_map (λ s. s.settings) (server_at world.now no.0) }
{
    if no.0 < world.servers() {
        Some(world.settings(no))
    } else {
        None
    }
}

fn label(world: &World, no: ServerNo) -> &str
    ensures { result.now ≡ label_in (server_at world.now no.0) }
{
    match settings(world, no) {
        Some(settings) => settings.cluster.as_str(),
        None => "",
    }
}

/// Whether two servers have the same cluster's label.
pub fn same_label(world: &World, one: ServerNo, other: ServerNo) -> bool
    ensures { result ≡ same_label world.now one other }
{
    label(world, one) == label(world, other)
}

/// Whether a server writes a binary log.
pub fn has_log(world: &World, no: ServerNo) -> bool
    ensures { result ≡ has_log world.now no }
{
    match settings(world, no) {
        Some(settings) => settings.logs,
        None => false,
    }
}

fn server_id(world: &World, no: ServerNo) -> u32
    ensures { result ≡ id_in (server_at world.now no.0) }
{
    match settings(world, no) {
        Some(settings) => settings.server_id,
        None => 0,
    }
}

fn version(world: &World, no: ServerNo) -> Version
    ensures { result ≡ version_in (server_at world.now no.0) }
{
    match settings(world, no) {
        Some(settings) => settings.version,
        None => Version {
            major: 0,
            minor: 0,
            patch: 0,
        },
    }
}

fn is_lower(one: Version, other: Version) -> bool
    ensures { result ≡ lower_version one other }
{
    one.major < other.major || (one.major == other.major && one.minor < other.minor)
}

/// A server's UUID.
pub(crate) fn uuid(world: &World, no: ServerNo) -> u128
    ensures { result ≡ uuid_of world.now no }
{
    match settings(world, no) {
        Some(settings) => settings.uuid,
        None => 0,
    }
}

/// Whether a server that moves has another label than its new source.
pub(crate) fn other_cluster(world: &World, moves: &[Move]) -> Option<Refusal>
    ensures { result ≡ first_about (of_other_cluster world.now) moves.now }
{
    for one in moves {
        if !same_label(world, one.no, one.source) {
            return Some(Refusal::OtherCluster);
        }
    }
    None
}

/// Whether one of the servers doesn't log.
pub(crate) fn not_logging(world: &World, sources: &[ServerNo]) -> Option<Refusal>
    ensures { result ≡ first_about (without_log world.now) sources.now }
{
    for no in sources {
        if !has_log(world, *no) {
            return Some(Refusal::DestNotLogging);
        }
    }
    None
}

/// The first server that moves and has the `server_id` of its new source.
pub(crate) fn same_id(world: &World, moves: &[Move]) -> Option<Refusal>
    ensures { result ≡ first_about (of_same_id world.now) moves.now }
{
    for one in moves {
        if server_id(world, one.no) == server_id(world, one.source) {
            return Some(Refusal::SameServerId(one.no));
        }
    }
    None
}

/// The first server that moves and has a lower version than its new source.
pub(crate) fn lower_version(world: &World, moves: &[Move]) -> Option<Refusal>
    ensures { result ≡ first_about (of_lower_version world.now) moves.now }
{
    for one in moves {
        if is_lower(version(world, one.no), version(world, one.source)) {
            return Some(Refusal::VersionLower(one.no));
        }
    }
    None
}

/// The first server that moves and doesn't log.
pub(crate) fn moved_not_logging(world: &World, moves: &[Move]) -> Option<Refusal>
    ensures { result ≡ first_about (unlogged world.now) moves.now }
{
    for one in moves {
        if !has_log(world, one.no) {
            return Some(Refusal::MovedNotLogging(one.no));
        }
    }
    None
}
