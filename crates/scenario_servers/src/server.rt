//! What the text of a server has.

ghost use Rattle.std.specs.Prelude.{◌≡◌, ◌<◌, [], false, map, codes};
ghost use Rattle.scenario_servers.specs.Prelude.{Gives, fault_of, maybe, members_view, number_in, only_keys, optional, short_in, view};
ghost use Rattle.scenario_servers.specs.Names.{server_named};
ghost use Rattle.scenario_servers.specs.Servers.{has_source, server_keys, plain_setup, setup_in, auto_in, replication_in, history_in, flushes_in, plain_from, server_from, server_in};

use crate::given::{Given, Replication, Setup};
use crate::history::{flushes_in, history_in};
use crate::identity::{identity_in, plain_identity};
use crate::names::{Names, server_named};
use crate::orch_base::{OwnedText, ServerNo};
use crate::rule::maybe_rule;
use crate::uuids::Uuids;
use openings::{Counts, Parts};
use scenario_values::{
    FaultCode, ReadFault, bool_at, bool_in, fails, has_only, lacks, maybe_bool, maybe_coord,
    members_in, number_at, only_keys, short_in, under, whole_at,
};
use serde_json::{Map, Value};
use std::alloc::Global;

// The keys of a server that has no key but these: the last eight only if it has a source.
const SERVER_KEYS: [&str; 26] = [
    "name",
    "uuid",
    "server_id",
    "version",
    "cluster",
    "logs",
    "read_only",
    "limit",
    "up",
    "desk",
    "feed",
    "known",
    "rule",
    "history",
    "source",
    "flushes",
    "purged",
    "dc",
    "executed",
    "at",
    "read",
    "io",
    "sql",
    "auto",
    "detached",
    "until",
];

// The keys of most servers.
const PLAIN_KEYS: [&str; 4] = ["name", "source", "history", "uuid"];

// How a server replicates, if the text has nothing about it.
const REPLICATES: Replication = Replication {
    executed: 0,
    at: None,
    read: None,
    io: None,
    sql: None,
    auto: false,
    detached: false,
    until: None,
};

fn has_source(object: &Value) -> bool
    ensures { result ≡ has_source (view object.now) }
{
    object.get("source").is_some()
}

// How a server is set up, and what reaches it, if the text has nothing about it.
fn plain_setup(object: &Value) -> Setup
    ensures { result ≡ plain_setup (view object.now) }
{
    Setup {
        logs: true,
        read_only: has_source(object),
        limit: 1073741824,
        up: true,
        desk: true,
        feed: true,
    }
}

// How a server is set up, and what reaches it.
#[tactic(auto, unfolding(crate::specs::Servers::setup_in))]
fn setup_in(alloc: Global, object: &Value) -> Result<Setup, ReadFault>
    ensures { Gives (λ s. s) fault_of result (setup_in (view object.now)) }
{
    if lacks(object, &SERVER_KEYS[5..11]) {
        return Ok(plain_setup(object));
    }
    let logs = bool_at(alloc, object, "logs", true)?;
    let read_only = bool_at(alloc, object, "read_only", has_source(object))?;
    let limit = number_at(alloc, object, "limit", 100, 1073741824, 1073741824)?;
    let up = bool_at(alloc, object, "up", true)?;
    let desk = bool_at(alloc, object, "desk", true)?;
    let feed = bool_at(alloc, object, "feed", true)?;
    Ok(Setup {
        logs,
        read_only,
        limit,
        up,
        desk,
        feed,
    })
}

#[tactic(auto, unfolding(crate::specs::Servers::auto_in))]
fn auto_in(alloc: Global, gtid: bool, value: &Value) -> Result<bool, ReadFault>
    ensures { Gives (λ b. b) fault_of result (auto_in gtid (view value.now)) }
{
    let is_on = bool_in(alloc, value)?;
    if is_on && !gtid {
        Err(fails(alloc, FaultCode::AutoWithoutGtid))
    } else {
        Ok(is_on)
    }
}

#[tactic(auto, using(scenario_values::proofs::Unders::gives_under))]
fn auto_at(alloc: Global, gtid: bool, object: &Value) -> Result<bool, ReadFault>
    ensures { Gives (λ b. b) fault_of result
        (optional (codes "auto") (auto_in gtid) false (view object.now)) }
{
    match object.get("auto") {
        Some(value) => under(alloc, b"auto", auto_in(alloc, gtid, value)),
        None => Ok(false),
    }
}

// How a server replicates.
#[tactic(auto, unfolding(crate::specs::Servers::replication_in))]
fn replication_in(alloc: Global, gtid: bool, object: &Value) -> Result<Replication, ReadFault>
    ensures { Gives (λ r. r) fault_of result (replication_in gtid (view object.now)) }
{
    if lacks(object, &SERVER_KEYS[18..]) {
        return Ok(REPLICATES);
    }
    let executed = whole_at(alloc, object, "executed", 0)?;
    let at = maybe_coord(alloc, object, "at")?;
    let read = maybe_coord(alloc, object, "read")?;
    let io = maybe_bool(alloc, object, "io")?;
    let sql = maybe_bool(alloc, object, "sql")?;
    let auto = auto_at(alloc, gtid, object)?;
    let detached = bool_at(alloc, object, "detached", false)?;
    let until = maybe_coord(alloc, object, "until")?;
    Ok(Replication {
        executed,
        at,
        read,
        io,
        sql,
        auto,
        detached,
        until,
    })
}

#[tactic(auto, using(scenario_values::proofs::Unders::gives_under))]
fn history_at(alloc: Global, names: &Names, object: &Value) -> Result<Option<Parts>, ReadFault>
    ensures { Gives (λ h. h) fault_of result
        (maybe (codes "history") (history_in names.now) (view object.now)) }
{
    match object.get("history") {
        Some(value) => {
            let history = under(alloc, b"history", history_in(alloc, names, value))?;
            Ok(Some(history))
        }
        None => Ok(None),
    }
}

#[tactic(auto, using(scenario_values::proofs::Unders::gives_under))]
fn source_at(alloc: Global, names: &Names, object: &Value) -> Result<Option<ServerNo>, ReadFault>
    ensures { Gives (λ s. s) fault_of result
        (maybe (codes "source") (server_named names.now) (view object.now)) }
{
    match object.get("source") {
        Some(value) => {
            let source = under(alloc, b"source", server_named(alloc, names, value))?;
            Ok(Some(source))
        }
        None => Ok(None),
    }
}

#[tactic(auto, using(scenario_values::proofs::Unders::gives_under))]
fn flushes_at(alloc: Global, object: &Value) -> Result<Counts, ReadFault>
    ensures { Gives (λ c. c) fault_of result
        (optional (codes "flushes") flushes_in [] (view object.now)) }
{
    match object.get("flushes") {
        Some(value) => under(alloc, b"flushes", flushes_in(alloc, value)),
        None => Ok(Counts::new(Vec::new(alloc))),
    }
}

fn purged_at(alloc: Global, object: &Value) -> Result<u32, ReadFault>
    ensures { Gives (λ n. n) fault_of result
        (optional (codes "purged") (number_in 1 4294967295) 1 (view object.now)) }
{
    let first = number_at(alloc, object, "purged", 1, 4_294_967_295, 1)?;
    Ok(first as u32)
}

#[tactic(auto, using(scenario_values::proofs::Unders::gives_under))]
fn dc_at(alloc: Global, object: &Value) -> Result<OwnedText, ReadFault>
    ensures { Gives (λ t. t) fault_of result (optional (codes "dc") short_in [] (view object.now)) }
{
    match object.get("dc") {
        Some(value) => under(alloc, b"dc", short_in(alloc, value)),
        None => Ok(OwnedText::new(String::new(alloc))),
    }
}

fn known_keys(alloc: Global, object: &Value, members: &Map<String, Value>) -> Result<(), ReadFault>
    ensures { Gives (λ _. tt) fault_of result
        (only_keys (server_keys (view object.now)) (members_view members.now.entries)) }
{
    if has_source(object) {
        only_keys(alloc, members, &SERVER_KEYS)
    } else {
        only_keys(alloc, members, &SERVER_KEYS[..18])
    }
}

#[tactic(auto, unfolding(crate::specs::Servers::server_from))]
fn server_from(
    alloc: Global,
    gtid: bool,
    names: &Names,
    uuids: &Uuids,
    number: u32,
    object: &Value,
) -> Result<Given, ReadFault>
    requires { number < 1000 }
    ensures { Gives (λ g. g) fault_of result
        (server_from gtid names.now uuids.now number (view object.now)) }
{
    let identity = identity_in(alloc, names, uuids, number, object)?;
    let setup = setup_in(alloc, object)?;
    let known = bool_at(alloc, object, "known", true)?;
    let rule = maybe_rule(alloc, object, "rule")?;
    let history = history_at(alloc, names, object)?;
    let source = source_at(alloc, names, object)?;
    let replication = replication_in(alloc, gtid, object)?;
    let flushes = flushes_at(alloc, object)?;
    let purged = purged_at(alloc, object)?;
    let dc = dc_at(alloc, object)?;
    Ok(Given {
        identity,
        setup,
        known,
        rule,
        history,
        source,
        replication,
        flushes,
        purged,
        dc,
    })
}

// A server that has no keys but PLAIN_KEYS.
#[tactic(auto, unfolding(crate::specs::Servers::plain_from))]
fn plain_from(
    alloc: Global,
    names: &Names,
    uuids: &Uuids,
    number: u32,
    object: &Value,
) -> Result<Given, ReadFault>
    requires { number < 1000 }
    ensures { Gives (λ g. g) fault_of result
        (plain_from names.now uuids.now number (view object.now)) }
{
    let identity = plain_identity(alloc, names, uuids, number, object)?;
    let history = history_at(alloc, names, object)?;
    let source = source_at(alloc, names, object)?;
    Ok(Given {
        identity,
        setup: plain_setup(object),
        known: true,
        rule: None,
        history,
        source,
        replication: REPLICATES,
        flushes: Counts::new(Vec::new(alloc)),
        purged: 1,
        dc: OwnedText::new(String::new(alloc)),
    })
}

/// The server of this number, its unknown keys first.
#[tactic(auto, unfolding(crate::specs::Servers::server_in))]
pub(crate) fn server_in(
    alloc: Global,
    gtid: bool,
    names: &Names,
    uuids: &Uuids,
    number: u32,
    value: &Value,
) -> Result<Given, ReadFault>
    requires { number < 1000 }
    ensures { Gives (λ g. g) fault_of result
        (server_in gtid names.now uuids.now number (view value.now)) }
{
    let members = members_in(alloc, value)?;
    if has_only(members, &PLAIN_KEYS) {
        return plain_from(alloc, names, uuids, number, value);
    }
    known_keys(alloc, value, members)?;
    server_from(alloc, gtid, names, uuids, number, value)
}
