//! What servers are given, and what they are at the opening.

ghost use Rattle.std.specs.Prelude.{IsTrue};
ghost use Rattle.scenario_reader.specs.ScenarioServers.Openings.{IsGiven};

use crate::openings::ServerInit;
use crate::orch_base::{Rule, ServerNo, Version};
use crate::scenario_servers::{Given, inits_of, known_of, rules_of, servers_in};
use crate::scenario_values::{FaultCode, ReadFault};
use made_openings::{are_apart, are_servers};
use scenario_reader::opening_in;
use serde_json::Value;
use std::alloc::Global;

const TWO: &str =
    r#"[{"name":"m"},{"name":"r","source":"m:3306","version":"08.4.0","io":false,"known":false,"rule":"must_not","purged":3,"dc":"west"}]"#;

// UUID, server_id, version and source.
fn identity(given: &Given) -> (u128, u32, Version, Option<ServerNo>) {
    let identity = &given.identity;
    (
        identity.uuid,
        identity.server_id,
        identity.version,
        given.source,
    )
}

// Whether it logs and refuses writes, the limit of a file, and whether its threads are on.
fn setup(given: &Given) -> (bool, bool, u64, Option<bool>, Option<bool>) {
    let (setup, replication) = (given.setup, given.replication);
    (
        setup.logs,
        setup.read_only,
        setup.limit,
        replication.io,
        replication.sql,
    )
}

// The first kept file of its log, and its data centre.
fn place(given: &Given) -> (u32, &str) {
    (given.purged, given.dc.as_str())
}

fn version(major: u16, minor: u16, patch: u16) -> Version {
    Version {
        major,
        minor,
        patch,
    }
}

fn are_default(master: &Given, replica: &Given) -> bool {
    let source = Some(ServerNo(0));
    identity(master) == (1, 1, version(8, 0, 36), None)
        && identity(replica) == (2, 2, version(8, 4, 0), source)
        && setup(master) == (true, false, 1_073_741_824, None, None)
        && setup(replica) == (true, true, 1_073_741_824, Some(false), None)
        && (place(master), place(replica)) == ((1, ""), (3, "west"))
}

// Whether the two servers of `TWO` have what is given, or else what differs.
fn have_defaults(alloc: Global) -> Result<bool, ReadFault> {
    let Ok(value) = Value::from_str(alloc, TWO) else {
        return Ok(false);
    };
    let given = servers_in(alloc, true, value)?.given;
    let known = known_of(alloc, &given)?;
    let rules = rules_of(alloc, &given)?;
    let [master, replica] = given.as_slice() else {
        return Ok(false);
    };
    Ok(
        are_default(master, replica)
            && known.as_slice() == [true, false].as_slice()
            && rules.as_slice() == [None, Some(Rule::MustNot)].as_slice(),
    )
}

#[test]
fn servers_have_defaults(rt: HostRuntime) {
    assert!(rt; have_defaults(rt.alloc()).ok() == Some(true));
}

// Whether the opening of these servers may be asked for.
fn are_given(servers: &[ServerInit], gtid: bool) -> bool
    ensures { IsTrue result → IsGiven gtid servers.now }
{
    if servers.is_empty() || servers.len() > 1000 || !are_servers(servers, gtid) {
        return false;
    }
    are_apart(servers)
}

// Whether all are of the cluster of this label.
fn are_labelled(servers: &[ServerInit], label: &str) -> bool {
    for server in servers {
        if server.settings.cluster.as_str() != label {
            return false;
        }
    }
    true
}

// How many servers the opening of these has, all of the cluster of `m`.
fn opened(alloc: Global, text: &str) -> Result<usize, ReadFault> {
    let Ok(value) = Value::from_str(alloc, text) else {
        return Ok(0);
    };
    let inits = inits_of(alloc, servers_in(alloc, false, value)?.given)?;
    if !are_given(&inits, false) || !are_labelled(&inits, "m:3306") {
        return Ok(0);
    }
    Ok(opening_in(alloc, inits, false)?.servers().len())
}

// A text of servers, and their number, or the code and the path of their fault.
type Row = (&'static str, Result<usize, (FaultCode, &'static str)>);

static ROWS: [Row; 3] = [
    (
        r#"[{"name":"m","history":[["m",100,3]]},{"name":"r","source":"m","executed":1},{"name":"s","source":"r","detached":true}]"#,
        Ok(3),
    ),
    (
        r#"[{"name":"m","history":[["m",100,3]]},{"name":"r","source":"m","executed":2,"at":"mysql-bin.000001:104"}]"#,
        Err((FaultCode::BadPlace, "/servers/1/at")),
    ),
    (
        r#"[{"name":"m","history":[["m",100,3]],"purged":2},{"name":"r","source":"m","executed":2,"at":"mysql-bin.000001:104"}]"#,
        Err((FaultCode::BadPlace, "/servers/0/purged")),
    ),
];

fn opens_as(alloc: Global, text: &str, want: Result<usize, (FaultCode, &str)>) -> bool {
    match (opened(alloc, text), want) {
        (Ok(found), Ok(want)) => found == want,
        (Err(ReadFault::Fault(fault)), Err((code, path))) => {
            fault.code == code && fault.path.as_bytes() == path.as_bytes()
        }
        (Err(ReadFault::Memory), _) | (Ok(_), Err(_)) | (Err(_), Ok(_)) => false,
    }
}

#[test]
fn openings_are_checked(rt: HostRuntime) {
    for (text, want) in &ROWS {
        assert!(rt; opens_as(rt.alloc(), text, *want), "{text}");
    }
}
