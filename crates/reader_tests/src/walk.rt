//! Whole scenarios, and texts of the greatest length.

use crate::openings::ServerInit;
use crate::orch_base::{Memory, Rule, ServerNo};
use crate::scenario_values::{FaultCode, ReadFault};
use crate::scenarios_items::Scenario;
use scenario_reader::read;
use std::alloc::Global;

// A code, if the text of so many spaces has a fault.
fn code_of(alloc: Global, len: usize) -> Result<Option<FaultCode>, Memory> {
    let bytes = vec![in alloc; b' '; len]?;
    match read(alloc, &bytes) {
        Err(ReadFault::Fault(fault)) => Ok(Some(fault.code)),
        Err(ReadFault::Memory) | Ok(_) => Ok(None),
    }
}

#[test]
fn long_texts_are_refused(rt: HostRuntime) {
    for (len, code) in [
        (67_108_865, FaultCode::TooLong),
        (67_108_864, FaultCode::NotJson),
    ] {
        assert!(rt; code_of(rt.alloc(), len) == Ok(Some(code)), "{len}");
    }
}

const EVERY_KEY: &str = r#"{
    "version": 1, "now": 7, "gtid": true, "block": 60, "blocks": {"other": 0, "c1": 5}, "aliases": {"c1": "pay", "other": "x"},
    "filters": {"master": ["alias=pay"], "intermediate": ["^c2", "alias~=^x"]},
    "servers": [
        {"name": "m", "uuid": "00000000-0000-0000-0000-00000000000a", "server_id": 3, "version": "5.7.44", "cluster": "c1",
         "logs": true, "read_only": false, "limit": 1000, "up": true, "desk": true, "feed": true, "known": false,
         "history": [["m", 100, 2]], "flushes": [1], "purged": 2, "dc": "east"},
        {"name": "r:3307", "cluster": "c1", "source": "m", "executed": 2, "io": true, "sql": false, "auto": true, "detached": false,
         "until": "mysql-bin.000009:4", "rule": "must_not"}
    ],
    "turns": [["write", "m", 100], ["fetch", "r:3307"], ["apply", "r:3307"], ["fail", "m"], ["heal", "m"], ["rotate", "m"],
        ["purge", "m", 2], ["cut", "r:3307", "desk"], ["join", "r:3307", "feed"], ["tick", 1000000000]]
}"#;

// The first kept file of a server's log, and its data centre.
fn place(server: &ServerInit) -> (u32, &str) {
    (server.purged, server.settings.dc.as_str())
}

// The block periods of two clusters that have their own, and of one that hasn't. The first is also asked for by a
// server, and by none.
fn periods(scenario: &Scenario) -> ((u64, u64, u64), (u64, u64)) {
    let (own, all) = (&scenario.blocks, scenario.block);
    (
        (
            own.period(all, "c1"),
            own.period(all, "other"),
            own.period(all, "c2"),
        ),
        (
            own.period_at(all, ServerNo(1), "c1"),
            own.period_at(all, ServerNo(7), "c1"),
        ),
    )
}

fn has_every_key(scenario: &Scenario) -> bool {
    let filters = &scenario.filters;
    let [master, replica] = scenario.opening.servers() else {
        return false;
    };
    scenario.moment.0 == 7
        && periods(scenario) == ((5, 0, 60), (5, 5))
        && (place(master), place(replica)) == ((2, "east"), (1, ""))
        && scenario.aliases.as_slice().len() == 2
        && filters.master.passes.as_slice() == [true, true].as_slice()
        && filters.intermediate.passes.as_slice() == [false, false].as_slice()
        && scenario.known.as_slice() == [false, true].as_slice()
        && scenario.rules.as_slice() == [None, Some(Rule::MustNot)].as_slice()
        && scenario.turns.as_slice().len() == 10
}

#[test]
fn every_key_is_read(rt: HostRuntime) {
    let is_read = match read(rt.alloc(), EVERY_KEY.as_bytes()) {
        Ok(scenario) => has_every_key(&scenario),
        Err(_) => false,
    };
    assert!(rt; is_read);
}
