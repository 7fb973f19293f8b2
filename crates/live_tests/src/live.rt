//! Live runs whose threads meet, and others in which the caller does everything.

ghost use Rattle.std.specs.Prelude.{IfOk};
ghost use Rattle.orch_core.specs.Scenarios.Scenarios.{IsScenario};

use crate::commands::Refusal;
use crate::meeting::Meeting;
use crate::orch_base::{Memory, NoGate, ServerNo};
use crate::scenarios_items::Scenario;
use crate::turns::{Act, Reply, Step, Turn};
use live_desk::{Journal, live};
use scenario_reader::read;
use std::alloc::Global;
use std::test::*;

/// A master m with a replica s, and r below it, which a command moves up.
const MOVE: &str = r#"{"version":1,"servers":[{"name":"m","history":[["m",100,4]]},
{"name":"s","source":"m","executed":4,"limit":200},{"name":"r","source":"s","executed":1}],
"turns":[["command","move-up",{"i":"r"}]]}"#;

/// The same, and a command over a server that the first one's job has.
const BUSY: &str = r#"{"version":1,"servers":[{"name":"m","history":[["m",100,4]]},
{"name":"s","source":"m","executed":4,"limit":200},{"name":"r","source":"s","executed":1}],
"turns":[["command","move-up",{"i":"r"}],["command","start-replica",{"i":"s"}]]}"#;

/// Turns that are no command, with a failed server, a scan and a restart, among commands.
const MIXED: &str = r#"{"version":1,"servers":[{"name":"m","history":[["m",100,4]]},
{"name":"s","source":"m","executed":4,"limit":200},{"name":"r","source":"s","executed":1}],
"turns":[["fetch","r"],["command","move-up",{"i":"r"}],["apply","r"],["fail","m"],["scan"],
["command","stop-replica",{"i":"s"}],["restart"],["command","start-replica",{"i":"s"}]]}"#;

// The scenario that a text is.
fn scenario(alloc: Global, text: &str) -> Result<Scenario, Memory>
    ensures { IfOk result IsScenario }
{
    match read(alloc, text.as_bytes()) {
        Ok(scenario) => Ok(scenario),
        Err(_) => Err(Memory),
    }
}

fn is_command(turn: &Turn) -> bool {
    matches!(turn, Turn::Act(Act::Command(_)))
}

fn is_job(turn: &Turn) -> bool {
    matches!(turn, Turn::Act(Act::Job(_)))
}

fn is_poll_read(turn: &Turn) -> bool {
    matches!(turn, Turn::Act(Act::PollRead(_, _)))
}

fn is_by(entry: &(u32, Turn, Reply), by: u32) -> bool {
    entry.0 == by
}

// How many commands this number took.
fn count_commands(journal: &Journal, by: u32) -> usize {
    journal
        .entries
        .iter()
        .filter(|e| is_by(e, by) && is_command(&e.1))
        .count()
}

#[test]
fn a_poller_and_a_worker_take_turns(rt: HostRuntime) -> Result<(), Fail> {
    let alloc = rt.alloc();
    let s = scenario(alloc, MOVE)?;
    let gate = Meeting::new();
    let journal = live(&rt, alloc, &s, 1, 1, 10_000, 1000, &gate)?;
    assert!(rt; !gate.gave_up());
    let entries = &journal.entries;
    assert_eq!(rt; count_commands(&journal, 3), 1);
    assert!(rt; entries.iter().any(|e| is_by(e, 3) && is_job(&e.1)));
    assert!(rt; entries.iter().any(|e| is_by(e, 2) && is_poll_read(&e.1)));
    Ok(())
}

// A command that begins a job, and one that is refused because its server is in the job's hands.
#[test]
fn the_caller_does_it_all(rt: HostRuntime) -> Result<(), Fail> {
    let alloc = rt.alloc();
    let s = scenario(alloc, BUSY)?;
    let journal = live(&rt, alloc, &s, 2, 2, 0, 1000, &NoGate)?;
    let entries = &journal.entries;
    assert_eq!(rt; count_commands(&journal, 0), 2);
    assert!(rt; entries.len() > 2);
    assert!(rt; entries.iter().all(|e| is_by(e, 0)));
    assert!(rt; matches!(&entries[0].2, Reply::Begun(1)));
    assert!(rt; matches!(&entries[1].2, Reply::Refused(Refusal::Busy(ServerNo(1), 1))));
    Ok(())
}

// The driver takes the listed turns whatever the budget, and no others if it is 0.
#[test]
fn the_driver_takes_what_is_listed(rt: HostRuntime) -> Result<(), Fail> {
    let alloc = rt.alloc();
    let s = scenario(alloc, MIXED)?;
    let journal = live(&rt, alloc, &s, 1, 1, 0, 3, &NoGate)?;
    let entries = &journal.entries;
    assert!(rt; entries.len() > 7);
    assert!(rt; is_by(&entries[0], 1) && matches!(&entries[0].1, Turn::Step(Step::Fetch(_))));
    assert!(rt; is_by(&entries[4], 1) && matches!(&entries[4].1, Turn::Act(Act::Restart)));
    assert!(rt; is_by(&entries[5], 0) && is_command(&entries[5].1));
    assert_eq!(rt; count_commands(&journal, 0), 3);
    Ok(())
}

// Sixteen pollers and sixteen workers end, even if a restart drops their jobs.
#[test]
fn a_full_crew_ends(rt: HostRuntime) -> Result<(), Fail> {
    let alloc = rt.alloc();
    let s = scenario(alloc, MIXED)?;
    let journal = live(&rt, alloc, &s, 16, 16, 200, 20, &NoGate)?;
    let entries = &journal.entries;
    let commands = entries.iter().filter(|e| is_command(&e.1)).count();
    assert_eq!(rt; commands, 3);
    let restarts = entries
        .iter()
        .filter(|e| matches!(&e.1, Turn::Act(Act::Restart)))
        .count();
    assert_eq!(rt; restarts, 1);
    Ok(())
}
