//! What the top call prints of a live run, and what it prints of a run of its schedule.

use crate::instance_keeper_items::MemKeeper;
use crate::orch_base::{MemSink, MemSource, NoGate};
use live_calls::orch;
use std::alloc::Global;
use std::sync::Wait;
use std::test::Fail;
use std::thread::Threads;

/// A master m with a replica s, and r below it.
const SERVERS: &str = r#"{"version":1,"servers":[{"name":"m","history":[["m",100,4]]},
{"name":"s","source":"m","executed":4,"limit":200},{"name":"r","source":"s","executed":1}],"turns":"#;

// The status of a call over objects in memory, and what out took.
fn called<R: Threads + Wait + Sync>(
    rt: &R,
    alloc: Global,
    words: &str,
    text: &str,
) -> Result<(u8, MemSink), Fail> {
    let mut arguments = Vec::new(alloc);
    for word in words.split(' ') {
        arguments.push(Vec::from_slice(alloc, word.as_bytes())?)?;
    }
    let text = Vec::from_slice(alloc, text.as_bytes())?;
    let mut source = MemSource::new(text, Vec::new(alloc));
    let mut out = MemSink::new(alloc, 8_000_000, Vec::new(alloc))?;
    let mut err = MemSink::new(alloc, 100, Vec::new(alloc))?;
    let mut keeper = MemKeeper::new(alloc, Vec::new(alloc), Vec::new(alloc))?;
    let status = orch(
        rt,
        alloc,
        &arguments,
        &mut source,
        &mut out,
        &mut err,
        &mut keeper,
        &NoGate,
    );
    Ok((status, out))
}

// The same for these servers and turns.
fn over_turns<R: Threads + Wait + Sync>(
    rt: &R,
    alloc: Global,
    words: &str,
    turns: &str,
) -> Result<(u8, MemSink), Fail> {
    let mut text = String::from_str(alloc, SERVERS)?;
    text.push_str(turns)?;
    text.push_str("}")?;
    called(rt, alloc, words, text.as_str())
}

// The schedule and the report that out took of a live run.
fn divided(out: &MemSink) -> Option<(&str, &str)> {
    let (line, report) = str::from_utf8(out.written()).ok()?.split_once('\n')?;
    Some((line.strip_prefix("schedule ")?, report))
}

// How many lines have this in them.
fn count_lines(report: &str, wanted: &str) -> usize {
    report.split('\n').filter(|it| it.contains(wanted)).count()
}

#[test]
fn run_prints_the_same_of_the_schedule(rt: HostRuntime) -> Result<(), Fail> {
    let alloc = rt.alloc();
    let words = "orch -c live --pollers 2 --workers 2";
    let turns = r#"[["command","move-up",{"i":"r"}]]"#;
    let (status, out) = over_turns(&rt, alloc, words, turns)?;
    let (schedule, report) = divided(&out).unwrap_or(("[]", ""));
    let (again, lines) = over_turns(&rt, alloc, "orch -c run", schedule)?;
    assert_eq!(rt; status, again);
    assert!(rt; lines.written() == report.as_bytes());
    assert_eq!(rt; count_lines(report, "command move-up r:3306: begun 1"), 1);
    assert_eq!(rt; count_lines(report, "command "), 1);
    Ok(())
}
