//! The specification's worked examples: each is a call over objects in memory.

use crate::calls::{Objects, Told, WHOLE, call_by, keeper_of};
use crate::examples_more::MORE;
use crate::examples_moves::MOVES;
use crate::examples_recoveries::RECOVERIES;
use crate::examples_refused::PURGED;
use std::alloc::Global;
use std::test::Fail;

/// A call: the command line, the scenario, what out and err take, and the status. In what out takes a line of two dots
/// is any lines, and two dots at the end of a line are what is left of it.
#[derive(Clone, Copy)]
pub(crate) struct Example {
    pub(crate) arguments: &'static str,
    pub(crate) scenario: &'static str,
    pub(crate) out: &'static str,
    pub(crate) err: &'static str,
    pub(crate) status: u8,
}

const ANY: &str = "..";

const REST: &str = " ..";

/// The arguments of a command line.
pub(crate) fn words_in(alloc: Global, arguments: &str) -> Result<Vec<Vec<u8>>, Fail> {
    let mut words = Vec::new(alloc);
    for word in arguments.split(' ') {
        words.push(Vec::from_slice(alloc, word.as_bytes())?)?;
    }
    Ok(words)
}

fn is_line(line: &str, wanted: &str) -> bool {
    match wanted.strip_suffix(REST) {
        Some(front) => line.starts_with(front),
        None => line == wanted,
    }
}

// Whether a text is the wanted one.
fn fits(text: &str, wanted: &str) -> bool {
    if !wanted.contains(ANY) {
        return text == wanted;
    }
    let mut lines = text.split('\n');
    let mut any = false;
    for line in wanted.split('\n') {
        if line == ANY {
            any = true;
        } else {
            let found = if any {
                lines.any(|it| is_line(it, line))
            } else {
                lines.next().is_some_and(|it| is_line(it, line))
            };
            if !found {
                return false;
            }
            any = false;
        }
    }
    true
}

// A call over no rows.
fn called(alloc: Global, arguments: &str, text: &[u8], objects: Objects) -> Result<Told, Fail> {
    let words = words_in(alloc, arguments)?;
    let mut keeper = keeper_of(alloc, &[], 0)?;
    call_by(alloc, &words, text, objects, &mut keeper)
}

fn is_met(alloc: Global, example: &Example) -> Result<bool, Fail> {
    let text = example.scenario.as_bytes();
    let told = called(alloc, example.arguments, text, WHOLE)?;
    let (status, out, err) = told.all();
    Ok(
        status == example.status
            && out.is_some_and(|text| fits(text, example.out))
            && err == Some(example.err),
    )
}

// The first that isn't met: its place and its command line.
fn unmet(alloc: Global, examples: &[Example]) -> Result<Option<(usize, &'static str)>, Fail> {
    for (at, example) in examples.iter().enumerate() {
        if !is_met(alloc, example)? {
            return Ok(Some((at, example.arguments)));
        }
    }
    Ok(None)
}

// A test for each list: one declaration can't hold the rows of all.
#[test]
fn moves_end_as_specified(rt: HostRuntime) -> Result<(), Fail> {
    assert_eq!(rt; unmet(rt.alloc(), MOVES)?, None);
    Ok(())
}

#[test]
fn refused_moves_end_as_specified(rt: HostRuntime) -> Result<(), Fail> {
    assert_eq!(rt; unmet(rt.alloc(), PURGED)?, None);
    Ok(())
}

#[test]
fn recoveries_end_as_specified(rt: HostRuntime) -> Result<(), Fail> {
    assert_eq!(rt; unmet(rt.alloc(), RECOVERIES)?, None);
    Ok(())
}

#[test]
fn turns_and_refusals_end_as_specified(rt: HostRuntime) -> Result<(), Fail> {
    assert_eq!(rt; unmet(rt.alloc(), MORE)?, None);
    Ok(())
}

// The room of a scenario that is drawn.
const DRAWS: Objects = Objects {
    source_fails: 0,
    out_fails: 0,
    keeper_fails: 0,
    out_room: 100_000,
    err_room: 100,
};

const SUMMED: &str = "turns 2000 refused 0 failed 0
executed ..
recoveries 0
errant 0
";

#[test]
fn a_drawn_scenario_has_one_summary(rt: HostRuntime) -> Result<(), Fail> {
    let alloc = rt.alloc();
    let draws = "orch -c generate --servers 1000 --turns 2000";
    let sums = "orch -c run --summary";
    let drawn = called(alloc, draws, "".as_bytes(), DRAWS)?;
    let first = called(alloc, sums, drawn.out(), WHOLE)?;
    let second = called(alloc, sums, drawn.out(), WHOLE)?;
    let (status, out, err) = first.all();
    assert!(rt;
        status == 0 && err == Some("") && first.out() == second.out(),
        "{status}"
    );
    assert!(rt;
        out.is_some_and(|text| fits(text, SUMMED)),
        "another summary"
    );
    Ok(())
}
