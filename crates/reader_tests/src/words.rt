//! The values of options that no run shows yet.

use crate::orch_base::{Memory, Name, OwnedText, Rule};
use command_line::{Places, Usage, places};
use std::alloc::Global;

fn words_of(alloc: Global, texts: &[&str]) -> Result<Vec<Vec<u8>>, Memory> {
    let mut words = Vec::new(alloc);
    for text in texts {
        words.push(Vec::from_slice(alloc, text.as_bytes())?)?;
    }
    Ok(words)
}

fn read(alloc: Global, texts: &[&str]) -> Result<Places, Usage> {
    places(alloc, &words_of(alloc, texts)?)
}

// Pollers, workers, waits, seed, servers, turns, and whether tables follow.
type Numbers = (u32, u32, u32, u64, u32, u32, bool);

fn numbers_of(alloc: Global, texts: &[&str]) -> Result<Numbers, Usage> {
    let it = read(alloc, texts)?;
    Ok((
        it.pollers, it.workers, it.wait, it.seed, it.servers, it.turns, it.tables,
    ))
}

type Row = (&'static [&'static str], Result<Numbers, Usage>);

static ROWS: [Row; 4] = [
    (&[], Err(Usage::BadWords)),
    (&["orch", "-c", "run"], Ok((2, 2, 1_000, 1, 10, 100, false))),
    (
        &[
            "orch",
            "-crun",
            "--pollers",
            "1",
            "--workers",
            "1",
            "--wait",
            "1",
            "--seed",
            "0",
            "--servers",
            "1",
            "--turns",
            "000",
            "--tables",
        ],
        Ok((1, 1, 1, 0, 1, 0, true)),
    ),
    (
        &[
            "orch",
            "-crun",
            "--pollers=16",
            "--workers",
            "0016",
            "--wait",
            "10000",
            "--seed",
            "18446744073709551615",
            "--servers",
            "1000",
            "--turns",
            "1000000",
        ],
        Ok((
            16,
            16,
            10_000,
            18_446_744_073_709_551_615,
            1_000,
            1_000_000,
            false,
        )),
    ),
];

#[test]
fn numbers_are_read(rt: HostRuntime) {
    for (texts, want) in &ROWS {
        assert!(rt; numbers_of(rt.alloc(), texts) == *want, "{texts:?}");
    }
}

fn is_text(found: &Option<OwnedText>, text: &str) -> bool {
    match found {
        Some(found) => found.as_str() == text,
        None => false,
    }
}

fn is_name(alloc: Global, found: &Option<Name>, text: &str) -> bool {
    match (found, Name::read(alloc, text)) {
        (Some(found), Ok(name)) => found.is_same(&name),
        (None, _) | (_, Err(_)) => false,
    }
}

// Whether these are the values of `TEXTS`.
fn are_texts(alloc: Global, found: &Places) -> bool {
    is_name(alloc, &found.i, "m:3306")
        && is_name(alloc, &found.d, "n:7")
        && (found.rule, found.duration) == (Some(Rule::Prefer), Some(600))
        && found.command.as_str() == "run"
        && is_text(&found.scenario, "a.json")
        && is_text(&found.reason, "late")
        && is_text(&found.owner, "é")
        && is_text(&found.pattern, "^m")
}

static TEXTS: [&str; 14] = [
    "orch",
    "-im",
    "-d=n:7",
    "-c",
    "run",
    "--scenario",
    "a.json",
    "--reason",
    "late",
    "--owner=é",
    "--pattern",
    "^m",
    "--promotion-rule=prefer",
    "--duration=10m",
];

#[test]
fn texts_are_read(rt: HostRuntime) {
    let are_read = match read(rt.alloc(), &TEXTS) {
        Ok(found) => are_texts(rt.alloc(), &found),
        Err(_) => false,
    };
    assert!(rt; are_read);
}
