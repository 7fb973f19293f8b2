//! Drawn scenarios: what two implementations that were written separately drew from the same numbers.

ghost use Rattle.std.specs.Prelude.{◌<◌};

use crate::orch_base::{MemSink, Memory};
use scenario_generator::{NotWritten, generate, write_scenario};
use std::alloc::Global;

// A seed, so many servers and turns, and the text in parts.
type Row = (u64, u32, u32, &'static [&'static str]);

#[rattlefmt::skip]
static ROWS: [Row; 5] = [
    (7, 1, 0, &[
        "{\"servers\":[{\"history\":[[\"s0001\",100,20]],\"name\":\"s0001\"}],\"turns\":[],",
        "\"version\":1}\n",
    ]),
    (18446744073709551615, 2, 0, &[
        "{\"servers\":[{\"history\":[[\"s0001\",100,20]],\"name\":\"s0001\"},{\"executed\":17,",
        "\"name\":\"s0002\",\"source\":\"s0001\"}],\"turns\":[],\"version\":1}\n",
    ]),
    (1, 5, 1, &[
        "{\"servers\":[{\"history\":[[\"s0001\",100,20]],\"name\":\"s0001\"},{\"executed\":15,",
        "\"name\":\"s0002\",\"source\":\"s0001\"},{\"executed\":9,\"name\":\"s0003\",",
        "\"source\":\"s0001\"},{\"executed\":8,\"name\":\"s0004\",\"source\":\"s0001\"},",
        "{\"executed\":2,\"name\":\"s0005\",\"source\":\"s0003\"}],\"turns\":[[\"fetch\",\"s0002\"]],",
        "\"version\":1}\n",
    ]),
    (9223372036854775808, 10, 0, &[
        "{\"servers\":[{\"history\":[[\"s0001\",100,20]],\"name\":\"s0001\"},{\"executed\":16,",
        "\"name\":\"s0002\",\"source\":\"s0001\"},{\"executed\":12,\"name\":\"s0003\",",
        "\"source\":\"s0002\"},{\"executed\":13,\"name\":\"s0004\",\"source\":\"s0001\"},",
        "{\"executed\":0,\"name\":\"s0005\",\"source\":\"s0001\"},{\"executed\":3,\"name\":\"s0006\",",
        "\"source\":\"s0004\"},{\"executed\":6,\"name\":\"s0007\",\"source\":\"s0004\"},",
        "{\"executed\":3,\"name\":\"s0008\",\"source\":\"s0007\"},{\"executed\":0,\"name\":\"s0009\",",
        "\"source\":\"s0005\"},{\"executed\":5,\"name\":\"s0010\",\"source\":\"s0007\"}],\"turns\":[],",
        "\"version\":1}\n",
    ]),
    (42, 20, 40, &[
        "{\"servers\":[{\"history\":[[\"s0001\",100,20]],\"name\":\"s0001\"},{\"executed\":2,",
        "\"name\":\"s0002\",\"source\":\"s0001\"},{\"executed\":9,\"name\":\"s0003\",",
        "\"source\":\"s0001\"},{\"executed\":6,\"name\":\"s0004\",\"source\":\"s0003\"},",
        "{\"executed\":0,\"name\":\"s0005\",\"source\":\"s0002\"},{\"executed\":2,\"name\":\"s0006\",",
        "\"source\":\"s0002\"},{\"executed\":0,\"name\":\"s0007\",\"source\":\"s0005\"},",
        "{\"executed\":1,\"name\":\"s0008\",\"source\":\"s0002\"},{\"executed\":0,\"name\":\"s0009\",",
        "\"source\":\"s0005\"},{\"executed\":1,\"name\":\"s0010\",\"source\":\"s0008\"},",
        "{\"history\":[[\"s0011\",100,20]],\"name\":\"s0011\"},{\"executed\":13,\"name\":\"s0012\",",
        "\"source\":\"s0011\"},{\"executed\":12,\"name\":\"s0013\",\"source\":\"s0012\"},",
        "{\"executed\":20,\"name\":\"s0014\",\"source\":\"s0011\"},{\"executed\":0,\"name\":\"s0015\",",
        "\"source\":\"s0011\"},{\"executed\":8,\"name\":\"s0016\",\"source\":\"s0012\"},",
        "{\"executed\":18,\"name\":\"s0017\",\"source\":\"s0011\"},{\"executed\":3,\"name\":\"s0018\",",
        "\"source\":\"s0014\"},{\"executed\":0,\"name\":\"s0019\",\"source\":\"s0015\"},",
        "{\"executed\":11,\"name\":\"s0020\",\"source\":\"s0014\"}],\"turns\":[[\"rotate\",\"s0011\"],",
        "[\"fetch\",\"s0014\"],[\"fetch\",\"s0015\"],[\"fetch\",\"s0012\"],[\"poll-store\",0],",
        "[\"rotate\",\"s0008\"],[\"poll-read\",0,\"s0020\"],[\"poll-read\",0,\"s0008\"],[\"fetch\",",
        "\"s0016\"],[\"rotate\",\"s0004\"],[\"rotate\",\"s0004\"],[\"apply\",\"s0009\"],[\"apply\",",
        "\"s0016\"],[\"rotate\",\"s0019\"],[\"rotate\",\"s0016\"],[\"apply\",\"s0005\"],[\"apply\",",
        "\"s0002\"],[\"apply\",\"s0017\"],[\"write\",\"s0011\",437],[\"apply\",\"s0017\"],",
        "[\"poll-read\",0,\"s0004\"],[\"poll-read\",0,\"s0011\"],[\"fetch\",\"s0016\"],",
        "[\"poll-store\",0],[\"fetch\",\"s0002\"],[\"rotate\",\"s0015\"],[\"fetch\",\"s0015\"],",
        "[\"poll-read\",0,\"s0016\"],[\"poll-store\",0],[\"fetch\",\"s0001\"],[\"apply\",\"s0019\"],",
        "[\"fetch\",\"s0014\"],[\"fetch\",\"s0017\"],[\"apply\",\"s0005\"],[\"apply\",\"s0016\"],",
        "[\"rotate\",\"s0015\"],[\"apply\",\"s0005\"],[\"poll-read\",0,\"s0018\"],[\"rotate\",",
        "\"s0007\"],[\"poll-read\",0,\"s0017\"]],\"version\":1}\n",
    ]),
];

fn joined(alloc: Global, parts: &[&str]) -> Result<Vec<u8>, Memory> {
    let mut text = Vec::new(alloc);
    for part in parts {
        text.extend_from_slice(part.as_bytes())?;
    }
    Ok(text)
}

// Whether this is the text that is drawn, in one piece and to a sink.
fn is_drawn(alloc: Global, row: &Row) -> Result<bool, Memory> {
    let (seed, servers, turns, parts) = *row;
    if servers == 0 {
        return Ok(false);
    }
    let text = joined(alloc, parts)?;
    let mut sink = MemSink::new(alloc, 4096, Vec::new(alloc))?;
    let answer = write_scenario(alloc, seed, servers, turns, &mut sink);
    let whole = generate(alloc, seed, servers, turns)?;
    Ok(answer == Ok(()) && sink.written() == text.as_slice() && whole == text)
}

#[test]
fn draws(rt: HostRuntime) {
    for row in &ROWS {
        let seed = row.0;
        assert!(rt; is_drawn(rt.alloc(), row) == Ok(true), "seed {seed}");
    }
}

// What a sink of so much room took of 1,000 servers and 2,000 turns, if its second call fails or none.
fn taken(
    alloc: Global,
    room: usize,
    fails: bool,
) -> Result<(Vec<u8>, u64, Result<(), NotWritten>), Memory> {
    let mut sink = MemSink::new(alloc, room, vec![in alloc; if fails { 2 } else { 0 }]?)?;
    let answer = write_scenario(alloc, 3, 1000, 2000, &mut sink);
    Ok((
        Vec::from_slice(alloc, sink.written())?,
        sink.faults(),
        answer,
    ))
}

// A sink that fails at its second piece took the first, one that has no more room took what fits, and both report it.
fn tells(alloc: Global) -> Result<bool, Memory> {
    let whole = taken(alloc, 200_000, false)?;
    let cut = taken(alloc, 200_000, true)?;
    let full = taken(alloc, 70_000, false)?;
    Ok(
        (whole.1, whole.2) == (0, Ok(()))
            && whole.0.len() > 80_000
            && (cut.1, cut.2) == (1, Err(NotWritten::Sink))
            && (cut.0.len() >= 65_536 && cut.0.len() < 66_000)
            && whole.0.starts_with(&cut.0)
            && (full.1, full.2) == (1, Err(NotWritten::Sink))
            && full.0.len() == 70_000
            && whole.0.starts_with(&full.0),
    )
}

#[test]
fn tells_faults(rt: HostRuntime) {
    assert!(rt; tells(rt.alloc()) == Ok(true));
}
