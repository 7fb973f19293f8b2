use crate::orch_base::*;
use std::alloc::Global;

// The list of this one call.
fn one(alloc: Global, call: u64) -> Result<Vec<u64>, Memory> {
    let mut calls = Vec::new(alloc);
    calls.push(call)?;
    Ok(calls)
}

// How much is read of a source of so many bytes, whose call of this number fails.
fn read_len(alloc: Global, len: usize, fail_at: u64) -> Result<usize, NotRead> {
    let bytes = vec![in alloc; b'x'; len]?;
    let mut source = MemSource::new(bytes, one(alloc, fail_at)?);
    Ok(read_all(alloc, &mut source)?.len())
}

#[test]
fn reads_all(rt: HostRuntime) {
    for (len, fail_at, want) in [
        (0, 9, Ok(0)),
        (5, 9, Ok(5)),
        (8192, 9, Ok(8192)),
        (20_000, 9, Ok(20_000)),
        (20_000, 1, Err(NotRead::Source)),
        (20_000, 2, Err(NotRead::Source)),
    ] {
        assert!(rt;
            read_len(rt.alloc(), len, fail_at) == want,
            "at {len}, {fail_at}"
        );
    }
}

// What `abc` and then `def` answer, whether this is what a sink took of them, and its faults. It has so much room, and
// its call of this number fails.
fn write_two(
    alloc: Global,
    room: usize,
    fail_at: u64,
    written: &[u8],
) -> Result<(Result<(), Failed>, Result<(), Failed>, bool, u64), Memory> {
    let mut sink = MemSink::new(alloc, room, one(alloc, fail_at)?)?;
    let first = write_all(&mut sink, b"abc");
    let second = write_all(&mut sink, b"def");
    Ok((first, second, sink.written() == written, sink.faults()))
}

type Row = (usize, u64, Result<(), Failed>, &'static [u8], u64);

static ROWS: [Row; 5] = [
    (8, 9, Ok(()), b"abcdef", 0),
    (6, 9, Ok(()), b"abcdef", 0),
    (5, 9, Err(Failed), b"abcde", 1),
    (3, 9, Err(Failed), b"abc", 1),
    (8, 2, Err(Failed), b"abc", 1),
];

#[test]
fn writes_all(rt: HostRuntime) {
    for (room, fail_at, want, written, faults) in &ROWS {
        let found = write_two(rt.alloc(), *room, *fail_at, written);
        assert!(rt;
            found == Ok((Ok(()), *want, true, *faults)),
            "at {room}, {fail_at}"
        );
    }
}
