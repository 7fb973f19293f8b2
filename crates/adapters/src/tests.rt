use crate::{FileSource, Input, StreamFault, StreamSink, TRIES};
use orch_base::{Sink, Source};
use std::fs::{self, File};
use std::io::{self, ErrorKind, Read, Write};
use std::test::Fail;

// A pipe whose other end is closed.
#[derive(Drop)]
struct Broken;

impl Read for Broken {
    fn read(&mut self, _buf: &mut [u8]) -> io::Result<usize> {
        Err(io::Error::from(ErrorKind::ConnectionReset))
    }
}

impl Write for Broken {
    fn write(&mut self, _buf: &[u8]) -> io::Result<usize> {
        Err(io::Error::from(ErrorKind::BrokenPipe))
    }

    fn flush(&mut self) -> io::Result<()> {
        Ok(())
    }
}

// Reads zeros and takes all, except for so many interruptions first.
#[derive(Drop)]
struct Interrupted {
    left: u32,
}

impl Interrupted {
    fn next_is_interrupted(&mut self) -> bool {
        let interrupted = self.left > 0;
        self.left = self.left.saturating_sub(1);
        interrupted
    }
}

impl Read for Interrupted {
    fn read(&mut self, buf: &mut [u8]) -> io::Result<usize> {
        if self.next_is_interrupted() {
            return Err(io::Error::from(ErrorKind::Interrupted));
        }
        Ok(buf.len())
    }
}

impl Write for Interrupted {
    fn write(&mut self, buf: &[u8]) -> io::Result<usize> {
        if self.next_is_interrupted() {
            return Err(io::Error::from(ErrorKind::Interrupted));
        }
        Ok(buf.len())
    }

    fn flush(&mut self) -> io::Result<()> {
        Ok(())
    }
}

// What two reads of at most four bytes answer, and the count of faults after each.
fn reads<R: Read + Drop>(reader: R) -> [(Option<usize>, u64); 2] {
    let mut buf = [0; 4];
    let mut source = FileSource::new(reader);
    let first = (source.read(&mut buf).ok(), source.faults);
    [first, (source.read(&mut buf).ok(), source.faults)]
}

// What three writes of two bytes answer, and the count of faults after each.
fn writes<W: Write + Drop>(writer: W) -> [(Option<usize>, u64); 3] {
    let mut sink = StreamSink::new(writer);
    let first = (sink.write(b"ab").ok(), sink.faults);
    let second = (sink.write(b"cd").ok(), sink.faults);
    [first, second, (sink.write(b"ef").ok(), sink.faults)]
}

#[test]
fn interruptions_are_tried_again(rt: HostRuntime) {
    // The interruptions; whether the first read and write come to an end, and the faults then.
    for (left, ends, faults) in [
        (0, true, 0),
        (1, true, 0),
        (TRIES - 1, true, 0),
        (TRIES, false, 1),
    ] {
        let answered = (
            reads(Interrupted { left })[0],
            writes(Interrupted { left })[0],
        );
        let wanted = ((ends.then_some(4), faults), (ends.then_some(2), faults));
        assert_eq!(rt; answered, wanted, "after {left}");
    }
}

#[test]
fn faults_are_counted(rt: HostRuntime) {
    let broken = [(None, 1), (None, 2)];
    assert_eq!(rt;
        (
            reads(b"abc".as_slice()),
            reads(Broken),
            reads(Input::Missing)
        ),
        ([(Some(3), 0), (Some(0), 0)], broken, broken)
    );
    let mut room = [0; 3];
    assert_eq!(rt;
        (writes(room.as_mut_slice()), writes(Broken)),
        (
            [(Some(2), 0), (Some(1), 0), (None, 1)],
            [(None, 1), (None, 2), (None, 3)]
        )
    );
}

const FOLDER: &str = "adapters_files";

#[test]
fn a_sink_holds_what_was_written(rt: HostRuntime) -> Result<(), Fail> {
    let _ = fs::remove_dir_all(&rt, FOLDER);
    fs::create_dir(&rt, FOLDER)?;
    let mut sink = StreamSink::new(File::create(&rt, "adapters_files/written")?);
    let written = (sink.write(b"1 tick 5: "), sink.write(b"done\n"));
    assert_eq!(rt;
        (written, sink.faults, sink.fault().is_none()),
        ((Ok(10), Ok(5)), 0, true)
    );
    drop(sink);
    let held = fs::read(&rt, "adapters_files/written")?;
    assert_eq!(rt; held.as_slice(), b"1 tick 5: done\n".as_slice());
    // A file that is open for reading alone takes nothing, and reports why.
    let mut closed = StreamSink::new(File::open(&rt, "adapters_files/written")?);
    let failed = (closed.write(b"x").is_err(), closed.faults);
    assert_eq!(rt; failed, (true, 1));
    assert!(rt; matches!(closed.fault(), Some(StreamFault::Write(_))));
    fs::remove_dir_all(&rt, FOLDER)?;
    // A slice without room takes nothing.
    let mut room = [0; 0];
    let mut full = StreamSink::new(room.as_mut_slice());
    assert!(rt;
        full.write(b"x").is_err() && matches!(full.fault(), Some(StreamFault::TookNothing))
    );
    Ok(())
}

#[test]
fn a_source_gives_what_a_file_holds(rt: HostRuntime) -> Result<(), Fail> {
    let path = "adapters_held";
    fs::write(&rt, path, b"{\"version\":1}".as_slice())?;
    let mut source = FileSource::new(Input::Opened(File::open(&rt, path)?));
    let mut bytes = [0; 16];
    let counts = (source.read(&mut bytes).ok(), source.read(&mut [0; 16]).ok());
    assert_eq!(rt;
        (
            counts,
            &bytes[..13],
            source.faults,
            source.fault().is_none()
        ),
        ((Some(13), Some(0)), b"{\"version\":1}".as_slice(), 0, true)
    );
    fs::remove_file(&rt, path)?;
    // A file that isn't there can't be opened: each read fails, by that cause.
    let Err(why) = File::open(&rt, path) else {
        return Err(Fail::new("the file is there"));
    };
    let mut missing = FileSource::unopened(Input::Missing, why);
    let mut buf = [0; 4];
    assert_eq!(rt;
        (
            missing.read(&mut buf).is_err(),
            missing.read(&mut buf).is_err(),
            missing.faults
        ),
        (true, true, 2)
    );
    assert!(rt;
        matches!(missing.fault(), Some(StreamFault::Open(why)) if why.kind() == ErrorKind::NotFound)
    );
    // A read that fails.
    let mut broken = FileSource::new(Broken);
    assert!(rt;
        broken.read(&mut buf).is_err() && matches!(broken.fault(), Some(StreamFault::Read(_)))
    );
    Ok(())
}
