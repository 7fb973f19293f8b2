//! The real thing as a source or a sink: any reader or writer of std, with a count of its faults and the cause of the
//! latest.
#![tactic(auto)]

ghost use Rattle.std.specs.Prelude.{◌≡◌, ◌≤◌, None, Some};
ghost use Rattle.std.specs.Io.{ReadsAtMost, WritesAtMost};
ghost use Rattle.std.specs.Io.KnownBytes.{ReadConsumes, WriteAppends};
ghost use Rattle.orch_base.specs.Causes.{Rose};
ghost use Rattle.adapters.specs.declared.StreamFault.TheVariants as fault;

#[cfg(test)]
mod tests;

use orch_base::{Failed, Sink, Source};
use std::fs::File;
use std::io::{self, ErrorKind, Read, Write};
use std::rt::Stdin;
use thiserror::Error;

/// What went wrong with a file or a stream. It is never printed.
#[derive(Debug, Drop, Error)]
pub enum StreamFault {
    /// The file can't be opened.
    #[error("the file can't be opened: {0}")]
    Open(io::Error),
    /// A read failed.
    #[error("a read failed: {0}")]
    Read(io::Error),
    /// A write failed.
    #[error("a write failed: {0}")]
    Write(io::Error),
    /// A write took no byte of those that it was given.
    #[error("a write took nothing")]
    TookNothing,
}

/// A read or a write is made at most so many times if signals interrupt it. The last interruption counts as a fault.
const TRIES: u32 = 100;

// Reads. What a signal interrupts is tried again.
fn read_again<R: Read>(reader: &mut R, buf: &mut [u8]) -> io::Result<usize>
    ensures bound { ReadsAtMost result buf.new }
    ensures bytes { ReadConsumes (R.remaining reader.old) (R.remaining reader.new) result buf.new }
{
    for _ in 1..TRIES {
        match reader.read(buf) {
            Err(error) if error.kind() == ErrorKind::Interrupted => {}
            result => return result,
        }
    }
    reader.read(buf)
}

// Writes. What a signal interrupts is tried again.
fn write_again<W: Write>(writer: &mut W, piece: &[u8]) -> io::Result<usize>
    ensures bound { WritesAtMost result piece.now }
    ensures bytes { WriteAppends (W.contents writer.old) (W.contents writer.new) result piece.now }
{
    for _ in 1..TRIES {
        match writer.write(piece) {
            Err(error) if error.kind() == ErrorKind::Interrupted => {}
            result => return result,
        }
    }
    writer.write(piece)
}

/// What a scenario is read from.
#[derive(Drop)]
pub enum Input {
    Standard(Stdin),
    Opened(File),
    /// A file that couldn't be opened: each read fails.
    Missing,
}

impl Read for Input {
    fn read(&mut self, buf: &mut [u8]) -> io::Result<usize> {
        match self {
            Input::Standard(stdin) => stdin.read(buf),
            Input::Opened(file) => file.read(buf),
            Input::Missing => Err(io::Error::from(ErrorKind::NotFound)),
        }
    }
}

/// A reader, how many of its reads failed, and why the latest did.
#[derive(Drop)]
pub struct FileSource<R> {
    inner: R,
    faults: u64,
    fault: Option<StreamFault>,
}

impl<R: Read> FileSource<R> {
    /// Over this reader, before its first read.
    pub fn new(inner: R) -> Self
        ensures { result ≡ record { inner = inner; faults = 0; fault = None } }
    {
        FileSource {
            inner,
            faults: 0,
            fault: None,
        }
    }

    /// In place of a file that can't be opened for this reason: that stays the cause of its faults.
    pub fn unopened(inner: R, why: io::Error) -> Self
        ensures { result ≡ record { inner = inner; faults = 0; fault = Some (fault.Open why) } }
    {
        FileSource {
            inner,
            faults: 0,
            fault: Some(StreamFault::Open(why)),
        }
    }

    /// Why the latest read that failed did, or why the file can't be opened.
    pub fn fault(&self) -> Option<&StreamFault> {
        self.fault.as_ref()
    }

    // Counts a read that failed, and keeps why.
    fn count(&mut self, why: io::Error)
        ensures inner { self.new.inner ≡ self.old.inner }
        ensures faults { Rose self.old.faults self.new.faults }
        ensures later { self.old.faults ≤ self.new.faults }
    {
        self.faults = self.faults.saturating_add(1);
        if !matches!(self.fault, Some(StreamFault::Open(_))) {
            self.fault = Some(StreamFault::Read(why));
        }
    }
}

impl<R: Read> Source for FileSource<R> {
    ghost left = { λ s. R.remaining s.inner };

    ghost faults = { λ s. s.faults };

    fn read(&mut self, buf: &mut [u8]) -> Result<usize, Failed> {
        match read_again(&mut self.inner, buf) {
            Ok(count) => Ok(count),
            Err(why) => {
                self.count(why);
                Err(Failed)
            }
        }
    }
}

/// A writer, how many of its writes failed, and why the latest did.
#[derive(Drop)]
pub struct StreamSink<W> {
    inner: W,
    faults: u64,
    fault: Option<StreamFault>,
}

impl<W: Write> StreamSink<W> {
    /// Over this writer, before its first write.
    pub fn new(inner: W) -> Self
        ensures { result ≡ record { inner = inner; faults = 0; fault = None } }
    {
        StreamSink {
            inner,
            faults: 0,
            fault: None,
        }
    }

    /// Why the latest write that failed did.
    pub fn fault(&self) -> Option<&StreamFault> {
        self.fault.as_ref()
    }

    // Counts a write that failed, and keeps why.
    fn count(&mut self, why: StreamFault)
        ensures inner { self.new.inner ≡ self.old.inner }
        ensures faults { Rose self.old.faults self.new.faults }
        ensures later { self.old.faults ≤ self.new.faults }
    {
        self.faults = self.faults.saturating_add(1);
        self.fault = Some(why);
    }
}

impl<W: Write> Sink for StreamSink<W> {
    ghost written = { λ s. W.contents s.inner };

    ghost faults = { λ s. s.faults };

    fn write(&mut self, piece: &[u8]) -> Result<usize, Failed> {
        match write_again(&mut self.inner, piece) {
            Ok(count) if count > 0 || piece.is_empty() => Ok(count),
            Ok(_) => {
                self.count(StreamFault::TookNothing);
                Err(Failed)
            }
            Err(why) => {
                self.count(StreamFault::Write(why));
                Err(Failed)
            }
        }
    }
}
