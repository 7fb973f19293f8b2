//! Does what the command line asks with a scenario.
#![tactic(auto)]

#[cfg(test)]
mod printed;

use crate::command_line::{Usage, places};
use crate::instance_keeper_items::MemKeeper;
use crate::orch_base::{Memory, NoGate, OwnedText, Sink};
use crate::top_call_items::{Way, close};
use adapters::{FileSource, Input, StreamSink};
use live_calls::{command_line, instance_keeper_items, orch, orch_base, top_call_items};
use sql_keeper::{Backend, SqlKeeper};
use std::alloc::Global;
use std::fs::File;
use std::process::ExitCode;
use std::{env, io};

fn words_of(rt: &HostRuntime, alloc: Global) -> io::Result<Vec<Vec<u8>>> {
    let mut words = Vec::new(alloc);
    for word in env::args(rt)? {
        words.push(Vec::from_slice(alloc, word.as_bytes())?)?;
    }
    Ok(words)
}

// Handles that take the places of standard streams that were closed at the start, so that no file which is opened later
// is in one of them. A folder is neither read nor written.
fn in_closed_places(rt: &HostRuntime) -> [io::Result<File>; 3] {
    [
        File::open(rt, "/"),
        File::open(rt, "/"),
        File::open(rt, "/"),
    ]
}

// What the scenario is read from: standard input, or the file of this path.
fn source(rt: &HostRuntime, path: Option<OwnedText>) -> FileSource<Input> {
    let Some(path) = path else {
        return FileSource::new(Input::Standard(rt.stdin()));
    };
    match File::open(rt, path.as_str()) {
        Ok(file) => FileSource::new(Input::Opened(file)),
        Err(why) => FileSource::unopened(Input::Missing, why),
    }
}

// The place of kept rows: the database file of this path, or memory.
fn backend(rt: &HostRuntime, alloc: Global, path: Option<OwnedText>) -> Result<Backend, Memory> {
    Ok(match path {
        Some(path) => Backend::File(SqlKeeper::open(rt, path)),
        None => Backend::Memory(MemKeeper::new(alloc, Vec::new(alloc), Vec::new(alloc))?),
    })
}

fn no_memory<E: Sink>(err: &mut E) -> ExitCode {
    close(err, b"out of memory\n");
    ExitCode::from(Way::Memory.status())
}

fn main(rt: HostRuntime) -> ExitCode {
    let alloc = rt.alloc();
    let _held = in_closed_places(&rt);
    let mut err = StreamSink::new(rt.stderr());
    let words = match words_of(&rt, alloc) {
        Ok(words) => words,
        // An argument that is no text: the command line isn't accepted.
        Err(fault) if fault.kind() == io::ErrorKind::InvalidData => Vec::new(alloc),
        Err(_) => return no_memory(&mut err),
    };
    let (scenario, db) = match places(alloc, &words) {
        Ok(places) => (places.scenario, places.db),
        Err(Usage::BadWords) => (None, None),
        Err(Usage::Memory) => return no_memory(&mut err),
    };
    let mut source = source(&rt, scenario);
    let mut out = StreamSink::new(rt.stdout());
    let mut keeper = match backend(&rt, alloc, db) {
        Ok(keeper) => keeper,
        Err(_) => return no_memory(&mut err),
    };
    let status = orch(
        &rt,
        alloc,
        &words,
        &mut source,
        &mut out,
        &mut err,
        &mut keeper,
        &NoGate,
    );
    keeper.close();
    ExitCode::from(status)
}
