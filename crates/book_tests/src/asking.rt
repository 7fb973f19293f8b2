//! Which servers the commands that ask the book or the audit name.

use crate::orch_base::{Memory, OwnedText, ServerNo, SourceState};
use crate::rows::{Given, book};
use asking_commands::{AnswerFault, answer};
use commands::{Answers, Command, CommandName, CommandTurn, Found, Keys, Line, Route};
use instance_keeper::Book;
use std::alloc::Global;

// z is no instance, and so no parent of a; b is detached; c and d are each other's source; e is of another cluster
// below m.
const SERVERS: [(&str, &str); 8] = [
    ("m", "m:3306"),
    ("x", "m:3306"),
    ("b", "m:3306"),
    ("c", "m:3306"),
    ("d", "m:3306"),
    ("z", "m:3306"),
    ("a", "m:3306"),
    ("e", "alpha"),
];

const INSTANCES: [Given; 7] = [
    Given::Instance(0, SourceState::Without, 0, 0),
    Given::Instance(1, SourceState::Attached(ServerNo(0)), 0, 0),
    Given::Instance(2, SourceState::Detached(ServerNo(0)), 0, 0),
    Given::Instance(3, SourceState::Attached(ServerNo(4)), 0, 0),
    Given::Instance(4, SourceState::Attached(ServerNo(3)), 0, 0),
    Given::Instance(6, SourceState::Attached(ServerNo(5)), 0, 0),
    Given::Instance(7, SourceState::Attached(ServerNo(0)), 0, 0),
];

// A command turn. The pattern of `find` is found in each third server.
fn turn(alloc: Global, name: CommandName, i: Option<u32>) -> Result<CommandTurn, Memory> {
    let found = [true, false, false, true, false, false, true, false];
    let answers = Vec::from_array(alloc, found)?;
    Ok(CommandTurn {
        command: Command {
            name,
            i: i.map(ServerNo),
            d: None,
        },
        keys: Keys {
            rule: None,
            duration: None,
            reason: None,
            owner: None,
            pattern: Some(Found {
                text: OwnedText::new(String::new(alloc)),
                answers: Answers::new(answers),
            }),
        },
    })
}

// The servers' names by number.
const LETTERS: [u8; 8] = *b"mxbcdzae";

// The name of the server that a line names; a dash if it names none.
fn letter(line: &Line) -> u8 {
    let no = match line {
        Line::Server(no) => *no,
        Line::Instance { no, .. } => *no,
        _ => return b'-',
    };
    LETTERS.get(no.0 as usize).copied().unwrap_or(b'?')
}

fn are_named(lines: &[Line], want: &str) -> bool {
    for (line, name) in lines.iter().zip(want.as_bytes()) {
        if letter(line) != *name {
            return false;
        }
    }
    lines.len() == want.len()
}

// Whether the lines that are answered name these servers; none if the command is to be refused.
fn is_answered(alloc: Global, book: &Book, turn: &CommandTurn, want: Option<&str>) -> bool {
    let Route::Asks(_) = Route::of(turn.command.name) else {
        return false;
    };
    if !turn.fits(book.servers()) {
        return false;
    }
    let answer = answer(alloc, book, &[], turn);
    let is_wanted = match (&answer, want) {
        (Ok(lines), Some(want)) => are_named(lines.as_slice(), want),
        (Err(AnswerFault::Refused(_)), None) => true,
        _ => false,
    };
    drop(answer);
    is_wanted
}

// A command, its instance, and the servers that its lines name; none if it is refused.
type Ask = (CommandName, Option<u32>, Option<&'static str>);

// The first question that is answered otherwise, counted from 0.
fn first_difference_in(alloc: Global, book: &Book, asked: &[Ask]) -> Result<Option<usize>, Memory> {
    for (place, (name, i, want)) in asked.iter().enumerate() {
        let turn = turn(alloc, *name, *i)?;
        let is_wanted = is_answered(alloc, book, &turn, *want);
        drop(turn);
        if !is_wanted {
            return Ok(Some(place));
        }
    }
    Ok(None)
}

fn first_difference(alloc: Global, asked: &[Ask]) -> Result<Option<usize>, Memory> {
    let book = book(alloc, &SERVERS, &INSTANCES)?;
    let found = first_difference_in(alloc, &book, asked);
    drop(book);
    found
}

const ASKED: [Ask; 14] = [
    (CommandName::Topology, Some(1), Some("acdmbex")),
    (CommandName::Topology, Some(7), Some("")),
    (CommandName::Topology, Some(5), None),
    (CommandName::WhichMaster, Some(2), Some("m")),
    (CommandName::WhichMaster, Some(6), Some("z")),
    (CommandName::WhichReplicas, Some(0), Some("ex")),
    (CommandName::WhichCluster, Some(7), Some("-")),
    (CommandName::WhichCluster, Some(5), None),
    (CommandName::WhichClusterInstances, Some(0), Some("abcdmx")),
    (CommandName::Clusters, Some(5), Some("--")),
    (CommandName::AllInstances, None, Some("abcdemx")),
    (CommandName::Find, None, Some("acm")),
    (CommandName::ReplicationAnalysis, None, Some("")),
    (CommandName::CheckGlobalRecoveries, None, Some("-")),
];

#[test]
fn questions_are_answered(rt: HostRuntime) {
    assert_eq!(rt; first_difference(rt.alloc(), &ASKED), Ok(None));
}
