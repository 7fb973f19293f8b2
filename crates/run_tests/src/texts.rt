//! The texts of replies and tables: those that no run prints, and each call that prints or copies.

use crate::binlog_coords_items::Coord;
use crate::commands::{
    Answers, BoxedSet, Cause, Command, CommandName, CommandTurn, Found, HookPhase, Keys, Line,
    Lines, Lost, RecoveryLine, Refusal,
};
use crate::gtid_sets::GtidSet;
use crate::made::world;
use crate::orch_base::{
    Copied, Ending, Kind, Memory, Moment, Name, OwnedText, Rule, Same, ServerNo,
};
use crate::server_model::World;
use crate::server_words_items::{
    ApplyAnswer, FetchAnswer, PurgeAnswer, RotateAnswer, Spot, WriteAnswer,
};
use report_text::{PrintedNames, plain_text, reply_text, reply_text_by, tables};
use std::alloc::Global;
use std::process::Abort;
use std::test::*;
use turns::{Act, BoxedCommand, BoxedFailure, Failure, Reply, Step, Turn};

const M: ServerNo = ServerNo(0);

const R: ServerNo = ServerNo(1);

const C: Coord = Coord { file: 2, pos: 304 };

#[derive(Clone, Copy)]
enum Said {
    WriteFull,
    ApplyFull,
    RotateFull,
    FetchPurged,
    Purged,
    NoFile,
    LastRead,
    Refused,
    NewSourcePurged,
    NoMarks,
    MovedWithoutLog,
    Failed,
    PurgedSince,
    Unmarked,
    Mismatched,
    HookFailed,
    Told,
    Regrouped,
    Held,
    Taken,
    Released,
    NotHeld,
    Lapsed,
    Begun,
}

// What a run prints for each, and what a single command does.
const TEXTS: [(Said, &str); 24] = [
    (Said::WriteFull, "7 write m:3306 1: full\nfull\n"),
    (Said::ApplyFull, "7 apply r:3307: full\nfull\n"),
    (Said::RotateFull, "7 rotate m:3306: full\nfull\n"),
    (Said::FetchPurged, "7 fetch r:3307: purged 3\npurged 3\n"),
    (Said::Purged, "7 purge m:3306 3: done 1\ndone 1\n"),
    (Said::NoFile, "7 purge m:3306 9: no file\nno file\n"),
    (
        Said::LastRead,
        "7 poll-read 63 r:3307: read 18446744073709551615\nread 18446744073709551615\n",
    ),
    (
        Said::Refused,
        "7 command find r:3307: refused 18 Errant 3e11fa47-71ca-11e1-9e33-c80aa9429562:1-3\n\
         refused 18 Errant 3e11fa47-71ca-11e1-9e33-c80aa9429562:1-3\n",
    ),
    (
        Said::NewSourcePurged,
        "7 scan: refused 30 Purged m:3306 3\nrefused 30 Purged m:3306 3\n",
    ),
    (
        Said::NoMarks,
        "7 scan: refused 31 PseudoOff\nrefused 31 PseudoOff\n",
    ),
    (
        Said::MovedWithoutLog,
        "7 scan: refused 32 MovedNotLogging r:3307\nrefused 32 MovedNotLogging r:3307\n",
    ),
    (
        Said::Failed,
        "7 job 2: failed Interfered r:3307 expected m:3306 mysql-bin.000002:304 found nowhere\n\
         failed Interfered r:3307 expected m:3306 mysql-bin.000002:304 found nowhere\n",
    ),
    (
        Said::PurgedSince,
        "7 job 2: failed Purged r:3307 3\nfailed Purged r:3307 3\n",
    ),
    (
        Said::Unmarked,
        "7 job 2: failed NoMark r:3307\nfailed NoMark r:3307\n",
    ),
    (
        Said::Mismatched,
        "7 job 2: failed Mismatch r:3307 3\nfailed Mismatch r:3307 3\n",
    ),
    (
        Said::HookFailed,
        "7 job 2: failed HookFailed 1 exit 3\n  hook pre_failover check m exit 3\n\
         failed HookFailed 1 exit 3\nhook pre_failover check m exit 3\n",
    ),
    (
        Said::Told,
        "7 scan: done\n  r:3307 not logging\n  m:3306 must not\n  \
         recovery 1 m:3306 master m:3306 begun 0 open unacked\n\
         r:3307 not logging\nm:3306 must not\nrecovery 1 m:3306 master m:3306 begun 0 open unacked\n",
    ),
    (
        Said::Regrouped,
        "7 scan: done\n  m:3306 purged mysql-bin.000002:304\n  \
         r:3307 Interfered expected m:3306 mysql-bin.000002:304 found nowhere\n\
         m:3306 purged mysql-bin.000002:304\n\
         r:3307 Interfered expected m:3306 mysql-bin.000002:304 found nowhere\n",
    ),
    (Said::Held, "7 claim 1: held until 60\nheld until 60\n"),
    (
        Said::Taken,
        "7 claim 2: taken 1 until 60\ntaken 1 until 60\n",
    ),
    (Said::Released, "7 release 1: released\nreleased\n"),
    (Said::NotHeld, "7 release 1: not held\nnot held\n"),
    (Said::Lapsed, "7 as 2 scan: lapsed\nlapsed\n"),
    (
        Said::Begun,
        "7 as 1 command find r:3307: begun 1\nbegun 1\n",
    ),
];

fn text(alloc: Global, text: &str) -> Result<OwnedText, Memory> {
    Ok(OwnedText::new(String::from_str(alloc, text)?))
}

// A command with each key.
fn command(alloc: Global) -> Result<Act, Memory> {
    let found = Found {
        text: text(alloc, "^r")?,
        answers: Answers::new(vec![in alloc; false, true]?),
    };
    let command = Command {
        name: CommandName::Find,
        i: Some(R),
        d: None,
    };
    let keys = Keys {
        rule: Some(Rule::MustNot),
        duration: Some(600),
        reason: Some(text(alloc, "why")?),
        owner: None,
        pattern: Some(found),
    };
    Ok(Act::Command(BoxedCommand::new(alloc, CommandTurn { command, keys })?))
}

fn refused(alloc: Global) -> Result<Reply, Fail> {
    let set = GtidSet::read(alloc, "3e11fa47-71ca-11e1-9e33-c80aa9429562:1-3")?;
    Ok(Reply::Refused(Refusal::Errant(BoxedSet::new(alloc, set)?)))
}

// Expected at a coordinate and found nowhere.
fn interfered() -> Cause {
    Cause::Interfered {
        no: R,
        expected: Spot::At(M, C),
        found: Spot::Nowhere,
    }
}

// What the job failed with, and the line of its hook if one failed.
fn failed(alloc: Global, cause: Cause, hook: bool) -> Result<(Turn, Reply), Memory> {
    let mut lines = Vec::new(alloc);
    if hook {
        lines.push(Line::Hook {
            phase: HookPhase::PreFailover,
            text: text(alloc, "check m")?,
            exit: 3,
        })?;
    }
    let lines = Lines::new(lines);
    let failure = BoxedFailure::new(alloc, Failure { cause, lines })?;
    Ok((Turn::Act(Act::Job(2)), Reply::Failed(failure)))
}

fn lost(no: ServerNo, why: Lost) -> Line {
    Line::Lost {
        no,
        why,
        detached: false,
    }
}

fn recovery(alloc: Global) -> Result<Line, Memory> {
    Ok(Line::Recovery(RecoveryLine {
        id: 1,
        cluster: text(alloc, "m:3306")?,
        kind: Kind::Master,
        failed: M,
        begun: Moment(0),
        ended: None,
        outcome: Ending::Unended,
        acked: false,
    }))
}

fn told_reply(alloc: Global) -> Result<Reply, Memory> {
    let lines = vec![in alloc;
        lost(R, Lost::NotLogging),
        lost(M, Lost::MustNot),
        recovery(alloc)?,
    ]?;
    Ok(Reply::Told(Lines::new(lines)))
}

// One replica is lost, and another isn't matched.
fn regrouped(alloc: Global) -> Result<Reply, Memory> {
    let lines = vec![in alloc;
        lost(M, Lost::Purged(C)),
        Line::Unmatched {
            no: R,
            why: interfered()
        },
    ]?;
    Ok(Reply::Told(Lines::new(lines)))
}

fn scanned(reply: Reply) -> (Turn, Reply) {
    (Turn::Act(Act::Scan), reply)
}

fn answered(alloc: Global, said: Said) -> Result<(Turn, Reply), Fail> {
    let until = Moment(60);
    Ok(match said {
        Said::WriteFull => (
            Turn::Step(Step::Write(M, 1)),
            Reply::Write(WriteAnswer::Full),
        ),
        Said::ApplyFull => (Turn::Step(Step::Apply(R)), Reply::Apply(ApplyAnswer::Full)),
        Said::RotateFull => (
            Turn::Step(Step::Rotate(M)),
            Reply::Rotate(RotateAnswer::Full),
        ),
        Said::FetchPurged => (
            Turn::Step(Step::Fetch(R)),
            Reply::Fetch(FetchAnswer::Purged(3)),
        ),
        Said::Purged => (
            Turn::Step(Step::Purge(M, 3)),
            Reply::Purge(PurgeAnswer::Done(1)),
        ),
        Said::NoFile => (
            Turn::Step(Step::Purge(M, 9)),
            Reply::Purge(PurgeAnswer::NoFile),
        ),
        Said::LastRead => (
            Turn::Act(Act::PollRead(63, R)),
            Reply::Read(18_446_744_073_709_551_615),
        ),
        Said::Refused => (Turn::Act(command(alloc)?), refused(alloc)?),
        Said::NewSourcePurged => scanned(Reply::Refused(Refusal::Purged(M, 3))),
        Said::NoMarks => scanned(Reply::Refused(Refusal::PseudoOff)),
        Said::MovedWithoutLog => scanned(Reply::Refused(Refusal::MovedNotLogging(R))),
        Said::Failed => failed(alloc, interfered(), false)?,
        Said::PurgedSince => failed(alloc, Cause::Purged(R, 3), false)?,
        Said::Unmarked => failed(alloc, Cause::NoMark(R), false)?,
        Said::Mismatched => failed(alloc, Cause::Mismatch(R, 3), false)?,
        Said::HookFailed => failed(alloc, Cause::HookFailed { number: 1, exit: 3 }, true)?,
        Said::Told => scanned(told_reply(alloc)?),
        Said::Regrouped => scanned(regrouped(alloc)?),
        Said::Held => (Turn::Claim(1), Reply::Held(until)),
        Said::Taken => (Turn::Claim(2), Reply::Taken { node: 1, until }),
        Said::Released => (Turn::Release(1), Reply::Released),
        Said::NotHeld => (Turn::Release(1), Reply::NotHeld),
        Said::Lapsed => (Turn::As(2, Act::Scan), Reply::Lapsed),
        Said::Begun => (Turn::As(1, command(alloc)?), Reply::Begun(1)),
    })
}

fn names(alloc: Global) -> Result<Vec<Name>, Fail> {
    Ok(vec![in alloc; Name::read(alloc, "m")?, Name::read(alloc, "r:3307")?]?)
}

fn copied(alloc: Global, said: Said) -> Result<(Turn, Reply), Fail> {
    let (turn, reply) = answered(alloc, said)?;
    Ok((turn, reply.copy(alloc)?))
}

fn printed(alloc: Global, turn: &Turn, reply: &Reply, names: &[Name]) -> Result<Vec<u8>, Memory> {
    let mut out = Vec::new(alloc);
    reply_text(7, turn, reply, names, &mut out)?;
    plain_text(reply, names, &mut out)?;
    Ok(out)
}

fn is_text(alloc: Global, said: Said, wanted: &str) -> Result<bool, Fail> {
    let names = names(alloc)?;
    let (turn, reply) = copied(alloc, said)?;
    Ok(printed(alloc, &turn, &reply, &names)?.as_slice() == wanted.as_bytes())
}

#[test]
fn replies(rt: HostRuntime) -> Result<(), Fail> {
    for (said, wanted) in &TEXTS {
        assert!(rt; is_text(rt.alloc(), *said, wanted)?, "{wanted}");
    }
    Ok(())
}

fn printed_by(alloc: Global, names: &[Name]) -> Result<Vec<u8>, Memory> {
    let names = PrintedNames::new(alloc, names)?;
    let mut line = Vec::from_slice(alloc, b"lost")?;
    let mut out = Vec::from_slice(alloc, b">")?;
    let turn = Turn::Step(Step::Fail(R));
    reply_text_by(7, &turn, &Reply::Done, &names, &mut line, &mut out)?;
    Ok(out)
}

#[test]
fn replies_by_printed_names(rt: HostRuntime) -> Result<(), Fail> {
    let out = printed_by(rt.alloc(), &names(rt.alloc())?)?;
    assert_eq!(rt; str::from_utf8(&out).ok(), Some(">7 fail r:3307: done\n"));
    Ok(())
}

fn is_copied(alloc: Global) -> Result<bool, Memory> {
    let turn = Turn::Act(command(alloc)?);
    Ok(turn.copy(alloc)?.is_same(&turn))
}

#[test]
fn commands_are_copied(rt: HostRuntime) -> Result<(), Fail> {
    assert!(rt; is_copied(rt.alloc())?);
    Ok(())
}

const TABLES: &str = "\
server m:3306 up rw executed 0 end mysql-bin.000003:4 source none purged 3
server s:3306 up rw executed 0 end mysql-bin.000001:4 source none
server r:3306 up rw executed 0 end mysql-bin.000001:4 source none
server d:3306 up rw executed 0 end mysql-bin.000001:4 source none
server a:3306 up rw executed 0 end mysql-bin.000001:4 source none
server f:3306 up rw executed 0 end mysql-bin.000001:4 source none
server l:3306 up rw executed 0 end none source none
server k:3306 up rw executed 0 end mysql-bin.000001:4 source none
server j:3306 up rw executed 0 end mysql-bin.000001:4 source none
recovery 1 m:3306 master m:3306 begun 0 open unacked
job 3 open
errant 0
";

// The next file of the first server's log begins.
fn rotate(rt: &impl Abort, world: &mut World) {
    assert!(rt; M.0 < world.servers());
    world.rotate(M);
}

// The first two files of the first server's log are purged.
fn purge(rt: &impl Abort, world: &mut World) {
    rotate(rt, world);
    rotate(rt, world);
    assert!(rt; M.0 < world.servers());
    assert_eq!(rt; world.purge(M, 3), PurgeAnswer::Done(3));
}

fn tables_of_all(rt: &impl Abort, alloc: Global) -> Result<Vec<u8>, Fail> {
    let mut world = world(rt, alloc, false)?;
    purge(rt, &mut world);
    let recoveries = vec![in alloc; recovery(alloc)?]?;
    let mut out = Vec::new(alloc);
    tables(&world, &recoveries, &[3], &mut out)?;
    Ok(out)
}

#[test]
fn tables_are_told(rt: HostRuntime) -> Result<(), Fail> {
    let out = tables_of_all(&rt, rt.alloc())?;
    assert_eq!(rt; str::from_utf8(&out).ok(), Some(TABLES));
    Ok(())
}
