//! A job from its making to its end, between whose turns replicas go on.

ghost use Rattle.std.specs.Prelude.{◌≡◌, ◌<◌, IfOk, OnOk, length, true};
ghost use Rattle.operations.specs.Named.{are_named, IsNamed};

use crate::binlog_coords_items::Coord;
use crate::commands::{Line, Lines};
use crate::given::{Given, MASTER, REPLICA, world_of};
use crate::orch_base::{CauseName, Moment, ServerNo, SourceState};
use crate::server_model::World;
use job_plans::{Aim, Crossing, Job, JobStep, Op};
use openings::Part;
use std::alloc::Global;
use std::test::Fail;

const M: ServerNo = ServerNo(0);

const A: ServerNo = ServerNo(1);

const B: ServerNo = ServerNo(2);

/// B, which has executed one transaction, is below A, whose log has files of 200 bytes.
const CHAIN: &[Given] = &[
    Given {
        history: &[Part {
            origin: M,
            size: 100,
            count: 4,
        }],
        ..MASTER
    },
    Given {
        name: "a",
        executed: 4,
        limit: 200,
        ..REPLICA
    },
    Given {
        name: "b",
        source: Some(A),
        executed: 1,
        ..REPLICA
    },
];

/// B has executed all of A's log.
const LEVEL: &[Given] = &[
    Given {
        history: &[Part {
            origin: M,
            size: 100,
            count: 4,
        }],
        ..MASTER
    },
    Given {
        name: "a",
        executed: 4,
        ..REPLICA
    },
    Given {
        name: "b",
        source: Some(A),
        executed: 4,
        ..REPLICA
    },
];

/// A has no source, and nothing of what B, which is below M, has executed.
const APART: &[Given] = &[
    Given {
        history: &[Part {
            origin: M,
            size: 100,
            count: 4,
        }],
        ..MASTER
    },
    Given {
        name: "a",
        ..MASTER
    },
    Given {
        name: "b",
        executed: 1,
        ..REPLICA
    },
];

/// The servers, whether GTIDs are used, and the cause for which a job fails there.
const MET: [(&[Given], bool, CauseName); 5] = [
    // B is attached with its threads on, and at a position at which it isn't.
    (CHAIN, false, CauseName::Running),
    (CHAIN, false, CauseName::Interfered),
    // A goes below its own replica.
    (LEVEL, false, CauseName::Loop),
    // B goes below A, which lacks what it has executed.
    (APART, true, CauseName::Errant),
    // B is read as a replica of M, and is A's.
    (CHAIN, false, CauseName::Moved),
];

/// What a turn of a job comes to.
#[derive(Clone, Copy, Debug, PartialEq, Eq)]
enum End {
    Going,
    Done,
    Failed(CauseName),
}

/// What each turn answers, with the server that it observes for the book.
const TOLD: [(End, Option<ServerNo>); 16] = [
    (End::Going, None),
    (End::Going, None),
    (End::Going, Some(A)),
    (End::Going, Some(B)),
    (End::Going, None),
    // Four waits while B goes on over two files of A's log, and then it is there.
    (End::Going, None),
    (End::Going, None),
    (End::Going, None),
    (End::Going, None),
    (End::Going, None),
    (End::Going, None),
    (End::Going, None),
    (End::Going, None),
    (End::Going, None),
    (End::Going, Some(B)),
    (End::Done, None),
];

// B goes up to A's source.
fn plan(alloc: Global) -> Result<Vec<Op>, Fail>
    ensures { IfOk result (λ v. are_named 3 v.items ≡ true) }
{
    let lines = Vec::from_array(alloc, [Line::Server(B)])?;
    let ops = [
        Op::Stop(B),
        Op::Stop(A),
        Op::Status(A, Some(M)),
        Op::Status(B, Some(A)),
        Op::Until(B, Aim::EndOf(A)),
        Op::Await(B, Aim::EndOf(A)),
        Op::Stop(B),
        Op::Cross(Crossing::Up, B, A),
        Op::Start(B),
        Op::Start(A),
        Op::Status(B, None),
        Op::Finish(Lines::new(lines)),
    ];
    Ok(Vec::from_array(alloc, ops)?)
}

// A plan that fails for this cause, or none.
fn failing(alloc: Global, cause: CauseName) -> Result<Vec<Op>, Fail>
    ensures { IfOk result (λ v. are_named 3 v.items ≡ true) }
{
    Ok(match cause {
        CauseName::Running => {
            Vec::from_array(alloc, [Op::Status(A, None), Op::Cross(Crossing::Up, B, A)])?
        }
        CauseName::Interfered => {
            Vec::from_array(
                alloc,
                [
                    Op::Stop(B),
                    Op::Status(A, None),
                    Op::Cross(Crossing::Up, B, A),
                ],
            )?
        }
        CauseName::Loop => {
            Vec::from_array(
                alloc,
                [
                    Op::Stop(A),
                    Op::Status(B, None),
                    Op::Cross(Crossing::About, A, B),
                ],
            )?
        }
        CauseName::Errant => Vec::from_array(
            alloc,
            [Op::Stop(B), Op::Status(A, None), Op::Auto(B, A)],
        )?,
        CauseName::Moved => Vec::from_array(alloc, [Op::Status(B, Some(M))])?,
        CauseName::Unreachable
        | CauseName::WaitSpent
        | CauseName::Reachable
        | CauseName::NoCandidate
        | CauseName::Purged
        | CauseName::NoMark
        | CauseName::Mismatch
        | CauseName::HookFailed => Vec::new(alloc),
    })
}

fn begun(alloc: Global) -> Result<Job, Fail>
    ensures { IfOk result (IsNamed 3) }
{
    let ops = plan(alloc)?;
    Ok(Job::make(alloc, 7, ops, 20)?)
}

fn end_of(step: &JobStep) -> End {
    match step {
        JobStep::Going => End::Going,
        JobStep::Done(_) => End::Done,
        JobStep::Failed(cause, _) => End::Failed(cause.name()),
    }
}

fn turn(alloc: Global, world: &mut World, job: &mut Job) -> Result<(End, Option<ServerNo>), Fail>
    requires { IsNamed (length world.old.servers) job.old }
    ensures { OnOk result (IsNamed (length world.old.servers) job.new) }
{
    let look = job.look(alloc, world, 1, Moment(0))?;
    let (step, observation) = job.turn(alloc, world, look)?;
    let observed = match &observation {
        Some(observation) => Some(observation.no),
        None => None,
    };
    Ok((end_of(&step), observed))
}

// Each replica reads one step of its source's log, and executes one of what it has read.
fn replicate(world: &mut World) {
    for no in [A, B] {
        if no.0 < world.servers() {
            let _ = world.fetch(no);
        }
        if no.0 < world.servers() {
            let _ = world.apply(no);
        }
    }
}

// The first turn, counted from 0, with another answer.
fn differing(alloc: Global, world: &mut World, job: &mut Job) -> Result<Option<usize>, Fail>
    requires { IsNamed 3 job.old }
{
    for (k, told) in TOLD.iter().enumerate() {
        if world.servers() != 3 || turn(alloc, world, job)? != *told {
            return Ok(Some(k));
        }
        replicate(world);
    }
    Ok(None)
}

// The position of B, and whether both its threads are on.
fn standing(world: &World) -> Option<(SourceState, Coord, bool)> {
    if B.0 >= world.servers() {
        return None;
    }
    let plain = world.plain(B);
    Some((plain.source, plain.exec, plain.receiver && plain.applier))
}

// The first turn that differs, whether the job ends, and the position of B then.
fn outcome(
    alloc: Global,
    world: &mut World,
) -> Result<(Option<usize>, bool, Option<(SourceState, Coord, bool)>), Fail> {
    let mut job = begun(alloc)?;
    let differing = differing(alloc, world, &mut job)?;
    Ok((differing, job.is_ended(), standing(world)))
}

#[test]
fn a_job_goes_to_its_end(rt: HostRuntime) -> Result<(), Fail> {
    let alloc = rt.alloc();
    let mut world = world_of(alloc, CHAIN, false, 4, 0)?;
    let there = (SourceState::Attached(M), Coord { file: 1, pos: 404 }, true);
    assert_eq!(rt; outcome(alloc, &mut world)?, (None, true, Some(there)));
    Ok(())
}

// The answer of the first of three turns that doesn't go on.
fn first_end(alloc: Global, world: &mut World, cause: CauseName) -> Result<End, Fail> {
    let ops = failing(alloc, cause)?;
    let mut job = Job::make(alloc, 7, ops, 20)?;
    for _turn in 0..3 {
        if world.servers() != 3 {
            return Ok(End::Going);
        }
        let (end, _) = turn(alloc, world, &mut job)?;
        if end != End::Going {
            return Ok(end);
        }
    }
    Ok(End::Going)
}

#[test]
fn a_job_fails_for_what_it_met(rt: HostRuntime) -> Result<(), Fail> {
    let alloc = rt.alloc();
    for (servers, gtid, cause) in &MET {
        let mut world = world_of(alloc, servers, *gtid, 4, 0)?;
        assert_eq!(rt;
            (*cause, first_end(alloc, &mut world, *cause)?),
            (*cause, End::Failed(*cause))
        );
    }
    Ok(())
}
