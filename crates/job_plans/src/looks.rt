//! What a turn comes to, by the kind of its operation.

ghost use Rattle.std.specs.Prelude.{◌≡◌, ◌<◌, ◌&&◌, [], Some, None, IfOk, IsTrue, length, All};
ghost use Rattle.job_plans.specs.Prelude.{Attach, IsAutoTarget, IsTarget, after_ask, after_attach, after_look, after_match};
ghost use Rattle.job_plans.specs.Prelude.{cause_by, cause_of_match, crossed, desk_answer, holds_seen, is_moved, is_reached, is_settled, logs_by};
ghost use Rattle.job_plans.specs.Prelude.{match_logs as match_of_logs, observed, option_copied, places_by, position_of, read_by, seen_in, seen_of};
ghost use Rattle.job_plans.specs.Prelude.{server_at, standing_at, status as status_of};
ghost use Rattle.job_plans.specs.Acts.{rest_of, TellsAll};
ghost use Rattle.job_plans.specs.JobsSeen.{seen_last};

use crate::Look;
use crate::act::Act;
use crate::binlog_coords_items::Coord;
use crate::commands::{BoxedSet, Cause, Lines};
use crate::instance_keeper_items::{Bridge, Observation};
use crate::matching::match_logs;
use crate::orch_base::{Memory, Moment, ServerNo, SourceState};
use crate::server_model::World;
use crate::server_words_items::{Ask, AttachFault, Spot, Status, StatusFault};
use operations::{Crossing, JobStep, Match, MatchFault, Position, Sight};
use std::alloc::Global;

/// The latest that was seen of a server.
pub(crate) fn latest(seen: &[Sight], no: ServerNo) -> Option<&Position>
    ensures { option_copied result ≡ seen_of seen.now no.0 }
{
    match seen {
        [] => None,
        [first, rest @ ..] => {
            if first.no.0 == no.0 {
                Some(&first.seen)
            } else {
                latest(rest, no)
            }
        }
    }
}

/// The latest that was seen of a server in what was seen later, if it was seen there.
pub(crate) fn latest_of_more(more: &[Sight], no: ServerNo) -> Option<&Position>
    ensures { option_copied result ≡ seen_last more.now no.0 }
{
    match more {
        [] => None,
        [first, rest @ ..] => match latest_of_more(rest, no) {
            Some(seen) => Some(seen),
            None => {
                if first.no.0 == no.0 {
                    Some(&first.seen)
                } else {
                    None
                }
            }
        },
    }
}

/// A server's position, by this status.
pub(crate) fn position_of(seen: Status) -> Position
    ensures { result ≡ position_of seen }
{
    Position {
        own_end: seen.own_end,
        source: seen.source,
        exec: seen.exec,
        set: seen.set,
    }
}

/// What one status shows, if it reaches the server.
pub(crate) fn watch(alloc: Global, world: &World, no: ServerNo) -> Result<Option<Status>, Memory>
    requires { no.0 < length world.now.servers }
    ensures { IfOk result (λ o. o ≡ seen_in (status_of world.now no.0)) }
{
    match world.status(alloc, no) {
        Ok(status) => Ok(Some(status)),
        Err(StatusFault::Unreachable) => Ok(None),
        Err(StatusFault::Memory) => Err(Memory),
    }
}

// Whether a source is named, and the server isn't attached to it.
fn is_moved(from: Option<ServerNo>, source: SourceState) -> bool
    ensures { result ≡ is_moved from source }
{
    match (from, source) {
        (None, _) => false,
        (Some(m), SourceState::Attached(k)) => !(k.0 == m.0),
        (Some(_), SourceState::Without | SourceState::Detached(_)) => true,
    }
}

/// The coordinate isn't before the aim.
pub(crate) fn is_reached(aim: Option<Coord>, exec: Coord) -> bool
    ensures { result ≡ is_reached aim exec }
{
    match aim {
        None => false,
        Some(to) => to.is_at_or_before(exec),
    }
}

/// The server has executed all that was seen of another.
pub(crate) fn holds_seen(of: Option<&Position>, seen: &Status) -> bool
    ensures { result ≡ holds_seen (option_copied of.entry) seen.now }
{
    match of {
        None => false,
        Some(of) => of.set.is_subset(&seen.set),
    }
}

/// The server's applier is off, or has executed all that was read.
pub(crate) fn is_settled(seen: &Status) -> bool
    ensures { result ≡ is_settled seen.now }
{
    !(seen.sql && seen.read != seen.exec)
}

/// The server whose reading a reattachment goes by.
pub(crate) fn read_by(crossing: Crossing, a: ServerNo, b: ServerNo) -> ServerNo
    ensures { result ≡ read_by crossing a b }
{
    match crossing {
        Crossing::Up | Crossing::Down | Crossing::About => b,
        Crossing::Back => a,
    }
}

/// The job goes on.
pub(crate) fn going(observation: Option<Observation>, act: Act) -> Look
    ensures { result ≡ record { step = JobStep.Going; observation = observation; act = act } }
{
    Look {
        step: JobStep::Going,
        observation,
        act,
    }
}

/// The operation is passed over.
pub(crate) fn passed() -> Look
    ensures { result ≡ record { step = JobStep.Going; observation = None; act = Act.Pass } }
{
    going(None, Act::Pass)
}

/// The job fails.
pub(crate) fn failed(alloc: Global, cause: Cause, observation: Option<Observation>) -> Look
    ensures { result ≡ record
        { step = JobStep.Failed cause []; observation = observation; act = Act.Fail } }
{
    Look {
        step: JobStep::Failed(cause, Lines::new(Vec::new(alloc))),
        observation,
        act: Act::Fail,
    }
}

/// The job ends with these lines.
pub(crate) fn done(lines: Lines) -> Look
    ensures { result ≡ record { step = JobStep.Done lines; observation = None; act = Act.End } }
{
    Look {
        step: JobStep::Done(lines),
        observation: None,
        act: Act::End,
    }
}

/// A status.
pub(crate) fn look_status(
    alloc: Global,
    world: &World,
    no: ServerNo,
    from: Option<ServerNo>,
    read: u64,
    moment: Moment,
) -> Result<Look, Memory>
    requires { no.0 < length world.now.servers }
    ensures { IfOk result (TellsAll world.now (λ j. after_look j (rest_of j) no from
        (observed world.now read moment no) (seen_in (status_of world.now no.0)))) }
{
    let Some(seen) = watch(alloc, world, no)? else {
        let observation = Observation {
            no,
            read,
            moment,
            seen: None,
        };
        return Ok(failed(alloc, Cause::Unreachable(no), Some(observation)));
    };
    let source = seen.source;
    let kept = position_of(seen.copy()?);
    let observation = Observation {
        no,
        read,
        moment,
        seen: Some(seen),
    };
    if is_moved(from, source) {
        return Ok(failed(alloc, Cause::Moved(no, source), Some(observation)));
    }
    Ok(going(Some(observation), Act::Keep(Sight { no, seen: kept })))
}

/// What is asked of a server.
pub(crate) fn look_ask(alloc: Global, world: &World, no: ServerNo, ask: Ask) -> Look
    requires { no.0 < length world.now.servers }
    ensures { TellsAll world.now (λ j. after_ask j (rest_of j) no ask (desk_answer
        (server_at world.now no.0))) result }
{
    if world.is_reached(no) {
        going(None, Act::Ask(no, ask))
    } else {
        failed(alloc, Cause::Unreachable(no), None)
    }
}

/// Whether a server is there and logs, and the coordinate has a place in its log.
pub fn has_place(world: &World, to: ServerNo, at: Coord) -> bool
    ensures value { result ≡ places_by (server_at world.now to.0) at }
    ensures target { IsTrue result → IsTarget world.now to.0 at }
{
    if world.servers() <= to.0 {
        return false;
    }
    match world.log(to) {
        None => false,
        Some(log) => log.place(at).is_some(),
    }
}

/// Whether GTIDs are used, and a server is there and logs.
pub(crate) fn takes_sets(world: &World, to: ServerNo) -> bool
    ensures value { result ≡ (world.now.gtid && logs_by (server_at world.now to.0)) }
    ensures target { IsTrue result → IsAutoTarget world.now to.0 }
{
    world.gtid() && to.0 < world.servers() && world.settings(to).logs
}

// The position of a server that is matched: under its source, attached or detached, else at its own end.
fn standing(world: &World, no: ServerNo) -> Spot
    ensures { result ≡ standing_at (server_at world.now no.0) }
{
    if world.servers() <= no.0 {
        return Spot::Nowhere;
    }
    let plain = world.plain(no);
    match plain.source {
        SourceState::Attached(source) | SourceState::Detached(source) => {
            Spot::At(source, plain.exec)
        }
        SourceState::Without => match world.log(no) {
            Some(log) => Spot::OwnEnd(log.end()),
            None => Spot::Nowhere,
        },
    }
}

/// A match of the logs of two servers.
pub(crate) fn look_match(
    alloc: Global,
    world: &World,
    no: ServerNo,
    to: ServerNo,
    every: u64,
) -> Look
    ensures { TellsAll world.now (λ j. after_match j (rest_of j) no to
        (standing_at (server_at world.now no.0)) (match_of_logs world.now no to every)) result }
{
    match match_logs(world, no, to, every) {
        Ok(at) => {
            let spot = standing(world, no);
            going(None, Act::Found(Match { no, to, spot, at }))
        }
        Err(fault) => failed(alloc, cause_of_match(no, fault), None),
    }
}

// Why a job fails if the logs don't match.
fn cause_of_match(no: ServerNo, fault: MatchFault) -> Cause
    ensures { result ≡ cause_of_match no fault }
{
    match fault {
        MatchFault::Unreachable(of) => Cause::Unreachable(of),
        MatchFault::NoMark => Cause::NoMark(no),
        MatchFault::Mismatch(entry) => Cause::Mismatch(no, entry),
    }
}

/// An attachment. It is passed over if the coordinate has no place in the log of the new source.
pub(crate) fn look_attach(
    alloc: Global,
    world: &World,
    no: ServerNo,
    expect: Spot,
    to: ServerNo,
    at: Coord,
) -> Result<Look, Memory>
    requires { no.0 < length world.now.servers }
    ensures { IfOk result (TellsAll world.now (λ j. after_attach world.now j (rest_of j) no
        (Some (Attach no.0 expect to at)))) }
{
    if !has_place(world, to, at) {
        return Ok(passed());
    }
    match world.test_attach_at(no, expect, to, at) {
        Ok(()) => Ok(going(None, Act::Attach(no, expect, to, at))),
        Err(fault) => Ok(failed(alloc, cause_by(alloc, no, fault)?, None)),
    }
}

/// An attachment by the bridge of a reattachment.
pub(crate) fn look_bridge(
    alloc: Global,
    world: &World,
    crossing: Crossing,
    a: ServerNo,
    bridge: Bridge,
) -> Result<Look, Memory>
    requires { a.0 < length world.now.servers }
    ensures { IfOk result (TellsAll world.now (λ j. after_attach world.now j (rest_of j) a
        (crossed crossing a (Some bridge)))) }
{
    let Bridge {
        no,
        source,
        own,
        exec,
    } = bridge;
    match crossing {
        Crossing::Up => look_attach(alloc, world, a, Spot::At(no, own), source, exec),
        Crossing::Down => look_attach(alloc, world, a, Spot::At(source, exec), no, own),
        Crossing::About => look_attach(alloc, world, a, Spot::OwnEnd(exec), no, own),
        Crossing::Back => look_attach(alloc, world, a, Spot::OwnEnd(own), source, exec),
    }
}

/// Why a job fails whose attachment failed.
pub(crate) fn cause_by(alloc: Global, no: ServerNo, fault: AttachFault) -> Result<Cause, Memory>
    ensures { IfOk result (λ c. c ≡ cause_by no fault) }
{
    Ok(match fault {
        AttachFault::Unreachable | AttachFault::Memory => Cause::Unreachable(no),
        AttachFault::Running(_) => Cause::Running(no),
        AttachFault::Interfered(expected, found) => Cause::Interfered {
            no,
            expected,
            found,
        },
        AttachFault::Loop => Cause::Loop(no),
        AttachFault::Errant(set) => Cause::Errant(no, BoxedSet::new(alloc, set)?),
        AttachFault::Purged(first) => Cause::Purged(no, first),
    })
}
