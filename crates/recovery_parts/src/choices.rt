//! What is decided of drained replicas, by the servers' settings and the book.

ghost use Rattle.std.specs.Prelude.{◌≡◌, ◌<◌, ◌==◌, All, IfOk, find, length, map};
ghost use Rattle.std.specs.Option.{option_copied};
ghost use Rattle.recovery_plans.specs.ServerModel.Worlds.{server_at};
ghost use Rattle.recovery_plans.specs.Deciding.{better_of, center_in, chosen_of, drained_of, expels, follower_of, is_apart, is_elsewhere, is_near, is_reached, logs_at, lot_by, may_lead, releases, stopped_in, unfit, way_below};
ghost use Rattle.recovery_plans.specs.declared.outcome.Follower.{Follower as AFollower};
ghost use Rattle.recovery_parts.specs.Grounds.{ground_by};
ghost use Rattle.recovery_parts.specs.Lots.{by_lot};

use crate::binlog_coords_items::Coord;
use crate::commands::Lost;
use crate::instance_keeper_items::{Book, Bridge};
use crate::orch_base::{Memory, Moment, Rule, ServerNo};
use crate::promotion_rules::{Drained, Group, Lines, better, group_of, most_advanced};
use crate::server_model::World;
use job_plans::JobView;
use recovery_plans::{Follower, LostReplica, Means, Purpose, Stopped, Way, Why};
use std::alloc::Global;

/// What a decision goes by: the servers' settings, the book, and the moment at which rules of promotion are looked up.
#[derive(Clone, Copy)]
pub struct Ground<'a> {
    /// Their settings are read, and whether they use GTIDs.
    pub world: &'a World,
    /// The book that it goes by, of the servers of this world.
    pub book: &'a Book,
    /// The moment of the turn.
    pub moment: Moment,
}

// Whether a server writes a binary log.
fn logs_at(world: &World, no: ServerNo) -> bool
    ensures { result ≡ logs_at world.now no }
{
    no.0 < world.servers() && world.settings(no).logs
}

// The data centre that a server is in.
fn center(world: &World, no: ServerNo) -> &str
    ensures { result.now ≡ center_in (server_at world.now no.0) }
{
    if no.0 < world.servers() {
        world.settings(no).dc.as_str()
    } else {
        ""
    }
}

// Whether two servers are in one data centre.
fn is_near(world: &World, one: ServerNo, other: ServerNo) -> bool
    ensures { result ≡ is_near world.now one other }
{
    center(world, one) == center(world, other)
}

// A drained replica of a failed server as the choice looks at it.
fn drained_of(by: &Ground<'_>, failed: ServerNo, replica: &Stopped) -> Drained
    requires { replica.now.no.0 < length by.now.book.now.names }
    ensures { result ≡ drained_of (ground_by by.now) failed replica.now }
{
    Drained {
        no: replica.no,
        exec: replica.exec,
        own_end: replica.own_end,
        rule: by.book.rule(replica.no, by.moment),
        logs: logs_at(by.world, replica.no),
        near: is_near(by.world, failed, replica.no),
    }
}

fn drained_all(
    alloc: Global,
    by: &Ground<'_>,
    failed: ServerNo,
    list: &[Stopped],
) -> Result<Vec<Drained>, Memory>
    requires { All (λ s. s.no.0 < length by.now.book.now.names) list.now }
    ensures { IfOk result (λ all. all.items ≡ map (drained_of (ground_by by.now) failed) list.now) }
{
    let mut all = Vec::with_capacity(alloc, list.len())?;
    for replica in list {
        all.push(drained_of(by, failed, replica))?;
    }
    Ok(all)
}

fn stopped_at(list: &[Stopped], no: ServerNo) -> Option<&Stopped>
    ensures { option_copied result ≡ find (λ s. s.no.0 == no.0) list.now }
{
    list.iter().find(|s| s.no.0 == no.0)
}

fn stopped_in(list: &[Stopped], no: Option<ServerNo>) -> Option<Stopped>
    ensures { result ≡ stopped_in list.now no }
{
    stopped_at(list, no?).copied()
}

/// The drained replica of a failed server that is promoted. `Err` means out of memory.
pub fn chosen_of(
    alloc: Global,
    by: &Ground<'_>,
    failed: ServerNo,
    list: &[Stopped],
) -> Result<Option<Stopped>, Memory>
    requires { All (λ s. s.no.0 < length by.now.book.now.names) list.now }
    ensures { IfOk result (λ o. o ≡ chosen_of (ground_by by.now) failed list.now) }
{
    let all = drained_all(alloc, by, failed, list)?;
    Ok(stopped_in(list, most_advanced(&all, by.book.names())))
}

/// Whether a drained replica might have been chosen.
pub(crate) fn may_lead(by: &Ground<'_>, replica: &Stopped) -> bool
    requires { replica.now.no.0 < length by.now.book.now.names }
    ensures { result ≡ may_lead (ground_by by.now) replica.now }
{
    logs_at(by.world, replica.no) && by.book.rule(replica.no, by.moment) != Rule::MustNot
}

// A follower as the choice of a better one looks at it.
fn follower_of(by: &Ground<'_>, failed: ServerNo, no: ServerNo) -> Drained
    requires { no.0 < length by.now.book.now.names }
    ensures { result ≡ follower_of (ground_by by.now) failed no }
{
    Drained {
        no,
        exec: Coord { file: 1, pos: 4 },
        own_end: None,
        rule: by.book.rule(no, by.moment),
        logs: logs_at(by.world, no),
        near: is_near(by.world, failed, no),
    }
}

fn followers_all(
    alloc: Global,
    by: &Ground<'_>,
    failed: ServerNo,
    list: &[Follower],
) -> Result<Vec<Drained>, Memory>
    requires { All (λ x. x.no.0 < length by.now.book.now.names) list.now }
    ensures { IfOk result (λ all. all.items ≡ map (λ (x : AFollower).
        follower_of (ground_by by.now) failed x.no) list.now) }
{
    let mut all = Vec::with_capacity(alloc, list.len())?;
    for follower in list {
        all.push(follower_of(by, failed, follower.no))?;
    }
    Ok(all)
}

/// The follower that takes the promoted one's place. `Err` means out of memory.
pub fn better_of(
    alloc: Global,
    by: &Ground<'_>,
    failed: ServerNo,
    promoted: ServerNo,
    list: &[Follower],
) -> Result<Option<ServerNo>, Memory>
    requires promoted { promoted.0 < length by.now.book.now.names }
    requires followers { All (λ x. x.no.0 < length by.now.book.now.names) list.now }
    ensures { IfOk result (λ o. o ≡ better_of (ground_by by.now) failed
        promoted (map (λ (x : AFollower). x.no) list.now)) }
{
    let all = followers_all(alloc, by, failed, list)?;
    let of = follower_of(by, failed, promoted);
    Ok(better(&of, &all, by.book.names()))
}

/// How a drained replica goes below the chosen one by these means; `Err` is why it is left.
pub fn lot_by(
    by: &Ground<'_>,
    means: Means,
    failed: ServerNo,
    chosen: &Stopped,
    replica: &Stopped,
) -> Result<Way, Why>
    requires { chosen.now.no.0 < length by.now.book.now.names }
    ensures { result ≡ by_lot (lot_by means (ground_by by.now) failed chosen.now replica.now) }
{
    let (no, exec) = (chosen.no, replica.exec);
    if let Means::Matches(every) = means {
        return Ok(Way::Match {
            to: no,
            exec,
            every,
        });
    }
    if by.world.gtid() {
        return Ok(Way::Auto { to: no, exec });
    }
    let lines = Lines {
        book: by.book,
        own_end: chosen.own_end.unwrap_or(chosen.exec),
        exec: chosen.exec,
    };
    match group_of(no, &lines, exec, failed) {
        Group::Follow(own) => Ok(Way::Down(Bridge {
            no,
            source: failed,
            own,
            exec,
        })),
        Group::Ahead => Err(Why::Lost(Lost::Ahead(exec))),
        Group::Behind => Err(Why::Lost(Lost::Behind(exec))),
    }
}

/// A replica that is left if none may be promoted.
pub(crate) fn unfit(world: &World, replica: &Stopped) -> LostReplica
    ensures { result ≡ unfit world.now replica.now }
{
    LostReplica {
        no: replica.no,
        why: Why::Lost(if logs_at(world, replica.no) {
            Lost::MustNot
        } else {
            Lost::NotLogging
        }),
        detached: false,
    }
}

/// How a drained replica of a server goes below the successor, as the job has seen it.
pub fn way_below(
    by: &Ground<'_>,
    job: &JobView<'_>,
    failed: ServerNo,
    successor: ServerNo,
    replica: &Stopped,
) -> Option<Way>
    requires { failed.0 < length by.now.book.now.names }
    ensures { result ≡ way_below (ground_by by.now) job.now.seen failed successor replica.now }
{
    if by.world.gtid() {
        let was_read = job.sight(successor).is_some();
        return (was_read && logs_at(by.world, successor)).then_some(Way::Auto {
            to: successor,
            exec: replica.exec,
        });
    }
    let bridge = by.book.bridge_by_own(failed, successor, replica.exec)?;
    Some(Way::Up(bridge))
}

// What a reason means for a lost one: whether it executed what the new source didn't, or less, or its place is purged
// there. Then whether it is elsewhere, or at its position before it was to be matched, and whether it was reached.
#[derive(Clone, Copy)]
struct Care {
    apart: bool,
    elsewhere: bool,
    reached: bool,
}

// One that isn't lost is as one that wasn't reached.
fn care_of(why: Option<Why>) -> Care
    ensures apart { result.apart ≡ is_apart why }
    ensures elsewhere { result.elsewhere ≡ is_elsewhere why }
    ensures reached { result.reached ≡ is_reached why }
{
    let (apart, elsewhere, reached) = match why {
        Some(Why::Lost(Lost::Ahead(_) | Lost::Behind(_) | Lost::Purged(_))) => (true, false, true),
        Some(Why::Lost(Lost::Moved(_)) | Why::Unmatched(_)) => (false, true, true),
        Some(Why::Lost(Lost::NotLogging | Lost::MustNot)) => (false, false, true),
        Some(Why::Lost(Lost::Unreachable)) | None => (false, false, false),
    };
    Care {
        apart,
        elsewhere,
        reached,
    }
}

/// Whether a replica that is lost so is detached.
pub fn expels(purpose: Purpose, why: Option<Why>) -> bool
    ensures { result ≡ expels purpose why }
{
    match purpose {
        Purpose::Master | Purpose::Intermediate(_) => care_of(why).apart,
        Purpose::Regroup | Purpose::Takeover(_) => false,
    }
}

/// Whether a replica that is lost so is started.
pub fn releases(purpose: Purpose, why: Option<Why>) -> bool
    ensures { result ≡ releases purpose why }
{
    match purpose {
        Purpose::Regroup => care_of(why).reached,
        Purpose::Master | Purpose::Intermediate(_) => care_of(why).elsewhere,
        Purpose::Takeover(_) => false,
    }
}
