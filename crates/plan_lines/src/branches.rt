//! The plan of a recovery or a regroup: of its branches the one that is expected.

ghost use Rattle.std.specs.Prelude.{◌≡◌, ◌<◌, ◌++◌, All, IfOk, OnOk, filter_map, length};
ghost use Rattle.plan_lines.specs.Prelude.{chosen_of, flat_map, ground_by};
ghost use Rattle.plan_lines.specs.Branches.{away, choice_lines, gathered, handed, handed_over, has_branches, kept_for, left, recovery_lines, recovery_plan, way_of};

use crate::Memory;
use crate::book_views::replicas;
use crate::chosen::{add_below, way_lines};
use crate::expected::{add_drained, expected};
use crate::instance_keeper_items::Bridge;
use crate::operations_items::Op;
use crate::orch_base::ServerNo;
use crate::pieces::{as_told, push_some};
use crate::straight::detach_line;
use crate::takeovers::takeover_lines;
use permission::has_log;
use plan_texts::{Apart, Expect, Line};
use recovery_parts::{Ground, chosen_of, without};
use recovery_plans::{Means, Purpose, Stopped, Way};
use std::alloc::Global;

// One of the replicas is chosen, if they stopped.
fn add_choice(
    alloc: Global,
    by: &Ground<'_>,
    purpose: Purpose,
    means: Means,
    failed: ServerNo,
    list: &[Stopped],
    lines: &mut Vec<Line>,
) -> Result<(), Memory>
    requires { All (λ s. s.no.0 < length by.now.book.now.names) list.now }
    ensures { OnOk result (lines.new.items ≡ lines.old.items
        ++ choice_lines (ground_by by.now) purpose means failed list.now
        (chosen_of (ground_by by.now) failed list.now)) }
{
    match chosen_of(alloc, by, failed, list)? {
        Some(p) => {
            let others = without(alloc, list, p.no)?;
            add_below(alloc, by, purpose, means, failed, &p, &others, lines)
        }
        None => Ok(()),
    }
}

// The replicas are drained, and one of them is chosen.
fn add_gathered(
    alloc: Global,
    by: &Ground<'_>,
    purpose: Purpose,
    means: Means,
    failed: ServerNo,
    replicas: &[ServerNo],
    lines: &mut Vec<Line>,
) -> Result<(), Memory>
    requires { All (λ n. n.0 < length by.now.book.now.names) replicas.now }
    ensures { OnOk result (lines.new.items ≡ lines.old.items
        ++ gathered (ground_by by.now) purpose means failed replicas.now) }
{
    add_drained(alloc, by.book, failed, replicas, lines)?;
    let list = expected(alloc, by.book, replicas)?;
    add_choice(alloc, by, purpose, means, failed, &list, lines)
}

// The latest kept bridge of the failed server under the successor at the position at which the replica is expected to
// stop.
fn kept_for(
    by: &Ground<'_>,
    failed: ServerNo,
    successor: ServerNo,
    replica: &Stopped,
) -> Option<Bridge>
    ensures { result ≡ kept_for (ground_by by.now) failed successor replica.now }
{
    if failed.0 < by.book.servers() {
        by.book.bridge_by_own(failed, successor, replica.exec)
    } else {
        None
    }
}

// How a replica goes below the successor, if it is expected to stop.
fn way_of(by: &Ground<'_>, failed: ServerNo, successor: ServerNo, replica: &Stopped) -> Option<Way>
    ensures { result ≡ way_of (ground_by by.now) failed successor replica.now }
{
    if by.world.gtid() {
        return has_log(by.world, successor).then_some(Way::Auto {
            to: successor,
            exec: replica.exec,
        });
    }
    let bridge = kept_for(by, failed, successor, replica)?;
    Some(Way::Up(bridge))
}

fn handed(
    alloc: Global,
    failed: ServerNo,
    replica: &Stopped,
    way: Option<Way>,
) -> Result<Vec<Line>, Memory>
    ensures { IfOk result (λ lines. lines.items ≡ handed failed replica.now way) }
{
    let Some(way) = way else {
        let (no, apart) = (replica.no, Apart::Unpaired);
        return Ok(vec![in alloc;
            Line::Lost {
                no,
                beside: failed,
                apart
            },
        ]?);
    };
    way_lines(alloc, false, replica.no, way)
}

fn left(by: &Ground<'_>, failed: ServerNo, successor: ServerNo, replica: &Stopped) -> Option<Line>
    ensures { result
        ≡ left by.now.book.now replica.now
        (way_of (ground_by by.now) failed successor replica.now) }
{
    match way_of(by, failed, successor, replica) {
        Some(_) => None,
        None => Some(detach_line(by.book, replica.no)),
    }
}

fn add_handed(
    alloc: Global,
    by: &Ground<'_>,
    failed: ServerNo,
    successor: ServerNo,
    list: &[Stopped],
    lines: &mut Vec<Line>,
) -> Result<(), Memory>
    ensures { OnOk result (lines.new.items ≡ lines.old.items
        ++ flat_map (λ d. handed failed d (way_of (ground_by by.now) failed successor d))
        list.now) }
{
    for replica in list {
        let way = way_of(by, failed, successor, replica);
        lines.append(&mut handed(alloc, failed, replica, way)?)?;
    }
    Ok(())
}

fn add_left(
    by: &Ground<'_>,
    failed: ServerNo,
    successor: ServerNo,
    list: &[Stopped],
    lines: &mut Vec<Line>,
) -> Result<(), Memory>
    ensures { OnOk result (lines.new.items ≡ lines.old.items
        ++ filter_map (λ d. left by.now.book.now d (way_of (ground_by by.now) failed successor d))
        list.now) }
{
    for replica in list {
        push_some(lines, left(by, failed, successor, replica))?;
    }
    Ok(())
}

// The replicas are drained, and go below the successor.
fn add_handed_over(
    alloc: Global,
    by: &Ground<'_>,
    failed: ServerNo,
    successor: ServerNo,
    list: &[Stopped],
    lines: &mut Vec<Line>,
) -> Result<(), Memory>
    ensures { OnOk result (lines.new.items ≡ lines.old.items
        ++ handed_over (ground_by by.now) failed successor list.now) }
{
    add_handed(alloc, by, failed, successor, list, lines)?;
    add_left(by, failed, successor, list, lines)
}

// Nothing is done while the failed server is reached.
fn away(failed: ServerNo) -> Line
    ensures { result ≡ away failed }
{
    Line::Does(Op::Status(failed, None), Expect::Away)
}

// The lines of what is done with these replicas of a server.
fn recovery_lines(
    alloc: Global,
    by: &Ground<'_>,
    purpose: Purpose,
    means: Means,
    failed: ServerNo,
    replicas: &[ServerNo],
) -> Result<Vec<Line>, Memory>
    requires { All (λ n. n.0 < length by.now.book.now.names) replicas.now }
    ensures { IfOk result (λ lines. lines.items
        ≡ recovery_lines (ground_by by.now) purpose means failed replicas.now) }
{
    let mut lines = Vec::new(alloc);
    match purpose {
        Purpose::Takeover(d) => return takeover_lines(alloc, failed, d, replicas),
        Purpose::Regroup => add_gathered(alloc, by, purpose, means, failed, replicas, &mut lines)?,
        Purpose::Master => {
            lines.push(away(failed))?;
            add_gathered(alloc, by, purpose, means, failed, replicas, &mut lines)?;
        }
        Purpose::Intermediate(successor) => {
            lines.push(away(failed))?;
            lines.push(as_told(Op::Status(successor, None)))?;
            add_drained(alloc, by.book, failed, replicas, &mut lines)?;
            let list = expected(alloc, by.book, replicas)?;
            add_handed_over(alloc, by, failed, successor, &list, &mut lines)?;
        }
    }
    Ok(lines)
}

/// The lines of the branch of a recovery that is expected, by the servers' settings and the book. It is what is done
/// for this purpose with the replicas of a server, which go by these means. `Memory` comes only if memory runs out.
pub fn recovery_plan(
    alloc: Global,
    by: &Ground<'_>,
    purpose: Purpose,
    means: Means,
    failed: ServerNo,
) -> Result<Vec<Line>, Memory>
    ensures { IfOk result (λ lines. lines.items
        ≡ recovery_plan (ground_by by.now) purpose means failed) }
{
    let replicas = replicas(alloc, by.book, failed)?;
    recovery_lines(alloc, by, purpose, means, failed, &replicas)
}

/// Whether a recovery for this purpose has several branches, by what is found.
pub fn has_branches(purpose: Purpose) -> bool
    ensures { result ≡ has_branches purpose }
{
    match purpose {
        Purpose::Regroup | Purpose::Master | Purpose::Intermediate(_) => true,
        Purpose::Takeover(_) => false,
    }
}
