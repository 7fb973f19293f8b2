//! Below the chosen one.

ghost use Rattle.std.specs.Prelude.{◌≡◌, ◌<◌, ◌++◌, All, IfOk, OnOk, filter_map, length};
ghost use Rattle.plan_lines.specs.Prelude.{by_lot, flat_map, ground_by, lot_by, option_to_list};
ghost use Rattle.plan_lines.specs.Branches.{apart_from, chosen_line, chosen_lines, crowned, expect_on, follower_in, is_no, is_refused, last_lines, lot_for, lot_lines, parted, way_lines, wins};

use crate::Memory;
use crate::operations_items::{Aim, Crossing, Op};
use crate::orch_base::ServerNo;
use crate::pieces::{as_told, push_some};
use crate::straight::detach_line;
use plan_texts::{Apart, Expect, Line};
use recovery_parts::{Ground, better_of, chosen_of, expels, lot_by, releases};
use recovery_plans::commands::Lost;
use recovery_plans::{Follower, Means, Purpose, Stopped, Way, Why};
use std::alloc::Global;

// Whether this is the replica of that number.
fn is_no(no: ServerNo, stopped: Option<Stopped>) -> bool
    ensures { result ≡ is_no no stopped }
{
    match stopped {
        Some(stopped) => stopped.no.0 == no.0,
        None => false,
    }
}

// Whether the replica of that number would be chosen among these.
fn wins(
    alloc: Global,
    by: &Ground<'_>,
    failed: ServerNo,
    other: &Stopped,
    list: &[Stopped],
) -> Result<bool, Memory>
    requires { All (λ s. s.no.0 < length by.now.book.now.names) list.now }
    ensures { IfOk result (λ b. b ≡ wins (ground_by by.now) failed other.now list.now) }
{
    Ok(is_no(other.no, chosen_of(alloc, by, failed, list)?))
}

// `p` is chosen before another one that may be promoted. That one has executed less, if it would be chosen of two at
// the same position.
fn chosen_line(
    alloc: Global,
    by: &Ground<'_>,
    failed: ServerNo,
    p: &Stopped,
    other: &Stopped,
) -> Result<Option<Line>, Memory>
    requires p { p.now.no.0 < length by.now.book.now.names }
    requires other { other.now.no.0 < length by.now.book.now.names }
    ensures { IfOk result (λ o. o ≡ chosen_line (ground_by by.now) failed p.now other.now) }
{
    let level = Stopped {
        no: other.no,
        exec: p.exec,
        own_end: other.own_end,
    };
    if !wins(alloc, by, failed, other, &[*other])? {
        return Ok(None);
    }
    let less = wins(alloc, by, failed, other, &[*p, level])?;
    Ok(Some(Line::Chosen {
        no: p.no,
        before: other.no,
        less,
    }))
}

// The new source's coordinate was noted if both are at the same position; else it isn't known.
fn expect_on(level: bool, way: Way) -> Expect
    ensures { result ≡ expect_on level way }
{
    match way {
        Way::Down(bridge) => {
            if level {
                Expect::AsTold
            } else {
                Expect::Behind(bridge.no)
            }
        }
        Way::Up(bridge) => Expect::ByHand(bridge.source),
        Way::Auto { to: _, exec: _ }
        | Way::Match {
            to: _,
            exec: _,
            every: _,
        } => Expect::AsTold,
    }
}

/// A replica goes some way, and is started.
pub(crate) fn way_lines(
    alloc: Global,
    level: bool,
    no: ServerNo,
    way: Way,
) -> Result<Vec<Line>, Memory>
    ensures { IfOk result (λ lines. lines.items ≡ way_lines level no way) }
{
    let (expect, start) = (expect_on(level, way), as_told(Op::Start(no)));
    Ok(match way {
        Way::Down(bridge) => {
            vec![in alloc;
                Line::Does(Op::Cross(Crossing::Down, no, bridge.no), expect),
                start,
            ]?
        }
        Way::Up(bridge) => {
            vec![in alloc;
                Line::Does(Op::Cross(Crossing::Up, no, bridge.no), expect),
                start,
            ]?
        }
        Way::Auto { to, exec: _ } => vec![in alloc; Line::Does(Op::Auto(no, to), expect), start]?,
        Way::Match { to, exec: _, every } => {
            vec![in alloc;
                as_told(Op::Match(no, to, every)),
                Line::Does(Op::CrossMatch(no, to), expect),
                start,
            ]?
        }
    })
}

// Before or after the chosen one.
fn apart_from(p: &Stopped, other: &Stopped) -> Apart
    ensures { result ≡ apart_from p.now other.now }
{
    if p.exec < other.exec {
        Apart::Ahead
    } else {
        Apart::Behind
    }
}

// By GTIDs one that has executed more is refused below the chosen one.
fn is_refused(p: &Stopped, other: &Stopped, way: Way) -> bool
    ensures { result ≡ is_refused p.now other.now way }
{
    match way {
        Way::Auto { to: _, exec: _ } => p.exec < other.exec,
        Way::Down(_)
        | Way::Up(_)
        | Way::Match {
            to: _,
            exec: _,
            every: _,
        } => false,
    }
}

// A replica that is refused is lost.
fn lot_for(
    by: &Ground<'_>,
    means: Means,
    failed: ServerNo,
    p: &Stopped,
    other: &Stopped,
) -> Result<Way, Why>
    requires { p.now.no.0 < length by.now.book.now.names }
    ensures { result ≡ by_lot (lot_for means (ground_by by.now) failed p.now other.now) }
{
    match lot_by(by, means, failed, p, other) {
        Ok(way) => {
            if is_refused(p, other, way) {
                Err(Why::Lost(Lost::Ahead(other.exec)))
            } else {
                Ok(way)
            }
        }
        Err(why) => Err(why),
    }
}

// How a drained replica goes below the chosen one, or that it is lost.
fn lot_lines(
    alloc: Global,
    by: &Ground<'_>,
    means: Means,
    failed: ServerNo,
    p: &Stopped,
    other: &Stopped,
) -> Result<Vec<Line>, Memory>
    requires { p.now.no.0 < length by.now.book.now.names }
    ensures { IfOk result (λ lines. lines.items
        ≡ lot_lines p.now other.now (lot_by means (ground_by by.now) failed p.now other.now)) }
{
    match lot_by(by, means, failed, p, other) {
        Ok(way) => {
            if is_refused(p, other, way) {
                let (no, beside, apart) = (other.no, p.no, Apart::Refused);
                return Ok(vec![in alloc; Line::Lost { no, beside, apart }]?);
            }
            way_lines(alloc, other.exec == p.exec, other.no, way)
        }
        Err(_) => {
            let apart = apart_from(p, other);
            Ok(vec![in alloc;
                Line::Lost {
                    no: other.no,
                    beside: p.no,
                    apart
                },
            ]?)
        }
    }
}

// A lost one is detached, or started again.
fn parted(
    by: &Ground<'_>,
    purpose: Purpose,
    means: Means,
    failed: ServerNo,
    p: &Stopped,
    other: &Stopped,
) -> Option<Line>
    requires { p.now.no.0 < length by.now.book.now.names }
    ensures { result
        ≡ parted by.now.book.now purpose other.now
        (lot_for means (ground_by by.now) failed p.now other.now) }
{
    match lot_for(by, means, failed, p, other) {
        Ok(_) => None,
        Err(why) if expels(purpose, Some(why)) => Some(detach_line(by.book, other.no)),
        Err(why) if releases(purpose, Some(why)) => Some(as_told(Op::Start(other.no))),
        Err(_) => None,
    }
}

fn follower(
    by: &Ground<'_>,
    means: Means,
    failed: ServerNo,
    p: &Stopped,
    other: &Stopped,
) -> Option<Follower>
    requires { p.now.no.0 < length by.now.book.now.names }
    ensures { result ≡ follower_in p.now.no other.now
        (lot_for means (ground_by by.now) failed p.now other.now) }
{
    match lot_for(by, means, failed, p, other) {
        Ok(_) => Some(Follower {
            no: other.no,
            source: p.no,
        }),
        Err(_) => None,
    }
}

fn push_follower(list: &mut Vec<Follower>, follower: Option<Follower>) -> Result<(), Memory>
    ensures { OnOk result (list.new.items ≡ list.old.items ++ option_to_list follower) }
{
    if let Some(follower) = follower {
        list.push(follower)?;
    }
    Ok(())
}

fn followers(
    alloc: Global,
    by: &Ground<'_>,
    means: Means,
    failed: ServerNo,
    p: &Stopped,
    others: &[Stopped],
) -> Result<Vec<Follower>, Memory>
    requires { p.now.no.0 < length by.now.book.now.names }
    ensures { IfOk result (λ list. list.items
        ≡ filter_map (λ s. follower_in p.now.no s (lot_for means (ground_by by.now) failed p.now s))
        others.now) }
{
    let mut list = Vec::new(alloc);
    for other in others {
        push_follower(&mut list, follower(by, means, failed, p, other))?;
    }
    Ok(list)
}

// A better one comes to the end of the log of `p` and takes its place; or `p` takes writes.
fn crowned(alloc: Global, p: ServerNo, better: Option<ServerNo>) -> Result<Vec<Line>, Memory>
    ensures { IfOk result (λ lines. lines.items ≡ crowned p better) }
{
    Ok(match better {
        Some(q) => vec![in alloc;
            as_told(Op::Status(p, None)),
            as_told(Op::Status(q, Some(p))),
            as_told(Op::Until(q, Aim::EndOf(p))),
            as_told(Op::Await(q, Aim::EndOf(p))),
            as_told(Op::Stop(q)),
            as_told(Op::Status(q, Some(p))),
            as_told(Op::Reset(q)),
            as_told(Op::Cross(Crossing::About, p, q)),
            as_told(Op::Start(p)),
            as_told(Op::ReadOnly(q, false)),
            as_told(Op::Status(q, None)),
        ]?,
        None => vec![in alloc;
            as_told(Op::Reset(p)),
            as_told(Op::ReadOnly(p, false)),
            as_told(Op::Status(p, None)),
        ]?,
    })
}

// What comes last: the chosen one is started again, or takes writes, or a better one does.
fn last_lines(
    alloc: Global,
    by: &Ground<'_>,
    purpose: Purpose,
    failed: ServerNo,
    p: ServerNo,
    followers: &[Follower],
) -> Result<Vec<Line>, Memory>
    requires p { p.0 < length by.now.book.now.names }
    requires followers { All (λ x. x.no.0 < length by.now.book.now.names) followers.now }
    ensures { IfOk result (λ lines. lines.items
        ≡ last_lines (ground_by by.now) purpose failed p followers.now) }
{
    match purpose {
        Purpose::Regroup => Ok(vec![in alloc; as_told(Op::Start(p))]?),
        Purpose::Master => crowned(alloc, p, better_of(alloc, by, failed, p, followers)?),
        Purpose::Intermediate(_) | Purpose::Takeover(_) => Ok(Vec::new(alloc)),
    }
}

// Whom the chosen one is chosen before.
fn add_chosen(
    alloc: Global,
    by: &Ground<'_>,
    failed: ServerNo,
    p: &Stopped,
    others: &[Stopped],
    lines: &mut Vec<Line>,
) -> Result<(), Memory>
    requires p { p.now.no.0 < length by.now.book.now.names }
    requires others { All (λ s. s.no.0 < length by.now.book.now.names) others.now }
    ensures { OnOk result (lines.new.items ≡ lines.old.items
        ++ filter_map (chosen_line (ground_by by.now) failed p.now) others.now) }
{
    for other in others {
        let line = chosen_line(alloc, by, failed, p, other)?;
        push_some(lines, line)?;
    }
    Ok(())
}

fn add_lots(
    alloc: Global,
    by: &Ground<'_>,
    means: Means,
    failed: ServerNo,
    p: &Stopped,
    others: &[Stopped],
    lines: &mut Vec<Line>,
) -> Result<(), Memory>
    requires { p.now.no.0 < length by.now.book.now.names }
    ensures { OnOk result (lines.new.items ≡ lines.old.items
        ++ flat_map (λ s. lot_lines p.now s (lot_by means (ground_by by.now) failed p.now s))
        others.now) }
{
    for other in others {
        lines.append(&mut lot_lines(alloc, by, means, failed, p, other)?)?;
    }
    Ok(())
}

fn add_parted(
    by: &Ground<'_>,
    purpose: Purpose,
    means: Means,
    failed: ServerNo,
    p: &Stopped,
    others: &[Stopped],
    lines: &mut Vec<Line>,
) -> Result<(), Memory>
    requires { p.now.no.0 < length by.now.book.now.names }
    ensures { OnOk result (lines.new.items ≡ lines.old.items
        ++ filter_map (λ s. parted by.now.book.now purpose s
        (lot_for means (ground_by by.now) failed p.now s)) others.now) }
{
    for other in others {
        push_some(lines, parted(by, purpose, means, failed, p, other))?;
    }
    Ok(())
}

/// Adds the lines by which `p` is chosen, and the others go below it or are lost.
pub(crate) fn add_below(
    alloc: Global,
    by: &Ground<'_>,
    purpose: Purpose,
    means: Means,
    failed: ServerNo,
    p: &Stopped,
    others: &[Stopped],
    lines: &mut Vec<Line>,
) -> Result<(), Memory>
    requires p { p.now.no.0 < length by.now.book.now.names }
    requires others { All (λ s. s.no.0 < length by.now.book.now.names) others.now }
    ensures { OnOk result (lines.new.items ≡ lines.old.items
        ++ chosen_lines (ground_by by.now) purpose means failed p.now others.now) }
{
    add_chosen(alloc, by, failed, p, others, lines)?;
    add_lots(alloc, by, means, failed, p, others, lines)?;
    add_parted(by, purpose, means, failed, p, others, lines)?;
    let followers = followers(alloc, by, means, failed, p, others)?;
    lines.append(&mut last_lines(alloc, by, purpose, failed, p.no, &followers)?)
}
