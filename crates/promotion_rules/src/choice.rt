//! The choice among drained replicas (orchestrator's documentation, "Topology recovery").

ghost use Rattle.std.specs.Prelude.{◌≡◌, ◌<◌, ◌≤◌, ◌&&◌, All, length};
ghost use Rattle.std.specs.Option.{ForSome};
ghost use Rattle.promotion_rules.specs.Choice.{advance_order, better, comes_first, coord_order, is_better, is_eligible, most_advanced, nearer_order, precedence, rank, rank_order, server_order};

use crate::binlog_coords_items::Coord;
use crate::drained::Drained;
use crate::orch_base::{Name, Rule, ServerNo};
use std::cmp::Ordering;

fn compare_coords(one: Coord, other: Coord) -> Ordering
    ensures { result ≡ coord_order one other }
{
    one.cmp(&other)
}

fn precedence(rule: Rule) -> u8
    ensures value { result ≡ precedence rule }
    ensures within { result ≤ 3 }
{
    match rule {
        Rule::Prefer => 0,
        Rule::Neutral => 1,
        Rule::PreferNot => 2,
        Rule::MustNot => 3,
    }
}

// Its rank: by its rule, then by whether it is in the failed server's data centre.
fn rank(drained: &Drained) -> u8
    ensures { result ≡ rank drained.now }
{
    2 * precedence(drained.rule) + if drained.near { 0 } else { 1 }
}

fn compare_ranks(one: &Drained, other: &Drained) -> Ordering
    ensures { result ≡ rank_order one.now other.now }
{
    rank(one).cmp(&rank(other))
}

fn compare_names(names: &[Name], one: ServerNo, other: ServerNo) -> Ordering
    requires one { one.0 < length names.now }
    requires other { other.0 < length names.now }
    ensures { result ≡ server_order names.now one other }
{
    let by_name = names[one.0 as usize].compare(&names[other.0 as usize]);
    by_name.then(one.0.cmp(&other.0))
}

// The lower rank, then the first name.
fn compare_nearer(names: &[Name], one: &Drained, other: &Drained) -> Ordering
    requires one { one.now.no.0 < length names.now }
    requires other { other.now.no.0 < length names.now }
    ensures { result ≡ nearer_order names.now one.now other.now }
{
    compare_ranks(one, other).then(compare_names(names, one.no, other.no))
}

// The greatest executed coordinate, then the lower rank, then the first name.
fn compare_advance(names: &[Name], one: &Drained, other: &Drained) -> Ordering
    requires one { one.now.no.0 < length names.now }
    requires other { other.now.no.0 < length names.now }
    ensures { result ≡ advance_order names.now one.now other.now }
{
    compare_coords(other.exec, one.exec).then(compare_nearer(names, one, other))
}

fn is_eligible(drained: &Drained) -> bool
    ensures { result ≡ is_eligible drained.now }
{
    drained.logs && drained.rule != Rule::MustNot
}

fn is_better(of: &Drained, drained: &Drained) -> bool
    ensures { result ≡ is_better of.now drained.now }
{
    drained.logs && compare_ranks(drained, of) == Ordering::Less
}

// Whether it may be promoted, and is before the first so far.
fn leads(names: &[Name], one: &Drained, first: Option<Drained>) -> bool
    requires one { one.now.no.0 < length names.now }
    requires first { ForSome first (λ d. d.no.0 < length names.now) }
    ensures { result ≡
        (is_eligible one.now && comes_first (advance_order names.now) one.now first) }
{
    is_eligible(one)
        && match first {
            None => true,
            Some(first) => compare_advance(names, one, &first) == Ordering::Less,
        }
}

// Whether it may take the place of the promoted one, and is before the first so far.
fn replaces(names: &[Name], of: &Drained, one: &Drained, first: Option<Drained>) -> bool
    requires one { one.now.no.0 < length names.now }
    requires first { ForSome first (λ d. d.no.0 < length names.now) }
    ensures { result ≡
        (is_better of.now one.now && comes_first (nearer_order names.now) one.now first) }
{
    is_better(of, one)
        && match first {
            None => true,
            Some(first) => compare_nearer(names, one, &first) == Ordering::Less,
        }
}

/// The replica that is promoted, among those that log and may be promoted. It has executed most of the failed server's
/// log. If several have, it has the lowest rank, and then it is the first by name. The better rule has the lower rank,
/// and of one rule the failed server's data centre. `None` exactly if none logs and may be promoted. `names` are the
/// servers' names by number. It takes no memory.
pub fn most_advanced(list: &[Drained], names: &[Name]) -> Option<ServerNo>
    requires { All (λ d. d.no.0 < length names.now) list.now }
    ensures { result ≡ most_advanced names.now list.now }
{
    let mut first: Option<Drained> = None;
    for drained in list {
        if leads(names, drained, first) {
            first = Some(*drained);
        }
    }
    first.map(|drained| drained.no)
}

/// The follower that takes the promoted one's place, among those that log and have a strictly lower rank than `of`, the
/// promoted one. It has the lowest rank, and of several such ones it is the first by name. `None` exactly if none logs
/// and has a strictly lower rank. `names` are the servers' names by number. It takes no memory.
pub fn better(of: &Drained, followers: &[Drained], names: &[Name]) -> Option<ServerNo>
    requires { All (λ d. d.no.0 < length names.now) followers.now }
    ensures { result ≡ better names.now of.now followers.now }
{
    let mut first: Option<Drained> = None;
    for drained in followers {
        if replaces(names, of, drained, first) {
            first = Some(*drained);
        }
    }
    first.map(|drained| drained.no)
}
