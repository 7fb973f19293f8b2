//! The choice among drained replicas.

ghost use Rattle.std.specs.Prelude.{◌<◌, ◌↔◌, All, IsTrue, length};

use crate::binlog_coords_items::Coord;
use crate::orch_base::{Memory, Name, Rule, ServerNo};
use promotion_rules::{Drained, better, most_advanced};
use std::alloc::{AllocError, Global};

// A drained replica: its number, file and position, rule, whether it logs, and whether it is in the failed server's
// data centre.
type Given = (u32, u32, u64, Rule, bool, bool);

fn drained((no, file, pos, rule, logs, near): Given) -> Drained {
    let coord = Coord { file, pos };
    Drained {
        no: ServerNo(no),
        exec: coord,
        own_end: if logs { Some(coord) } else { None },
        rule,
        logs,
        near,
    }
}

fn all_drained(alloc: Global, given: &[Option<Given>]) -> Result<Vec<Drained>, Memory> {
    let mut list = Vec::new(alloc);
    for place in given {
        if let Some(one) = place {
            list.push(drained(*one))?;
        }
    }
    Ok(list)
}

const NAMES: [&str; 5] = ["a", "b", "c", "B", "a:1"];

// A name that reads.
fn name(alloc: Global, text: &str) -> Result<Name, Memory> {
    match Name::read(alloc, text) {
        Ok(name) => Ok(name),
        Err(_fault) => Err(AllocError),
    }
}

fn names(alloc: Global) -> Result<Vec<Name>, Memory> {
    let mut names = Vec::new(alloc);
    for text in &NAMES {
        names.push(name(alloc, text)?)?;
    }
    Ok(names)
}

fn are_known(list: &[Drained], names: &[Name]) -> bool
    ensures { IsTrue result ↔ All (λ d. d.no.0 < length names.now) list.now }
{
    list.iter().all(|d| (d.no.0 as usize) < names.len())
}

// The rule of one that was promoted already, and whether it is in the failed server's data centre.
type Promoted = (Rule, bool);

// The most advanced one or, after a promoted one, the better follower; none if one isn't among the names.
fn choice(of: Option<Promoted>, list: &[Drained], names: &[Name]) -> Option<Option<ServerNo>> {
    if !are_known(list, names) {
        return None;
    }
    match of {
        None => Some(most_advanced(list, names)),
        Some((rule, near)) => Some(better(&drained((0, 1, 4, rule, true, near)), list, names)),
    }
}

// The same of these replicas.
fn chosen(
    alloc: Global,
    of: Option<Promoted>,
    given: &[Option<Given>],
) -> Result<Option<Option<ServerNo>>, Memory> {
    let list = all_drained(alloc, given)?;
    let names = names(alloc)?;
    Ok(choice(of, &list, &names))
}

// The one that was promoted already, drained replicas, and the one that is chosen.
const CHOICES: [(Option<Promoted>, [Option<Given>; 3], Option<ServerNo>); 25] = [
    // the greatest coordinate goes before the better rule, and one that must not be promoted is passed over
    (
        None,
        [
            Some((0, 1, 204, Rule::Neutral, true, true)),
            Some((1, 2, 4, Rule::PreferNot, true, true)),
            Some((2, 2, 4, Rule::MustNot, true, true)),
        ],
        Some(ServerNo(1)),
    ),
    // files go before positions
    (
        None,
        [
            Some((0, 1, 1_000_000_000_000, Rule::Prefer, true, true)),
            Some((1, 2, 4, Rule::Neutral, true, true)),
            None,
        ],
        Some(ServerNo(1)),
    ),
    // of one coordinate the better rule
    (
        None,
        [
            Some((0, 1, 204, Rule::Neutral, true, true)),
            Some((1, 1, 204, Rule::Prefer, true, true)),
            None,
        ],
        Some(ServerNo(1)),
    ),
    // of one coordinate and rule the first name: by the host's bytes, then by the port
    (
        None,
        [
            Some((0, 1, 204, Rule::Prefer, true, true)),
            Some((4, 1, 204, Rule::Prefer, true, true)),
            Some((1, 1, 204, Rule::Prefer, true, true)),
        ],
        Some(ServerNo(4)),
    ),
    (
        None,
        [
            Some((1, 1, 204, Rule::Prefer, true, true)),
            Some((3, 1, 204, Rule::Prefer, true, true)),
            None,
        ],
        Some(ServerNo(3)),
    ),
    // who doesn't log is passed over
    (
        None,
        [
            Some((0, 9, 204, Rule::Prefer, false, true)),
            Some((1, 1, 4, Rule::PreferNot, true, true)),
            None,
        ],
        Some(ServerNo(1)),
    ),
    (
        None,
        [Some((0, 9, 204, Rule::Prefer, false, true)), None, None],
        None,
    ),
    (
        None,
        [Some((0, 9, 204, Rule::MustNot, true, true)), None, None],
        None,
    ),
    (None, [None, None, None], None),
    (
        None,
        [
            Some((0, u32::MAX, u64::MAX, Rule::PreferNot, true, true)),
            Some((1, u32::MAX, u64::MAX - 1, Rule::Prefer, true, true)),
            None,
        ],
        Some(ServerNo(0)),
    ),
    // of followers
    (
        Some((Rule::PreferNot, true)),
        [Some((0, 1, 204, Rule::Neutral, true, true)), None, None],
        Some(ServerNo(0)),
    ),
    // the rule must be strictly better
    (
        Some((Rule::Neutral, true)),
        [Some((0, 1, 204, Rule::Neutral, true, true)), None, None],
        None,
    ),
    (
        Some((Rule::Prefer, true)),
        [Some((0, 1, 204, Rule::Prefer, true, true)), None, None],
        None,
    ),
    // coordinates don't count
    (
        Some((Rule::PreferNot, true)),
        [
            Some((0, 9, 204, Rule::Neutral, true, true)),
            Some((1, 1, 4, Rule::Prefer, true, true)),
            None,
        ],
        Some(ServerNo(1)),
    ),
    // of one rule the first name
    (
        Some((Rule::PreferNot, true)),
        [
            Some((2, 1, 4, Rule::Neutral, true, true)),
            Some((1, 1, 4, Rule::Neutral, true, true)),
            Some((3, 1, 4, Rule::Neutral, true, true)),
        ],
        Some(ServerNo(3)),
    ),
    // who doesn't log is passed over
    (
        Some((Rule::PreferNot, true)),
        [
            Some((0, 1, 4, Rule::Prefer, false, true)),
            Some((1, 1, 4, Rule::Neutral, true, true)),
            None,
        ],
        Some(ServerNo(1)),
    ),
    (
        Some((Rule::PreferNot, true)),
        [Some((0, 1, 4, Rule::MustNot, true, true)), None, None],
        None,
    ),
    (Some((Rule::MustNot, true)), [None, None, None], None),
    // of one coordinate and rule the one in the failed server's data centre
    (
        None,
        [
            Some((0, 1, 204, Rule::Neutral, true, false)),
            Some((1, 1, 204, Rule::Neutral, true, true)),
            None,
        ],
        Some(ServerNo(1)),
    ),
    // the better rule goes before the data centre
    (
        None,
        [
            Some((0, 1, 204, Rule::Prefer, true, false)),
            Some((1, 1, 204, Rule::Neutral, true, true)),
            None,
        ],
        Some(ServerNo(0)),
    ),
    // and so does the greater coordinate
    (
        None,
        [
            Some((0, 1, 204, Rule::Neutral, true, false)),
            Some((1, 1, 104, Rule::Neutral, true, true)),
            None,
        ],
        Some(ServerNo(0)),
    ),
    // if none is there, the first name
    (
        None,
        [
            Some((1, 1, 204, Rule::Neutral, true, false)),
            Some((0, 1, 204, Rule::Neutral, true, false)),
            None,
        ],
        Some(ServerNo(0)),
    ),
    // a follower of a better rule, though it is in another data centre
    (
        Some((Rule::PreferNot, true)),
        [Some((0, 1, 204, Rule::Neutral, true, false)), None, None],
        Some(ServerNo(0)),
    ),
    // one of the same rule that is in the data centre, after a promoted one that isn't
    (
        Some((Rule::Neutral, false)),
        [
            Some((0, 1, 204, Rule::Neutral, true, false)),
            Some((1, 1, 204, Rule::Neutral, true, true)),
            None,
        ],
        Some(ServerNo(1)),
    ),
    // none if the promoted one is there
    (
        Some((Rule::Neutral, true)),
        [Some((0, 1, 204, Rule::Neutral, true, false)), None, None],
        None,
    ),
];

// The first case in which another one is chosen.
fn first_wrong(alloc: Global) -> Result<Option<usize>, Memory> {
    for (place, (of, given, want)) in CHOICES.iter().enumerate() {
        if chosen(alloc, *of, given)? != Some(*want) {
            return Ok(Some(place));
        }
    }
    Ok(None)
}

#[test]
fn the_first_by_the_order_is_chosen(rt: HostRuntime) {
    assert_eq!(rt; first_wrong(rt.alloc()), Ok(None));
}
