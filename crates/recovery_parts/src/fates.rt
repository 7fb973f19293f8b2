//! What becomes of a stage whose operation fails.

ghost use Rattle.std.specs.Prelude.{◌≡◌};
ghost use Rattle.std.specs.Option.{option_map};
ghost use Rattle.recovery_plans.specs.ServerModel.Worlds.{server_at};
ghost use Rattle.recovery_plans.specs.Taking.{drain_fate, exec_by, fate_by, is_away, loss_of, lost_on_way, match_fate, move_fate, place_on, spot_by, spot_seen, trail_fate, way_fate};
ghost use Rattle.recovery_plans.specs.declared.why.Why.{Why as AWhy};
ghost use Rattle.recovery_parts.specs.Fates.{fate_told, loss_told};
ghost use Rattle.recovery_parts.specs.Infos.{failing_told};

use crate::binlog_coords_items::Coord;
use crate::commands::{Cause, Lost};
use crate::orch_base::{ServerNo, SourceState};
use crate::server_model::World;
use crate::server_words_items::Spot;
use crate::table::Failing;
use recovery_plans::{Miss, Purpose, Way, Why};

/// What becomes of a stage whose operation fails.
#[derive(Clone, Copy)]
pub enum Fate {
    /// The recovery fails.
    Fails,
    /// Nothing more is done with the server.
    Drops,
    /// The replica is lost; or it is started, too.
    Loses(ServerNo, Why),
    Frees(ServerNo, Why),
    /// The better one is started in its place.
    Releases(ServerNo),
    /// The second goes back below the first.
    Returns(ServerNo, ServerNo),
}

/// What a failing operation means for the replica that it works on.
#[derive(Clone, Copy)]
pub(crate) enum Loss {
    /// It took too long.
    Spent,
    /// It has transactions of its own.
    Differs,
    /// Why it isn't matched or attached.
    Missed(Miss),
}

/// The position at which a server was seen.
pub fn spot_seen(source: SourceState, exec: Coord) -> Spot
    ensures { result ≡ spot_seen source exec }
{
    match source {
        SourceState::Without => Spot::Nowhere,
        SourceState::Attached(no) | SourceState::Detached(no) => Spot::At(no, exec),
    }
}

// The position at which a server is.
fn spot_at(world: &World, no: ServerNo) -> Spot
    ensures { result ≡ spot_by (server_at world.now no.0) }
{
    if world.servers() <= no.0 {
        return Spot::Nowhere;
    }
    let plain = world.plain(no);
    spot_seen(plain.source, plain.exec)
}

// How far a server has executed its source's log.
fn exec_at(world: &World, no: ServerNo) -> Coord
    ensures { result ≡ exec_by (server_at world.now no.0) }
{
    if world.servers() <= no.0 {
        return Coord { file: 1, pos: 4 };
    }
    world.plain(no).exec
}

// What a failing operation means for the replica that it works on: nothing, if the recovery fails.
fn loss_of(cause: &Cause) -> Option<Loss>
    ensures { option_map loss_told result ≡ loss_of cause.now }
{
    let miss = match cause {
        Cause::WaitSpent(_) => return Some(Loss::Spent),
        Cause::Errant(_, _) => return Some(Loss::Differs),
        Cause::Unreachable(no) => Miss::Unreachable(*no),
        Cause::Running(_) => Miss::Running,
        Cause::Interfered {
            expected,
            found,
            ..
        } => Miss::Interfered {
            expected: *expected,
            found: *found,
        },
        Cause::Loop(_) => Miss::Loop,
        Cause::Purged(_, first) => Miss::Purged(*first),
        Cause::NoMark(_) => Miss::NoMark,
        Cause::Mismatch(_, entry) => Miss::Mismatch(*entry),
        Cause::Moved(_, _) | Cause::Reachable(_) | Cause::NoCandidate | Cause::HookFailed { .. } =>
            return None,
    };
    Some(Loss::Missed(miss))
}

// Whether a miss is that the server wasn't reached.
fn is_away(miss: Miss) -> bool
    ensures { result ≡ is_away miss }
{
    match miss {
        Miss::Unreachable(_) => true,
        Miss::Running
        | Miss::Interfered { .. }
        | Miss::Loop
        | Miss::Purged(_)
        | Miss::NoMark
        | Miss::Mismatch(_) => false,
    }
}

fn of_drain(no: ServerNo, loss: Option<Loss>) -> Fate
    ensures { fate_told result ≡ drain_fate no (option_map loss_told loss) }
{
    match loss {
        Some(Loss::Missed(miss)) => {
            if is_away(miss) {
                Fate::Loses(no, Why::Lost(Lost::Unreachable))
            } else {
                Fate::Fails
            }
        }
        Some(Loss::Spent | Loss::Differs) | None => Fate::Fails,
    }
}

// One that takes too long is lost as `behind`, at its position.
fn of_trail(world: &World, no: ServerNo, loss: Option<Loss>) -> Fate
    ensures { fate_told result ≡ trail_fate world.now no (option_map loss_told loss) }
{
    match loss {
        Some(Loss::Spent) => Fate::Frees(no, Why::Lost(Lost::Behind(exec_at(world, no)))),
        Some(Loss::Missed(miss)) => {
            if is_away(miss) {
                Fate::Frees(no, Why::Lost(Lost::Unreachable))
            } else {
                Fate::Fails
            }
        }
        Some(Loss::Differs) | None => Fate::Fails,
    }
}

// A replica that is lost on its way is started at once in a takeover, and is looked after later else.
fn on_way(purpose: Purpose, no: ServerNo, why: Lost) -> Fate
    ensures { fate_told result ≡ lost_on_way purpose no (AWhy.Lost why) }
{
    match purpose {
        Purpose::Regroup | Purpose::Master | Purpose::Intermediate(_) => {
            Fate::Loses(no, Why::Lost(why))
        }
        Purpose::Takeover(_) => Fate::Frees(no, Why::Lost(why)),
    }
}

// The coordinate at which a replica was to be attached. By GTIDs or a match it is its own position.
fn place_on(way: Way) -> Coord
    ensures { result ≡ place_on way }
{
    match way {
        Way::Down(bridge) => bridge.own,
        Way::Up(bridge) => bridge.exec,
        Way::Auto { exec, .. } | Way::Match { exec, .. } => exec,
    }
}

// A replica that goes its way at once.
fn of_attach(world: &World, purpose: Purpose, no: ServerNo, way: Way, loss: Option<Loss>) -> Fate
    ensures { fate_told result ≡ move_fate world.now purpose no way (option_map loss_told loss) }
{
    match loss {
        Some(Loss::Missed(Miss::Unreachable(_))) => on_way(purpose, no, Lost::Unreachable),
        Some(Loss::Missed(Miss::Running)) => on_way(purpose, no, Lost::Moved(spot_at(world, no))),
        Some(Loss::Missed(Miss::Interfered { found, .. })) => {
            on_way(purpose, no, Lost::Moved(found))
        }
        Some(Loss::Missed(Miss::Purged(_))) => on_way(purpose, no, Lost::Purged(place_on(way))),
        Some(Loss::Differs) => match way {
            Way::Auto { exec, .. } => on_way(purpose, no, Lost::Ahead(exec)),
            Way::Down(_) | Way::Up(_) | Way::Match { .. } => Fate::Fails,
        },
        Some(Loss::Missed(Miss::Loop | Miss::NoMark | Miss::Mismatch(_)) | Loss::Spent) | None => {
            Fate::Fails
        }
    }
}

// One that goes by a match is left in its place, for whatever cause.
fn of_match(no: ServerNo, loss: Option<Loss>) -> Fate
    ensures { fate_told result ≡ match_fate no (option_map loss_told loss) }
{
    match loss {
        Some(Loss::Missed(miss)) => Fate::Loses(no, Why::Unmatched(miss)),
        Some(Loss::Spent | Loss::Differs) | None => Fate::Fails,
    }
}

fn of_move(world: &World, purpose: Purpose, no: ServerNo, way: Way, loss: Option<Loss>) -> Fate
    ensures { fate_told result ≡ way_fate world.now purpose no way (option_map loss_told loss) }
{
    match way {
        Way::Match { .. } => of_match(no, loss),
        Way::Down(_) | Way::Up(_) | Way::Auto { .. } => of_attach(world, purpose, no, way, loss),
    }
}

/// What becomes of a stage whose operation fails for a cause.
pub fn fate_of(world: &World, purpose: Purpose, failing: Failing, cause: &Cause) -> Fate
    ensures { fate_told result ≡ fate_by world.now purpose (failing_told failing) cause.now }
{
    let loss = loss_of(cause);
    match failing {
        Failing::All => Fate::Fails,
        Failing::Passes => Fate::Drops,
        Failing::Drains(n) => of_drain(n, loss),
        Failing::Moves(n, way) => of_move(world, purpose, n, way, loss),
        Failing::Joins(n) => Fate::Loses(n, Why::Lost(Lost::Unreachable)),
        Failing::Trails(n) => of_trail(world, n, loss),
        Failing::Releases(q) => Fate::Releases(q),
        Failing::Returns(p, q) => Fate::Returns(p, q),
    }
}
