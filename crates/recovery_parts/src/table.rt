//! The table of stages: what each is, in one place.

ghost use Rattle.std.specs.Prelude.{◌≡◌, None, false, true};
ghost use Rattle.recovery_plans.specs.Table.{info};
ghost use Rattle.recovery_parts.specs.Infos.{back_told, bar_told, failing_told, made_told};

use crate::instance_keeper_items::Bridge;
use crate::ops::target;
use crate::orch_base::ServerNo;
use recovery_plans::{Stage, Way};

/// What is seen in a stage that ends the recovery.
#[derive(Clone, Copy)]
pub enum Bar {
    /// Nothing.
    Never,
    /// That the failed server is reached.
    Reached,
    /// That this master has a source.
    Sourced(ServerNo),
}

/// The way back of a takeover that fails in a stage.
#[derive(Clone, Copy)]
pub enum Back {
    /// None.
    Nowhere,
    /// The master takes writes again.
    Writes,
    /// Before that the second goes back below the first, which is the master.
    Whole(ServerNo, ServerNo),
}

/// What becomes of a stage whose operation fails.
#[derive(Clone, Copy)]
pub enum Failing {
    /// The recovery fails.
    All,
    /// Nothing more is done with the server.
    Passes,
    /// A replica may be lost. It was to be drained, to go some way, to be started below its new source, or to come to
    /// the position at which another stopped.
    Drains(ServerNo),
    Moves(ServerNo, Way),
    Joins(ServerNo),
    Trails(ServerNo),
    /// The better one is started in its place.
    Releases(ServerNo),
    /// The second goes back below the first.
    Returns(ServerNo, ServerNo),
}

/// What the end of a stage makes.
#[derive(Clone, Copy)]
pub enum Made {
    Nothing,
    /// A replica is drained, or lost.
    Judged(ServerNo),
    /// The first follows the second.
    Follows(ServerNo, ServerNo),
    /// A lost one is marked as detached.
    Marked(ServerNo),
    /// The designated one was seen to stop.
    Gathered(ServerNo),
    /// The second takes the first one's place.
    Swapped(ServerNo, ServerNo),
    /// The new source takes writes, and nothing more is changed.
    Opened(ServerNo),
    /// A master is to refuse writes, which gives its place to the second.
    Met(ServerNo, ServerNo),
    /// A replica was read; it has stopped.
    Looked(ServerNo, Bridge),
    Halted(ServerNo, Bridge),
    /// The first, a master, is below the second.
    Switched(ServerNo, ServerNo),
}

/// What a stage is.
#[derive(Drop)]
pub struct Info {
    /// The stage once the operation that ends it is done.
    pub next: Stage,
    /// Whether that operation is the reading of its replica.
    pub reads: bool,
    /// A follower that has lost its source as it begins.
    pub leaves: Option<ServerNo>,
    pub bar: Bar,
    pub back: Back,
    pub failing: Failing,
    pub made: Made,
}

// A stage that goes on so if its operation fails.
#[inline(always)]
fn risking(next: Stage, failing: Failing) -> Info
    ensures { result ≡ record {
      next = next;
      reads = false;
      leaves = None;
      bar = Bar.Never;
      back = Back.Writes;
      failing = failing;
      made = Made.Nothing;
    } }
{
    Info {
        next,
        reads: false,
        leaves: None,
        bar: Bar::Never,
        back: Back::Writes,
        failing,
        made: Made::Nothing,
    }
}

// One that ends with the reading of its replica.
#[inline(always)]
fn reading(next: Stage, failing: Failing) -> Info
    ensures { result ≡ record {
      next = next;
      reads = true;
      leaves = None;
      bar = Bar.Never;
      back = Back.Writes;
      failing = failing;
      made = Made.Nothing;
    } }
{
    Info {
        reads: true,
        ..risking(next, failing)
    }
}

// One with a way back, if it fails, that makes something.
#[inline(always)]
fn ending(next: Stage, back: Back, made: Made) -> Info
    ensures { result ≡ record {
      next = next;
      reads = false;
      leaves = None;
      bar = Bar.Never;
      back = back;
      failing = Failing.All;
      made = made;
    } }
{
    Info {
        back,
        made,
        ..risking(next, Failing::All)
    }
}

/// What a stage is.
#[inline(always)]
pub fn info_of(stage: &Stage) -> Info
    ensures next { result.next ≡ (info stage.now).next }
    ensures reads { result.reads ≡ (info stage.now).reads }
    ensures leaves { result.leaves ≡ (info stage.now).leaves }
    ensures bar { bar_told result.bar ≡ (info stage.now).bar }
    ensures back { back_told result.back ≡ (info stage.now).back }
    ensures failing { failing_told result.failing ≡ (info stage.now).failing }
    ensures made { made_told result.made ≡ (info stage.now).made }
{
    let (writes, nowhere) = (Back::Writes, Back::Nowhere);
    let (all, passes) = (Failing::All, Failing::Passes);
    let nothing = Made::Nothing;
    match stage {
        Stage::Idle => risking(Stage::Idle, all),
        Stage::Check => Info {
            bar: Bar::Reached,
            ..risking(Stage::Check, passes)
        },
        Stage::Read(n) => risking(Stage::Read(*n), all),
        Stage::Drain(n) => reading(Stage::Judged(*n), Failing::Drains(*n)),
        Stage::Judged(n) => ending(Stage::Judged(*n), writes, Made::Judged(*n)),
        Stage::Move(n, way) => risking(Stage::Join(*n, target(*way)), Failing::Moves(*n, *way)),
        Stage::Join(n, p) => Info {
            failing: Failing::Joins(*n),
            ..ending(Stage::Join(*n, *p), writes, Made::Follows(*n, *p))
        },
        Stage::Expel(n) => risking(Stage::Expelled(*n), passes),
        Stage::Expelled(n) => ending(Stage::Expelled(*n), writes, Made::Marked(*n)),
        Stage::Release(n) => risking(Stage::Release(*n), passes),
        Stage::Level(p, q) => risking(Stage::Swap(*p, *q), Failing::Releases(*q)),
        Stage::Swap(p, q) => Info {
            leaves: Some(*q),
            ..risking(Stage::Swapped(*p, *q), Failing::Returns(*p, *q))
        },
        Stage::Swapped(p, q) => ending(Stage::Swapped(*p, *q), writes, Made::Swapped(*p, *q)),
        Stage::Return(p, q) => risking(Stage::Resume(*p, *q), all),
        Stage::Resume(p, q) => ending(Stage::Resume(*p, *q), writes, Made::Follows(*q, *p)),
        Stage::Crown(n) => risking(Stage::Open(*n), all),
        Stage::Open(n) => ending(Stage::Opened(*n), nowhere, nothing),
        Stage::Opened(n) => ending(Stage::Opened(*n), nowhere, Made::Opened(*n)),
        Stage::Meet(m, d) => Info {
            bar: Bar::Sourced(*m),
            ..ending(Stage::Meet(*m, *d), nowhere, Made::Met(*m, *d))
        },
        Stage::Shut(m, d) => ending(Stage::Gather(*m, *d), nowhere, nothing),
        Stage::Gather(m, d) => ending(Stage::Gather(*m, *d), writes, Made::Gathered(*d)),
        Stage::Look(n, lead) => reading(Stage::Looked(*n, *lead), Failing::Trails(*n)),
        Stage::Looked(n, lead) => {
            ending(Stage::Looked(*n, *lead), writes, Made::Looked(*n, *lead))
        }
        Stage::Trail(n, lead) => reading(Stage::Halted(*n, *lead), Failing::Trails(*n)),
        Stage::Halted(n, lead) => {
            ending(Stage::Halted(*n, *lead), writes, Made::Halted(*n, *lead))
        }
        Stage::Yield(m, d) => risking(Stage::Switch(*m, *d), all),
        Stage::Switch(m, d) => ending(Stage::Switched(*m, *d), Back::Whole(*m, *d), nothing),
        Stage::Switched(m, d) => ending(Stage::Switched(*m, *d), nowhere, Made::Switched(*m, *d)),
        Stage::Close(_) => ending(Stage::Idle, nowhere, nothing),
    }
}
