//! The values of a command line's options.

ghost use Rattle.std.specs.Prelude.{◌≡◌, ◌≤◌, IfOk};
ghost use Rattle.orch_base.specs.Gives.{Gives};
ghost use Rattle.command_line.specs.Options.{rows_in};
ghost use Rattle.command_line.specs.Places.{bounded_in, counts_in, drawing_of, has_flag, instances_in, is_live, is_within_bound, places_in, texts_in};
ghost use Rattle.scenario_generator.specs.Bounds.{is_drawable};
ghost use Rattle.command_line.specs.Usages.{usage_fault};

use crate::command::{Own, command_in, dump_in, plan_in};
use crate::options::text_of;
use crate::usage::Usage;
use crate::value::{
    count_or, maybe_duration, maybe_name, maybe_pattern, maybe_rule, maybe_text, maybe_text_within,
    number_or,
};
use clap::ArgMatches;
use orch_base::{Name, OwnedText, Rule};
use std::alloc::Global;

/// The values of a command line's options. One that isn't given is None, or has its default.
#[derive(Drop)]
pub struct Places {
    /// `-c`: the command's name.
    pub command: OwnedText,
    /// `-i`: the instance.
    pub i: Option<Name>,
    /// `-d`: the destination.
    pub d: Option<Name>,
    /// `--scenario`: the path of the scenario's file. Without one it is read from standard input.
    pub scenario: Option<OwnedText>,
    /// `--db`: the path of the database file in which rows are kept. Without one they are kept in memory.
    pub db: Option<OwnedText>,
    /// `--promotion-rule`: prefer, neutral, prefer_not or must_not.
    pub rule: Option<Rule>,
    /// `--duration`: 1 to 31,536,000 seconds, given as digits and at most one letter of s, m, h, d and w.
    pub duration: Option<u64>,
    /// `--reason`: at most 255 bytes.
    pub reason: Option<OwnedText>,
    /// `--owner`: at most 255 bytes.
    pub owner: Option<OwnedText>,
    /// `--pattern`: a regular expression in the syntax of Rust's `regex`.
    pub pattern: Option<OwnedText>,
    /// `--pollers`: 1 to 16, and 2 by default.
    pub pollers: u32,
    /// `--workers`: 1 to 16, and 2 by default.
    pub workers: u32,
    /// `--wait`: 1 to 10,000 waits of a job, and 1,000 by default.
    pub wait: u32,
    /// `--seed`: 1 by default.
    pub seed: u64,
    /// `--servers`: 1 to 1,000, and 10 by default.
    pub servers: u32,
    /// `--turns`: 0 to 1,000,000, and 100 by default.
    pub turns: u32,
    /// `--tables`.
    pub tables: bool,
    /// `--summary`.
    pub summary: bool,
    /// `--plan`: the command is one that has a plan.
    pub plan: bool,
    /// `--dump`: there is a command, and neither its plan nor the tables are asked for.
    pub dump: bool,
}

/// A scenario that is to be drawn.
#[derive(Clone, Copy, Debug, PartialEq, Eq)]
pub struct Drawing {
    pub seed: u64,
    /// 1 to 1,000.
    pub servers: u32,
    /// 0 to 1,000,000.
    pub turns: u32,
}

impl Places {
    /// The scenario that the command line asks to draw. If none, it asks for one that is read.
    pub fn drawing(&self) -> Option<Drawing>
        ensures { result ≡ drawing_of self.now }
    {
        match Own::read(self.command.as_str()) {
            Some(Own::Generate) => Some(Drawing {
                seed: self.seed,
                servers: self.servers,
                turns: self.turns,
            }),
            Some(Own::Run) | Some(Own::Dump) | Some(Own::Live) | None => None,
        }
    }

    /// Whether the command line asks to run the scenario in threads.
    pub fn is_live(&self) -> bool
        ensures { result ≡ is_live self.now }
    {
        match Own::read(self.command.as_str()) {
            Some(Own::Live) => true,
            Some(Own::Run) | Some(Own::Generate) | Some(Own::Dump) | None => false,
        }
    }
}

// The instances, and what is kept of one.
#[derive(Drop)]
struct Instances {
    i: Option<Name>,
    d: Option<Name>,
    rule: Option<Rule>,
    duration: Option<u64>,
}

#[derive(Drop)]
struct Texts {
    scenario: Option<OwnedText>,
    db: Option<OwnedText>,
    reason: Option<OwnedText>,
    owner: Option<OwnedText>,
    pattern: Option<OwnedText>,
}

#[derive(Clone, Copy)]
struct Counts {
    pollers: u32,
    workers: u32,
    wait: u32,
    seed: u64,
    servers: u32,
    turns: u32,
}

#[tactic(auto, unfolding(crate::specs::Places::instances_in))]
fn instances_in(alloc: Global, matches: &ArgMatches<'_>) -> Result<Instances, Usage>
    ensures { Gives (λ p. p) usage_fault result (instances_in (rows_in matches.now)) }
{
    let i = maybe_name(alloc, text_of(matches, "i"))?;
    let d = maybe_name(alloc, text_of(matches, "d"))?;
    let rule = maybe_rule(text_of(matches, "promotion-rule"))?;
    let duration = maybe_duration(text_of(matches, "duration"))?;
    Ok(Instances {
        i,
        d,
        rule,
        duration,
    })
}

#[tactic(auto, unfolding(crate::specs::Places::texts_in))]
fn texts_in(alloc: Global, matches: &ArgMatches<'_>) -> Result<Texts, Usage>
    ensures { Gives (λ p. p) usage_fault result (texts_in (rows_in matches.now)) }
{
    let scenario = maybe_text(alloc, text_of(matches, "scenario"))?;
    let db = maybe_text(alloc, text_of(matches, "db"))?;
    let reason = maybe_text_within(alloc, 255, text_of(matches, "reason"))?;
    let owner = maybe_text_within(alloc, 255, text_of(matches, "owner"))?;
    let pattern = maybe_pattern(alloc, text_of(matches, "pattern"))?;
    Ok(Texts {
        scenario,
        db,
        reason,
        owner,
        pattern,
    })
}

#[tactic(auto, unfolding(crate::specs::Places::counts_in))]
fn counts_in(matches: &ArgMatches<'_>) -> Result<Counts, Usage>
    ensures { Gives (λ p. p) usage_fault result (counts_in (rows_in matches.now)) }
{
    let pollers = count_or(2, 1, 16, text_of(matches, "pollers"))?;
    let workers = count_or(2, 1, 16, text_of(matches, "workers"))?;
    let wait = count_or(1_000, 1, 10_000, text_of(matches, "wait"))?;
    let seed = number_or(1, 0, u64::MAX, text_of(matches, "seed"))?;
    let servers = count_or(10, 1, 1_000, text_of(matches, "servers"))?;
    let turns = count_or(100, 0, 1_000_000, text_of(matches, "turns"))?;
    Ok(Counts {
        pollers,
        workers,
        wait,
        seed,
        servers,
        turns,
    })
}

// Whether so many servers and turns may be drawn.
fn is_drawable(servers: u32, turns: u32) -> bool
    ensures { result ≡ is_drawable servers turns }
{
    let roots = (u64::from(servers) + 9) / 10;
    u64::from(servers).saturating_mul(20 * roots + u64::from(turns)) <= 4_000_000
}

// Whether what is drawn by this word is within its bound.
fn is_within_bound(own: Option<Own>, counts: Counts) -> bool
    ensures { result ≡ is_within_bound own counts }
{
    match own {
        Some(Own::Generate) => is_drawable(counts.servers, counts.turns),
        Some(Own::Run) | Some(Own::Dump) | Some(Own::Live) | None => true,
    }
}

#[tactic(auto, unfolding(crate::specs::Places::bounded_in))]
fn bounded_in(command: &str, matches: &ArgMatches<'_>) -> Result<Counts, Usage>
    ensures { Gives (λ p. p) usage_fault result (bounded_in command.now (rows_in matches.now)) }
{
    let counts = counts_in(matches)?;
    if is_within_bound(Own::read(command), counts) {
        Ok(counts)
    } else {
        Err(Usage::BadWords)
    }
}

fn has_flag(matches: &ArgMatches<'_>, id: &str) -> bool
    ensures { result ≡ has_flag id.now (rows_in matches.now) }
{
    text_of(matches, id) == Some("true")
}

#[tactic(auto, unfolding(crate::specs::Places::places_in))]
pub(crate) fn places_in(alloc: Global, matches: &ArgMatches<'_>) -> Result<Places, Usage>
    ensures { Gives (λ p. p) usage_fault result (places_in (rows_in matches.now)) }
{
    let command = command_in(alloc, matches)?;
    let instances = instances_in(alloc, matches)?;
    let texts = texts_in(alloc, matches)?;
    let counts = bounded_in(command.as_str(), matches)?;
    let tables = has_flag(matches, "tables");
    let plan = plan_in(command.as_str(), has_flag(matches, "plan"))?;
    let dump = dump_in(command.as_str(), plan, tables, has_flag(matches, "dump"))?;
    Ok(Places {
        command,
        i: instances.i,
        d: instances.d,
        scenario: texts.scenario,
        db: texts.db,
        rule: instances.rule,
        duration: instances.duration,
        reason: texts.reason,
        owner: texts.owner,
        pattern: texts.pattern,
        pollers: counts.pollers,
        workers: counts.workers,
        wait: counts.wait,
        seed: counts.seed,
        servers: counts.servers,
        turns: counts.turns,
        tables,
        summary: has_flag(matches, "summary"),
        plan,
        dump,
    })
}
