//! What `-c` names.

ghost use Rattle.std.specs.Prelude.{◌≡◌};
ghost use Rattle.orch_base.specs.Gives.{Gives};
ghost use Rattle.command_line.specs.Commands.{command_in, dump_in, has_needed, has_plan, is_plan_word, is_taken_word, may_dump, needs_at, own_at, plan_in};
ghost use Rattle.command_line.specs.Options.{rows_in};
ghost use Rattle.command_line.specs.Usages.{usage_fault};

use crate::options::text_of;
use crate::usage::Usage;
use clap::ArgMatches;
use commands::{CommandName, Needs, Route};
use orch_base::OwnedText;
use std::alloc::Global;

/// What the program itself does by a word of its own, which is none of the commands'.
#[derive(Clone, Copy, Debug, PartialEq, Eq)]
pub enum Own {
    /// `run`: the turns of a scenario.
    Run,
    /// `generate`: a scenario is drawn.
    Generate,
    /// `dump`: the servers of a scenario after its turns, as a scenario.
    Dump,
    /// `live`: a scenario is run in threads.
    Live,
}

impl Own {
    /// What the program itself does by this name. `None` for the commands' names, and for any other text.
    pub fn read(word: &str) -> Option<Own>
        ensures { result ≡ own_at word.now }
    {
        if word == "run" {
            Some(Own::Run)
        } else if word == "generate" {
            Some(Own::Generate)
        } else if word == "dump" {
            Some(Own::Dump)
        } else if word == "live" {
            Some(Own::Live)
        } else {
            None
        }
    }
}

/// Whether `-c` may have this text: a word of the program's own, or a command's. It takes no memory.
pub fn is_taken_word(word: &str) -> bool
    ensures { result ≡ is_taken_word word.now }
{
    Own::read(word).is_some() || CommandName::read(word).is_some()
}

// What the command of this name needs; the program's own need nothing.
#[tactic(auto, unfolding(crate::specs::Commands::needs_at))]
fn needs_at(word: &str) -> Needs
    ensures { result ≡ needs_at word.now }
{
    match CommandName::read(word) {
        Some(name) => name.needs(),
        None => Needs {
            i: false,
            d: false,
            rule: false,
            pattern: false,
        },
    }
}

// Whether each option that is needed is given.
fn has_needed(needs: Needs, matches: &ArgMatches<'_>) -> bool
    ensures { result ≡ has_needed needs (rows_in matches.now) }
{
    (text_of(matches, "i").is_some() || !needs.i)
        && (text_of(matches, "d").is_some() || !needs.d)
        && (text_of(matches, "promotion-rule").is_some() || !needs.rule)
        && (text_of(matches, "pattern").is_some() || !needs.pattern)
}

/// The text of `-c`. What is neither a word of the program's own nor a command's, and one without an option that it
/// needs, are `BadWords`.
#[tactic(auto, unfolding(crate::specs::Commands::command_in))]
pub(crate) fn command_in(alloc: Global, matches: &ArgMatches<'_>) -> Result<OwnedText, Usage>
    ensures { Gives (λ l. l) usage_fault result (command_in (rows_in matches.now)) }
{
    let Some(command) = text_of(matches, "c") else {
        return Err(Usage::BadWords);
    };
    if !is_taken_word(command) || !has_needed(needs_at(command), matches) {
        return Err(Usage::BadWords);
    }
    Ok(OwnedText::new(String::from_str(alloc, command)?))
}

// Whether it begins a job.
fn has_plan(route: Route) -> bool
    ensures { result ≡ has_plan route }
{
    match route {
        Route::Begins(_) | Route::Recovers | Route::TakesOver => true,
        Route::Discovers | Route::Forgets | Route::Asks(_) | Route::Decides(_) => false,
    }
}

// Whether the word is that of such a command.
fn is_plan_word(word: &str) -> bool
    ensures { result ≡ is_plan_word word.now }
{
    match CommandName::read(word) {
        Some(name) => has_plan(Route::of(name)),
        None => false,
    }
}

/// Whether a plan is asked for. For a command that has none it is `BadWords`.
pub(crate) fn plan_in(word: &str, asked: bool) -> Result<bool, Usage>
    ensures { Gives (λ b. b) usage_fault result (plan_in word.now asked) }
{
    if asked && !is_plan_word(word) {
        return Err(Usage::BadWords);
    }
    Ok(asked)
}

// Whether it is a command's word, and nothing else is asked for on out.
fn may_dump(word: &str, plan: bool, tables: bool) -> bool
    ensures { result ≡ may_dump word.now plan tables }
{
    Own::read(word).is_none() && !plan && !tables
}

/// Whether the servers after the command are asked for. For a word of the program's own, and beside a plan or the
/// tables, it is `BadWords`.
pub(crate) fn dump_in(word: &str, plan: bool, tables: bool, asked: bool) -> Result<bool, Usage>
    ensures { Gives (λ b. b) usage_fault result (dump_in word.now plan tables asked) }
{
    if asked && !may_dump(word, plan, tables) {
        return Err(Usage::BadWords);
    }
    Ok(asked)
}
