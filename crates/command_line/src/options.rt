//! The command line as `clap` knows it, and what it finds in the arguments.

ghost use Rattle.std.specs.Prelude.{◌≡◌, IfOk, map, option_map};
ghost use Rattle.clap.specs.Simple.{app_of, with_rule};
ghost use Rattle.clap.specs.Walk.{first_of};
ghost use Rattle.orch_base.specs.Gives.{Gives};
ghost use Rattle.command_line.specs.Options.{flag_rule, long_rule, orch, rows_in, rows_of_texts, texts_of, with_flags, with_letters, with_options};
ghost use Rattle.command_line.specs.Usages.{usage_fault};

use crate::Memory;
use crate::usage::Usage;
use clap::error::ErrorKind;
use clap::{Arg, ArgAction, ArgMatches, Command};
use std::alloc::Global;

const OPTIONS: [&str; 13] = [
    "scenario",
    "db",
    "promotion-rule",
    "duration",
    "reason",
    "owner",
    "pattern",
    "pollers",
    "workers",
    "wait",
    "seed",
    "servers",
    "turns",
];

fn with_letters<'a>(alloc: Global, command: Command<'a>) -> Result<Command<'a>, Memory>
    ensures { IfOk result (λ c. app_of c ≡ with_letters (app_of command.entry)) }
{
    command
        .arg(Arg::new(alloc, "c").short('c'))?
        .arg(Arg::new(alloc, "i").short('i'))?
        .arg(Arg::new(alloc, "d").short('d'))
}

fn with_option<'a>(
    alloc: Global,
    command: Command<'a>,
    name: &'a str,
) -> Result<Command<'a>, Memory>
    ensures { IfOk result (λ c. app_of c
        ≡ with_rule (app_of command.entry) (long_rule name.entry.now)) }
{
    command.arg(Arg::new(alloc, name).long(name))
}

#[tactic(auto, using(crate::proofs::Lists::item_then, crate::proofs::Lists::none_left))]
fn with_options<'a>(
    alloc: Global,
    mut command: Command<'a>,
    names: &[&'a str],
) -> Result<Command<'a>, Memory>
    ensures { IfOk result (λ c. app_of c
        ≡ with_options (app_of command.entry) (map (λ s. s.now) names.now)) }
{
    for name in names {
        command = with_option(alloc, command, name)?;
    }
    Ok(command)
}

fn with_flag<'a>(alloc: Global, command: Command<'a>, name: &'a str) -> Result<Command<'a>, Memory>
    ensures { IfOk result (λ c. app_of c
        ≡ with_rule (app_of command.entry) (flag_rule name.entry.now)) }
{
    let flag = Arg::new(alloc, name).long(name).action(ArgAction::SetTrue);
    command.arg(flag)
}

fn with_flags<'a>(alloc: Global, command: Command<'a>) -> Result<Command<'a>, Memory>
    ensures { IfOk result (λ c. app_of c ≡ with_flags (app_of command.entry)) }
{
    let command = with_flag(alloc, command, "tables")?;
    let command = with_flag(alloc, command, "summary")?;
    let command = with_flag(alloc, command, "plan")?;
    with_flag(alloc, command, "dump")
}

#[tactic(auto, unfolding(crate::specs::Options::orch))]
fn orch<'a>(alloc: Global) -> Result<Command<'a>, Memory>
    ensures { IfOk result (λ c. app_of c ≡ orch) }
{
    let command = with_letters(alloc, Command::new(alloc, "orch"))?;
    let command = with_options(alloc, command, &OPTIONS)?;
    with_flags(alloc, command)
}

/// The arguments as texts. Bytes that aren't UTF-8 are `BadWords`.
pub(crate) fn texts_of(alloc: Global, words: &[Vec<u8>]) -> Result<Vec<&str>, Usage>
    ensures { Gives (λ v. map (λ s. s.now) v.items) usage_fault result
        (texts_of (map (λ w. w.items) words.now)) }
{
    let mut texts = Vec::new(alloc);
    for word in words {
        match str::from_utf8(word) {
            Ok(text) => texts.push(text)?,
            Err(_) => return Err(Usage::BadWords),
        }
    }
    Ok(texts)
}

/// clap's matches; if it gives none, `BadWords`.
pub(crate) fn matches_of<'a>(alloc: Global, texts: &'a [&'a str]) -> Result<ArgMatches<'a>, Usage>
    ensures { Gives rows_in usage_fault result (rows_of_texts (map (λ s. s.now) texts.entry.now)) }
{
    let command = orch(alloc)?;
    match command.try_get_matches_from(texts) {
        Ok(matches) => Ok(matches),
        Err(error) => match error.kind() {
            ErrorKind::OutOfMemory => Err(Usage::Memory),
            _ => Err(Usage::BadWords),
        },
    }
}

/// The text of an option, if it is given.
pub(crate) fn text_of<'a>(matches: &ArgMatches<'a>, id: &str) -> Option<&'a str>
    ensures { option_map (λ s. s.now) result ≡ first_of id.now (rows_in matches.now) }
{
    matches.get_str(id)
}
