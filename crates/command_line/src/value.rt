//! What the texts of the options are read as.

ghost use Rattle.std.specs.Prelude.{◌≡◌, ◌≤◌, IfOk, option_map};
ghost use Rattle.orch_base.specs.Gives.{Gives};
ghost use Rattle.command_line.specs.Usages.{usage_fault};
ghost use Rattle.command_line.specs.Values.{duration_in, maybe, name_in, number_in, or_default, pattern_in, rule_in, text_in, text_within};

use crate::usage::Usage;
use cluster_filters::{FilterFault, Pattern};
use commands::{number_within, rule_at, seconds_at};
use orch_base::{Name, NameFault, OwnedText, Rule};
use std::alloc::Global;

fn name_in(alloc: Global, text: &str) -> Result<Name, Usage>
    ensures { Gives (λ n. n) usage_fault result (name_in text.now) }
{
    match Name::read(alloc, text) {
        Ok(name) => Ok(name),
        Err(NameFault::Memory) => Err(Usage::Memory),
        Err(_) => Err(Usage::BadWords),
    }
}

/// A server's name, if one is given.
pub(crate) fn maybe_name(alloc: Global, text: Option<&str>) -> Result<Option<Name>, Usage>
    ensures { Gives (λ n. n) usage_fault result
        (maybe name_in (option_map (λ s. s.now) text.entry)) }
{
    match text {
        None => Ok(None),
        Some(text) => Ok(Some(name_in(alloc, text)?)),
    }
}

fn rule_in(text: &str) -> Result<Rule, Usage>
    ensures { Gives (λ r. r) usage_fault result (rule_in text.now) }
{
    match rule_at(text) {
        Some(rule) => Ok(rule),
        None => Err(Usage::BadWords),
    }
}

/// A rule of promotion, if one is given.
pub(crate) fn maybe_rule(text: Option<&str>) -> Result<Option<Rule>, Usage>
    ensures { Gives (λ r. r) usage_fault result
        (maybe rule_in (option_map (λ s. s.now) text.entry)) }
{
    match text {
        None => Ok(None),
        Some(text) => Ok(Some(rule_in(text)?)),
    }
}

/// A text, if one is given.
pub(crate) fn maybe_text(alloc: Global, text: Option<&str>) -> Result<Option<OwnedText>, Usage>
    ensures { Gives (λ l. l) usage_fault result
        (maybe text_in (option_map (λ s. s.now) text.entry)) }
{
    match text {
        None => Ok(None),
        Some(text) => Ok(Some(OwnedText::new(String::from_str(alloc, text)?))),
    }
}

/// A text of at most `most` bytes, if one is given.
pub(crate) fn maybe_text_within(
    alloc: Global,
    most: usize,
    text: Option<&str>,
) -> Result<Option<OwnedText>, Usage>
    ensures { Gives (λ l. l) usage_fault result
        (maybe (text_within most) (option_map (λ s. s.now) text.entry)) }
{
    match text {
        None => Ok(None),
        Some(text) if text.len() <= most => Ok(Some(OwnedText::new(String::from_str(
            alloc, text,
        )?))),
        Some(_) => Err(Usage::BadWords),
    }
}

fn pattern_in(alloc: Global, text: &str) -> Result<OwnedText, Usage>
    ensures { Gives (λ l. l) usage_fault result (pattern_in text.now) }
{
    match Pattern::read(alloc, text) {
        Ok(_) => Ok(OwnedText::new(String::from_str(alloc, text)?)),
        Err(FilterFault::BadPattern(_)) => Err(Usage::BadWords),
        Err(FilterFault::Memory) => Err(Usage::Memory),
    }
}

/// A regular expression as its text, if one is given.
pub(crate) fn maybe_pattern(alloc: Global, text: Option<&str>) -> Result<Option<OwnedText>, Usage>
    ensures { Gives (λ l. l) usage_fault result
        (maybe pattern_in (option_map (λ s. s.now) text.entry)) }
{
    match text {
        None => Ok(None),
        Some(text) => Ok(Some(pattern_in(alloc, text)?)),
    }
}

fn number_in(low: u64, high: u64, text: &str) -> Result<u64, Usage>
    ensures value { Gives (λ n. n) usage_fault result (number_in low high text.now) }
    ensures range { IfOk result (λ n. (low ≤ n) × (n ≤ high)) }
{
    match number_within(low, high, text) {
        Some(number) => Ok(number),
        None => Err(Usage::BadWords),
    }
}

/// A number from `low` to `high`, or its default if none is given.
pub(crate) fn number_or(default: u64, low: u64, high: u64, text: Option<&str>) -> Result<u64, Usage>
    ensures { Gives (λ n. n) usage_fault result
        (or_default default (number_in low high) (option_map (λ s. s.now) text.entry)) }
{
    match text {
        None => Ok(default),
        Some(text) => number_in(low, high, text),
    }
}

/// The same, for a smaller range.
pub(crate) fn count_or(default: u32, low: u32, high: u32, text: Option<&str>) -> Result<u32, Usage>
    ensures { Gives (λ n. n) usage_fault result
        (or_default default (number_in low high) (option_map (λ s. s.now) text.entry)) }
{
    match text {
        None => Ok(default),
        Some(text) => {
            let number = number_in(low as u64, high as u64, text)?;
            Ok(number as u32)
        }
    }
}

fn duration_in(text: &str) -> Result<u64, Usage>
    ensures { Gives (λ n. n) usage_fault result (duration_in text.now) }
{
    match seconds_at(text) {
        Some(seconds) => Ok(seconds),
        None => Err(Usage::BadWords),
    }
}

/// A duration in seconds, if one is given: a number, and at most one letter of s, m, h, d and w; at most 365 days.
pub(crate) fn maybe_duration(text: Option<&str>) -> Result<Option<u64>, Usage>
    ensures { Gives (λ n. n) usage_fault result
        (maybe duration_in (option_map (λ s. s.now) text.entry)) }
{
    match text {
        None => Ok(None),
        Some(text) => Ok(Some(duration_in(text)?)),
    }
}
