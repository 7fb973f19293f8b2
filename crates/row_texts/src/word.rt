//! Names, and what is printed as a text.

ghost use Rattle.std.specs.Prelude.{◌≡◌, ◌||◌, IfOk, codes, find, nat_le, option_copied, option_map, slice_index};
ghost use Rattle.row_texts.specs.Prelude.{bytes_eq, cause_name_text, kind_text, rule_text};
ghost use Rattle.row_texts.specs.Words.{causes, id_printed, io_text, name_printed, named_among, outcome_of, rest_of, set_printed, source_text, word_of};

use crate::gtid_sets::{GtidFault, GtidSet};
use crate::orch_base::{CauseName, IoState, Kind, Memory, Name, NameFault, Rule};
use std::alloc::Global;

/// What one name means.
pub(crate) trait Word: Copy {
    ghost use Rattle.std.specs.Prelude.{ℕ, List};

    ghost word_of: { Self → List ℕ };

    /// Its word.
    fn word(self) -> &'static str
        ensures { result.now ≡ word_of self };
}

impl Word for Kind {
    ghost word_of = { kind_text };

    fn word(self) -> &'static str {
        Kind::word(self)
    }
}

impl Word for Rule {
    ghost word_of = { rule_text };

    fn word(self) -> &'static str {
        Rule::word(self)
    }
}

impl Word for IoState {
    ghost word_of = { io_text };

    fn word(self) -> &'static str {
        match self {
            IoState::Yes => "yes",
            IoState::Connecting => "connecting",
            IoState::No => "no",
        }
    }
}

impl Word for CauseName {
    ghost word_of = { cause_name_text };

    fn word(self) -> &'static str {
        CauseName::word(self)
    }
}

/// A server's state beside its source.
#[derive(Clone, Copy)]
pub enum SourceWord {
    Without,
    Attached,
    Detached,
}

impl Word for SourceWord {
    ghost word_of = { source_text };

    fn word(self) -> &'static str {
        match self {
            SourceWord::Without => "none",
            SourceWord::Attached => "attached",
            SourceWord::Detached => "detached",
        }
    }
}

/// The source of a server, by its name.
#[derive(Drop)]
pub enum Source {
    Without,
    Attached(Name),
    Detached(Name),
}

/// How a recovery ended, by the server's name.
#[derive(Drop)]
pub enum Outcome {
    Unended,
    Interrupted,
    Promoted(Name),
    Failed(CauseName),
}

pub(crate) fn is_same(this: &str, that: &str) -> bool
    ensures { result ≡ bytes_eq this.now that.now }
{
    this.as_bytes() == that.as_bytes()
}

fn first_named<'a, W: Word>(all: &'a [W], text: &str) -> Option<&'a W>
    ensures { option_copied result ≡ find (λ w. bytes_eq (W.word_of w) text.now) all.now }
{
    all.iter().find(|w| is_same(w.word(), text))
}

/// The first of these that has this word.
pub(crate) fn named_among<W: Word>(all: &[W], text: &str) -> Option<W>
    ensures { result ≡ named_among W.word_of all.now text.now }
{
    first_named(all, text).copied()
}

/// The name that is printed as this text.
#[tactic(auto, unfolding(crate::specs::Words::name_printed))]
pub(crate) fn name_printed(alloc: Global, text: &str) -> Result<Option<Name>, Memory>
    ensures { IfOk result (λ n. n ≡ name_printed text.now) }
{
    let name = match Name::read(alloc, text) {
        Ok(name) => name,
        Err(NameFault::Memory) => return Err(Memory),
        Err(_) => return Ok(None),
    };
    let mut printed = Vec::new(alloc);
    name.print(&mut printed)?;
    if printed.as_slice() == text.as_bytes() {
        Ok(Some(name))
    } else {
        Ok(None)
    }
}

/// The set that is printed as this text.
#[tactic(auto, using(crate::proofs::Sets::set_told, crate::proofs::Sets::set_not_told, crate::proofs::Sets::no_set))]
pub(crate) fn set_printed(alloc: Global, text: &str) -> Result<Option<GtidSet>, Memory>
    ensures { IfOk result (λ s. s ≡ set_printed text.now) }
{
    let set = match GtidSet::read(alloc, text) {
        Ok(set) => set,
        Err(GtidFault::Memory) => return Err(Memory),
        Err(_) => return Ok(None),
    };
    let mut printed = Vec::new(alloc);
    set.print(&mut printed)?;
    if printed.as_slice() == text.as_bytes() {
        Ok(Some(set))
    } else {
        Ok(None)
    }
}

fn begins_as_id(text: &str) -> bool
    ensures { result ≡ (nat_le 49 (slice_index text.now 0) || bytes_eq text.now (codes "0")) }
{
    let digits = text.as_bytes();
    (!digits.is_empty() && digits[0] >= b'1') || is_same(text, "0")
}

/// The id that is printed as this text.
#[tactic(auto, unfolding(crate::specs::Words::id_printed))]
pub(crate) fn id_printed(text: &str) -> Option<u64>
    ensures { result ≡ id_printed text.now }
{
    if !begins_as_id(text) {
        return None;
    }
    text.parse::<u64>().ok()
}

/// The text before the first space, and the text after it.
pub(crate) fn parts(text: &str) -> (&str, Option<&str>)
    ensures word { result.0.now ≡ word_of text.now }
    ensures rest { option_map (λ s. s.now) result.1 ≡ rest_of text.now }
{
    match text.split_once(' ') {
        Some((word, rest)) => (word, Some(rest)),
        None => (text, None),
    }
}

fn cause_named(text: &str) -> Option<CauseName>
    ensures { result ≡ named_among cause_name_text causes text.now }
{
    let causes = [
        CauseName::Unreachable,
        CauseName::WaitSpent,
        CauseName::Interfered,
        CauseName::Running,
        CauseName::Loop,
        CauseName::Errant,
        CauseName::Moved,
        CauseName::Reachable,
        CauseName::NoCandidate,
        CauseName::Purged,
        CauseName::HookFailed,
    ];
    named_among(&causes, text)
}

/// How a recovery ended, by its name and what is after the space.
pub(crate) fn outcome_of(
    alloc: Global,
    word: &str,
    rest: Option<&str>,
) -> Result<Option<Outcome>, Memory>
    ensures { IfOk result (λ o. o ≡ outcome_of word.now (option_map (λ s. s.now) rest.entry)) }
{
    let Some(rest) = rest else {
        if is_same(word, "unended") {
            return Ok(Some(Outcome::Unended));
        }
        if is_same(word, "interrupted") {
            return Ok(Some(Outcome::Interrupted));
        }
        return Ok(None);
    };
    if is_same(word, "promoted") {
        return match name_printed(alloc, rest)? {
            Some(name) => Ok(Some(Outcome::Promoted(name))),
            None => Ok(None),
        };
    }
    if is_same(word, "failed") {
        return match cause_named(rest) {
            Some(cause) => Ok(Some(Outcome::Failed(cause))),
            None => Ok(None),
        };
    }
    Ok(None)
}
