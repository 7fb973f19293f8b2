//! The names with which turns begin.

ghost use Rattle.std.specs.Prelude.{◌≡◌};
ghost use Rattle.scenario_turns.specs.Prelude.{Gives, fault_of};
ghost use Rattle.scenario_turns.specs.Words.{is_word, word_named, parts_after, stands, word_at};

use scenario_values::{FaultCode, ReadFault, fails};
use std::alloc::Global;

/// What a turn does.
#[derive(Clone, Copy, Debug, PartialEq, Eq)]
pub enum Word {
    Write,
    Fetch,
    Apply,
    Fail,
    Heal,
    Cut,
    Join,
    Rotate,
    Purge,
    Tick,
    PollRead,
    PollStore,
    Polls,
    Round,
    Command,
    Job,
    Scan,
    Restart,
    Claim,
    Release,
    As,
}

pub(crate) fn is_word(word: &str, text: &str) -> bool
    ensures { result ≡ is_word word.now text.now }
{
    word == text
}

#[tactic(auto, unfolding(crate::specs::Words::word_named))]
fn word_named(text: &str) -> Option<Word>
    ensures { result ≡ word_named text.now }
{
    match text {
        "write" => Some(Word::Write),
        "fetch" => Some(Word::Fetch),
        "apply" => Some(Word::Apply),
        "fail" => Some(Word::Fail),
        "heal" => Some(Word::Heal),
        "cut" => Some(Word::Cut),
        "join" => Some(Word::Join),
        "rotate" => Some(Word::Rotate),
        "purge" => Some(Word::Purge),
        "tick" => Some(Word::Tick),
        "poll-read" => Some(Word::PollRead),
        "poll-store" => Some(Word::PollStore),
        "polls" => Some(Word::Polls),
        "round" => Some(Word::Round),
        "command" => Some(Word::Command),
        "job" => Some(Word::Job),
        "scan" => Some(Word::Scan),
        "restart" => Some(Word::Restart),
        "claim" => Some(Word::Claim),
        "release" => Some(Word::Release),
        "as" => Some(Word::As),
        _ => None,
    }
}

/// The word of a turn. Any other text is `BadTurn`.
pub(crate) fn word_at(alloc: Global, text: &str) -> Result<Word, ReadFault>
    ensures { Gives (λ w. w) fault_of result (word_at text.now) }
{
    match word_named(text) {
        Some(word) => Ok(word),
        None => Err(fails(alloc, FaultCode::BadTurn)),
    }
}

/// How many parts follow the word.
pub(crate) fn parts_after(word: Word) -> usize
    ensures { result ≡ parts_after word }
{
    match word {
        Word::Polls | Word::Round | Word::Scan | Word::Restart => 0,
        Word::Fetch
        | Word::Apply
        | Word::Fail
        | Word::Heal
        | Word::Rotate
        | Word::Tick
        | Word::PollStore
        | Word::Job
        | Word::Claim
        | Word::Release => 1,
        Word::Write
        | Word::Purge
        | Word::Cut
        | Word::Join
        | Word::PollRead
        | Word::Command
        | Word::As => 2,
    }
}

/// Whether a turn with this name may be alone among the turns of so many orchestrators.
pub(crate) fn stands(nodes: u32, word: Word) -> bool
    ensures { result ≡ stands nodes word }
{
    match word {
        Word::Write
        | Word::Fetch
        | Word::Apply
        | Word::Fail
        | Word::Heal
        | Word::Rotate
        | Word::Purge
        | Word::Cut
        | Word::Join
        | Word::Tick => true,
        Word::PollRead
        | Word::PollStore
        | Word::Polls
        | Word::Round
        | Word::Command
        | Word::Job
        | Word::Scan
        | Word::Restart => nodes == 1,
        Word::Claim | Word::Release | Word::As => nodes > 1,
    }
}
