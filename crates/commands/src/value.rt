//! Rules of promotion, numbers and durations.

ghost use Rattle.std.specs.Prelude.{◌≡◌, ◌≤◌, ◌<◌, IfSome, option_map};
ghost use Rattle.std.specs.Char.{is_ascii_digit};
ghost use Rattle.std.specs.List.{list_all};
ghost use Rattle.commands.specs.Values.{before, number_and_unit, number_at, number_within, rule_at, seconds_at, within};

use crate::orch_base::Rule;

/// The rule of promotion of a word: `prefer`, `neutral`, `prefer_not` or `must_not`. None for any other text.
#[tactic(auto, unfolding(crate::specs::Values::rule_at))]
pub fn rule_at(text: &str) -> Option<Rule>
    ensures { result ≡ rule_at text.now }
{
    match text {
        "prefer" => Some(Rule::Prefer),
        "neutral" => Some(Rule::Neutral),
        "prefer_not" => Some(Rule::PreferNot),
        "must_not" => Some(Rule::MustNot),
        _ => None,
    }
}

fn are_digits(text: &[u8]) -> bool
    ensures { result ≡ list_all is_ascii_digit text.now }
{
    text.iter().all(|b| b.is_ascii_digit())
}

fn number_at(digits: &str) -> Option<u64>
    ensures { result ≡ number_at digits.now }
{
    if are_digits(digits.as_bytes()) {
        digits.parse::<u64>().ok()
    } else {
        None
    }
}

fn within(low: u64, high: u64, number: Option<u64>) -> Option<u64>
    ensures value { result ≡ within low high number }
    ensures range { IfSome result (λ n. (low ≤ n) × (n ≤ high)) }
{
    match number {
        Some(number) if low <= number && number <= high => Some(number),
        Some(_) | None => None,
    }
}

/// The number of a text of decimal digits, from `low` to `high`. Zeros may lead. None for any other text.
pub fn number_within(low: u64, high: u64, text: &str) -> Option<u64>
    ensures value { result ≡ number_within low high text.now }
    ensures range { IfSome result (λ n. (low ≤ n) × (n ≤ high)) }
{
    within(low, high, number_at(text))
}

// What is before the letter, if the text ends with it.
fn before(letter: char, text: &str) -> Option<&str>
    requires { letter < 128 }
    ensures { option_map (λ s. s.now) result ≡ before letter text.now }
{
    text.strip_suffix(letter)
}

// The text of the number, and the seconds of its unit.
fn number_and_unit(text: &str) -> (&str, u64)
    ensures number { result.0.now ≡ (number_and_unit text.now).0 }
    ensures unit { result.1 ≡ (number_and_unit text.now).1 }
{
    if let Some(number) = before('s', text) {
        (number, 1)
    } else if let Some(number) = before('m', text) {
        (number, 60)
    } else if let Some(number) = before('h', text) {
        (number, 3_600)
    } else if let Some(number) = before('d', text) {
        (number, 86_400)
    } else if let Some(number) = before('w', text) {
        (number, 604_800)
    } else {
        (text, 1)
    }
}

/// The seconds of a duration, from 1 to 31,536,000. The text is decimal digits, zeros may lead, and at most one letter
/// for the unit: s, m, h, d or w. Without a letter they are seconds. `None` for any other text.
pub fn seconds_at(text: &str) -> Option<u64>
    ensures value { result ≡ seconds_at text.now }
    ensures range { IfSome result (λ n. (1 ≤ n) × (n ≤ 31536000)) }
{
    let (number, unit) = number_and_unit(text);
    let seconds = number_at(number).and_then(|n| n.checked_mul(unit));
    within(1, 31_536_000, seconds)
}
