//! Reading the text of a set.

ghost use Rattle.std.specs.Prelude.{◌≡◌, ◌+◌, ◌-◌, ◌^◌, ◌==◌, ◌<◌, ◌≤◌, ◌++◌, ◌∷◌, [], OnOk, IfOk, min, position, true, not, length, reverse, drop, option_map, if◌then◌else◌, nat_lt};
ghost use Rattle.std.specs.List.{All, before_first, position_or_len};
ghost use Rattle.std.specs.Int.{from_be_bytes, w128};
ghost use Rattle.uuid.specs.Text.{parsed_hyphenated};
ghost use Rattle.gtid_sets.specs.Sets.{IsInterval};
ghost use Rattle.gtid_sets.specs.Gives.{Gives};
ghost use Rattle.gtid_sets.specs.Grammar.{fault_of, is_blank, is_colon, is_comma, is_dash, pieces, leading, trailing, inner, number_at, interval_of, begin_of, end_of, interval_at, intervals_at, uuid_or, filled_at, part_at, parts_at, text_at, behind};

use crate::Memory;
use crate::fault::GtidFault;
use crate::interval::{Interval, LARGEST};
use std::alloc::Global;
use uuid::Uuid;

fn is_blank(b: u8) -> bool
    ensures { result ≡ is_blank b }
{
    matches!(b, b' ' | b'\t' | b'\n' | b'\r')
}

fn first_filled(text: &[u8]) -> Option<usize>
    ensures { result ≡ position (λ b. not (is_blank b)) text.now }
{
    text.iter().position(|b| !is_blank(*b))
}

fn last_filled(text: &[u8]) -> Option<usize>
    ensures { result ≡ position (λ b. not (is_blank b)) (reverse text.now) }
{
    text.iter().rev().position(|b| !is_blank(*b))
}

fn leading(text: &[u8]) -> usize
    ensures is { result ≡ leading text.now }
    ensures within { result ≤ length text.now }
{
    first_filled(text).unwrap_or(text.len())
}

fn trailing(text: &[u8]) -> usize
    ensures is { result ≡ trailing text.now }
    ensures within { result ≤ length text.now }
{
    last_filled(text).unwrap_or(text.len())
}

fn find_colon(text: &[u8]) -> Option<usize>
    ensures { result ≡ position is_colon text.now }
{
    text.iter().position(|b| *b == b':')
}

fn find_comma(text: &[u8]) -> Option<usize>
    ensures { result ≡ position is_comma text.now }
{
    text.iter().position(|b| *b == b',')
}

fn find_dash(text: &[u8]) -> Option<usize>
    ensures { result ≡ position is_dash text.now }
{
    text.iter().position(|b| *b == b'-')
}

fn first_colon(text: &[u8]) -> usize
    ensures is { result ≡ position_or_len is_colon text.now }
    ensures within { result ≤ length text.now }
{
    find_colon(text).unwrap_or(text.len())
}

fn first_comma(text: &[u8]) -> usize
    ensures is { result ≡ position_or_len is_comma text.now }
    ensures within { result ≤ length text.now }
{
    find_comma(text).unwrap_or(text.len())
}

fn first_dash(text: &[u8]) -> usize
    ensures is { result ≡ position_or_len is_dash text.now }
    ensures within { result ≤ length text.now }
{
    find_dash(text).unwrap_or(text.len())
}

// The number that these digits write, or the largest of 64 bits if that is smaller.
fn number(digits: &[u8]) -> Option<u64>
    ensures { result ≡ option_map (λ n. min n (2 ^ 64 - 1)) (number_at digits.now) }
{
    if digits.is_empty() {
        return None;
    }
    let mut value: u64 = 0;
    'digits: for b in digits {
        if !b.is_ascii_digit() {
            return None;
        }
        value = value
            .saturating_mul(10)
            .saturating_add(u64::from(*b - b'0'));
    }
    Some(value)
}

fn interval_of(uuid: u128, offset: usize, first: u64, last: u64) -> Result<Interval, GtidFault>
    ensures is { result ≡ interval_of uuid offset first last }
    ensures each { IfOk result IsInterval }
{
    if first == 0 || last == 0 {
        Err(GtidFault::Zero(offset))
    } else if first > LARGEST || last > LARGEST {
        Err(GtidFault::TooLarge(offset))
    } else if last < first {
        Err(GtidFault::BadInterval(offset))
    } else {
        Ok(Interval { uuid, first, last })
    }
}

// What is before the first dash and after it, or all of the text twice.
fn ends(text: &[u8]) -> (&[u8], &[u8])
    ensures begin { result.0.now ≡ begin_of text.now }
    ensures end { result.1.now ≡ end_of text.now }
{
    let dash = first_dash(text);
    if dash < text.len() {
        (&text[..dash], &text[dash + 1..])
    } else {
        (text, text)
    }
}

fn read_interval(uuid: u128, offset: usize, text: &[u8]) -> Result<Interval, GtidFault>
    ensures is { result ≡ interval_at uuid offset text.now }
    ensures each { IfOk result IsInterval }
{
    let (begin, end) = ends(text);
    match number(begin) {
        None => Err(GtidFault::BadInterval(offset)),
        Some(first) => match number(end) {
            None => Err(GtidFault::BadInterval(offset)),
            Some(last) => interval_of(uuid, offset, first, last),
        },
    }
}

fn read_uuid(offset: usize, text: &[u8]) -> Result<u128, GtidFault>
    ensures { result ≡ uuid_or offset (parsed_hyphenated text.now) }
{
    if text.len() != 36 {
        return Err(GtidFault::BadUuid(offset));
    }
    match Uuid::try_parse_ascii(text) {
        Ok(uuid) => Ok(uuid.as_u128()),
        Err(_) => Err(GtidFault::BadUuid(offset)),
    }
}

fn keep(found: &mut Vec<Interval>, interval: Interval) -> Result<(), Memory>
    requires one { IsInterval interval }
    requires each { All IsInterval found.old.items }
    ensures items { OnOk result (found.new.items ≡ found.old.items ++ interval ∷ []) }
    ensures each { OnOk result (All IsInterval found.new.items) }
{
    found.push(interval)?;
    Ok(())
}

// The text from a offset on.
fn rest_of(text: &[u8], from: usize) -> &[u8]
    requires { from ≤ length text.now }
    ensures is { result.now ≡ drop from text.now }
    ensures len { length result.now + from ≡ length text.now }
{
    &text[from..]
}

// The intervals of a text, which colons divide, after those that are found.
fn read_intervals(
    found: &mut Vec<Interval>,
    uuid: u128,
    offset: usize,
    text: &[u8],
) -> Result<(), GtidFault>
    requires fits { offset + length text.now < 2 ^ 64 }
    requires each { All IsInterval found.old.items }
    ensures is { Gives (λ _. found.new.items) fault_of result
        (behind found.old.items (intervals_at uuid offset (pieces is_colon text.now))) }
    ensures each { OnOk result (All IsInterval found.new.items) }
{
    let mut from = 0;
    'intervals: loop {
        let rest = rest_of(text, from);
        let len = first_colon(rest);
        match read_interval(uuid, offset + from, &rest[..len]) {
            Ok(interval) => keep(found, interval)?,
            Err(fault) => return Err(fault),
        }
        if len == rest.len() {
            return Ok(());
        }
        from += len + 1;
    }
}

// The text without the blanks at its ends.
fn inner(text: &[u8]) -> &[u8]
    ensures is { result.now ≡ inner text.now }
    ensures within { length result.now + leading text.now ≤ length text.now }
{
    let rest = &text[leading(text)..];
    &rest[..rest.len() - trailing(rest)]
}

// A UUID and its intervals, after those that are found.
fn read_filled(found: &mut Vec<Interval>, offset: usize, text: &[u8]) -> Result<(), GtidFault>
    requires fits { offset + length text.now < 2 ^ 64 }
    requires each { All IsInterval found.old.items }
    ensures is { Gives (λ _. found.new.items) fault_of result
        (behind found.old.items (filled_at offset text.now)) }
    ensures each { OnOk result (All IsInterval found.new.items) }
{
    let colon = first_colon(text);
    match read_uuid(offset, &text[..colon]) {
        Err(fault) => Err(fault),
        Ok(uuid) => {
            if colon == text.len() {
                return Err(GtidFault::BadInterval(offset + colon));
            }
            let rest = rest_of(text, colon + 1);
            read_intervals(found, uuid, offset + colon + 1, rest)
        }
    }
}

// Reads what is between two commas, and appends it to what is found.
fn read_part(found: &mut Vec<Interval>, offset: usize, text: &[u8]) -> Result<(), GtidFault>
    requires fits { offset + length text.now < 2 ^ 64 }
    requires each { All IsInterval found.old.items }
    ensures is { Gives (λ _. found.new.items) fault_of result
        (behind found.old.items (part_at offset text.now)) }
    ensures each { OnOk result (All IsInterval found.new.items) }
{
    let blanks = leading(text);
    if blanks >= text.len() {
        return Err(GtidFault::BadUuid(offset + text.len()));
    }
    read_filled(found, offset + blanks, inner(text))
}

fn read_parts(found: &mut Vec<Interval>, text: &[u8]) -> Result<(), GtidFault>
    requires { All IsInterval found.old.items }
    ensures is { Gives (λ _. found.new.items) fault_of result
        (behind found.old.items (parts_at 0 (pieces is_comma text.now))) }
    ensures each { OnOk result (All IsInterval found.new.items) }
{
    let mut from = 0;
    'parts: loop {
        let rest = rest_of(text, from);
        let len = first_comma(rest);
        match read_part(found, from, &rest[..len]) {
            Ok(()) => {}
            Err(fault) => return Err(fault),
        }
        if len == rest.len() {
            return Ok(());
        }
        from += len + 1;
    }
}

/// The intervals of a text, in its order, or its first fault.
pub fn read_text(alloc: Global, text: &[u8]) -> Result<Vec<Interval>, GtidFault>
    ensures is { Gives (λ v. v.items) fault_of result (text_at text.now) }
    ensures each { IfOk result (λ v. All IsInterval v.items) }
{
    let mut found = Vec::new(alloc);
    if leading(text) >= text.len() {
        return Ok(found);
    }
    match read_parts(&mut found, text) {
        Ok(()) => Ok(found),
        Err(fault) => Err(fault),
    }
}
