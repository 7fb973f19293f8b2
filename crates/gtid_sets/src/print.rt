//! Printing a set.

ghost use Rattle.std.specs.Prelude.{◌≡◌, ◌++◌, ◌∷◌, ◌≤◌, List, Ok, length, IfOk, OnOk, decimal};
ghost use Rattle.uuid.specs.Text.{hyphenated_text, lower};
ghost use Rattle.gtid_sets.specs.Grammar.{text_at};
ghost use Rattle.gtid_sets.specs.Printed.{uuid_text, range_text, head_text, printed};
ghost use Rattle.gtid_sets.specs.Sets.{IsSet};

use crate::Memory;
use crate::interval::Interval;
use itoa::Buffer;
use std::alloc::Global;
use uuid::Uuid;
use uuid::fmt::Hyphenated;

// The 36 bytes of a UUID, in lower case.
fn digits(uuid: Hyphenated, buffer: &mut [u8]) -> &str
    requires { 36 ≤ length buffer.old }
    ensures { result.now ≡ hyphenated_text lower uuid }
{
    uuid.encode_lower(buffer)
}

fn append_uuid(text: &mut Vec<u8>, uuid: u128) -> Result<(), Memory>
    ensures { OnOk result (text.new.items ≡ text.old.items ++ uuid_text uuid) }
{
    let mut buffer = Uuid::encode_buffer();
    let uuid = Uuid::from_u128(uuid).hyphenated();
    let digits = digits(uuid, &mut buffer);
    text.extend_from_slice(digits.as_bytes())?;
    Ok(())
}

fn append_head(text: &mut Vec<u8>, before: Option<u128>, uuid: u128) -> Result<(), Memory>
    ensures { OnOk result (text.new.items ≡ text.old.items ++ head_text before uuid) }
{
    match before {
        None => append_uuid(text, uuid),
        Some(before) => {
            if uuid != before {
                text.push(b',')?;
                append_uuid(text, uuid)?;
            }
            Ok(())
        }
    }
}

fn append_number(text: &mut Vec<u8>, number: u64) -> Result<(), Memory>
    ensures { OnOk result (text.new.items ≡ text.old.items ++ decimal number) }
{
    let mut buffer = Buffer::new();
    text.extend_from_slice(buffer.format(number).as_bytes())
}

fn append_range(text: &mut Vec<u8>, interval: &Interval) -> Result<(), Memory>
    ensures { OnOk result (text.new.items ≡ text.old.items ++ 58 ∷ range_text interval.now) }
{
    text.push(b':')?;
    append_number(text, interval.first)?;
    if interval.first != interval.last {
        text.push(b'-')?;
        append_number(text, interval.last)?;
    }
    Ok(())
}

/// The canonical text of these intervals. `Err` means out of memory.
pub fn text_of(alloc: Global, intervals: &[Interval]) -> Result<Vec<u8>, Memory>
    ensures { IfOk result (λ text. text.items ≡ printed intervals.now) }
{
    let mut text = Vec::new(alloc);
    let mut before = None;
    'intervals: for interval in intervals {
        append_head(&mut text, before, interval.uuid)?;
        append_range(&mut text, interval)?;
        before = Some(interval.uuid);
    }
    Ok(text)
}

/// What is printed reads as the same set.
pub fn printed_reads()
    ensures { (xs : List Interval) → IsSet xs → text_at (printed xs) ≡ Ok xs }
{}
