//! Coordinates as text.

ghost use Rattle.std.specs.Prelude.{◌≡◌, ◌+◌, ◌<◌, ◌++◌, List, ℕ, Ok, true, false, codes, drop, length, MatchOption, option_map, OnOk, OnErr, vec_len, vec_capacity};
ghost use Rattle.std.specs.List.{list_all, list_any, before_last, after_last};
ghost use Rattle.std.specs.Char.{is_ascii_digit};
ghost use Rattle.binlog_coords.specs.declared.Coord.{Coord};
ghost use Rattle.binlog_coords.specs.Text.{coord_text};
ghost use Rattle.binlog_coords.specs.Grammar.{begins_above_zero, is_plain, is_extension, extension_of, number_at, file_at, pos_at, coord_at, HasText};
ghost use Rattle.orch_base.specs.Names.{is_colon};

use crate::Coord;
use itoa::Buffer;
use std::alloc::AllocError as Memory;
use std::fmt;

/// The position of a file's first event, after the four magic bytes.
const FIRST_POSITION: u64 = 4;

/// What is wrong with a text that is no coordinate: the first fault in this order.
#[derive(Clone, Copy, Debug, PartialEq, Eq)]
pub enum CoordFault {
    /// No `:`.
    NoColon,
    /// Before the last `:` no `mysql-bin.` and number of a file: exactly six digits, or more without a
    /// leading zero, 1 to 4294967295.
    BadFile,
    /// After the last `:` no decimal without a leading zero, 4 to 2^64 - 1.
    BadPos,
}

impl fmt::Display for CoordFault {
    fn fmt<W: fmt::Write>(&self, f: &mut fmt::Formatter<W>) -> fmt::Result {
        match self {
            CoordFault::NoColon => write!(f, "no colon"),
            CoordFault::BadFile => write!(f, "no file of a binary log"),
            CoordFault::BadPos => write!(f, "no position of 4 or more"),
        }
    }
}

// The zeros that a number lacks to have six digits.
fn missing_zeros(digits: &[u8]) -> &'static [u8]
    ensures { result.now ≡ drop (length digits.now) (codes "000000") }
{
    let zeros: &'static [u8] = b"000000";
    if digits.len() < zeros.len() {
        &zeros[digits.len()..]
    } else {
        &[]
    }
}

/// Appends `mysql-bin.`, the file in at least six digits, `:` and the position, in decimal (MySQL 8.0 Reference Manual,
/// "The Binary Log"). If memory runs out, `out` stays as it was. With room for the text the call succeeds.
pub fn print_coord(c: Coord, out: &mut Vec<u8>) -> Result<(), Memory>
    ensures ok { OnOk result (out.new.items ≡ out.old.items ++ coord_text c) }
    ensures err { OnErr result (out.new.items ≡ out.old.items) }
    ensures full { OnErr result (vec_capacity out.old < vec_len out.old + length (coord_text c)) }
{
    let mut file_buffer = Buffer::new();
    let mut pos_buffer = Buffer::new();
    let file = file_buffer.format(c.file).as_bytes();
    let pos = pos_buffer.format(c.pos).as_bytes();
    let zeros = missing_zeros(file);
    let prefix: &[u8] = b"mysql-bin.";

    out.reserve(prefix.len() + zeros.len() + file.len() + 1 + pos.len())?;
    out.extend_from_slice(prefix)?;
    out.extend_from_slice(zeros)?;
    out.extend_from_slice(file)?;
    out.extend_from_slice(b":")?;
    out.extend_from_slice(pos)
}

// What is before the last colon and what after it, if there is one.
fn halves(text: &str) -> Option<(&str, &str)>
    ensures { MatchOption result (list_any is_colon text.now ≡ false) (λ p.
        (list_any is_colon text.now ≡ true)
        × (p.0.now ≡ before_last is_colon text.now)
        × (p.1.now ≡ after_last is_colon text.now)) }
{
    text.rsplit_once(':')
}

fn are_digits(text: &[u8]) -> bool
    ensures { result ≡ list_all is_ascii_digit text.now }
{
    text.iter().all(|b| b.is_ascii_digit())
}

fn begins_above_zero(digits: &[u8]) -> bool
    ensures { result ≡ begins_above_zero digits.now }
{
    !digits.is_empty() && digits[0] >= b'1'
}

fn is_plain(digits: &[u8]) -> bool
    ensures { result ≡ is_plain digits.now }
{
    begins_above_zero(digits) && are_digits(digits)
}

fn is_extension(digits: &[u8]) -> bool
    ensures { result ≡ is_extension digits.now }
{
    are_digits(digits) && (digits.len() == 6 || (digits.len() > 6 && begins_above_zero(digits)))
}

// What is after `mysql-bin.` in a file's name.
fn extension(name: &str) -> Option<&str>
    ensures { option_map (λ s. s.now) result ≡ extension_of name.now }
{
    name.strip_prefix("mysql-bin.")
}

fn read_number(digits: &str) -> Option<u32>
    ensures { result ≡ number_at digits.now }
{
    if !is_extension(digits.as_bytes()) {
        return None;
    }
    let file = digits.parse::<u32>().ok()?;
    (file >= 1).then_some(file)
}

fn read_file(name: &str) -> Option<u32>
    ensures { result ≡ file_at name.now }
{
    read_number(extension(name)?)
}

fn read_pos(digits: &str) -> Option<u64>
    ensures { result ≡ pos_at digits.now }
{
    if !is_plain(digits.as_bytes()) {
        return None;
    }
    let pos = digits.parse::<u64>().ok()?;
    (pos >= FIRST_POSITION).then_some(pos)
}

/// Reads a coordinate: `mysql-bin.` and the number of a file, `:`, and the position in it (MySQL 8.0
/// Reference Manual, "The Binary Log"). The last `:` divides the text. It takes no memory.
pub fn read_coord(text: &str) -> Result<Coord, CoordFault>
    ensures { result ≡ coord_at text.now }
{
    let Some((name, digits)) = halves(text) else {
        return Err(CoordFault::NoColon);
    };
    let Some(file) = read_file(name) else {
        return Err(CoordFault::BadFile);
    };
    let Some(pos) = read_pos(digits) else {
        return Err(CoordFault::BadPos);
    };
    Ok(Coord { file, pos })
}

/// What is printed reads as the same coordinate, and no other text reads as one: each coordinate has
/// exactly one text.
pub fn printed_reads()
    ensures printed { (c : Coord) → HasText c → coord_at (coord_text c) ≡ Ok c }
    ensures only { (text : List ℕ) (c : Coord) →
        coord_at text ≡ Ok c → (text ≡ coord_text c) × HasText c }
{}
