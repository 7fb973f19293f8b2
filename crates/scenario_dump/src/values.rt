//! Values as JSON, each after the bytes that are before it.

ghost use Rattle.std.specs.Prelude.{◌≡◌, ◌++◌, decimal, OnOk};
ghost use Rattle.scenario_dump.specs.Prelude.{comma_if, coord_text, printed, quoted, uuid_text, version_text};
ghost use Rattle.scenario_dump.specs.Parts.{flag_text};
ghost use Rattle.scenario_dump.specs.Servers.{opening_of};
ghost use Rattle.scenario_dump.specs.Texts.{name_text};

use crate::binlog_coords_items::{Coord, print_coord};
use crate::orch_base::{Memory, Name, ServerNo, Version};
use itoa::Buffer;
use json::Writer;
use server_model::World;
use std::alloc::Global;
use std::mem::replace;
use uuid::Uuid;

/// A comma, if something is before.
pub(crate) fn comma(later: bool) -> &'static [u8]
    ensures { result.now ≡ comma_if later }
{
    if later { b"," } else { b"" }
}

/// A number in decimal.
pub(crate) fn print_number(before: &[u8], number: u64, out: &mut Vec<u8>) -> Result<(), Memory>
    ensures { OnOk result (out.new.items ≡ out.old.items ++ (before.now ++ decimal number)) }
{
    let mut buffer = Buffer::new();
    out.extend_from_slice(before)?;
    out.extend_from_slice(buffer.format(number).as_bytes())
}

/// `true` or `false`.
pub(crate) fn print_flag(before: &[u8], on: bool, out: &mut Vec<u8>) -> Result<(), Memory>
    ensures { OnOk result (out.new.items ≡ out.old.items ++ (before.now ++ flag_text on)) }
{
    out.extend_from_slice(before)?;
    if on {
        out.extend_from_slice(b"true")
    } else {
        out.extend_from_slice(b"false")
    }
}

/// A text in quotes.
pub(crate) fn print_text(
    alloc: Global,
    before: &[u8],
    text: &str,
    out: &mut Vec<u8>,
) -> Result<(), Memory>
    ensures { OnOk result (out.new.items ≡ out.old.items ++ (before.now ++ quoted text.now)) }
{
    out.extend_from_slice(before)?;
    let mut writer = Writer::new(replace(out, Vec::new(alloc)));
    writer.string(text)?;
    *out = writer.into_inner();
    Ok(())
}

/// A coordinate in quotes.
pub(crate) fn print_place(before: &[u8], c: Coord, out: &mut Vec<u8>) -> Result<(), Memory>
    ensures { OnOk result (out.new.items ≡ out.old.items ++ (before.now ++ quoted (coord_text c))) }
{
    out.extend_from_slice(before)?;
    out.extend_from_slice(b"\"")?;
    print_coord(c, out)?;
    out.extend_from_slice(b"\"")
}

/// A server's name in quotes.
pub(crate) fn print_name(before: &[u8], name: &Name, out: &mut Vec<u8>) -> Result<(), Memory>
    ensures { OnOk result (out.new.items ≡ out.old.items
        ++ (before.now ++ quoted (printed name.now))) }
{
    out.extend_from_slice(before)?;
    out.extend_from_slice(b"\"")?;
    name.print(out)?;
    out.extend_from_slice(b"\"")
}

/// The name of the server of a number in quotes, without one if no server has it.
pub(crate) fn print_named(
    before: &[u8],
    world: &World,
    no: ServerNo,
    out: &mut Vec<u8>,
) -> Result<(), Memory>
    ensures { OnOk result (out.new.items
        ≡ out.old.items ++ (before.now ++ quoted (name_text (opening_of world.now).servers no.0))) }
{
    if no.0 < world.servers() {
        return print_name(before, &world.settings(no).name, out);
    }
    out.extend_from_slice(before)?;
    out.extend_from_slice(b"\"\"")
}

/// A UUID in quotes, in lower case.
pub(crate) fn print_uuid(before: &[u8], uuid: u128, out: &mut Vec<u8>) -> Result<(), Memory>
    ensures { OnOk result (out.new.items ≡ out.old.items
        ++ (before.now ++ quoted (uuid_text uuid))) }
{
    let mut buffer = Uuid::encode_buffer();
    let digits = Uuid::from_u128(uuid).hyphenated().encode_lower(&mut buffer);
    out.extend_from_slice(before)?;
    out.extend_from_slice(b"\"")?;
    out.extend_from_slice(digits.as_bytes())?;
    out.extend_from_slice(b"\"")
}

/// A version in quotes.
pub(crate) fn print_version(
    before: &[u8],
    version: Version,
    out: &mut Vec<u8>,
) -> Result<(), Memory>
    ensures { OnOk result (out.new.items ≡ out.old.items
        ++ (before.now ++ quoted (version_text version))) }
{
    out.extend_from_slice(before)?;
    print_number(b"\"", u64::from(version.major), out)?;
    print_number(b".", u64::from(version.minor), out)?;
    print_number(b".", u64::from(version.patch), out)?;
    out.extend_from_slice(b"\"")
}
