//! The parts of a scenario's text.

ghost use Rattle.std.specs.Prelude.{◌≡◌, ◌+◌, ◌++◌, decimal, OnOk};
ghost use Rattle.serde_json.specs.Written.{comma_if};
ghost use Rattle.scenario_generator.specs.Texts.{server_name};

use itoa::Buffer;
use orch_base::Memory;

/// A comma, if something is before.
pub(crate) fn print_comma(later: bool, out: &mut Vec<u8>) -> Result<(), Memory>
    ensures { OnOk result (out.new.items ≡ out.old.items ++ comma_if later) }
{
    if later {
        out.extend_from_slice(b",")
    } else {
        Ok(())
    }
}

/// A number in decimal.
pub(crate) fn print_number(number: u32, out: &mut Vec<u8>) -> Result<(), Memory>
    ensures { OnOk result (out.new.items ≡ out.old.items ++ decimal number) }
{
    let mut buffer = Buffer::new();
    out.extend_from_slice(buffer.format(number).as_bytes())
}

// The name of the server of this number, counted from 0.
#[tactic(auto, using(std::proofs::lemmas::List::drop_min), unfolding(crate::specs::Texts::server_name))]
fn print_name(no: u32, out: &mut Vec<u8>) -> Result<(), Memory>
    ensures { OnOk result (out.new.items ≡ out.old.items ++ server_name no) }
{
    let mut buffer = Buffer::new();
    let digits = buffer.format(u64::from(no) + 1).as_bytes();
    out.extend_from_slice(b"s")?;
    let zeros = b"0000".as_slice();
    out.extend_from_slice(&zeros[digits.len().min(zeros.len())..])?;
    out.extend_from_slice(digits)
}

/// A server's name between two texts.
pub(crate) fn print_between(
    before: &[u8],
    no: u32,
    after: &[u8],
    out: &mut Vec<u8>,
) -> Result<(), Memory>
    ensures { OnOk result (out.new.items
        ≡ out.old.items ++ (before.now ++ (server_name no ++ after.now))) }
{
    out.extend_from_slice(before)?;
    print_name(no, out)?;
    out.extend_from_slice(after)
}
