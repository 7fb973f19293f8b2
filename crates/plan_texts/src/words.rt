//! The texts of statements.

ghost use Rattle.std.specs.Prelude.{◌≡◌, ◌++◌, decimal, OnOk, Some};
ghost use Rattle.plan_texts.specs.Letters.{letter};
ghost use Rattle.plan_texts.specs.Statements.{address_words, aim_words, login_words, named_words, own_words, source_words, spot_words};

use crate::Memory;
use crate::letters::print_letter;
use crate::orch_base::{Name, ServerNo};
use itoa::Buffer;
use operations::Aim;

pub(crate) fn print_number(number: u128, out: &mut Vec<u8>) -> Result<(), Memory>
    ensures { OnOk result (out.new.items ≡ out.old.items ++ decimal number) }
{
    let mut buffer = Buffer::new();
    out.extend_from_slice(buffer.format(number).as_bytes())
}

/// A word, and the letter of a server.
pub(crate) fn print_lettered(
    word: &[u8],
    order: &[ServerNo],
    no: ServerNo,
    out: &mut Vec<u8>,
) -> Result<(), Memory>
    ensures { OnOk result (out.new.items ≡ out.old.items ++ (word.now ++ letter order.now no)) }
{
    out.extend_from_slice(word)?;
    print_letter(order, no, out)
}

/// What is noted of a server: A.end, A.exec.
#[tactic(auto, unfolding(crate::specs::Statements::aim_words))]
pub(crate) fn print_aim(order: &[ServerNo], aim: Aim, out: &mut Vec<u8>) -> Result<(), Memory>
    ensures { OnOk result (out.new.items ≡ out.old.items ++ aim_words order.now aim) }
{
    match aim {
        Aim::EndOf(no) => {
            print_letter(order, no, out)?;
            out.extend_from_slice(b".end")
        }
        Aim::ExecOf(no) => {
            print_letter(order, no, out)?;
            out.extend_from_slice(b".exec")
        }
    }
}

/// The coordinate that was noted.
#[tactic(auto, unfolding(crate::specs::Statements::spot_words))]
pub(crate) fn print_spot(order: &[ServerNo], aim: Aim, out: &mut Vec<u8>) -> Result<(), Memory>
    ensures { OnOk result (out.new.items ≡ out.old.items ++ spot_words order.now aim) }
{
    out.extend_from_slice(b"SOURCE_LOG_FILE=:")?;
    print_aim(order, aim, out)?;
    out.extend_from_slice(b".file, SOURCE_LOG_POS=:")?;
    print_aim(order, aim, out)?;
    out.extend_from_slice(b".pos")
}

// SOURCE_HOST and SOURCE_PORT of a server by its name.
fn print_address(name: &Name, out: &mut Vec<u8>) -> Result<(), Memory>
    ensures { OnOk result (out.new.items ≡ out.old.items ++ address_words (Some name.now)) }
{
    out.extend_from_slice(b"SOURCE_HOST='")?;
    out.extend_from_slice(name.host().as_bytes())?;
    out.extend_from_slice(b"', SOURCE_PORT=")?;
    print_number(u128::from(name.port()), out)
}

/// The same of the server of this number.
#[tactic(auto, unfolding(crate::specs::Statements::named_words))]
pub(crate) fn print_named(names: &[Name], no: ServerNo, out: &mut Vec<u8>) -> Result<(), Memory>
    ensures { OnOk result (out.new.items ≡ out.old.items ++ named_words names.now no) }
{
    match names.get(no.0 as usize) {
        Some(name) => print_address(name, out),
        None => Ok(()),
    }
}

/// The source that was noted of a server, after so many slashes.
pub(crate) fn print_own(
    order: &[ServerNo],
    slashes: &[u8],
    no: ServerNo,
    out: &mut Vec<u8>,
) -> Result<(), Memory>
    ensures { OnOk result (out.new.items ≡ out.old.items ++ own_words order.now slashes.now no) }
{
    out.extend_from_slice(b"SOURCE_HOST='")?;
    out.extend_from_slice(slashes)?;
    print_lettered(b":", order, no, out)?;
    print_lettered(b".source.host', SOURCE_PORT=:", order, no, out)?;
    out.extend_from_slice(b".source.port")
}

/// The source of a server: by its name if an earlier line has it, else as it was noted.
pub(crate) fn print_source(
    names: &[Name],
    order: &[ServerNo],
    no: ServerNo,
    told: Option<ServerNo>,
    out: &mut Vec<u8>,
) -> Result<(), Memory>
    ensures { OnOk result (out.new.items
        ≡ out.old.items ++ source_words names.now order.now no told) }
{
    match told {
        Some(source) => print_named(names, source, out),
        None => print_own(order, b"", no, out),
    }
}

/// One who had no source needs a login.
pub(crate) fn login(told: Option<ServerNo>) -> &'static [u8]
    ensures { result.now ≡ login_words told }
{
    match told {
        Some(_) => b"",
        None => b", SOURCE_USER=:user, SOURCE_PASSWORD=:password",
    }
}
