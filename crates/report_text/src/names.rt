//! Servers' names by their numbers.

ghost use Rattle.std.specs.Prelude.{◌≡◌, ◌++◌, IfOk, OnOk, map};
ghost use Rattle.server_words.specs.OrchBase.Names.{printed};
ghost use Rattle.report_text.specs.Names.{name_text, given_text};

use crate::orch_base::{Memory, Name, ServerNo};
use std::alloc::Global;
use std::marker::Model;

/// Servers' names, each printed once, so that many texts append them.
#[derive(Drop)]
pub struct PrintedNames<'a> {
    names: Vec<&'a Name>,
    texts: Vec<Vec<u8>>,
}

impl<'a> Model for PrintedNames<'a> {
    ghost use Rattle.std.specs.Prelude.{◌≡◌, List, map};
    ghost use Rattle.server_words.specs.OrchBase.Names.{HostPort, printed};

    ghost Value = { List HostPort };

    ghost view = { λ p. map (λ n. n.now) p.names.items };

    ghost invariant = { λ p. map (λ t. t.items) p.texts.items
        ≡ map printed (map (λ n. n.now) p.names.items) };
}

// Each of these names as it is printed, in order.
fn printed_each(alloc: Global, names: &[&Name]) -> Result<Vec<Vec<u8>>, Memory>
    ensures { IfOk result (λ texts. map (λ t. t.items) texts.items
        ≡ map printed (map (λ n. n.now) names.now)) }
{
    let mut texts = Vec::with_capacity(alloc, names.len())?;
    for name in names {
        let mut text = Vec::new(alloc);
        name.print(&mut text)?;
        texts.push(text)?;
    }
    Ok(texts)
}

impl<'a> PrintedNames<'a> {
    /// Prints each of these names, in order. `Memory` comes only if memory runs out.
    pub fn new(alloc: Global, names: &'a [Name]) -> Result<PrintedNames<'a>, Memory>
        ensures { IfOk result (λ p. p ≡ names.now) }
    {
        PrintedNames::of(alloc, names.iter().collect(alloc)?)
    }

    /// Prints each of these names, which are borrowed one by one, in order.
    pub(crate) fn of(alloc: Global, names: Vec<&'a Name>) -> Result<PrintedNames<'a>, Memory>
        ensures { IfOk result (λ p. p ≡ map (λ n. n.now) names.entry.items) }
    {
        let texts = printed_each(alloc, &names)?;
        Ok(PrintedNames { names, texts })
    }
}

/// The name of the server of this number.
pub(crate) fn print_name(
    names: &PrintedNames<'_>,
    no: ServerNo,
    out: &mut Vec<u8>,
) -> Result<(), Memory>
    ensures { OnOk result (out.new.items ≡ out.old.items ++ name_text names.now no) }
{
    match names.texts.get(no.0 as usize) {
        Some(text) => out.extend_from_slice(text),
        None => Ok(()),
    }
}

/// The word, and the name of the server of this number.
pub(crate) fn print_at_server(
    word: &[u8],
    names: &PrintedNames<'_>,
    no: ServerNo,
    out: &mut Vec<u8>,
) -> Result<(), Memory>
    ensures { OnOk result (out.new.items ≡ out.old.items ++ (word.now ++ name_text names.now no)) }
{
    out.extend_from_slice(word)?;
    print_name(names, no, out)
}

/// A space and the name, if one is given.
pub(crate) fn print_given(
    names: &PrintedNames<'_>,
    no: Option<ServerNo>,
    out: &mut Vec<u8>,
) -> Result<(), Memory>
    ensures { OnOk result (out.new.items ≡ out.old.items ++ given_text names.now no) }
{
    match no {
        Some(no) => print_at_server(b" ", names, no, out),
        None => Ok(()),
    }
}
