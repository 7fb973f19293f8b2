//! The tables' numbers, keys, and the servers that rows name.

ghost use Rattle.std.specs.Prelude.{◌≡◌, ◌++◌, List, Some, true, length, position, OnErr, OnOk};
ghost use Rattle.row_texts.specs.Prelude.{Gives, HostPort, are_known, key_servers, same_name, table_number};
ghost use Rattle.row_texts.specs.Fields.{fault_of, key_id, key_name, key_word, server_of};
ghost use Rattle.row_texts.specs.Reading.{table_at};
ghost use Rattle.row_texts.specs.Tables.{ending_of, state_of};
ghost use Rattle.row_texts.specs.Written.{key_text};

use crate::fault::RowFault;
use crate::orch_base::{Ending, Memory, Name, ServerNo, SourceState};
use crate::word::{Outcome, Source, id_printed, is_same, name_printed};
use itoa::Buffer;
use kept_rows::{Key, Table};
use std::alloc::Global;

/// A table by its number in a database.
pub trait TableNumber: Sized {
    /// The table of this number, 1 to 6: none for another.
    fn of_number(number: u8) -> Option<Self>;

    /// The table's number, from 1.
    fn number(self) -> u8;
}

impl TableNumber for Table {
    fn of_number(number: u8) -> Option<Table>
        ensures { result ≡ table_at number }
    {
        match number {
            1 => Some(Table::Instance),
            2 => Some(Table::Downtime),
            3 => Some(Table::Candidate),
            4 => Some(Table::Recovery),
            5 => Some(Table::Switch),
            6 => Some(Table::Active),
            _ => None,
        }
    }

    fn number(self) -> u8
        ensures { result ≡ table_number self }
    {
        match self {
            Table::Instance => 1,
            Table::Downtime => 2,
            Table::Candidate => 3,
            Table::Recovery => 4,
            Table::Switch => 5,
            Table::Active => 6,
        }
    }
}

/// The text of a key.
pub trait KeyText {
    /// The key's server has a name.
    ghost has_name: { List HostPort → Self → Type 0 };

    /// Appends a printed name, an id in decimal, `global` or `active`, or nothing if memory runs out. The names are
    /// those of the servers by number.
    fn text(&self, names: &[Name], out: &mut Vec<u8>) -> Result<(), Memory>
        requires { has_name names.now self.now };
}

impl KeyText for Key {
    ghost has_name = { λ names k. are_known (length names) (key_servers k) ≡ true };

    #[tactic(auto, using(crate::proofs::Known::first_known))]
    fn text(&self, names: &[Name], out: &mut Vec<u8>) -> Result<(), Memory>
        requires { are_known (length names.now) (key_servers self.now) ≡ true }
        ensures ok { OnOk result (out.new.items ≡ out.old.items ++ key_text names.now self.now) }
        ensures err { OnErr result (out.new.items ≡ out.old.items) }
    {
        match self {
            Key::Server(no) => names[no.0 as usize].print(out),
            Key::Id(id) => {
                let mut buffer = Buffer::new();
                out.extend_from_slice(buffer.format(*id).as_bytes())
            }
            Key::Global => out.extend_from_slice(b"global"),
            Key::Active => out.extend_from_slice(b"active"),
        }
    }
}

/// The name that a key is.
pub(crate) fn key_name(alloc: Global, key: &str) -> Result<Name, RowFault>
    ensures { Gives (λ n. n) fault_of result (key_name key.now) }
{
    match name_printed(alloc, key)? {
        Some(name) => Ok(name),
        None => Err(RowFault::BadKey),
    }
}

/// The id that a key is.
pub(crate) fn key_id(key: &str) -> Result<u64, RowFault>
    ensures { Gives (λ n. n) fault_of result (key_id key.now) }
{
    match id_printed(key) {
        Some(id) => Ok(id),
        None => Err(RowFault::BadKey),
    }
}

/// Nothing, if the key is this name.
pub(crate) fn key_word(word: &str, key: &str) -> Result<(), RowFault>
    ensures { Gives (λ _. tt) fault_of result (key_word word.now key.now) }
{
    if is_same(key, word) {
        Ok(())
    } else {
        Err(RowFault::BadKey)
    }
}

fn place_of(names: &[Name], name: &Name) -> Option<usize>
    ensures { result ≡ position (λ n. same_name n name.now) names.now }
{
    names.iter().position(|n| n.is_same(name))
}

/// The number of the server with this name.
#[tactic(auto, unfolding(crate::specs::Fields::server_of))]
pub(crate) fn server_of(names: &[Name], name: &Name) -> Result<ServerNo, RowFault>
    ensures { Gives (λ n. n) fault_of result (server_of names.now name.now) }
{
    match place_of(names, name) {
        Some(place) if place <= 4294967295 => Ok(ServerNo(place as u32)),
        _ => Err(RowFault::UnknownServer),
    }
}

/// How a recovery ended, by the server's number.
pub(crate) fn ending_of(names: &[Name], how: &Outcome) -> Result<Ending, RowFault>
    ensures { Gives (λ e. e) fault_of result (ending_of names.now how.now) }
{
    match how {
        Outcome::Unended => Ok(Ending::Unended),
        Outcome::Interrupted => Ok(Ending::Interrupted),
        Outcome::Promoted(name) => {
            let server = server_of(names, name)?;
            Ok(Ending::Promoted(server))
        }
        Outcome::Failed(cause) => Ok(Ending::Failed(*cause)),
    }
}

/// A source by the server's number.
pub(crate) fn state_of(names: &[Name], source: &Source) -> Result<SourceState, RowFault>
    ensures { Gives (λ s. s) fault_of result (state_of names.now source.now) }
{
    match source {
        Source::Without => Ok(SourceState::Without),
        Source::Attached(name) => {
            let server = server_of(names, name)?;
            Ok(SourceState::Attached(server))
        }
        Source::Detached(name) => {
            let server = server_of(names, name)?;
            Ok(SourceState::Detached(server))
        }
    }
}
