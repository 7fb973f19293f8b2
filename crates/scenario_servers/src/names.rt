//! The names of a scenario's servers, and the servers that texts name.

ghost use Rattle.std.specs.Hash as fed;
ghost use Rattle.std.specs.Prelude.{◌≡◌, ◌==◌, ◌++◌, Ok, Some, IfOk, OnOk, option_map};
ghost use Rattle.std.proofs.Common.{rules};
ghost use Rattle.scenario_servers.specs.Prelude.{Gives, comparing, eq_of_both, fault_of, hashing, name_at, name_or_fails, on, pointwise, view};
ghost use Rattle.scenario_servers.specs.Names.{listed_text, name_in_text, server_named, own_name};
ghost use Rattle.scenario_servers.specs.NameTable.{AddsName, AddsText};

use crate::orch_base::{Memory, Name, NameFault, ServerNo};
use scenario_values::{FaultCode, ReadFault, fails, text_in};
use serde_json::Value;
use std::alloc::Global;
use std::collections::HashMap;
use std::hash::{Hash, Hasher};
use std::marker::Model;

// A name, as it is looked up.
#[derive(Drop)]
struct NameKey(Name);

impl PartialEq for NameKey {
    ghost eq = { eq_of_both (on (λ k. k.0.host) (pointwise ◌==◌)) (on (λ k. k.0.port) ◌==◌) };

    ghost laws = { Prim.search (comparing, rules) depth 9 };

    fn eq(&self, other: &NameKey) -> bool {
        self.0.is_same(&other.0)
    }
}

impl Eq for NameKey {
    ghost laws = { Prim.search (comparing, rules) depth 9 };
}

impl Hash for NameKey {
    ghost hash_input = { λ k. fed.str k.0.host ++ fed.u16 k.0.port };

    ghost respects_eq = { Prim.search (hashing, rules) depth 9 };

    fn hash<H: Hasher>(&self, state: &mut H) {
        self.0.host().hash(state);
        self.0.port().hash(state);
    }
}

/// The names that a scenario's servers are listed with, each if it reads. A text with which a server is listed is found
/// without a name being made of it.
#[derive(Drop)]
pub struct Names {
    listed: Vec<Option<Name>>,
    numbers: HashMap<NameKey, u32>,
    // The servers that texts name.
    texts: HashMap<String, u32>,
}

impl Model for Names {
    ghost use Rattle.std.specs.Prelude.{List, Option};
    ghost use Rattle.server_words.specs.OrchBase.Names.{HostPort};
    ghost use Rattle.scenario_servers.specs.NameTable.{AreTexts, IsTableOf};

    ghost Value = { List (Option HostPort) };

    ghost view = { λ n. n.listed.items };

    ghost invariant = { λ n. (IsTableOf n.numbers n.listed.items)
        × (AreTexts n.texts n.listed.items) };
}

// The text with which a server is listed.
fn listed_text(value: &Value) -> Option<&str>
    ensures { option_map (λ t. t.now) result ≡ listed_text (view value.now) }
{
    value.get("name")?.as_str()
}

// The name that a text is, if it reads.
fn listed_name(alloc: Global, text: Option<&str>) -> Result<Option<Name>, Memory>
    ensures { IfOk result (λ name. name ≡ name_in_text (option_map (λ t. t.now) text.entry)) }
{
    let Some(text) = text else {
        return Ok(None);
    };
    match Name::read(alloc, text) {
        Ok(name) => Ok(Some(name)),
        Err(NameFault::Memory) => Err(Memory),
        Err(_) => Ok(None),
    }
}

// Tables the number of a server, unless it has no name or an earlier one has it. The answer is the first server of the
// name.
fn add_name(
    alloc: Global,
    numbers: &mut HashMap<NameKey, u32>,
    name: Option<&Name>,
    number: u32,
) -> Result<Option<u32>, Memory>
    ensures { IfOk result (λ first. AddsName numbers.old numbers.new
        (option_map (λ n. n.now) name.entry) number first) }
{
    let Some(name) = name else {
        return Ok(None);
    };
    match numbers.insert(NameKey(name.copy(alloc)?), number)? {
        Some(first) => {
            numbers.insert(NameKey(name.copy(alloc)?), first)?;
            Ok(Some(first))
        }
        None => Ok(Some(number)),
    }
}

// Keeps a text that names a server.
fn add_text(
    alloc: Global,
    texts: &mut HashMap<String, u32>,
    text: Option<&str>,
    first: Option<u32>,
) -> Result<(), Memory>
    ensures { OnOk result (AddsText texts.old texts.new (option_map (λ t. t.now) text.entry)
        first) }
{
    let (Some(text), Some(first)) = (text, first) else {
        return Ok(());
    };
    let key = String::from_str(alloc, text)?;
    texts.insert(key, first)?;
    Ok(())
}

// The name that a text is.
fn name_of(alloc: Global, text: &str) -> Result<Name, ReadFault>
    ensures { Gives (λ n. n) fault_of result (name_or_fails (name_at text.now)) }
{
    match Name::read(alloc, text) {
        Ok(name) => Ok(name),
        Err(NameFault::Memory) => Err(ReadFault::Memory),
        Err(_) => Err(fails(alloc, FaultCode::BadName)),
    }
}

impl Names {
    ghost use Rattle.std.specs.Prelude.{◌≡◌, ◌≤◌, IfOk, IfSome, length};
    ghost use Rattle.server_words.specs.OrchBase.Gives.{Gives};
    ghost use Rattle.serde_json.specs.View.{items_view};
    ghost use Rattle.scenario_values.specs.Faults.{fault_of};
    ghost use Rattle.scenario_servers.specs.Names.{first_named, listed_names, own_named};
    ghost use Rattle.scenario_servers.specs.NameTable.{IsFound, text_named};

    /// The names of the servers that are listed, of which there are at most 1,000. `Err` means out of memory.
    pub fn of(alloc: Global, items: &[Value]) -> Result<Names, Memory>
        requires { length items.now ≤ 1000 }
        ensures { IfOk result (λ n. n ≡ listed_names (items_view items.now)) }
    {
        let mut listed = Vec::with_capacity(alloc, items.len())?;
        let mut numbers = HashMap::new(alloc);
        let mut texts = HashMap::new(alloc);
        for value in items {
            let text = listed_text(value);
            let name = listed_name(alloc, text)?;
            let first = add_name(alloc, &mut numbers, name.as_ref(), listed.len() as u32)?;
            add_text(alloc, &mut texts, text, first)?;
            listed.push(name)?;
        }
        Ok(Names {
            listed,
            numbers,
            texts,
        })
    }

    // The server that a text names.
    fn server_at(&self, alloc: Global, text: &str) -> Result<ServerNo, ReadFault>
        ensures { Gives (λ n. n) fault_of result (text_named self.now text.now) }
    {
        let name = name_of(alloc, text)?;
        match self.first_named(&NameKey(name)) {
            Some(number) => Ok(ServerNo(number)),
            None => Err(fails(alloc, FaultCode::UnknownName)),
        }
    }

    // The server of a text, as `server_at` finds it.
    fn server_of(&self, alloc: Global, text: &str) -> Result<ServerNo, ReadFault>
        ensures { Gives (λ n. n) fault_of result (text_named self.now text.now) }
    {
        match self.texts.get(text).copied() {
            Some(number) => Ok(ServerNo(number)),
            None => self.server_at(alloc, text),
        }
    }

    // The first server with this name.
    fn first_named(&self, key: &NameKey) -> Option<u32>
        ensures { result ≡ first_named key.now.0 0 self.now }
    {
        self.numbers.get(key).copied()
    }

    // The name that a text is and the first server with it, if a server is listed with this very text.
    fn found(&self, text: &str) -> Option<(&Name, u32)>
        ensures { IfSome result (λ f. IsFound self.now text.now f.0.now f.1) }
    {
        let first = self.texts.get(text).copied()?;
        let name = self.listed.get(first as usize)?.as_ref()?;
        Some((name, first))
    }

    // The name that a text is, which no server before this number has.
    fn own_named(&self, alloc: Global, number: u32, text: &str) -> Result<Name, ReadFault>
        ensures { Gives (λ n. n) fault_of result (own_named self.now number text.now) }
    {
        let key = NameKey(name_of(alloc, text)?);
        match self.first_named(&key) {
            Some(first) if first < number => Err(fails(alloc, FaultCode::DuplicateName)),
            _ => Ok(key.0),
        }
    }
}

/// The server that a text names. No text is `BadType`, no name `BadName`, and that of no server `UnknownName`.
#[tactic(auto, unfolding(crate::specs::Names::server_named, scenario_values::specs::Values::name_in))]
pub fn server_named(alloc: Global, names: &Names, value: &Value) -> Result<ServerNo, ReadFault>
    ensures { Gives (λ n. n) fault_of result (server_named names.now (view value.now)) }
{
    let text = text_in(alloc, value)?;
    names.server_of(alloc, text)
}

/// The name of the server of this number, which no earlier one has.
#[tactic(auto, unfolding(crate::specs::Names::own_name, scenario_values::specs::Values::name_in))]
pub(crate) fn own_name(
    alloc: Global,
    names: &Names,
    number: u32,
    value: &Value,
) -> Result<Name, ReadFault>
    ensures { Gives (λ n. n) fault_of result (own_name names.now number (view value.now)) }
{
    let text = text_in(alloc, value)?;
    match names.found(text) {
        Some((_, first)) if first < number => Err(fails(alloc, FaultCode::DuplicateName)),
        Some((name, _)) => Ok(name.copy(alloc)?),
        None => names.own_named(alloc, number, text),
    }
}
