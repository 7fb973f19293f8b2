//! The clusters' aliases.

ghost use Rattle.std.specs.Prelude.{◌≡◌, IfOk};
ghost use Rattle.scenario_reader.specs.Prelude.{Gives, each_member, fault_of, members_view, under as place_under, view};
ghost use Rattle.scenario_reader.specs.Aliases.{alias_in, aliases_in};
ghost use Rattle.scenario_reader.specs.AliasTable.{alias_at, IsAliasTable};

use crate::orch_base::Memory;
use scenario_values::{ReadFault, label_or_fails, members_in, text_in, text_within, under};
use scenarios::{Alias, Aliases};
use serde_json::{Map, Value};
use std::alloc::Global;
use std::collections::HashMap;

#[tactic(auto, unfolding(crate::specs::Aliases::alias_in))]
fn alias_in(alloc: Global, label: &str, value: &Value) -> Result<Alias, ReadFault>
    ensures { Gives (λ a. a) fault_of result (alias_in label.now (view value.now)) }
{
    let cluster = label_or_fails(alloc, label)?;
    let text = text_in(alloc, value)?;
    let alias = text_within(alloc, 0, 255, text)?;
    Ok(Alias { cluster, alias })
}

#[tactic(auto, using(scenario_values::proofs::Unders::gives_under))]
fn alias_at(alloc: Global, label: &str, value: &Value) -> Result<Alias, ReadFault>
    ensures { Gives (λ a. a) fault_of result
        (place_under label.now (alias_in label.now (view value.now))) }
{
    under(alloc, label.as_bytes(), alias_in(alloc, label, value))
}

fn aliases_from(alloc: Global, members: &Map<String, Value>) -> Result<Vec<Alias>, ReadFault>
    ensures { Gives (λ v. v.items) fault_of result
        (each_member alias_in (members_view members.now.entries)) }
{
    let mut aliases = Vec::new(alloc);
    for (label, value) in members {
        aliases.push(alias_at(alloc, label.as_str(), value)?)?;
    }
    Ok(aliases)
}

/// The aliases of an object from clusters' labels to texts. A label of 0 or more than 261 bytes, or an alias of more
/// than 255, is `BadNumber` at the label's key.
#[tactic(auto, unfolding(crate::specs::Aliases::aliases_in))]
pub fn aliases_in(alloc: Global, value: &Value) -> Result<Aliases, ReadFault>
    ensures { Gives (λ a. a) fault_of result (aliases_in (view value.now)) }
{
    let members = members_in(alloc, value)?;
    let aliases = aliases_from(alloc, members)?;
    Ok(Aliases::new(alloc, aliases)?)
}

/// The aliases by their clusters' labels; of several with one label the first. The time is that of the aliases.
pub(crate) fn table_of(alloc: Global, aliases: &[Alias]) -> Result<HashMap<&str, &str>, Memory>
    ensures { IfOk result (λ t. IsAliasTable t aliases.now) }
{
    let mut table = HashMap::new(alloc);
    for n in (0..aliases.len()).rev() {
        let alias = &aliases[n];
        table.insert(alias.cluster.as_str(), alias.alias.as_str())?;
    }
    Ok(table)
}

/// The alias of a cluster: empty if it has none.
pub(crate) fn alias_of<'a>(table: &HashMap<&str, &'a str>, cluster: &str) -> &'a str
    ensures { result.now ≡ alias_at table.now cluster.now }
{
    table.get(cluster).copied().unwrap_or("")
}
