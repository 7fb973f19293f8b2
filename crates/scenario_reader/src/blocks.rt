//! The block periods of single clusters.

ghost use Rattle.std.specs.Prelude.{◌≡◌};
ghost use Rattle.scenario_reader.specs.Prelude.{Gives, each_member, fault_of, members_view, under as place_under, view};
ghost use Rattle.scenario_reader.specs.Blocks.{block_in, blocks_in};

use scenario_values::{ReadFault, label_or_fails, members_in, number_in, under};
use scenarios::{Block, Blocks};
use serde_json::{Map, Value};
use std::alloc::Global;

#[tactic(auto, unfolding(crate::specs::Blocks::block_in))]
fn block_in(alloc: Global, label: &str, value: &Value) -> Result<Block, ReadFault>
    ensures { Gives (λ b. b) fault_of result (block_in label.now (view value.now)) }
{
    let cluster = label_or_fails(alloc, label)?;
    let seconds = number_in(alloc, 0, 1_000_000_000, value)?;
    Ok(Block { cluster, seconds })
}

#[tactic(auto, using(scenario_values::proofs::Unders::gives_under))]
fn block_at(alloc: Global, label: &str, value: &Value) -> Result<Block, ReadFault>
    ensures { Gives (λ b. b) fault_of result
        (place_under label.now (block_in label.now (view value.now))) }
{
    under(alloc, label.as_bytes(), block_in(alloc, label, value))
}

fn blocks_from(alloc: Global, members: &Map<String, Value>) -> Result<Vec<Block>, ReadFault>
    ensures { Gives (λ v. v.items) fault_of result
        (each_member block_in (members_view members.now.entries)) }
{
    let mut blocks = Vec::new(alloc);
    for (label, value) in members {
        blocks.push(block_at(alloc, label.as_str(), value)?)?;
    }
    Ok(blocks)
}

/// The block periods of an object from clusters' labels to seconds. A label of 0 or more than 261 bytes, or a number
/// that isn't 0 to 1,000,000,000, is `BadNumber` at the label's key.
#[tactic(auto, unfolding(crate::specs::Blocks::blocks_in))]
pub(crate) fn blocks_in(alloc: Global, value: &Value) -> Result<Blocks, ReadFault>
    ensures { Gives (λ b. b) fault_of result (blocks_in (view value.now)) }
{
    let members = members_in(alloc, value)?;
    let blocks = blocks_from(alloc, members)?;
    Ok(Blocks::new(alloc, blocks)?)
}
