//! The whole text.

ghost use Rattle.std.specs.Prelude.{◌≡◌, ◌++◌, IfOk, OnOk, map, string_bytes};
ghost use Rattle.scenario_dump.specs.Prelude.{compact_text, object, string};
ghost use Rattle.scenario_dump.specs.Parts.{servers_text};
ghost use Rattle.scenario_dump.specs.Texts.{aliases_data, blocks_data, dump_text, hook_data, list_data};

use crate::orch_base::{Memory, Moment, ServerNo};
use crate::server::print_server;
use crate::values::{comma, print_flag, print_number, print_text};
use scenarios::{Alias, Block, Hook, Scenario};
use server_model::World;
use std::alloc::Global;

fn print_hook(alloc: Global, hook: &Hook, out: &mut Vec<u8>) -> Result<(), Memory>
    ensures { OnOk result (out.new.items ≡ out.old.items ++ compact_text (hook_data hook.now)) }
{
    print_text(alloc, b"[", hook.text.as_str(), out)?;
    print_number(b",", u64::from(hook.exit), out)?;
    out.extend_from_slice(b"]")
}

fn print_aliases(alloc: Global, aliases: &[Alias], out: &mut Vec<u8>) -> Result<(), Memory>
    ensures { OnOk result
        (out.new.items ≡ out.old.items ++ compact_text (object (aliases_data aliases.now))) }
{
    out.extend_from_slice(b"{")?;
    for (n, alias) in aliases.iter().enumerate() {
        print_text(alloc, comma(n > 0), alias.cluster.as_str(), out)?;
        print_text(alloc, b":", alias.alias.as_str(), out)?;
    }
    out.extend_from_slice(b"}")
}

fn print_blocks(alloc: Global, blocks: &[Block], out: &mut Vec<u8>) -> Result<(), Memory>
    ensures { OnOk result
        (out.new.items ≡ out.old.items ++ compact_text (object (blocks_data blocks.now))) }
{
    out.extend_from_slice(b"{")?;
    for (n, block) in blocks.iter().enumerate() {
        print_text(alloc, comma(n > 0), block.cluster.as_str(), out)?;
        print_number(b":", block.seconds, out)?;
    }
    out.extend_from_slice(b"}")
}

fn print_texts(alloc: Global, texts: &[String], out: &mut Vec<u8>) -> Result<(), Memory>
    ensures { OnOk result (out.new.items
        ≡ out.old.items ++ compact_text (list_data string (map string_bytes texts.now))) }
{
    out.extend_from_slice(b"[")?;
    for (n, text) in texts.iter().enumerate() {
        print_text(alloc, comma(n > 0), text.as_str(), out)?;
    }
    out.extend_from_slice(b"]")
}

fn print_hooks(alloc: Global, hooks: &[Hook], out: &mut Vec<u8>) -> Result<(), Memory>
    ensures { OnOk result
        (out.new.items ≡ out.old.items ++ compact_text (list_data hook_data hooks.now)) }
{
    out.extend_from_slice(b"[")?;
    for (n, hook) in hooks.iter().enumerate() {
        out.extend_from_slice(comma(n > 0))?;
        print_hook(alloc, hook, out)?;
    }
    out.extend_from_slice(b"]")
}

fn print_servers(alloc: Global, world: &World, out: &mut Vec<u8>) -> Result<(), Memory>
    ensures { OnOk result (out.new.items ≡ out.old.items ++ servers_text world.now) }
{
    out.extend_from_slice(b"[")?;
    for no in 0..world.servers() {
        out.extend_from_slice(comma(no > 0))?;
        print_server(alloc, world, ServerNo(no), out)?;
    }
    out.extend_from_slice(b"]")
}

/// The world as a scenario's text without turns, which begins at this moment: its servers as they are, and what the
/// scenario has beside its servers and turns. It is one line of compact JSON. `Memory` comes only if memory runs out.
/// Beside the text it takes none.
pub fn dump(
    alloc: Global,
    world: &World,
    scenario: &Scenario,
    now: Moment,
) -> Result<Vec<u8>, Memory>
    ensures { IfOk result (λ v. v.items ≡ dump_text world.now scenario.now now.0) }
{
    let filters = &scenario.filters;
    let hooks = scenario.hooks.all();
    let mut out = Vec::from_slice(alloc, b"{\"aliases\":")?;
    print_aliases(alloc, scenario.aliases.as_slice(), &mut out)?;
    print_number(b",\"block\":", scenario.block, &mut out)?;
    out.extend_from_slice(b",\"blocks\":")?;
    print_blocks(alloc, scenario.blocks.as_slice(), &mut out)?;
    out.extend_from_slice(b",\"filters\":{\"intermediate\":")?;
    print_texts(alloc, filters.intermediate.texts.as_slice(), &mut out)?;
    out.extend_from_slice(b",\"master\":")?;
    print_texts(alloc, filters.master.texts.as_slice(), &mut out)?;
    print_flag(b"},\"gtid\":", world.gtid(), &mut out)?;
    out.extend_from_slice(b",\"hooks\":{\"post_failover\":")?;
    print_hooks(alloc, hooks.post_failover.as_slice(), &mut out)?;
    out.extend_from_slice(b",\"post_unsuccessful\":")?;
    print_hooks(alloc, hooks.post_unsuccessful.as_slice(), &mut out)?;
    out.extend_from_slice(b",\"pre_failover\":")?;
    print_hooks(alloc, hooks.pre_failover.as_slice(), &mut out)?;
    print_number(b"},\"nodes\":", u64::from(scenario.nodes), &mut out)?;
    print_number(b",\"now\":", now.0, &mut out)?;
    print_number(b",\"pseudo\":", scenario.pseudo, &mut out)?;
    out.extend_from_slice(b",\"servers\":")?;
    print_servers(alloc, world, &mut out)?;
    out.extend_from_slice(b",\"turns\":[],\"version\":1}\n")?;
    Ok(out)
}
