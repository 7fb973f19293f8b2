//! The hooks of recoveries.

ghost use Rattle.std.specs.Prelude.{◌≡◌, [], IfOk};
ghost use Rattle.scenario_reader.specs.Prelude.{Gives, each, fault_of, items_view, list_all, optional, text_in as read_text};
ghost use Rattle.scenario_reader.specs.Prelude.{under_item as placed_item, view};
ghost use Rattle.scenario_reader.specs.Hooks.{exit_or_fails, hook_in, hook_list_in, hooks_in, is_hook_text, is_printable, two_of, whole_of};

use crate::hook_texts::{Hook, HookList, Hooks};
use crate::orch_base::OwnedText;
use scenario_values::{
    FaultCode, ReadFault, fails, holds, items_in, members_in, only_keys, text_in, under, under_item,
};
use serde_json::Value;
use std::alloc::Global;

fn two_of(alloc: Global, items: &[Value]) -> Result<(&Value, &Value), ReadFault>
    ensures { Gives (λ t. (view t.0.now, view t.1.now)) fault_of result
        (two_of (items_view items.now)) }
{
    if items.len() != 2 {
        return Err(fails(alloc, FaultCode::BadNumber));
    }
    Ok((&items[0], &items[1]))
}

fn is_printable(byte: u8) -> bool
    ensures { result ≡ is_printable byte }
{
    32 <= byte && byte != 127
}

fn are_printable(bytes: &[u8]) -> bool
    ensures { result ≡ list_all is_printable bytes.now }
{
    bytes.iter().all(|byte| is_printable(*byte))
}

fn is_hook_text(text: &str) -> bool
    ensures { result ≡ is_hook_text text.now }
{
    1 <= text.len() && text.len() <= 1000 && are_printable(text.as_bytes())
}

#[tactic(auto, using(scenario_values::proofs::Unders::gives_under))]
fn text_at(alloc: Global, value: &Value) -> Result<&str, ReadFault>
    ensures { Gives (λ s. s.now) fault_of result (placed_item 0 (read_text (view value.now))) }
{
    under_item(alloc, 0, text_in(alloc, value))
}

#[tactic(auto, unfolding(crate::specs::Hooks::whole_of))]
fn whole_of(alloc: Global, value: &Value) -> Result<Option<u64>, ReadFault>
    ensures { Gives (λ n. n) fault_of result (whole_of (view value.now)) }
{
    match value.as_number() {
        Some(number) => Ok(number.as_u64()),
        None => Err(fails(alloc, FaultCode::BadType)),
    }
}

#[tactic(auto, using(scenario_values::proofs::Unders::gives_under))]
fn whole_at(alloc: Global, value: &Value) -> Result<Option<u64>, ReadFault>
    ensures { Gives (λ n. n) fault_of result (placed_item 1 (whole_of (view value.now))) }
{
    under_item(alloc, 1, whole_of(alloc, value))
}

fn exit_or_fails(alloc: Global, whole: Option<u64>) -> Result<u8, ReadFault>
    ensures { Gives (λ n. n) fault_of result (exit_or_fails whole) }
{
    match whole {
        Some(number) if number <= 255 => Ok(number as u8),
        Some(_) | None => Err(fails(alloc, FaultCode::BadHook)),
    }
}

#[tactic(auto, unfolding(crate::specs::Hooks::hook_in))]
fn hook_in(alloc: Global, value: &Value) -> Result<Hook, ReadFault>
    ensures { Gives (λ h. h) fault_of result (hook_in (view value.now)) }
{
    let items = items_in(alloc, value)?;
    let (text, exit) = two_of(alloc, items)?;
    let text = text_at(alloc, text)?;
    holds(alloc, FaultCode::BadHook, is_hook_text(text))?;
    let whole = whole_at(alloc, exit)?;
    let exit = exit_or_fails(alloc, whole)?;
    let text = OwnedText::new(String::from_str(alloc, text)?);
    Ok(Hook { text, exit })
}

#[tactic(auto, using(scenario_values::proofs::Unders::gives_under))]
fn hook_at(alloc: Global, number: usize, value: &Value) -> Result<Hook, ReadFault>
    ensures { Gives (λ h. h) fault_of result (placed_item number (hook_in (view value.now))) }
{
    under_item(alloc, number, hook_in(alloc, value))
}

fn each_hook(alloc: Global, items: &[Value]) -> Result<Vec<Hook>, ReadFault>
    ensures { Gives (λ v. v.items) fault_of result (each hook_in (items_view items.now)) }
{
    let mut hooks = Vec::new(alloc);
    for (number, value) in items.iter().enumerate() {
        hooks.push(hook_at(alloc, number, value)?)?;
    }
    Ok(hooks)
}

#[tactic(auto, unfolding(crate::specs::Hooks::hook_list_in))]
fn hook_list_in(alloc: Global, value: &Value) -> Result<HookList, ReadFault>
    ensures { Gives (λ l. l) fault_of result (hook_list_in (view value.now)) }
{
    let items = items_in(alloc, value)?;
    let hooks = each_hook(alloc, items)?;
    Ok(HookList::new(hooks))
}

#[tactic(auto, using(scenario_values::proofs::Unders::gives_under))]
fn list_at(alloc: Global, object: &Value, key: &str) -> Result<HookList, ReadFault>
    ensures { Gives (λ l. l) fault_of result (optional key.now hook_list_in [] (view object.now)) }
{
    match object.get(key) {
        Some(value) => under(alloc, key.as_bytes(), hook_list_in(alloc, value)),
        None => Ok(HookList::new(Vec::new(alloc))),
    }
}

/// The hooks of an object with the lists `pre_failover`, `post_failover` and `post_unsuccessful`, each of [text, exit].
/// `BadHook` at the hook is a text that is empty, has more than 1,000 bytes or a control character of ASCII, or an exit
/// that isn't 0 to 255. For a hook the text is looked at first, and then the exit.
#[tactic(auto, unfolding(crate::specs::Hooks::hooks_in))]
pub(crate) fn hooks_in(alloc: Global, value: &Value) -> Result<Hooks, ReadFault>
    ensures { Gives (λ h. h) fault_of result (hooks_in (view value.now)) }
{
    let members = members_in(alloc, value)?;
    only_keys(
        alloc,
        members,
        &["pre_failover", "post_failover", "post_unsuccessful"],
    )?;
    let pre_failover = list_at(alloc, value, "pre_failover")?;
    let post_failover = list_at(alloc, value, "post_failover")?;
    let post_unsuccessful = list_at(alloc, value, "post_unsuccessful")?;
    Ok(Hooks {
        pre_failover,
        post_failover,
        post_unsuccessful,
    })
}
