//! What a command turn is given, as JSON.

ghost use Rattle.std.specs.Prelude.{◌≡◌, IfOk, OnOk, decimal, option_map};
ghost use Rattle.serde_json.specs.Data.{string};
ghost use Rattle.serde_json.specs.View.{members_view, view};
ghost use Rattle.scenarios.specs.OrchBase.Words.{rule_text};
ghost use Rattle.schedules.specs.Turns.{given_data, name_data, with_given};

use crate::commands::{CommandTurn, Found};
use crate::orch_base::{Memory, Name, OwnedText, Rule, ServerNo};
use crate::words::name_string;
use itoa::Buffer;
use serde_json::{Map, Value, put};
use std::alloc::Global;

fn text_value(alloc: Global, text: &Option<OwnedText>) -> Result<Option<Value>, Memory>
    ensures { IfOk result (λ v. option_map view v ≡ option_map string text.now) }
{
    match text {
        Some(text) => Ok(Some(Value::from(String::from_str(alloc, text.as_str())?))),
        None => Ok(None),
    }
}

fn pattern_value(alloc: Global, pattern: &Option<Found>) -> Result<Option<Value>, Memory>
    ensures { IfOk result (λ v. option_map view v
        ≡ option_map (λ f. string f.text) pattern.now) }
{
    match pattern {
        Some(found) => Ok(Some(Value::from(String::from_str(alloc, found.text.as_str())?))),
        None => Ok(None),
    }
}

fn name_value(alloc: Global, names: &[Name], no: Option<ServerNo>) -> Result<Option<Value>, Memory>
    ensures { IfOk result (λ v. option_map view v ≡ option_map (name_data names.now) no) }
{
    match no {
        Some(no) => Ok(Some(Value::from(name_string(alloc, names, no)?))),
        None => Ok(None),
    }
}

fn rule_value(alloc: Global, rule: Option<Rule>) -> Result<Option<Value>, Memory>
    ensures { IfOk result (λ v. option_map view v
        ≡ option_map (λ r. string (rule_text r)) rule) }
{
    match rule {
        Some(rule) => Ok(Some(Value::from(String::from_str(alloc, rule.word())?))),
        None => Ok(None),
    }
}

// The decimal text of so many seconds.
fn seconds_value(alloc: Global, seconds: Option<u64>) -> Result<Option<Value>, Memory>
    ensures { IfOk result (λ v. option_map view v
        ≡ option_map (λ n. string (decimal n)) seconds) }
{
    match seconds {
        Some(seconds) => {
            let mut buffer = Buffer::new();
            let digits = buffer.format(seconds);
            Ok(Some(Value::from(String::from_str(alloc, digits)?)))
        }
        None => Ok(None),
    }
}

// Puts a member if it is given.
fn put_given(
    alloc: Global,
    map: &mut Map<String, Value>,
    key: &str,
    value: Option<Value>,
) -> Result<(), Memory>
    ensures { OnOk result (members_view map.new.entries
        ≡ with_given key.now (option_map view value) (members_view map.old.entries)) }
{
    match value {
        Some(value) => put(map, alloc, key, value),
        None => Ok(()),
    }
}

/// Just the keys that the turn holds.
pub(crate) fn given_value(alloc: Global, names: &[Name], t: &CommandTurn) -> Result<Value, Memory>
    ensures { IfOk result (λ v. view v ≡ given_data names.now t.now) }
{
    let (command, keys) = (t.command, &t.keys);
    let mut given = Map::new(alloc);
    put_given(alloc, &mut given, "d", name_value(alloc, names, command.d)?)?;
    put_given(
        alloc,
        &mut given,
        "duration",
        seconds_value(alloc, keys.duration)?,
    )?;
    put_given(alloc, &mut given, "i", name_value(alloc, names, command.i)?)?;
    put_given(alloc, &mut given, "owner", text_value(alloc, &keys.owner)?)?;
    put_given(
        alloc,
        &mut given,
        "pattern",
        pattern_value(alloc, &keys.pattern)?,
    )?;
    put_given(
        alloc,
        &mut given,
        "reason",
        text_value(alloc, &keys.reason)?,
    )?;
    put_given(alloc, &mut given, "rule", rule_value(alloc, keys.rule)?)?;
    Ok(Value::from(given))
}
