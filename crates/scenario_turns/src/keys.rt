//! What a command is given.

ghost use Rattle.std.specs.Prelude.{◌≡◌};
ghost use Rattle.scenario_turns.specs.Prelude.{Gives, fault_of, maybe, server_named, short_in, view};
ghost use Rattle.scenario_turns.specs.Commands.{duration_in, pattern_in, instances_in, keys_in, given_in};

use crate::commands::{Command, CommandName, CommandTurn, Found, Keys, seconds_at};
use crate::orch_base::{OwnedText, ServerNo};
use crate::patterns::Patterns;
use scenario_servers::{Names, maybe_rule, server_named};
use scenario_values::{
    FaultCode, ReadFault, fails, holds, lacks, members_in, only_keys, short_in, text_in, under,
};
use serde_json::Value;
use std::alloc::Global;

// The keys that a command may be given: its servers, and the others.
const COMMAND_KEYS: [&str; 7] = ["i", "d", "rule", "duration", "reason", "owner", "pattern"];

#[tactic(auto, unfolding(crate::specs::Commands::duration_in))]
fn duration_in(alloc: Global, value: &Value) -> Result<u64, ReadFault>
    ensures { Gives (λ n. n) fault_of result (duration_in (view value.now)) }
{
    let text = text_in(alloc, value)?;
    match seconds_at(text) {
        Some(seconds) => Ok(seconds),
        None => Err(fails(alloc, FaultCode::BadNumber)),
    }
}

#[tactic(auto, unfolding(crate::specs::Commands::pattern_in))]
fn pattern_in(alloc: Global, patterns: &Patterns, value: &Value) -> Result<Found, ReadFault>
    ensures { Gives (λ f. f) fault_of result (pattern_in patterns.now (view value.now)) }
{
    let text = text_in(alloc, value)?;
    patterns.found(alloc, text)
}

#[tactic(auto, using(scenario_values::proofs::Unders::gives_under))]
fn maybe_server(
    alloc: Global,
    names: &Names,
    object: &Value,
    key: &str,
) -> Result<Option<ServerNo>, ReadFault>
    ensures { Gives (λ n. n) fault_of result
        (maybe key.now (server_named names.now) (view object.now)) }
{
    match object.get(key) {
        Some(value) => {
            let server = under(alloc, key.as_bytes(), server_named(alloc, names, value))?;
            Ok(Some(server))
        }
        None => Ok(None),
    }
}

#[tactic(auto, using(scenario_values::proofs::Unders::gives_under))]
fn maybe_duration(alloc: Global, object: &Value, key: &str) -> Result<Option<u64>, ReadFault>
    ensures { Gives (λ n. n) fault_of result (maybe key.now duration_in (view object.now)) }
{
    match object.get(key) {
        Some(value) => {
            let seconds = under(alloc, key.as_bytes(), duration_in(alloc, value))?;
            Ok(Some(seconds))
        }
        None => Ok(None),
    }
}

#[tactic(auto, using(scenario_values::proofs::Unders::gives_under))]
fn maybe_short(alloc: Global, object: &Value, key: &str) -> Result<Option<OwnedText>, ReadFault>
    ensures { Gives (λ l. l) fault_of result (maybe key.now short_in (view object.now)) }
{
    match object.get(key) {
        Some(value) => {
            let text = under(alloc, key.as_bytes(), short_in(alloc, value))?;
            Ok(Some(text))
        }
        None => Ok(None),
    }
}

#[tactic(auto, using(scenario_values::proofs::Unders::gives_under))]
fn maybe_pattern(
    alloc: Global,
    patterns: &Patterns,
    object: &Value,
    key: &str,
) -> Result<Option<Found>, ReadFault>
    ensures { Gives (λ f. f) fault_of result
        (maybe key.now (pattern_in patterns.now) (view object.now)) }
{
    match object.get(key) {
        Some(value) => {
            let found = under(alloc, key.as_bytes(), pattern_in(alloc, patterns, value))?;
            Ok(Some(found))
        }
        None => Ok(None),
    }
}

#[tactic(auto, unfolding(crate::specs::Commands::instances_in))]
fn instances_in(
    alloc: Global,
    names: &Names,
    name: CommandName,
    object: &Value,
) -> Result<Command, ReadFault>
    ensures { Gives (λ c. c) fault_of result (instances_in names.now name (view object.now)) }
{
    let needs = name.needs();
    let i = maybe_server(alloc, names, object, "i")?;
    holds(alloc, FaultCode::BadCommand, i.is_some() || !needs.i)?;
    let d = maybe_server(alloc, names, object, "d")?;
    holds(alloc, FaultCode::BadCommand, d.is_some() || !needs.d)?;
    Ok(Command { name, i, d })
}

#[tactic(auto, unfolding(crate::specs::Commands::keys_in))]
fn keys_in(
    alloc: Global,
    patterns: &Patterns,
    name: CommandName,
    object: &Value,
) -> Result<Keys, ReadFault>
    ensures { Gives (λ k. k) fault_of result (keys_in patterns.now name (view object.now)) }
{
    let needs = name.needs();
    if !needs.rule && !needs.pattern && lacks(object, &COMMAND_KEYS[2..]) {
        return Ok(Keys {
            rule: None,
            duration: None,
            reason: None,
            owner: None,
            pattern: None,
        });
    }
    let rule = maybe_rule(alloc, object, "rule")?;
    holds(alloc, FaultCode::BadCommand, rule.is_some() || !needs.rule)?;
    let duration = maybe_duration(alloc, object, "duration")?;
    let reason = maybe_short(alloc, object, "reason")?;
    let owner = maybe_short(alloc, object, "owner")?;
    let pattern = maybe_pattern(alloc, patterns, object, "pattern")?;
    holds(
        alloc,
        FaultCode::BadCommand,
        pattern.is_some() || !needs.pattern,
    )?;
    Ok(Keys {
        rule,
        duration,
        reason,
        owner,
        pattern,
    })
}

/// What a command is given: an object without other keys than `i`, `d`, `rule`, `duration`, `reason`, `owner` and
/// `pattern`, read in this order. A key that the command needs and that is absent is `BadCommand` of the object.
#[tactic(auto, unfolding(crate::specs::Commands::given_in))]
pub(crate) fn given_in(
    alloc: Global,
    names: &Names,
    patterns: &Patterns,
    name: CommandName,
    object: &Value,
) -> Result<CommandTurn, ReadFault>
    ensures { Gives (λ t. t) fault_of result
        (given_in names.now patterns.now name (view object.now)) }
{
    let members = members_in(alloc, object)?;
    only_keys(alloc, members, &COMMAND_KEYS)?;
    let command = instances_in(alloc, names, name, object)?;
    let keys = keys_in(alloc, patterns, name, object)?;
    Ok(CommandTurn { command, keys })
}
