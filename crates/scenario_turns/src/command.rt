//! The command turns.

ghost use Rattle.std.specs.Prelude.{◌≡◌};
ghost use Rattle.scenario_turns.specs.Prelude.{Gives, fault_of, items_view, under_item, view};
ghost use Rattle.scenario_turns.specs.Commands.{name_in, given_in, parts_of, command_in};

use crate::commands::{CommandName, CommandTurn};
use crate::keys::given_in;
use crate::patterns::Patterns;
use scenario_servers::Names;
use scenario_values::{FaultCode, ReadFault, fails, text_in, under_item};
use serde_json::Value;
use std::alloc::Global;

#[tactic(auto, unfolding(crate::specs::Commands::name_in))]
fn name_in(alloc: Global, value: &Value) -> Result<CommandName, ReadFault>
    ensures { Gives (λ n. n) fault_of result (name_in (view value.now)) }
{
    let text = text_in(alloc, value)?;
    match CommandName::read(text) {
        Some(name) => Ok(name),
        None => Err(fails(alloc, FaultCode::BadCommand)),
    }
}

#[tactic(auto, using(scenario_values::proofs::Unders::gives_under))]
fn name_at(alloc: Global, value: &Value) -> Result<CommandName, ReadFault>
    ensures { Gives (λ n. n) fault_of result (under_item 1 (name_in (view value.now))) }
{
    under_item(alloc, 1, name_in(alloc, value))
}

#[tactic(auto, using(scenario_values::proofs::Unders::gives_under))]
fn given_at(
    alloc: Global,
    names: &Names,
    patterns: &Patterns,
    name: CommandName,
    value: &Value,
) -> Result<CommandTurn, ReadFault>
    ensures { Gives (λ t. t) fault_of result
        (under_item 2 (given_in names.now patterns.now name (view value.now))) }
{
    under_item(alloc, 2, given_in(alloc, names, patterns, name, value))
}

fn parts_of(alloc: Global, rest: &[Value]) -> Result<(&Value, &Value), ReadFault>
    ensures { Gives (λ p. (view p.0.now, view p.1.now)) fault_of result
        (parts_of (items_view rest.now)) }
{
    if rest.len() != 2 {
        return Err(fails(alloc, FaultCode::BadTurn));
    }
    Ok((&rest[0], &rest[1]))
}

/// A command turn, by what follows its name: a command's name and an object with what it is given. Another number of
/// parts is `BadTurn` of the turn. At part 1 a name of no command is `BadCommand`.
///
/// At part 2 come first the keys that no command has, as `UnknownKey`. Then each key has its own faults, even if the
/// command doesn't need it: `BadType`; at an instance `BadName` and `UnknownName`; and `BadPattern`. `BadNumber` is for
/// another rule, a duration that isn't 1 to 31,536,000 seconds, and a reason or an owner of more than 255 bytes. A key
/// that is needed and absent is `BadCommand`.
///
/// `patterns` has each server's name as it is printed. The time is that of the text, and of a pattern that isn't known
/// on each name.
#[tactic(auto, unfolding(crate::specs::Commands::command_in))]
pub fn command_in(
    alloc: Global,
    names: &Names,
    patterns: &Patterns,
    rest: &[Value],
) -> Result<CommandTurn, ReadFault>
    ensures { Gives (λ t. t) fault_of result
        (command_in names.now patterns.now (items_view rest.now)) }
{
    let (name, object) = parts_of(alloc, rest)?;
    let name = name_at(alloc, name)?;
    given_at(alloc, names, patterns, name, object)
}
