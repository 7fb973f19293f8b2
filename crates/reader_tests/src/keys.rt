//! Commands with what they are given.

use crate::commands::{CommandName, CommandTurn, Found};
use crate::orch_base::{Name, OwnedText, Rule, ServerNo};
use crate::scenario_servers::Names;
use crate::scenario_turns::{Patterns, command_in, found, printed_names};
use crate::scenario_values::{ReadFault, items_in};
use serde_json::Value;
use std::alloc::Global;

const SERVERS: &str = r#"[{"name":"db-a"},{"name":"db-b:3307"},{"name":7}]"#;

const FIND: &str =
    r#"["find",{"i":"db-b:3307","d":"db-a","rule":"prefer_not","duration":"2h","reason":"why","owner":"me","pattern":"3306$"}]"#;

// The printed names of three servers.
fn printed(alloc: Global) -> Result<Vec<OwnedText>, ReadFault> {
    let mut names = Vec::new(alloc);
    for text in ["db-a", "db-b:3307", "db-c:3306"] {
        if let Ok(name) = Name::read(alloc, text) {
            names.push(name)?;
        }
    }
    Ok(printed_names(alloc, &names)?)
}

fn is_found(found: &Found, text: &str, answers: [bool; 3]) -> bool {
    found.text.as_str() == text && found.answers.as_slice() == answers.as_slice()
}

fn is_text(found: &Option<OwnedText>, text: &str) -> bool {
    match found {
        Some(found) => found.as_str() == text,
        None => false,
    }
}

// Whether the command is that of `FIND`.
fn is_find(turn: &CommandTurn) -> bool {
    let (command, keys) = (&turn.command, &turn.keys);
    let instances = (command.i, command.d) == (Some(ServerNo(1)), Some(ServerNo(0)));
    let numbers = (keys.rule, keys.duration) == (Some(Rule::PreferNot), Some(7_200));
    let Some(pattern) = &keys.pattern else {
        return false;
    };
    command.name == CommandName::Find
        && instances
        && numbers
        && is_text(&keys.reason, "why")
        && is_text(&keys.owner, "me")
        && is_found(pattern, "3306$", [true, false, true])
}

// Whether this list is the command `FIND`, if these are the servers.
fn is_kept(alloc: Global, servers: &[Value], rest: &[Value]) -> Result<bool, ReadFault> {
    if servers.len() > 1000 {
        return Ok(false);
    }
    let names = Names::of(alloc, servers)?;
    let patterns = Patterns::new(alloc, printed(alloc)?);
    Ok(is_find(&command_in(alloc, &names, &patterns, rest)?))
}

fn is_read(alloc: Global) -> Result<bool, ReadFault> {
    let (Ok(servers), Ok(rest)) = (
        Value::from_str(alloc, SERVERS),
        Value::from_str(alloc, FIND),
    ) else {
        return Ok(false);
    };
    is_kept(alloc, items_in(alloc, &servers)?, items_in(alloc, &rest)?)
}

#[test]
fn keys_are_kept(rt: HostRuntime) {
    assert!(rt; is_read(rt.alloc()).ok() == Some(true));
}

fn is_found_in_names(alloc: Global) -> Result<bool, ReadFault> {
    let found = found(alloc, "^db-[ab]:", &printed(alloc)?)?;
    Ok(is_found(&found, "^db-[ab]:", [true, true, false]))
}

#[test]
fn patterns_are_found_in_printed_names(rt: HostRuntime) {
    assert!(rt; is_found_in_names(rt.alloc()).ok() == Some(true));
}
