//! A command with what it is given.

ghost use Rattle.std.specs.Prelude.{◌≡◌, IfOk};
ghost use Rattle.commands.specs.Turns.{fits, has_needed, is_within};

use crate::orch_base::{Listed, OwnedText, Rule, ServerNo};
use crate::{CommandName, Memory};
use std::alloc::Global;
use std::marker::Model;

/// A command with its instances.
#[derive(Clone, Copy, Debug, PartialEq, Eq)]
pub struct Command {
    pub name: CommandName,
    /// The instance.
    pub i: Option<ServerNo>,
    /// The destination.
    pub d: Option<ServerNo>,
}

/// An answer for each server, by number, which contracts see as that list.
pub type Answers = Listed<bool>;

/// A pattern, and in which servers' printed names it is found.
#[derive(Drop)]
pub struct Found {
    /// The pattern: a regular expression in the syntax of Rust's `regex`.
    pub text: OwnedText,
    /// Whether it is found, by the servers' numbers.
    pub answers: Answers,
}

impl Found {
    /// The same once more. `Err` means out of memory.
    pub fn copy(&self, alloc: Global) -> Result<Found, Memory>
        ensures { IfOk result (λ f. f ≡ self.now) }
    {
        Ok(Found {
            text: self.text.copy(alloc)?,
            answers: self.answers.copy(alloc)?,
        })
    }
}

/// What a command is given beside its instances.
pub struct Keys {
    /// The rule of promotion.
    pub rule: Option<Rule>,
    /// 1 to 31,536,000 seconds.
    pub duration: Option<u64>,
    /// At most 255 bytes.
    pub reason: Option<OwnedText>,
    /// At most 255 bytes.
    pub owner: Option<OwnedText>,
    pub pattern: Option<Found>,
}

impl Drop for Keys {
    fn drop(self) {
        let Keys {
            rule: _,
            duration: _,
            reason: _reason,
            owner: _owner,
            pattern: _pattern,
        } = self;
    }
}

fn copy_label(alloc: Global, label: &Option<OwnedText>) -> Result<Option<OwnedText>, Memory>
    ensures { IfOk result (λ l. l ≡ label.now) }
{
    match label {
        Some(label) => Ok(Some(label.copy(alloc)?)),
        None => Ok(None),
    }
}

fn copy_pattern(alloc: Global, pattern: &Option<Found>) -> Result<Option<Found>, Memory>
    ensures { IfOk result (λ p. p ≡ pattern.now) }
{
    match pattern {
        Some(pattern) => Ok(Some(pattern.copy(alloc)?)),
        None => Ok(None),
    }
}

impl Keys {
    /// The same keys once more. `Err` means out of memory.
    pub fn copy(&self, alloc: Global) -> Result<Keys, Memory>
        ensures { IfOk result (λ k. k ≡ self.now) }
    {
        Ok(Keys {
            rule: self.rule,
            duration: self.duration,
            reason: copy_label(alloc, &self.reason)?,
            owner: copy_label(alloc, &self.owner)?,
            pattern: copy_pattern(alloc, &self.pattern)?,
        })
    }
}

/// A command with all that it is given.
pub struct CommandTurn {
    pub command: Command,
    pub keys: Keys,
}

impl Drop for CommandTurn {
    fn drop(self) {
        let CommandTurn {
            command: _command,
            keys: _keys,
        } = self;
    }
}

fn is_within(no: Option<ServerNo>, servers: u32) -> bool
    ensures { result ≡ is_within servers no }
{
    match no {
        Some(no) => no.0 < servers,
        None => true,
    }
}

impl CommandTurn {
    /// The same once more. `Err` means out of memory.
    pub fn copy(&self, alloc: Global) -> Result<CommandTurn, Memory>
        ensures { IfOk result (λ t. t ≡ self.now) }
    {
        Ok(CommandTurn {
            command: self.command,
            keys: self.keys.copy(alloc)?,
        })
    }

    /// Whether each key that the command needs is there.
    pub fn has_needed(&self) -> bool
        ensures { result ≡ has_needed self.now }
    {
        let needs = self.command.name.needs();
        (self.command.i.is_some() || !needs.i)
            && (self.command.d.is_some() || !needs.d)
            && (self.keys.rule.is_some() || !needs.rule)
            && (self.keys.pattern.is_some() || !needs.pattern)
    }

    /// Whether each key that the command needs is there, and its instances are of so many servers.
    pub fn fits(&self, servers: u32) -> bool
        ensures { result ≡ fits servers self.now }
    {
        self.has_needed()
            && is_within(self.command.i, servers)
            && is_within(self.command.d, servers)
    }
}
