//! What the hooks of recoveries that begin get.

ghost use Rattle.std.specs.Prelude.{◌≡◌, IfOk, map};
ghost use Rattle.command_outcomes.specs.HookTelling.{hooks_by, told_of, with_told};

use crate::Configuration;
use crate::hook_texts::Values;
use crate::instance_keeper_items::Book;
use crate::orch_base::{Code, Memory, Name, OwnedText, ServerNo};
use crate::recovery_hooks::HookRun;
use recovery_core::Begun;
use std::alloc::Global;

fn text_of(alloc: Global, text: &str) -> Result<OwnedText, Memory>
    ensures { IfOk result (λ t. t ≡ text.now) }
{
    Ok(OwnedText::new(String::from_str(alloc, text)?))
}

fn told_of(
    alloc: Global,
    configuration: &Configuration,
    server: ServerNo,
    failed: &Name,
    cluster: &str,
    code: Code,
) -> Result<Values, Memory>
    ensures { IfOk result (λ v. v ≡ told_of configuration.now failed.now cluster.now code) }
{
    Ok(Values {
        failure_type: text_of(alloc, code.word())?,
        failed: failed.copy(alloc)?,
        cluster: text_of(alloc, cluster)?,
        alias: text_of(alloc, configuration.aliases.alias_at(server, cluster))?,
        successor: None,
        successful: false,
    })
}

fn hooks_of(
    alloc: Global,
    configuration: &Configuration,
    book: &Book,
    begun: &Begun,
) -> Result<Option<HookRun>, Memory>
    ensures { IfOk result (λ h. h ≡ hooks_by configuration.now book.now begun.now begun.now.code) }
{
    let Some(code) = begun.code() else {
        return Ok(None);
    };
    let entry = begun.entry();
    let Some(failed) = book.names().get(entry.failed.0 as usize) else {
        return Ok(None);
    };
    let (server, cluster) = (entry.failed, entry.cluster.as_str());
    let told = told_of(alloc, configuration, server, failed, cluster, code)?;
    Ok(Some(HookRun::begin(&configuration.hooks, told)?))
}

/// The recovery with its hooks, which get its failed server.
pub(crate) fn with_told(
    alloc: Global,
    configuration: &Configuration,
    book: &Book,
    begun: Begun,
) -> Result<Begun, Memory>
    ensures { IfOk result (λ x. x ≡ with_told configuration.now book.now begun) }
{
    let hooks = hooks_of(alloc, configuration, book, &begun)?;
    Ok(begun.with_hooks(hooks))
}

/// Each of the recoveries so.
pub(crate) fn all_told(
    alloc: Global,
    configuration: &Configuration,
    book: &Book,
    begun: Vec<Begun>,
) -> Result<Vec<Begun>, Memory>
    ensures { IfOk result (λ v. v.items
        ≡ map (with_told configuration.now book.now) begun.items) }
{
    let mut told = Vec::with_capacity(alloc, begun.len())?;
    for one in begun {
        told.push(with_told(alloc, configuration, book, one)?)?;
    }
    Ok(told)
}
