//! The values that a hook gets from a recovery.

ghost use Rattle.std.specs.Prelude.{◌≡◌, find, IfOk, option_copied, string_bytes};
ghost use Rattle.std.specs.Str.{bytes_eq};
ghost use Rattle.hook_texts.specs.Expanded.{host_in, placeholder_named, port_in, word_text};

use itoa::Buffer;
use orch_base::{Memory, Name, OwnedText};
use std::alloc::Global;

/// A word in braces that is a value of the recovery (orchestrator's documentation, "Hooks", "Parameters").
#[derive(Clone, Copy, Debug, PartialEq, Eq)]
pub enum Placeholder {
    /// `{failureType}`: the analysis of the failed server when the recovery began.
    FailureType,
    /// `{failedHost}`: the failed server's host.
    FailedHost,
    /// `{failedPort}`: the failed server's port.
    FailedPort,
    /// `{failureCluster}`: the label of its cluster.
    FailureCluster,
    /// `{failureClusterAlias}`: the alias of its cluster.
    FailureClusterAlias,
    /// `{successorHost}`: the promoted server's host.
    SuccessorHost,
    /// `{successorPort}`: the promoted server's port.
    SuccessorPort,
    /// `{isSuccessful}`: `true` or `false`.
    IsSuccessful,
}

const PLACEHOLDERS: [Placeholder; 8] = [
    Placeholder::FailureType,
    Placeholder::FailedHost,
    Placeholder::FailedPort,
    Placeholder::FailureCluster,
    Placeholder::FailureClusterAlias,
    Placeholder::SuccessorHost,
    Placeholder::SuccessorPort,
    Placeholder::IsSuccessful,
];

impl Placeholder {
    // The name between its braces.
    fn word(self) -> &'static str
        ensures { result.now ≡ word_text self }
    {
        match self {
            Placeholder::FailureType => "failureType",
            Placeholder::FailedHost => "failedHost",
            Placeholder::FailedPort => "failedPort",
            Placeholder::FailureCluster => "failureCluster",
            Placeholder::FailureClusterAlias => "failureClusterAlias",
            Placeholder::SuccessorHost => "successorHost",
            Placeholder::SuccessorPort => "successorPort",
            Placeholder::IsSuccessful => "isSuccessful",
        }
    }

    fn is_named(self, word: &str) -> bool
        ensures { result ≡ bytes_eq (word_text self) word.now }
    {
        self.word().as_bytes() == word.as_bytes()
    }
}

fn first_named<'a>(all: &'a [Placeholder], word: &str) -> Option<&'a Placeholder>
    ensures { option_copied result ≡ find (λ p. bytes_eq (word_text p) word.now) all.now }
{
    all.iter().find(|p| p.is_named(word))
}

/// The placeholder with this word between its braces.
pub(crate) fn placeholder_named(word: &str) -> Option<Placeholder>
    ensures { result ≡ placeholder_named word.now }
{
    first_named(&PLACEHOLDERS, word).copied()
}

/// The values that the hooks of a recovery get.
pub struct Values {
    /// The analysis of the failed server when the recovery began, by orchestrator's name.
    pub failure_type: OwnedText,
    /// The failed server.
    pub failed: Name,
    /// The label of its cluster.
    pub cluster: OwnedText,
    /// The alias of its cluster; empty if it has none.
    pub alias: OwnedText,
    /// The promoted server; only a hook after a recovery that is done has one.
    pub successor: Option<Name>,
    /// Whether the recovery is done.
    pub successful: bool,
}

impl Drop for Values {
    fn drop(self) {
        let Values {
            failure_type: _failure_type,
            failed: _failed,
            cluster: _cluster,
            alias: _alias,
            successor: _successor,
            successful: _,
        } = self;
    }
}

// The host of a server, if there is one.
fn host_in(alloc: Global, name: Option<&Name>) -> Result<String, Memory>
    ensures { IfOk result (λ s. string_bytes s ≡ host_in (option_copied name.entry)) }
{
    match name {
        Some(name) => String::from_str(alloc, name.host()),
        None => Ok(String::new(alloc)),
    }
}

// The port of a server, if there is one.
fn port_in(alloc: Global, name: Option<&Name>) -> Result<String, Memory>
    ensures { IfOk result (λ s. string_bytes s ≡ port_in (option_copied name.entry)) }
{
    match name {
        Some(name) => {
            let mut buffer = Buffer::new();
            String::from_str(alloc, buffer.format(name.port()))
        }
        None => Ok(String::new(alloc)),
    }
}

impl Values {
    ghost use Rattle.std.specs.Prelude.{◌≡◌, IfOk, string_bytes};
    ghost use Rattle.hook_texts.specs.Expanded.{value_of};

    /// What a placeholder is.
    pub(crate) fn value(&self, alloc: Global, placeholder: Placeholder) -> Result<String, Memory>
        ensures { IfOk result (λ s. string_bytes s ≡ value_of self.now placeholder) }
    {
        match placeholder {
            Placeholder::FailureType => String::from_str(alloc, self.failure_type.as_str()),
            Placeholder::FailedHost => host_in(alloc, Some(&self.failed)),
            Placeholder::FailedPort => port_in(alloc, Some(&self.failed)),
            Placeholder::FailureCluster => String::from_str(alloc, self.cluster.as_str()),
            Placeholder::FailureClusterAlias => String::from_str(alloc, self.alias.as_str()),
            Placeholder::SuccessorHost => host_in(alloc, self.successor.as_ref()),
            Placeholder::SuccessorPort => port_in(alloc, self.successor.as_ref()),
            Placeholder::IsSuccessful if self.successful => String::from_str(alloc, "true"),
            Placeholder::IsSuccessful => String::from_str(alloc, "false"),
        }
    }
}
