//! The labels of the servers' clusters.

ghost use Rattle.std.specs.Prelude.{◌≡◌, IfOk, slice_get};
ghost use Rattle.scenario_servers.specs.Prelude.{printed};
ghost use Rattle.scenario_servers.specs.Labels.{labels_of};
ghost use Rattle.scenario_servers.specs.Openings.{label_at, label_of, own_label, root_in, source_in};

use crate::Given;
use crate::orch_base::{Memory, Name, OwnedText};
use std::alloc::Global;

fn source_in(given: &[Given], n: usize) -> Option<u32>
    ensures { result ≡ source_in (slice_get given.now n) }
{
    let one = given.get(n)?;
    Some(one.source?.0)
}

// The server at the top of the sources above one. Each is followed once at most.
#[tactic(auto, using(openings::proofs::Chains::root_steps))]
fn root_in(given: &[Given], n: usize) -> usize
    ensures { result ≡ root_in given.now n }
{
    let mut at = n;
    for _ in 0..given.len() {
        match source_in(given, at) {
            Some(m) => at = m as usize,
            None => return at,
        }
    }
    at
}

/// A name as it is printed, HOST:PORT. `Err` means out of memory.
#[tactic(auto, using(crate::proofs::Prelude::printed_is_utf8))]
pub fn printed_name(alloc: Global, name: &Name) -> Result<OwnedText, Memory>
    ensures { IfOk result (λ l. l ≡ printed name.now) }
{
    let mut text = Vec::new(alloc);
    name.print(&mut text)?;
    Ok(OwnedText::new(String::from_utf8(text).unwrap()))
}

fn own_label(alloc: Global, given: &Given) -> Result<OwnedText, Memory>
    ensures { IfOk result (λ l. l ≡ own_label given.now) }
{
    match &given.identity.cluster {
        Some(label) => label.copy(alloc),
        None => printed_name(alloc, &given.identity.name),
    }
}

fn root_label(alloc: Global, given: &[Given], n: usize) -> Result<OwnedText, Memory>
    ensures { IfOk result (λ l. l ≡ label_at (slice_get given.now (root_in given.now n))) }
{
    match given.get(root_in(given, n)) {
        Some(root) => own_label(alloc, root),
        None => Ok(OwnedText::new(String::new(alloc))),
    }
}

// The label that is given, or that of the root.
fn label_of(alloc: Global, given: &[Given], n: usize, one: &Given) -> Result<OwnedText, Memory>
    ensures { IfOk result (λ l. l ≡ label_of given.now n one.now) }
{
    match &one.identity.cluster {
        Some(label) => label.copy(alloc),
        None => root_label(alloc, given, n),
    }
}

/// The label of each server's cluster, in order. The time is that of the servers, squared.
pub(crate) fn labels_of(alloc: Global, given: &[Given]) -> Result<Vec<OwnedText>, Memory>
    ensures { IfOk result (λ v. v.items ≡ labels_of given.now) }
{
    let mut labels = Vec::with_capacity(alloc, given.len())?;
    for (n, one) in given.iter().enumerate() {
        labels.push(label_of(alloc, given, n, one)?)?;
    }
    Ok(labels)
}
