//! The flaws of one server that are found without memory.

ghost use Rattle.std.specs.Prelude.{◌≡◌, ◌<◌, ◌≤◌, IfSome, None, Some, if◌then◌else◌, is_some, length, slice_get};
ghost use Rattle.opening_checks.specs.Prelude.{PartsInRange, below_itself, both_given, first_met, option_copied, origin_elsewhere, other_cluster};
ghost use Rattle.opening_checks.specs.Prelude.{parts_of, same_cluster, source_not_logging, too_many};
ghost use Rattle.opening_checks.specs.Checks.{server_of, IsToBlame};
ghost use Rattle.opening_checks.specs.ServerTests.{flaw_by, met_by, named_in};
ghost use Rattle.opening_checks.specs.Values.{cluster_value, elsewhere, first_elsewhere, source_elsewhere, value_of};

use crate::fault::FlawedValue;
use crate::orch_base::{Same, ServerNo};
use openings::{Flaw, Part, ServerInit, count_of, parts_of, source_no};

/// What a server is tested for.
#[derive(Clone, Copy)]
pub(crate) enum Test {
    BothGiven,
    SourceNotLogging,
    Loop,
    OtherCluster,
    TooMany,
}

fn source_of<'a>(servers: &'a [ServerInit], init: &ServerInit) -> Option<&'a ServerInit>
    ensures { option_copied result ≡ named_in servers.now init.now.source }
{
    servers.get(init.source?.0 as usize)
}

fn is_both_given(init: &ServerInit) -> bool
    ensures { result ≡ both_given init.now }
{
    init.history.is_some() && init.source.is_some()
}

fn is_source_silent(servers: &[ServerInit], init: &ServerInit) -> bool
    ensures { result ≡ source_not_logging servers.now init.now }
{
    match source_of(servers, init) {
        Some(source) => !source.settings.logs,
        None => false,
    }
}

// Follows at most as many sources as there are servers.
#[tactic(auto, using(crate::proofs::Loops::loop_steps))]
fn is_below_itself(servers: &[ServerInit], n: u32) -> bool
    ensures { result ≡ below_itself servers.now n }
{
    let mut at = n;
    for _ in 0..servers.len() {
        match source_no(servers, at) {
            None => return false,
            Some(m) => {
                if m == n {
                    return true;
                }
                at = m;
            }
        }
    }
    false
}

fn is_same_cluster(init: &ServerInit, other: &ServerInit) -> bool
    ensures { result ≡ same_cluster init.now other.now }
{
    init.settings.cluster.is_same(&other.settings.cluster)
}

fn is_source_elsewhere(servers: &[ServerInit], init: &ServerInit) -> bool
    ensures { result ≡ source_elsewhere servers.now init.now }
{
    match source_of(servers, init) {
        Some(source) => !is_same_cluster(init, source),
        None => false,
    }
}

fn is_elsewhere(servers: &[ServerInit], init: &ServerInit, part: &Part) -> bool
    ensures { result ≡ elsewhere servers.now init.now part.now }
{
    match servers.get(part.origin.0 as usize) {
        Some(origin) => !is_same_cluster(init, origin),
        None => false,
    }
}

// The number of the first part whose origin is of another cluster.
fn first_elsewhere(servers: &[ServerInit], init: &ServerInit) -> Option<usize>
    ensures met { is_some result ≡ origin_elsewhere servers.now init.now }
    ensures first { IfSome result (λ k. k
        ≡ first_elsewhere servers.now init.now 0 (parts_of init.now)) }
{
    let parts = parts_of(init);
    for (k, part) in parts.iter().enumerate() {
        if is_elsewhere(servers, init, part) {
            return Some(k);
        }
    }
    None
}

// The value that is of another cluster.
fn other_cluster(servers: &[ServerInit], init: &ServerInit) -> Option<FlawedValue>
    ensures met { is_some result ≡ other_cluster servers.now init.now }
    ensures value { IfSome result (λ v. v ≡ cluster_value servers.now init.now) }
{
    if is_source_elsewhere(servers, init) {
        return Some(FlawedValue::Source);
    }
    let k = first_elsewhere(servers, init)?;
    Some(FlawedValue::Origin(k))
}

fn has_too_many(servers: &[ServerInit], init: &ServerInit) -> bool
    requires { PartsInRange servers.now }
    ensures { result ≡ too_many servers.now init.now }
{
    match source_of(servers, init) {
        Some(source) => count_of(source) < init.executed,
        None => false,
    }
}

fn when(is_met: bool, value: FlawedValue) -> Option<FlawedValue>
    ensures { result ≡ (if is_met then Some value else None) }
{
    if is_met { Some(value) } else { None }
}

/// The flaw that a test finds.
pub(crate) fn flaw_by(test: Test) -> Flaw
    ensures { result ≡ flaw_by test }
{
    match test {
        Test::BothGiven => Flaw::BothGiven,
        Test::SourceNotLogging => Flaw::SourceNotLogging,
        Test::Loop => Flaw::Loop,
        Test::OtherCluster => Flaw::OtherCluster,
        Test::TooMany => Flaw::TooMany,
    }
}

// The value that is to blame, if a server meets a test.
fn met(servers: &[ServerInit], n: u32, init: &ServerInit, test: Test) -> Option<FlawedValue>
    requires parts { PartsInRange servers.now }
    requires at { slice_get servers.now n ≡ Some init.now }
    ensures met { is_some result ≡ met_by servers.now test n init.now }
    ensures value { IfSome result (λ v. v ≡ value_of servers.now n init.now (flaw_by test)) }
{
    match test {
        Test::BothGiven => when(is_both_given(init), FlawedValue::Source),
        Test::SourceNotLogging => when(is_source_silent(servers, init), FlawedValue::Source),
        Test::Loop => when(is_below_itself(servers, n), FlawedValue::Source),
        Test::OtherCluster => other_cluster(servers, init),
        Test::TooMany => when(has_too_many(servers, init), FlawedValue::Executed),
    }
}

/// The first server that meets a test, and the value of it that is to blame.
pub(crate) fn first_met(servers: &[ServerInit], test: Test) -> Option<(ServerNo, FlawedValue)>
    requires parts { PartsInRange servers.now }
    requires few { length servers.now ≤ 1000 }
    ensures met { server_of result ≡ first_met (met_by servers.now test) 0 servers.now }
    ensures value { IsToBlame servers.now (flaw_by test) result }
{
    for (n, init) in servers.iter().enumerate() {
        if let Some(value) = met(servers, n as u32, init, test) {
            return Some((ServerNo(n as u32), value));
        }
    }
    None
}
