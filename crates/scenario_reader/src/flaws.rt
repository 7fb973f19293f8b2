//! The position of a flaw in the text.

ghost use Rattle.std.specs.Prelude.{◌≡◌, ◌∷◌, codes, decimal};
ghost use Rattle.scenario_reader.specs.Prelude.{Gives, fault_of};
ghost use Rattle.scenario_reader.specs.ReadOpenings.{code_of, fails_at, flaw_fails, keys_of};

use crate::openings::{Flaw, Opening};
use crate::orch_base::ServerNo;
use opening_checks::FlawedValue;
use scenario_values::{FaultCode, ReadFault, fails, under, under_item};
use std::alloc::Global;

fn code_of(flaw: Flaw) -> FaultCode
    ensures { result ≡ code_of flaw }
{
    match flaw {
        Flaw::BothGiven => FaultCode::BothGiven,
        Flaw::SourceNotLogging => FaultCode::SourceNotLogging,
        Flaw::Loop => FaultCode::Loop,
        Flaw::OtherCluster => FaultCode::OtherCluster,
        Flaw::TooMany => FaultCode::TooMany,
        Flaw::BadPlace => FaultCode::BadPlace,
        Flaw::NotKin => FaultCode::NotKin,
    }
}

// A fault at a value of a server.
#[tactic(auto, using(scenario_values::proofs::Unders::gives_under))]
fn fails_in(alloc: Global, code: FaultCode, value: FlawedValue) -> Result<Opening, ReadFault>
    ensures { Gives (λ o. o) fault_of result (fails_at code (keys_of value)) }
{
    let read: Result<Opening, ReadFault> = Err(fails(alloc, code));
    match value {
        FlawedValue::Source => under(alloc, b"source", read),
        FlawedValue::Executed => under(alloc, b"executed", read),
        FlawedValue::At => under(alloc, b"at", read),
        FlawedValue::Read => under(alloc, b"read", read),
        FlawedValue::History => under(alloc, b"history", read),
        FlawedValue::Origin(k) => {
            let part = under_item(alloc, k, under(alloc, b"0", read));
            under(alloc, b"history", part)
        }
        FlawedValue::Flushes => under(alloc, b"flushes", read),
        FlawedValue::Flush(k) => under(alloc, b"flushes", under_item(alloc, k, read)),
        FlawedValue::Purged => under(alloc, b"purged", read),
    }
}

/// The fault that a flaw of a server is, at its place in the text of the servers.
#[tactic(auto, using(scenario_values::proofs::Unders::gives_under))]
pub(crate) fn flawed(
    alloc: Global,
    flaw: Flaw,
    n: ServerNo,
    value: FlawedValue,
) -> Result<Opening, ReadFault>
    ensures { Gives (λ o. o) fault_of result
        (flaw_fails (record { flaw = flaw; server = n.0; value = value })) }
{
    let server = under_item(alloc, n.0 as usize, fails_in(alloc, code_of(flaw), value));
    under(alloc, b"servers", server)
}
