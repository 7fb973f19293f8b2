//! The scenario that threads run.

ghost use Rattle.std.specs.Prelude.{◌≡◌, IfOk, IfSome, Err};
ghost use Rattle.live_calls.specs.Prelude.{Consumes, Gives, IsScenario, OfRead, ReadsAs, Rose, fault_of};
ghost use Rattle.live_calls.specs.Reads.{live_scenario, one_node};

use crate::orch_base::Source;
use crate::scenario_values::{FaultCode, ReadFault, holds, under};
use crate::scenarios_items::Scenario;
use std::alloc::Global;
use top_call::{Stop, scenario_from, stop_by};

// Nothing, if there is one orchestrator.
#[tactic(auto, using(crate::proofs::Prelude::gives_under))]
fn one_node(alloc: Global, nodes: u32) -> Result<(), ReadFault>
    ensures { Gives (λ _. tt) fault_of result (one_node nodes) }
{
    under(
        alloc,
        b"nodes",
        holds(alloc, FaultCode::NodeTurn, nodes == 1),
    )
}

/// Reads the source to its end: the scenario of one orchestrator that its bytes are, or their fault. That there are
/// several is met after all other faults.
pub(crate) fn live_scenario_from<S: Source>(alloc: Global, source: &mut S) -> Result<Scenario, Stop>
    ensures read { OfRead (S.left source.old) (λ bytes. ReadsAs (live_scenario bytes) result) }
    ensures sound { IfOk result IsScenario }
    ensures consumed { IfOk result (λ _.
        IfSome (S.left source.old) (λ bytes.
        Consumes (S.left source.old) (S.left source.new) bytes)) }
    ensures source { result ≡ Err Stop.Source → Rose (S.faults source.old) (S.faults source.new) }
{
    let scenario = scenario_from(alloc, source)?;
    match one_node(alloc, scenario.nodes) {
        Ok(()) => Ok(scenario),
        Err(fault) => Err(stop_by(fault)),
    }
}
