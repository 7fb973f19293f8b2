//! The scenario that a source has.

ghost use Rattle.std.specs.Prelude.{◌≡◌, IfOk, IfSome, Err};
ghost use Rattle.top_call.specs.Prelude.{Consumes, IsScenario, Rose, scenario_in};
ghost use Rattle.top_call.specs.Reads.{OfRead, ReadsAs, stop_by};

use crate::orch_base::{NotRead, Source, read_all};
use crate::scenarios_items::Scenario;
use scenario_reader::{Fault, ReadFault, read, too_long};
use std::alloc::Global;

/// Why there is no scenario.
#[derive(Drop)]
pub enum Stop {
    /// Out of memory.
    Memory,
    /// The source failed.
    Source,
    /// What was read has this fault.
    Fault(Fault),
}

/// What stops if reading has this fault.
pub fn stop_by(fault: ReadFault) -> Stop
    ensures { result ≡ stop_by fault }
{
    match fault {
        ReadFault::Memory => Stop::Memory,
        ReadFault::Fault(fault) => Stop::Fault(fault),
    }
}

// The scenario that these bytes are.
fn scenario_in(alloc: Global, bytes: &[u8]) -> Result<Scenario, Stop>
    ensures read { ReadsAs (scenario_in bytes.now) result }
    ensures sound { IfOk result IsScenario }
    ensures not_source { result ≡ Err Stop.Source → ⊥ }
{
    match read(alloc, bytes) {
        Ok(scenario) => Ok(scenario),
        Err(fault) => Err(stop_by(fault)),
    }
}

/// Reads the source to its end: the scenario that its bytes are, or their fault.
pub fn scenario_from<S: Source>(alloc: Global, source: &mut S) -> Result<Scenario, Stop>
    ensures read { OfRead (S.left source.old) (λ bytes.
        ReadsAs (scenario_in bytes) result) }
    ensures sound { IfOk result IsScenario }
    ensures consumed { IfOk result (λ _.
        IfSome (S.left source.old) (λ bytes.
        Consumes (S.left source.old) (S.left source.new) bytes)) }
    ensures source { result ≡ Err Stop.Source → Rose (S.faults source.old) (S.faults source.new) }
{
    match read_all(alloc, source) {
        Ok(bytes) => scenario_in(alloc, &bytes),
        Err(NotRead::Memory) => Err(Stop::Memory),
        Err(NotRead::Source) => Err(Stop::Source),
        Err(NotRead::TooLong) => Err(stop_by(too_long(alloc))),
    }
}
