//! How a recovery's entry in the audit ends.

ghost use Rattle.std.specs.Prelude.{◌≡◌};
ghost use Rattle.recovery_core.specs.Prelude.{is_takeover};
ghost use Rattle.recovery_core.specs.Endings.{done_with, ending_with, is_acknowledged_for};

use crate::operations_items::JobStep;
use crate::orch_base::{CauseName, Ending, ServerNo};
use recovery_plans::Purpose;

fn done_with(promoted: Option<ServerNo>) -> Ending
    ensures { result ≡ done_with promoted }
{
    match promoted {
        Some(no) => Ending::Promoted(no),
        None => Ending::Failed(CauseName::NoCandidate),
    }
}

/// How the entry of a recovery with this promoted server ends after a turn that came to this step. While the recovery
/// goes on it doesn't end. If it is done, it ends with the promoted server, or without a candidate if none was
/// promoted. If it failed, it ends with the cause's name. It takes no memory.
pub fn ending_of(promoted: Option<ServerNo>, step: &JobStep) -> Option<Ending>
    ensures { result ≡ ending_with promoted step.now }
{
    match step {
        JobStep::Going => None,
        JobStep::Done(_) => Some(done_with(promoted)),
        JobStep::Failed(cause, _) => Some(Ending::Failed(cause.name())),
    }
}

fn is_takeover(purpose: Purpose) -> bool
    ensures { result ≡ is_takeover purpose }
{
    match purpose {
        Purpose::Regroup | Purpose::Master | Purpose::Intermediate(_) => false,
        Purpose::Takeover(_) => true,
    }
}

/// Whether the entry of a recovery of this purpose is acknowledged in the turn that came to this step, as that of a
/// takeover is which is done. It takes no memory.
pub fn is_acknowledged(purpose: Purpose, step: &JobStep) -> bool
    ensures { result ≡ is_acknowledged_for purpose step.now }
{
    match step {
        JobStep::Going | JobStep::Failed(_, _) => false,
        JobStep::Done(_) => is_takeover(purpose),
    }
}
