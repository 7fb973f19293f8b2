//! Names of one value each.

ghost use Rattle.std.specs.Prelude.{◌≡◌};
ghost use Rattle.report_text.specs.Words.{acked_text, mode_text, phase_text, state_text};

use commands::{HookPhase, StateWord};

/// The state of an instance.
pub(crate) fn state_word(state: StateWord) -> &'static [u8]
    ensures { result.now ≡ state_text state }
{
    match state {
        StateWord::Ok => b"ok",
        StateWord::Stopped => b"stopped",
        StateWord::Detached => b"detached",
        StateWord::Unreachable => b"unreachable",
    }
}

/// Read-only or writable.
pub(crate) fn mode_word(read_only: bool) -> &'static [u8]
    ensures { result.now ≡ mode_text read_only }
{
    if read_only { b"ro" } else { b"rw" }
}

/// When a hook runs.
pub(crate) fn phase_word(phase: HookPhase) -> &'static [u8]
    ensures { result.now ≡ phase_text phase }
{
    match phase {
        HookPhase::PreFailover => b"pre_failover",
        HookPhase::PostFailover => b"post_failover",
        HookPhase::PostUnsuccessful => b"post_unsuccessful",
    }
}

/// Whether a recovery is acknowledged.
pub(crate) fn acked_word(acked: bool) -> &'static [u8]
    ensures { result.now ≡ acked_text acked }
{
    if acked { b"acked" } else { b"unacked" }
}
