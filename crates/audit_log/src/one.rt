//! Tests of one recovery.

ghost use Rattle.std.specs.Prelude.{◌≡◌};
ghost use Rattle.audit_log.specs.Audits.{is_blocking, is_new, is_of, is_unended};
ghost use Rattle.audit_log.specs.Index.{is_done};

use crate::orch_base::{Ending, Moment};
use kept_rows::Recovery;

pub(crate) fn is_of(recovery: &Recovery, cluster: &str) -> bool
    ensures { result ≡ is_of cluster.now recovery.now }
{
    recovery.cluster.as_str().as_bytes() == cluster.as_bytes()
}

/// Whether a recovery isn't ended: it has no moment of its end, or no outcome. It takes no memory.
pub fn is_unended(recovery: &Recovery) -> bool
    ensures { result ≡ is_unended recovery.now }
{
    recovery.ended.is_none() || recovery.outcome == Ending::Unended
}

pub(crate) fn is_blocking(recovery: &Recovery, now: Moment) -> bool
    ensures { result ≡ is_blocking now.0 recovery.now }
{
    !recovery.acked && now.0.saturating_sub(recovery.begun.0) < recovery.block
}

pub(crate) fn is_new(recovery: &Recovery, cluster: &str) -> bool
    ensures { result ≡ is_new cluster.now recovery.now }
{
    is_of(recovery, cluster) && !recovery.acked
}

/// Whether it is acknowledged and ended.
pub(crate) fn is_done(recovery: &Recovery) -> bool
    ensures { result ≡ is_done recovery.now }
{
    recovery.acked && !is_unended(recovery)
}
