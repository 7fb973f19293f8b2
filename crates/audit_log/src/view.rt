//! What the begin of a recovery asks of an audit.

ghost use Rattle.std.specs.Prelude.{◌≡◌, ◌≤◌, ◌^◌, All};
ghost use Rattle.audit_log.specs.Audits.{may_begin, AuditState};

use crate::audit::Audit;
use crate::extended::Extended;
use crate::held::Held;
use crate::orch_base::Moment;

/// An audit, as the begin of a recovery sees it.
pub trait AuditView {
    ghost seen: { Self → AuditState };

    /// The id of a recovery of a cluster that begins now, or what holds it back, as `Audit::may_begin` answers. Moments
    /// are at most 2^63. It takes no memory.
    fn answer(&self, cluster: &str, now: Moment) -> Result<u64, Held>
        requires { All (λ r. r.begun.0 ≤ 2 ^ 63) (seen self.now).recoveries }
        ensures { result ≡ may_begin (seen self.now) cluster.now now.0 };

    /// The id that the next recovery gets.
    fn next_id(&self) -> u64
        ensures { result ≡ (seen self.now).next };
}

impl AuditView for Audit {
    ghost seen = { λ a. a.audit };

    fn answer(&self, cluster: &str, now: Moment) -> Result<u64, Held> {
        self.may_begin(cluster, now)
    }

    fn next_id(&self) -> u64 {
        self.next()
    }
}

impl<'a> AuditView for Extended<'a> {
    ghost seen = { λ e. e.audit };

    fn answer(&self, cluster: &str, now: Moment) -> Result<u64, Held> {
        self.may_begin(cluster, now)
    }

    fn next_id(&self) -> u64 {
        self.next()
    }
}
