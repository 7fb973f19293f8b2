//! An audit with more recoveries after its own.

ghost use Rattle.std.specs.Prelude.{◌≡◌, ◌<◌, ◌≤◌, ◌^◌, ◌+◌, ◌-◌, All, IfOk, OnOk};
ghost use Rattle.audit_log.specs.Apart.{MayBegin};
ghost use Rattle.audit_log.specs.Audits.{begun, may_begin};
ghost use Rattle.audit_log.specs.Extended.{either_held};

use crate::Memory;
use crate::audit::Audit;
use crate::held::Held;
use crate::orch_base::Moment;
use kept_rows::Recovery;
use std::alloc::Global;
use std::marker::Model;

// What two parts of an audit answer, the second one after the first.
fn either_held(first: Result<u64, Held>, second: Result<u64, Held>) -> Result<u64, Held>
    ensures { result ≡ either_held first second }
{
    match first {
        Err(Held::Unended(id)) => Err(Held::Unended(id)),
        Err(Held::Blocked { id, until }) => match second {
            Ok(_) => Err(Held::Blocked { id, until }),
            Err(held) => Err(held),
        },
        Ok(_) => second,
    }
}

/// An audit with the recoveries that begin after its own. Nothing of it is copied or changed.
#[derive(Drop)]
pub struct Extended<'a> {
    audit: &'a Audit,
    more: Audit,
}

impl<'a> Model for Extended<'a> {
    ghost use Rattle.audit_log.specs.Audits.{AuditRoom};
    ghost use Rattle.audit_log.specs.Extended.{extended};

    ghost Value = { AuditRoom };

    ghost view = { λ e. record {
      audit = extended e.audit.now.audit e.more.audit;
      spare = e.more.spare;
    } };
}

impl<'a> Extended<'a> {
    /// An audit with nothing more. `Err` means out of memory.
    pub fn of(alloc: Global, audit: &'a Audit) -> Result<Extended<'a>, Memory>
        ensures { IfOk result (λ e. e.audit ≡ audit.now.audit) }
    {
        // the proof learns from this that the next id is at least 1
        let _ = audit.recoveries();
        let more = Audit::make(Vec::new(alloc), audit.next());
        Ok(Extended { audit, more })
    }

    /// The id that the next recovery gets.
    pub fn next(&self) -> u64
        ensures { result ≡ self.now.audit.next }
    {
        self.more.next()
    }

    /// The id of a recovery of a cluster that begins now, or what holds it back, as `Audit::may_begin` answers. Moments
    /// are at most 2^63. It takes no memory.
    pub fn may_begin(&self, cluster: &str, now: Moment) -> Result<u64, Held>
        requires { All (λ r. r.begun.0 ≤ 2 ^ 63) self.now.audit.recoveries }
        ensures { result ≡ may_begin self.now.audit cluster.now now.0 }
    {
        either_held(
            self.audit.may_begin(cluster, now),
            self.more.may_begin(cluster, now),
        )
    }

    /// Makes room for one more recovery. `Err` means out of memory.
    pub fn reserve(&mut self) -> Result<(), Memory>
        ensures ok { OnOk result (1 ≤ self.new.spare) }
        ensures audit { self.new.audit ≡ self.old.audit }
    {
        self.more.reserve()
    }

    /// Begins a recovery for which there is room. `may_begin` gave its id, which is below 2^64 - 1, and its block
    /// period is at most 1,000,000,000 seconds. It takes no memory.
    pub fn begin(&mut self, r: Recovery)
        requires spare { 1 ≤ self.old.spare }
        requires may { MayBegin self.old.audit r }
        requires room { r.id < 2 ^ 64 - 1 }
        ensures audit { self.new.audit ≡ begun self.old.audit r }
        ensures spare { self.new.spare + 1 ≡ self.old.spare }
    {
        self.more.begin(r);
    }
}
