//! What holds of an audit, over its definitions alone.

ghost use Rattle.std.specs.Prelude.{◌≡◌, ◌≤◌, ◌<◌, ℕ, All, Any, Err, List, Ok, false};
ghost use Rattle.kept_rows.specs.Rows.{IsRising};
ghost use Rattle.kept_rows.specs.declared.recovery.Recovery.{Recovery};
ghost use Rattle.kept_rows.specs.declared.row.Row.{Row};
ghost use Rattle.kept_rows.specs.OrchBase.declared.recovery.Ending.{Ending};
ghost use Rattle.kept_rows.specs.OrchBase.declared.server.Moment.{Moment as AMoment};
ghost use Rattle.audit_log.specs.Apart.{IsApart, IsClear, IsFree, IsHeldBack, MayBegin};
ghost use Rattle.audit_log.specs.Audits.{acknowledged, acknowledged_at, begun, closed, ended, is_open, is_unended, longest_block, may_begin, AuditState, IsAudit};
ghost use Rattle.audit_log.specs.Loading.{recoveries_in};
ghost use Rattle.audit_log.specs.declared.held.Held.{Held as AHeld};
ghost use Rattle.audit_log.specs.declared.held.Held.TheVariants as held;

/// A recovery of a cluster may begin exactly if each one of the cluster is ended, and is acknowledged or began at least
/// its own block period ago. It gets the next id. If it may not, the answer names a recovery that holds it back. If
/// that one blocks it, no later one does.
pub fn begins_are_apart()
    ensures apart { (a : AuditState) (cluster : List ℕ) (now id : ℕ) →
        may_begin a cluster now ≡ Ok id → (id ≡ a.next) × All (IsClear cluster now) a.recoveries }
    ensures exactly { (a : AuditState) (cluster : List ℕ) (now : ℕ) →
        All (IsClear cluster now) a.recoveries → may_begin a cluster now ≡ Ok a.next }
    ensures held { (a : AuditState) (cluster : List ℕ) (now : ℕ) (h : AHeld) →
        may_begin a cluster now ≡ Err h → Any (IsHeldBack cluster now h) a.recoveries }
    ensures last { (a : AuditState) (cluster : List ℕ) (now id : ℕ) (until : AMoment) →
        IsAudit a → may_begin a cluster now ≡ Err (held.Blocked id until) →
        All (λ r. id < r.id → IsFree cluster now r) a.recoveries }
{}

/// Each cluster has at most one unended recovery, and ids rise below the next. So it stays when a recovery that may
/// begin is begun, when one is ended, and when one or a cluster's are acknowledged; and so it is after each restart.
pub fn audits_stay_apart()
    ensures begun { (a : AuditState) (r : Recovery) →
        MayBegin a r → IsApart a → IsApart (begun a r) }
    ensures ended { (a : AuditState) (id : ℕ) (at : AMoment) (outcome : Ending) →
        is_open outcome ≡ false → IsApart a → IsApart (ended a id at outcome) }
    ensures acknowledged { (a : AuditState) (cluster : List ℕ) →
        IsApart a → IsApart (acknowledged a cluster) }
    ensures acknowledged_at { (a : AuditState) (id : ℕ) →
        IsApart a → IsApart (acknowledged_at a id) }
    ensures closed { (a : AuditState) (at : AMoment) → IsAudit a → IsApart (closed a at) }
{}

/// After a restart no recovery is unended.
pub fn restarts_end_recoveries()
    ensures { (a : AuditState) (at : AMoment) →
        All (λ r. is_unended r ≡ false) (closed a at).recoveries }
{}

/// The recoveries of kept rows make an audit, if their ids are from 1 on and below the next id, and their block periods
/// aren't too long.
pub fn kept_recoveries_make_an_audit()
    ensures { (period : List ℕ → ℕ) (rows : List Row) (next : ℕ) → IsRising rows → 1 ≤ next →
        All (λ r. (1 ≤ r.id) × (r.id < next) × (r.block ≤ longest_block))
        (recoveries_in period rows) →
        IsAudit (record { recoveries = recoveries_in period rows; next = next }) }
{}
