//! What holds of kept rows and the book.

ghost use Rattle.std.specs.Prelude.{◌≡◌, ◌+◌, ◌-◌, ◌<◌, ◌≤◌, ◌^◌, ℕ, All, Bool, true, length, map, List, Option};
ghost use Rattle.opening_book.specs.Prelude.{AuditState, BookState, Change, IsInRange, IsRising, Moment as AMoment, Recovery, Row, Rule as ARule, Settings, World as AWorld};
ghost use Rattle.opening_book.specs.Prelude.{acking};
ghost use Rattle.opening_book.specs.Prelude.{acknowledged, after_change, changed, changed_by, closed, fits, put_recovery};
ghost use Rattle.opening_book.specs.Audits.{last_id};
ghost use Rattle.opening_book.specs.Counting.{counted, greatest_id, last_read, loaded};
ghost use Rattle.opening_book.specs.Following.{AreShort, Follow, FollowAudit, FollowOnceLoaded, IsIdInRange};
ghost use Rattle.opening_book.specs.Opening.{after_opening, blocks_given, interrupting, is_opening_change, loading, opened_book, opening_changes};
ghost use Rattle.opening_book.specs.Reads.{AreReadWithin};

/// Kept rows follow the book that is loaded of them. They go on to do so after each change of both that the book takes,
/// at the opening and later. Under each table and key for which the book has a row that row is kept. Under any other of
/// its tables only rows that don't count are kept.
pub fn kept_rows_follow_the_book()
    ensures loaded { (settings : List Settings) (last : ℕ) (rows : List Row)
        → length settings < 2 ^ 32 → IsRising rows → Follow rows (loaded settings last rows) }
    ensures changed { (rows : List Row) (b : BookState) (c : Change) → Follow rows b
        → fits (length b.names) c ≡ true → IsInRange c
        → Follow (changed_by rows c) (after_change b c) }
    ensures opening { (rows : List Row) (b : BookState) (c : Change) → Follow rows b
        → is_opening_change (length b.names) c ≡ true → IsInRange c → IsIdInRange c
        → Follow (changed_by rows c) (after_opening b c) }
{}

/// Kept rows follow the audit that is loaded of them, at an opening and at a restart, once what the load keeps is kept.
/// That is each recovery whose row has no block period, with its cluster's, and each unended one, as interrupted. They
/// go on to do so after each change of the book that is kept, after each end of the unended recoveries, and after each
/// acknowledgement. Under each id of which the audit has a recovery that recovery is kept. Under any other id only what
/// doesn't count is kept.
pub fn kept_rows_follow_the_audit()
    ensures opened { (period : List ℕ → ℕ) (servers : ℕ) (rows : List Row) (at : AMoment) →
        AreShort period → servers ≤ 2 ^ 32 → IsRising rows →
        FollowOnceLoaded period servers (last_id rows + 1) greatest_id rows at }
    ensures loaded { (period : List ℕ → ℕ) (servers next : ℕ) (rows : List Row) (at : AMoment) →
        AreShort period → servers ≤ 2 ^ 32 → 1 ≤ next → next ≤ 2 ^ 64 → IsRising rows →
        FollowOnceLoaded period servers next (next - 1) rows at }
    ensures book { (servers : ℕ) (rows : List Row) (a : AuditState) (c : Change) →
        servers ≤ 2 ^ 32 → FollowAudit servers rows a → fits servers c ≡ true → IsInRange c →
        FollowAudit servers (changed_by rows c) a }
    ensures closed { (servers : ℕ) (rows : List Row) (a : AuditState) (at : AMoment) →
        FollowAudit servers rows a →
        FollowAudit servers (changed rows (interrupting a at)) (closed a at) }
    ensures acknowledged { (servers : ℕ) (rows : List Row) (a : AuditState) (cluster : List ℕ) →
        FollowAudit servers rows a →
        FollowAudit servers (changed rows (map put_recovery (acking a cluster)))
        (acknowledged a cluster) }
{}

/// Changes of recoveries, and block periods that are given to them, leave the book's rows.
pub fn recoveries_are_no_rows_of_the_book()
    ensures put { (rows : List Row) (b : BookState) (rs : List Recovery)
        → All (λ r. r.id < 2 ^ 64) rs →
        Follow rows b → Follow (changed rows (map put_recovery rs)) b }
    ensures given { (period : List ℕ → ℕ) (rows given : List Row) (b : BookState) (servers last : ℕ)
        → servers ≤ 2 ^ 32 → last < 2 ^ 64 →
        Follow rows b → Follow (changed rows (blocks_given period (counted servers last given))) b }
{}

/// After an opening no instance has a greater read number than the count of readings, whatever rows were handed back.
/// The count begins at the greatest number of those that count. An instance that the opening adds was never read.
pub fn openings_count_readings()
    ensures loaded { (settings : List Settings) (last : ℕ) (rows : List Row) →
        AreReadWithin (last_read (counted (length settings) last rows))
        (loaded settings last rows) }
    ensures opened { (reads : ℕ) (w : AWorld) (at : AMoment) (b : BookState) (known : List Bool)
        (rules : List (Option ARule)) (period : List ℕ → ℕ) (rows : List Row) (a : AuditState) →
        AreReadWithin reads b →
        AreReadWithin reads (opened_book b
        (opening_changes w at b known rules (loading period rows a at))) }
{}
