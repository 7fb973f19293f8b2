//! Changes of source by what was seen.

ghost use Rattle.std.specs.Prelude.{◌≡◌, ℕ, List, Option, Some, None, true, is_some};
ghost use Rattle.job_laws.specs.Prelude.{Allowed, Auto, Bridge as ABridge, Cross, Crossing as ACrossing, CrossMatch, Deed, Exchange, Job, JoinsWell};
ghost use Rattle.job_laws.specs.Prelude.{Moment as AMoment, Observation as Reading, Op as AnOp, Safe, Same, ServerNo as Number, Sight as ASight};
ghost use Rattle.job_laws.specs.Prelude.{Stops, World, bridge_at, by_deed, by_match, by_set, can_attach, change_of, crossing_of, match_found};
ghost use Rattle.job_laws.specs.Prelude.{same_again, seen_of};
ghost use Rattle.job_laws.specs.Prelude.cause;
ghost use Rattle.job_laws.specs.Footing.{finds, finds_crossing, footing};
ghost use Rattle.job_laws.specs.Held.{AllShow, IsPurged, IsTried, Spans, attachment_of};
ghost use Rattle.job_laws.specs.Matched.{ArePlaced, matched_in};
ghost use Rattle.job_laws.specs.Sound.{AllBridged};

/// A reattachment that finds what it uses makes an attachment, which is allowed. It joins well in a `Safe` world if
/// what was seen is bridged. So do an attachment anew to a server's own source, and one by a set that was seen.
pub fn crossings_are_well()
    ensures crossing_found { (w : World) (xs : List ASight) (c : ACrossing) (a b : Number) →
        AllShow w xs → finds_crossing (footing w xs) c a b ≡ true →
        is_some (crossing_of xs c a b) ≡ true }
    ensures crossing_allowed { (w : World) (xs : List ASight) (c : ACrossing) (a b : Number)
        (e : Exchange) →
        AllShow w xs → crossing_of xs c a b ≡ Some e → Allowed w e }
    ensures crossing_joins { (w : World) (xs : List ASight) (c : ACrossing) (a b : Number)
        (e : Exchange) →
        Safe w → AllBridged w xs → finds_crossing (footing w xs) c a b ≡ true →
        crossing_of xs c a b ≡ Some e → JoinsWell w e }
    ensures same_allowed { (w : World) (xs : List ASight) (n : Number) (e : Exchange) →
        AllShow w xs → same_again n (seen_of xs n.0) ≡ Some e → Allowed w e }
    ensures same_joins { (w : World) (xs : List ASight) (n : Number) (e : Exchange) → Safe w →
        same_again n (seen_of xs n.0) ≡ Some e → JoinsWell w e }
    ensures auto_allowed { (w : World) (xs : List ASight) (n m : Number) (e : Exchange) →
        finds (footing w xs) (Auto n m) ≡ true → by_set n m (seen_of xs m.0) ≡ Some e →
        Allowed w e }
    ensures auto_joins { (w : World) (xs : List ASight) (n m : Number) (e : Exchange) →
        AllShow w xs → by_set n m (seen_of xs m.0) ≡ Some e → JoinsWell w e }
{}

/// Each change of source that is found by what was seen can be made. The coordinate has its place in the log of the new
/// source. By a set, GTIDs are used and the new source logs.
pub fn found_attachments_can_be_made()
    ensures crossing { (w : World) (xs : List ASight) (c : ACrossing) (a b : Number)
        (e : Exchange) →
        AllShow w xs → crossing_of xs c a b ≡ Some e → can_attach w e ≡ true }
    ensures same { (w : World) (xs : List ASight) (n : Number) (e : Exchange) →
        AllShow w xs → same_again n (seen_of xs n.0) ≡ Some e → can_attach w e ≡ true }
    ensures auto { (w : World) (xs : List ASight) (n m : Number) (e : Exchange) →
        finds (footing w xs) (Auto n m) ≡ true → by_set n m (seen_of xs m.0) ≡ Some e →
        can_attach w e ≡ true }
{}

/// A job that finds what it uses passes over no change of source: each is made, or stops the job by what it is
/// answered.
pub fn held_attachments_are_tried()
    ensures crossing { (w : World) (read : ℕ) (now : AMoment) (j : Job) (rest : List AnOp)
        (c : ACrossing) (a b : Number) →
        AllShow w j.seen → finds (footing w j.seen) (Cross c a b) ≡ true →
        IsTried w j rest a (crossing_of j.seen c a b) (by_deed w read now j rest (Cross c a b)) }
    ensures same { (w : World) (read : ℕ) (now : AMoment) (j : Job) (rest : List AnOp)
        (n : Number) →
        AllShow w j.seen → finds (footing w j.seen) (Same n) ≡ true →
        IsTried w j rest n (same_again n (seen_of j.seen n.0))
        (by_deed w read now j rest (Same n)) }
    ensures auto { (w : World) (read : ℕ) (now : AMoment) (j : Job) (rest : List AnOp)
        (n m : Number) →
        finds (footing w j.seen) (Auto n m) ≡ true →
        IsTried w j rest n (by_set n m (seen_of j.seen m.0))
        (by_deed w read now j rest (Auto n m)) }
    ensures matched { (w : World) (read : ℕ) (now : AMoment) (j : Job) (rest : List AnOp)
        (n m : Number) →
        ArePlaced w j.matches → matched_in j.matches n m ≡ true →
        IsTried w j rest n (by_match n m (match_found j.matches n m))
        (by_deed w read now j rest (CrossMatch n m)) }
{}

/// A job is stopped by `Purged` exactly if this turn's attachment of a server is answered so. `Purged` names that
/// server, which was to go on in a purged file, and the first file that its new source keeps.
pub fn purged_files_stop_jobs()
    ensures stops { (w : World) (read : ℕ) (now : AMoment) (j : Job) (rest : List AnOp) (d : Deed)
        (n : Number) (first : ℕ) →
        change_of d ≡ Some n → IsPurged w first (attachment_of j d) →
        by_deed w read now j rest d ≡ Stops (cause.Purged n first) None }
    ensures only { (w : World) (read : ℕ) (now : AMoment) (j : Job) (rest : List AnOp) (d : Deed)
        (n : Number) (first : ℕ) (o : Option Reading) →
        by_deed w read now j rest d ≡ Stops (cause.Purged n first) o →
        (change_of d ≡ Some n) × IsPurged w first (attachment_of j d) }
{}

/// Both ends of a bridge that a job saw have places in the logs of servers that log.
pub fn seen_bridges_have_places()
    ensures { (w : World) (xs : List ASight) (n : Number) (b : ABridge) → AllShow w xs →
        bridge_at n (seen_of xs n.0) ≡ Some b → Spans w b }
{}
