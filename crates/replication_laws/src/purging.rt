//! What a purge of a binary log leaves (MySQL 8.0 Reference Manual, "PURGE BINARY LOGS Statement").

ghost use Rattle.std.specs.Prelude.{◌≡◌, ℕ, ◌<◌, ◌≤◌, ◌⊎◌, List, [], Err, Ok, Option, Some, None, true, false, slice_get};
ghost use Rattle.replication_laws.specs.Prelude.{Coord as At, Entry as AnEntry, Interval as Those, IsAutoTarget, Placed, Safe, Server as AServer};
ghost use Rattle.replication_laws.specs.Prelude.{ServerNo, Spot as ASpot, Status as Seen, Txn as ATxn, World, attach_at, attach_auto, can_reach};
ghost use Rattle.replication_laws.specs.Prelude.{errant_set, fetch, file_start, has_gtid, held_of, holds, logged, place, purge, server_at, shown};
ghost use Rattle.replication_laws.specs.Prelude.{sources, uuids, with_server};
ghost use Rattle.replication_laws.specs.Prelude.attaching;
ghost use Rattle.replication_laws.specs.Prelude.fetching;
ghost use Rattle.replication_laws.specs.Prelude.purging;
ghost use Rattle.replication_laws.specs.Below.{Reaches, IsReadyAt, IsReadyAuto};
ghost use Rattle.replication_laws.specs.Growth.{Grows};
ghost use Rattle.replication_laws.specs.Purged.{IsActive, IsGone, IsLogged, IsRefused};

/// A purge keeps a world `Safe`, with errant writes or without. It writes nothing. In any world every server goes on,
/// with its settings, what it has executed and each place of its log. No errant write is counted.
pub fn purges_keep_safe()
    ensures safe { (w : World) (n file : ℕ) → Safe w → Safe (purge w n file).1 }
    ensures goes_on { (w : World) (n file : ℕ) → Grows w (purge w n file).1 }
    ensures errant { (w : World) (n file : ℕ) → (purge w n file).1.errant ≡ w.errant }
{}

/// A purge is done at a server that is up and logs, for each file up to the last. It changes only the first kept file
/// of its server, and answers it. That never falls. It passes neither the last file, nor the file that was named, nor
/// one that an active replica reads: if it would, it stays. Except for these it goes as far as it may.
pub fn purges_spare_what_is_read()
    ensures done { (w : World) (n file : ℕ) (s : AServer) → server_at w n ≡ Some s → s.up ≡ true →
        s.settings.logs ≡ true → file ≤ s.log.log.files →
        (first : ℕ) × ((purge w n file).0 ≡ purging.Done first) }
    ensures no_file { (w : World) (n file : ℕ) (s : AServer) → server_at w n ≡ Some s →
        (purge w n file).0 ≡ purging.NoFile → s.log.log.files < file }
    ensures left { (w : World) (n file first : ℕ) (s : AServer) → server_at w n ≡ Some s →
        (purge w n file).0 ≡ purging.Done first →
        (purge w n file).1 ≡ with_server w n (record s { first = first }) }
    ensures rises { (w : World) (n file first : ℕ) (s : AServer) → server_at w n ≡ Some s →
        (purge w n file).0 ≡ purging.Done first → s.first ≤ first }
    ensures within { (w : World) (n file first : ℕ) (s : AServer) → server_at w n ≡ Some s →
        s.first ≤ s.log.log.files → (purge w n file).0 ≡ purging.Done first →
        first ≤ s.log.log.files }
    ensures named { (w : World) (n file first : ℕ) (s : AServer) → server_at w n ≡ Some s →
        (purge w n file).0 ≡ purging.Done first → (first ≡ s.first) ⊎ (first ≤ file) }
    ensures read { (w : World) (no : ServerNo) (file first m : ℕ) (s r : AServer) →
        server_at w no.0 ≡ Some s → server_at w m ≡ Some r → IsActive no r →
        (purge w no.0 file).0 ≡ purging.Done first → (first ≡ s.first) ⊎ (first ≤ r.read.file) }
    ensures far { (w : World) (no : ServerNo) (file first k : ℕ) (s : AServer) →
        server_at w no.0 ≡ Some s → k ≤ file →
        ((m : ℕ) (r : AServer) → server_at w m ≡ Some r → IsActive no r → k ≤ r.read.file) →
        (purge w no.0 file).0 ≡ purging.Done first → k ≤ first }
{}

/// A receiver reads only from kept files. One that is to read a purged file is refused, if its source is up: it goes
/// off, and nothing else changes.
pub fn purged_files_are_not_read()
    ensures refused { (w : World) (n first : ℕ) → (fetch w n).0 ≡ fetching.Purged first →
        IsRefused w n first (fetch w n).1 }
    ensures refuses { (w : World) (n : ℕ) (r s : AServer) (no : ServerNo) → server_at w n ≡ Some r →
        server_at w no.0 ≡ Some s → s.up ≡ true → IsActive no r → r.read.file < s.first →
        (fetch w n).0 ≡ fetching.Purged s.first }
    ensures got { (w : World) (n : ℕ) (r s : AServer) (no : ServerNo) (to : At) →
        server_at w n ≡ Some r → server_at w no.0 ≡ Some s → IsActive no r →
        (fetch w n).0 ≡ fetching.Got to → s.first ≤ r.read.file }
    ensures rotated { (w : World) (n : ℕ) (r s : AServer) (no : ServerNo) (to : At) →
        server_at w n ≡ Some r → server_at w no.0 ≡ Some s → IsActive no r →
        (fetch w n).0 ≡ fetching.Rotated to → s.first ≤ r.read.file }
{}

/// An attachment leads to a kept file of its new source. One by a coordinate leads to a coordinate there. One by a set
/// leads to one whose place is the length of the longest prefix of the source's log that is in the server's set. It
/// answers `Purged` only if the coordinate's file is purged, or more is purged than that prefix, and then whenever no
/// earlier fault comes. If it is so nothing changes.
pub fn attachments_go_to_kept_files()
    ensures kept { (w : World) (n : ℕ) (expect : ASpot) (to : ServerNo) (at : At) (s : AServer) →
        server_at w to.0 ≡ Some s → (attach_at w n expect to at).0 ≡ Ok tt → s.first ≤ at.file }
    ensures purged { (w : World) (n : ℕ) (expect : ASpot) (to : ServerNo) (at : At) (s : AServer)
        (first : ℕ) →
        server_at w to.0 ≡ Some s → (attach_at w n expect to at).0 ≡ Err (attaching.Purged first) →
        (s.first ≡ first) × (at.file < s.first) }
    ensures refuses { (w : World) (n : ℕ) (expect : ASpot) (to : ServerNo) (at : At) (s : AServer) →
        Placed w → IsReadyAt w n expect → (Reaches (sources w) n to.0 → ⊥) →
        server_at w to.0 ≡ Some s → at.file < s.first →
        (attach_at w n expect to at).0 ≡ Err (attaching.Purged s.first) }
    ensures unchanged { (w : World) (n : ℕ) (expect : ASpot) (to : ServerNo) (at : At)
        (s : AServer) →
        server_at w to.0 ≡ Some s → at.file < s.first → (attach_at w n expect to at).1 ≡ w }
    ensures auto_kept { (w : World) (n : ℕ) (observed : List Those) (to : ServerNo)
        (r s r' : AServer) →
        server_at w n ≡ Some r → server_at w to.0 ≡ Some s →
        (attach_auto w n observed to).0 ≡ Ok tt →
        server_at (attach_auto w n observed to).1 n ≡ Some r' → s.first ≤ r'.exec.file }
    ensures auto_placed { (w : World) (n : ℕ) (observed : List Those) (to : ServerNo)
        (r s r' : AServer) → Placed w →
        IsAutoTarget w to.0 → server_at w n ≡ Some r → server_at w to.0 ≡ Some s →
        (attach_auto w n observed to).0 ≡ Ok tt →
        server_at (attach_auto w n observed to).1 n ≡ Some r' →
        place s.log.log r'.exec ≡ Some (held_of (uuids w) r s) }
    ensures auto_purged { (w : World) (n : ℕ) (observed : List Those) (to : ServerNo)
        (r s : AServer) (first k : ℕ) →
        server_at w n ≡ Some r → server_at w to.0 ≡ Some s →
        (attach_auto w n observed to).0 ≡ Err (attaching.Purged first) →
        place s.log.log (file_start s.first) ≡ Some k →
        (s.first ≡ first) × (held_of (uuids w) r s < k) }
    ensures auto_refuses { (w : World) (n : ℕ) (observed : List Those) (to : ServerNo)
        (r s : AServer) (k : ℕ) →
        Placed w → IsReadyAuto w n → (Reaches (sources w) n to.0 → ⊥) → server_at w n ≡ Some r →
        server_at w to.0 ≡ Some s → errant_set (uuids w) observed r.history.txns ≡ [] →
        place s.log.log (file_start s.first) ≡ Some k → held_of (uuids w) r s < k →
        (attach_auto w n observed to).0 ≡ Err (attaching.Purged s.first) }
    ensures auto_unchanged { (w : World) (n : ℕ) (observed : List Those) (to : ServerNo)
        (r s : AServer) (k : ℕ) →
        server_at w n ≡ Some r → server_at w to.0 ≡ Some s →
        place s.log.log (file_start s.first) ≡ Some k → held_of (uuids w) r s < k →
        (attach_auto w n observed to).1 ≡ w }
{}

/// In a `Placed` world what is read of a log at an index is the transaction of that index. It is in a kept file. Each
/// such transaction of a server within reach is read. Nothing is read there exactly if the server doesn't log, its
/// history ends before the index, or the transaction's file is purged. A server out of reach isn't read.
pub fn logs_are_read_where_kept()
    ensures kept { (w : World) (n k : ℕ) (t : ATxn) → Placed w → logged w n k ≡ Ok (Some t) →
        IsLogged w n k t }
    ensures read { (w : World) (n k : ℕ) (t : ATxn) (s : AServer) → Placed w →
        server_at w n ≡ Some s → s.up ≡ true → s.desk ≡ true → IsLogged w n k t →
        logged w n k ≡ Ok (Some t) }
    ensures none { (w : World) (n k : ℕ) (s : AServer) → Placed w → server_at w n ≡ Some s →
        logged w n k ≡ Ok None → IsGone s k }
    ensures gone { (w : World) (n k : ℕ) (s : AServer) → Placed w → server_at w n ≡ Some s →
        s.up ≡ true → s.desk ≡ true → IsGone s k → logged w n k ≡ Ok None }
    ensures reached { (w : World) (n k : ℕ) (o : Option ATxn) → logged w n k ≡ Ok o →
        can_reach (server_at w n) ≡ true }
{}

/// A status has the first kept file. In a `Placed` world look at the purged set that it has of a server that logs. If
/// GTIDs are used, it is the GTIDs of the transactions in purged files and no others. It is empty without GTIDs.
/// Without a log it is empty too, and the first kept file is 1.
pub fn purged_sets_are_shown()
    ensures first { (w : World) (n : ℕ) (seen : Seen) (s : AServer) → shown w n ≡ Some seen →
        server_at w n ≡ Some s → seen.first ≡ s.first }
    ensures has { (w : World) (n : ℕ) (seen : Seen) (s : AServer) → Placed w →
        shown w n ≡ Some seen → server_at w n ≡ Some s → w.gtid ≡ true → s.settings.logs ≡ true →
        (k : ℕ) (t : ATxn) (e : AnEntry) → slice_get s.history.txns k ≡ Some t →
        slice_get s.log.log.entries k ≡ Some e → e.file < s.first →
        has_gtid (uuids w) seen.purged t ≡ true }
    ensures only { (w : World) (n : ℕ) (seen : Seen) (s : AServer) → Placed w →
        shown w n ≡ Some seen → server_at w n ≡ Some s → s.settings.logs ≡ true → (u m : ℕ) →
        holds seen.purged u m ≡ true →
        (k : ℕ) × (t : ATxn) × (e : AnEntry) × (slice_get s.history.txns k ≡ Some t) × (slice_get
        s.log.log.entries k ≡ Some e) × (e.file < s.first) × (u ≡ uuids w t.origin.0) × (m ≡
        t.seq) }
    ensures without_gtids { (w : World) (n : ℕ) (seen : Seen) → shown w n ≡ Some seen →
        w.gtid ≡ false → seen.purged ≡ [] }
    ensures without_log { (w : World) (n : ℕ) (seen : Seen) (s : AServer) → Placed w →
        shown w n ≡ Some seen → server_at w n ≡ Some s → s.settings.logs ≡ false →
        (seen.first ≡ 1) × (seen.purged ≡ []) }
{}
