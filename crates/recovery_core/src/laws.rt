//! What holds of tries, scans and endings, over their definitions alone.

ghost use Rattle.std.specs.Prelude.{◌≡◌, ◌<◌, ◌≤◌, ◌+◌, ◌++◌, ◌∷◌, ℕ, [], All, Err, List, None, Ok, Option, Some, length, false, true};
ghost use Rattle.recovery_core.specs.Prelude.{AuditState, BookState, Ending, Entry as AnEntry, IsApart, IsBook, JobStep as AStep, Moment as AMoment, Nothing};
ghost use Rattle.recovery_core.specs.Prelude.{Recovery, Refusal as ARefusal, ServerNo as Number, World, action_of, analysis, begun, ended, is_going, is_open};
ghost use Rattle.recovery_core.specs.Prelude.{is_takeover, label_at, longest_block};
ghost use Rattle.recovery_core.specs.declared.attempt.Attempt.{Attempt as AnAttempt};
ghost use Rattle.recovery_core.specs.Prelude.line;
ghost use Rattle.recovery_core.specs.Begun.{audit_after, leases_after, BeginInTurn, CanBegin};
ghost use Rattle.recovery_core.specs.Endings.{ending_of, is_acknowledged};
ghost use Rattle.recovery_core.specs.Scans.{after_try, from_start, scanned, staged_try, Staged};
ghost use Rattle.recovery_core.specs.Tries.{recovery_try, takeover_try, Begins};

/// What isn't refused can begin, after any job, with the next number: its servers are of the book and have no lease,
/// and its entry may begin. The entry has the moment and the block period of the attempt.
pub fn tries_can_begin()
    ensures recovery { (w : World) (b : BookState) (audit : AuditState) (a : AnAttempt)
        (wait last : ℕ) (f : Number) (x : Begins) →
        IsBook b → f.0 < length b.names → a.block ≤ longest_block →
        recovery_try w b audit a wait (last + 1) f ≡ Ok x →
        CanBegin (length b.names) b.leases audit last x }
    ensures takeover { (w : World) (b : BookState) (audit : AuditState) (a : AnAttempt)
        (wait last : ℕ) (i d : Number) (x : Begins) →
        IsBook b → i.0 < length b.names → d.0 < length b.names → a.block ≤ longest_block →
        takeover_try w b audit a wait (last + 1) i d ≡ Ok x →
        CanBegin (length b.names) b.leases audit last x }
    ensures recovery_moment { (w : World) (b : BookState) (audit : AuditState) (a : AnAttempt)
        (wait job : ℕ) (f : Number) (x : Begins) →
        recovery_try w b audit a wait job f ≡ Ok x → x.entry.begun ≡ a.now }
    ensures takeover_moment { (w : World) (b : BookState) (audit : AuditState) (a : AnAttempt)
        (wait job : ℕ) (i d : Number) (x : Begins) →
        takeover_try w b audit a wait job i d ≡ Ok x → x.entry.begun ≡ a.now }
    ensures recovery_block { (w : World) (b : BookState) (audit : AuditState) (a : AnAttempt)
        (wait job : ℕ) (f : Number) (x : Begins) →
        recovery_try w b audit a wait job f ≡ Ok x → x.entry.block ≡ a.block }
    ensures takeover_block { (w : World) (b : BookState) (audit : AuditState) (a : AnAttempt)
        (wait job : ℕ) (i d : Number) (x : Begins) →
        takeover_try w b audit a wait job i d ≡ Ok x → x.entry.block ≡ a.block }
{}

/// What a scan begins can begin one after another, with the numbers after the last job's, and is what its leases and
/// its audit have more. Each entry has the scan's moment and the block period of its cluster.
pub fn scans_begin_in_turn()
    ensures begun { (w : World) (b : BookState) (audit : AuditState) (by : Number → AnAttempt)
        (wait last : ℕ) → IsBook b → ((n : Number) → (by n).block ≤ longest_block) →
        BeginInTurn (length b.names) b.leases audit last (scanned w b audit by wait last).begun }
    ensures leases { (w : World) (b : BookState) (audit : AuditState) (by : Number → AnAttempt)
        (wait last : ℕ) → (scanned w b audit by wait last).leases
        ≡ leases_after b.leases (scanned w b audit by wait last).begun }
    ensures audit { (w : World) (b : BookState) (audit : AuditState) (by : Number → AnAttempt)
        (wait last : ℕ) → (scanned w b audit by wait last).audit
        ≡ audit_after audit (scanned w b audit by wait last).begun }
    ensures last { (w : World) (b : BookState) (audit : AuditState) (by : Number → AnAttempt)
        (wait last : ℕ) → (scanned w b audit by wait last).last
        ≡ last + length (scanned w b audit by wait last).begun }
    ensures moments { (w : World) (b : BookState) (audit : AuditState) (by : Number → AnAttempt)
        (wait last : ℕ) (now : AMoment) → ((n : Number) → (by n).now ≡ now) →
        All (λ x. x.entry.begun ≡ now) (scanned w b audit by wait last).begun }
    ensures blocks { (w : World) (b : BookState) (audit : AuditState) (by : Number → AnAttempt)
        (wait last : ℕ) (period : List ℕ → ℕ) →
        ((n : Number) → (by n).block ≡ period (label_at b n)) →
        All (λ x. x.entry.block ≡ period x.entry.cluster) (scanned w b audit by wait last).begun }
{}

/// Recoveries of an audit that don't overlap stay so through what begins: one that can, and each of several in turn.
/// The next id never sinks.
pub fn begins_keep_audits_apart()
    ensures one { (count : ℕ) (leases : List (Option ℕ)) (audit : AuditState) (last : ℕ)
        (x : Begins) →
        CanBegin count leases audit last x → IsApart audit → IsApart (begun audit x.entry) }
    ensures several { (count : ℕ) (leases : List (Option ℕ)) (audit : AuditState) (last : ℕ)
        (xs : List Begins) → BeginInTurn count leases audit last xs → IsApart audit →
        IsApart (audit_after audit xs) }
    ensures scan { (w : World) (b : BookState) (audit : AuditState) (by : Number → AnAttempt)
        (wait last : ℕ) → IsBook b → ((n : Number) → (by n).block ≤ longest_block) →
        IsApart audit →
        IsApart (scanned w b audit by wait last).audit }
    ensures next { (w : World) (b : BookState) (audit : AuditState) (by : Number → AnAttempt)
        (wait last : ℕ) → audit.next ≤ (scanned w b audit by wait last).audit.next }
{}

/// A try that is refused leaves a scan as it was, and answers the refusal. A scan of a book whose analysis asks for no
/// recovery answers and begins nothing.
pub fn refused_tries_begin_nothing()
    ensures refused { (w : World) (b : BookState) (a : AnAttempt) (wait : ℕ) (s : Staged)
        (e : AnEntry) (why : ARefusal) →
        staged_try w b a wait s e.no ≡ Err why →
        after_try s e (staged_try w b a wait s e.no)
        ≡ record s { lines = s.lines ++ line.Refused e.no e.code why ∷ [] } }
    ensures idle { (w : World) (b : BookState) (audit : AuditState) (by : Number → AnAttempt)
        (wait last : ℕ) → All (λ e. action_of e.code ≡ Nothing) (analysis b) →
        scanned w b audit by wait last ≡ from_start b audit last }
{}

/// The end of a recovery has its outcome, and leaves the audit's recoveries not overlapping. While the recovery goes on
/// there is none. Exactly a takeover is acknowledged so, and none that goes on.
pub fn endings_close_entries()
    ensures closed { (r : Recovery) (s : AStep) (e : Ending) →
        ending_of r s ≡ Some e → is_open e ≡ false }
    ensures apart { (a : AuditState) (id : ℕ) (at : AMoment) (r : Recovery) (s : AStep)
        (e : Ending) → ending_of r s ≡ Some e → IsApart a → IsApart (ended a id at e) }
    ensures going { (r : Recovery) (s : AStep) → is_going s ≡ true → ending_of r s ≡ None }
    ensures ends { (r : Recovery) (s : AStep) → ending_of r s ≡ None → is_going s ≡ true }
    ensures acknowledged { (r : Recovery) (s : AStep) → is_acknowledged r s ≡ true →
        (is_takeover r.purpose ≡ true) × (is_going s ≡ false) }
{}
