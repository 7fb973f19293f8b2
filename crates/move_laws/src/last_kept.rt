//! The latest of what the book and the audit keep.

ghost use Rattle.std.specs.Prelude.{◌≡◌, ◌∷◌, ◌++◌, ℕ, [], All, Bool, Err, List, None, Some, false, true};
ghost use Rattle.move_laws.specs.Prelude.{AuditState, Bridge as ABridge, Moment as AMoment, is_same, last_item, latest_that, may_begin, with_bridge};
ghost use Rattle.move_laws.specs.Prelude.held;
ghost use Rattle.move_laws.specs.Latest.{IsLastBlock, IsLatest};

/// A look-up of bridges answers exactly the latest that fits, and none exactly if none fits. A bridge that is kept and
/// wasn't the latest is the latest then.
pub fn latest_bridges_are_found()
    ensures found { (passes : ABridge → Bool) (ring : List ABridge) (b : ABridge) →
        latest_that passes ring ≡ Some b → IsLatest passes ring b }
    ensures latest { (passes : ABridge → Bool) (ring : List ABridge) (b : ABridge) →
        IsLatest passes ring b → latest_that passes ring ≡ Some b }
    ensures none { (passes : ABridge → Bool) (ring : List ABridge) →
        latest_that passes ring ≡ None → All (λ x. passes x ≡ false) ring }
    ensures nothing { (passes : ABridge → Bool) (ring : List ABridge) →
        All (λ x. passes x ≡ false) ring → latest_that passes ring ≡ None }
    ensures kept { (passes : ABridge → Bool) (ring : List ABridge) (b : ABridge) →
        passes b ≡ true → is_same (last_item ring) b ≡ false →
        latest_that passes (with_bridge ring b) ≡ Some b }
{}

/// If a recovery may not begin because of a block, none of its cluster is unended. The one that is named is the last
/// that blocks.
pub fn last_blocks_are_told()
    ensures { (a : AuditState) (cluster : List ℕ) (now id : ℕ) (until : AMoment) →
        may_begin a cluster now ≡ Err (held.Blocked id until) →
        IsLastBlock cluster now id until a.recoveries }
{}
