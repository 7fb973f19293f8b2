//! What holds of claims, over the definitions alone.

ghost use Rattle.std.specs.Prelude.{◌≡◌, ◌≢◌, ◌+◌, ◌≤◌, ◌<◌, ℕ, None, Some, false, length, true};
ghost use Rattle.orch_base.specs.declared.server.Moment.{Moment as AMoment};
ghost use Rattle.node_claims.specs.declared.claims.ClaimAnswer.TheVariants as claim;
ghost use Rattle.node_claims.specs.declared.claims.ReleaseAnswer.TheVariants as release;
ghost use Rattle.node_claims.specs.Claims.{active, after_act, after_claim, after_release, claim_answer, may_act, release_answer, remembered_by, until_from, ClaimState, IsNode};
ghost use Rattle.node_claims.specs.Reached.{IsActive, IsReached};

/// Whatever nodes claim, release and do, at any moment at most one is active. The kept claim is its own, with the
/// moment that it remembers. So a node that may act is the active one, and it is active for no more than 60 seconds
/// after its last claim.
pub fn one_node_is_active()
    ensures one { (s : ClaimState) (now a b : ℕ) → IsReached s now →
        IsActive s a now → IsActive s b now → a ≡ b }
    ensures kept { (s : ClaimState) (now node : ℕ) → IsReached s now → (is : IsActive s node now) →
        s.kept ≡ Some (node, is.until) }
    ensures told { (s : ClaimState) (now node : ℕ) → IsReached s now →
        IsActive s node now → active s now ≡ Some node }
    ensures truly { (s : ClaimState) (now node : ℕ) →
        active s now ≡ Some node → IsActive s node now }
    ensures acting { (s : ClaimState) (now node : ℕ) → IsReached s now →
        may_act s node now ≡ true → (active s now ≡ Some node) × (after_act s node now ≡ s) }
    ensures short { (s : ClaimState) (now node : ℕ) → IsReached s now → (is : IsActive s node now) →
        is.until.0 ≤ now + 60 }
{}

/// A node gets the claim of another only when that one's has run out. Until then it is refused, and nothing changes. A
/// node gets its own claim again at any time. Who gets it is active for 60 seconds, and the kept claim has that end.
pub fn claims_wait_for_the_end()
    ensures waits { (s : ClaimState) (node now other : ℕ) (until end : AMoment) →
        claim_answer s node now ≡ claim.Held until → s.kept ≡ Some (other, end) →
        other ≢ node → end.0 ≤ now }
    ensures refused { (s : ClaimState) (node now other : ℕ) (end : AMoment) →
        s.kept ≡ Some (other, end) → other ≢ node → now < end.0 →
        (claim_answer s node now ≡ claim.Taken other end) × (after_claim s node now ≡ s) }
    ensures passes { (s : ClaimState) (node now other : ℕ) (end : AMoment) →
        s.kept ≡ Some (other, end) → end.0 ≤ now →
        claim_answer s node now ≡ claim.Held (until_from now) }
    ensures renewed { (s : ClaimState) (node now : ℕ) (end : AMoment) → s.kept ≡ Some (node, end) →
        claim_answer s node now ≡ claim.Held (until_from now) }
    ensures free { (s : ClaimState) (node now : ℕ) → s.kept ≡ None →
        claim_answer s node now ≡ claim.Held (until_from now) }
    ensures kept { (s : ClaimState) (node now : ℕ) (until : AMoment) →
        claim_answer s node now ≡ claim.Held until →
        (after_claim s node now).kept ≡ Some (node, until) }
    ensures active { (s : ClaimState) (node now : ℕ) (until : AMoment) → IsNode s node →
        claim_answer s node now ≡ claim.Held until → IsActive (after_claim s node now) node now }
    ensures lasts { (s : ClaimState) (node now : ℕ) (until : AMoment) →
        claim_answer s node now ≡ claim.Held until → until.0 ≡ now + 60 }
{}

/// What one node does changes nothing of what another remembers, so no active node loses its claim by it; and the nodes
/// stay as many as they are. A node that may not act forgets, and the kept claim stays.
pub fn other_nodes_stay()
    ensures claimed { (s : ClaimState) (node now other : ℕ) → other ≢ node →
        remembered_by (after_claim s node now) other ≡ remembered_by s other }
    ensures released { (s : ClaimState) (node other : ℕ) → other ≢ node →
        remembered_by (after_release s node) other ≡ remembered_by s other }
    ensures acted { (s : ClaimState) (node now other : ℕ) → other ≢ node →
        remembered_by (after_act s node now) other ≡ remembered_by s other }
    ensures kept { (s : ClaimState) (node now : ℕ) → (after_act s node now).kept ≡ s.kept }
    ensures forgets { (s : ClaimState) (node now : ℕ) → IsNode s node → may_act s node now ≡ false →
        remembered_by (after_act s node now) node ≡ None }
    ensures as_many { (s : ClaimState) (node now : ℕ) →
        length (after_claim s node now).remembered ≡ length s.remembered }
    ensures as_many_released { (s : ClaimState) (node : ℕ) →
        length (after_release s node).remembered ≡ length s.remembered }
    ensures as_many_acted { (s : ClaimState) (node now : ℕ) →
        length (after_act s node now).remembered ≡ length s.remembered }
{}

/// A node that releases its claim isn't active any more, and each node may claim at once. Who doesn't hold the kept
/// claim releases nothing.
pub fn releases_free_the_claim()
    ensures released { (s : ClaimState) (node : ℕ) → release_answer s node ≡ release.Released →
        ((after_release s node).kept ≡ None) × ((until : AMoment) × (s.kept ≡ Some (node, until))) }
    ensures forgotten { (s : ClaimState) (node now : ℕ) → IsNode s node →
        release_answer s node ≡ release.Released →
        (IsActive (after_release s node) node now → ⊥) }
    ensures claimed { (s : ClaimState) (node other now : ℕ) →
        release_answer s node ≡ release.Released →
        claim_answer (after_release s node) other now ≡ claim.Held (until_from now) }
    ensures not_held { (s : ClaimState) (node : ℕ) → release_answer s node ≡ release.NotHeld →
        (after_release s node ≡ s) × ((until : AMoment) → s.kept ≢ Some (node, until)) }
{}
