//! Logs that match, and changes of source by a match.

ghost use Rattle.std.specs.Prelude.{◌≡◌, ℕ, List, Ok, Some, length, take, true};
ghost use Rattle.job_laws.specs.Prelude.{Allowed, Attach, Coord as At, Exchange, IsTarget, JoinsWell, Match as AMatch, Placed, Safe};
ghost use Rattle.job_laws.specs.Prelude.{Server as AServer, ServerNo as Number, World, by_match, can_attach, coord_after, match_found, match_logs};
ghost use Rattle.job_laws.specs.Prelude.{place, server_at, standing_at};
ghost use Rattle.job_laws.specs.Marked.{KeepsMark};
ghost use Rattle.job_laws.specs.Matched.{AllMeet, ArePlaced, Meets, MeetsAt};

/// In a `Safe` world, as every state of a run without errant writes is, take the coordinate at which the log of a
/// server matches another's. Its place is the length of all that the server has executed, which is a prefix of what the
/// other has. If it is a prefix, and the last mark of what the server has executed is read in both logs, they match,
/// and at its end.
pub fn matched_logs_agree()
    ensures place { (w : World) (r d : Number) (every : ℕ) (c : At) (x y : AServer) → Safe w →
        server_at w r.0 ≡ Some x → server_at w d.0 ≡ Some y → match_logs w r d every ≡ Ok c →
        place y.log.log c ≡ Some (length x.history.txns) }
    ensures beginning { (w : World) (r d : Number) (every : ℕ) (c : At) (x y : AServer) → Safe w →
        server_at w r.0 ≡ Some x → server_at w d.0 ≡ Some y → match_logs w r d every ≡ Ok c →
        take (length x.history.txns) y.history.txns ≡ x.history.txns }
    ensures found { (w : World) (r d : Number) (every : ℕ) (x y : AServer) → Safe w →
        server_at w r.0 ≡ Some x → server_at w d.0 ≡ Some y →
        take (length x.history.txns) y.history.txns ≡ x.history.txns → KeepsMark w r d every x →
        match_logs w r d every ≡ Ok (coord_after y.log.log (length x.history.txns)) }
{}

/// A change of source by a match that was found can be made, is allowed, and joins well in a `Safe` world in which the
/// match is right. There it is well as long as the server is at the position at which it was matched. In a `Safe` world
/// each match that is found is right. In any world of a run its coordinate has a place.
pub fn matches_cross_well()
    ensures can { (w : World) (xs : List AMatch) (n m : Number) (e : Exchange) → ArePlaced w xs →
        by_match n m (match_found xs n m) ≡ Some e → can_attach w e ≡ true }
    ensures allowed { (w : World) (xs : List AMatch) (n m : Number) (e : Exchange) →
        ArePlaced w xs → by_match n m (match_found xs n m) ≡ Some e → Allowed w e }
    ensures joins { (w : World) (xs : List AMatch) (n m : Number) (e : Exchange) → Safe w →
        AllMeet w xs → by_match n m (match_found xs n m) ≡ Some e → JoinsWell w e }
    ensures well { (w : World) (x : AMatch) → Safe w → Meets w x →
        JoinsWell w (Attach x.no.0 x.spot x.to x.at) }
    ensures placed { (w : World) (n m : Number) (every : ℕ) (c : At) → Placed w →
        match_logs w n m every ≡ Ok c → IsTarget w m.0 c }
    ensures met { (w : World) (n m : Number) (every : ℕ) (c : At) → Safe w →
        match_logs w n m every ≡ Ok c → MeetsAt w n m c (standing_at (server_at w n.0)) }
{}
