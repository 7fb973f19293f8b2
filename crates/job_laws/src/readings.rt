//! What a reading of a server shows, for good.

ghost use Rattle.std.specs.Prelude.{◌≡◌, ℕ, List, Some};
ghost use Rattle.job_laws.specs.Prelude.{AllAllowed, Bridge as ABridge, Exchange, Placed, Position as APosition, Safe, Shows, Status as Reading};
ghost use Rattle.job_laws.specs.Prelude.{World, position_of, run, seen_in, status};
ghost use Rattle.job_laws.specs.Held.{ShowsAt, Spans};
ghost use Rattle.job_laws.specs.Sound.{IsBridged};

/// A status has what the server has. In a `Safe` world it has a right bridge.
pub fn readings_are_shown()
    ensures shown { (w : World) (n : ℕ) (seen : Reading) → Placed w →
        seen_in (status w n) ≡ Some seen → Shows w n seen }
    ensures bridged { (w : World) (n : ℕ) (seen : Reading) → Safe w →
        seen_in (status w n) ≡ Some seen → IsBridged w n (position_of seen) }
{}

/// What was observed stays true, and right bridges stay right, over any exchanges, with errant writes or without.
pub fn readings_stay_shown()
    ensures shown { (w : World) (es : List Exchange) (n : ℕ) (seen : Reading) → Placed w →
        AllAllowed w es → Shows w n seen → Shows (run w es) n seen }
    ensures position { (w : World) (es : List Exchange) (n : ℕ) (seen : APosition) → Placed w →
        AllAllowed w es → ShowsAt w n seen → ShowsAt (run w es) n seen }
    ensures bridged { (w : World) (es : List Exchange) (n : ℕ) (seen : APosition) → Placed w →
        AllAllowed w es → IsBridged w n seen → IsBridged (run w es) n seen }
    ensures spans { (w : World) (es : List Exchange) (b : ABridge) → Placed w → AllAllowed w es →
        Spans w b → Spans (run w es) b }
{}
