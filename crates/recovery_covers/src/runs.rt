//! Recoveries, with others' turns between theirs.

ghost use Rattle.std.specs.Prelude.{◌≡◌, ℕ, List};
ghost use Rattle.recovery_covers.specs.Prelude.{BookState, HeldRings, Leases, Line as ALine, Moment as AMoment, Recovery, World, run, taken};
ghost use Rattle.recovery_covers.specs.Covers.{IsTold};
ghost use Rattle.recovery_covers.specs.Prelude.step;
ghost use Rattle.recovery_covers.specs.Between.{Between, AllMayCome, world_after, recovery_after, UnderWay};

/// Whatever comes between its turns, an unended recovery has `Held`, keeps to its leases and covers its replicas so
/// far. When it is done it covers them, and its lines report it.
pub fn recoveries_run()
    ensures stays { (l : Leases) (id : ℕ) (w : World) (r : Recovery) (xs : List Between) →
        AllMayCome l id w r xs → UnderWay l id w r →
        UnderWay l id (world_after w r xs) (recovery_after w r xs) }
    ensures done { (l : Leases) (id : ℕ) (w : World) (r : Recovery) (xs : List Between) →
        AllMayCome l id w r xs → UnderWay l id w r →
        (b : BookState) (read : ℕ) (now : AMoment) (lines : List ALine) →
        HeldRings (world_after w r xs) b.rings →
        (taken (world_after w r xs) b read now (recovery_after w r xs)).step ≡ step.Done lines →
        IsTold (run (world_after w r xs) (taken (world_after w r xs) b read now
        (recovery_after w r xs)).exchanges)
        (taken (world_after w r xs) b read now (recovery_after w r xs)).recovery lines }
{}
