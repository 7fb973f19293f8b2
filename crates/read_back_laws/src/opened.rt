//! Laws of what a dump opens to: the very world that was dumped.

ghost use Rattle.std.specs.Prelude.{◌≡◌, ℕ, None};
ghost use Rattle.read_back_laws.specs.Prelude.{IsChecked, IsScenario, IsWithinLimits, IsWorldOf, Scenario, flaw_in, opening_of, refitted};
ghost use Rattle.server_model.specs.Worlds.{World};
ghost use Rattle.world_openings.specs.Opening.{opened_world};

/// The servers of a dump have none of the flaws that servers of a scenario may have. If the world that was dumped keeps
/// the limits of scenarios, they are an opening.
pub fn dumped_worlds_lack_flaws()
    ensures flaws { (s : Scenario) (w : World) → IsWorldOf s w
        → flaw_in (opening_of w).servers ≡ None }
    ensures checked { (s : Scenario) (w : World) (now : ℕ) → IsScenario s → IsWorldOf s w
        → IsWithinLimits w s now → IsChecked (opening_of w) }
{}

/// The servers of a dump open to the very world that was dumped: the history of each server, its log, first kept file,
/// source, coordinates, threads and settings. Only the room is that of the new run.
pub fn dumped_worlds_open()
    ensures { (s : Scenario) (w : World) (room flushes : ℕ) → IsWorldOf s w
        → opened_world (opening_of w) room flushes ≡ refitted room flushes w }
{}
