//! Laws of the servers of runs beside `Placed` and `Safe`: what a dump of them as a scenario rests on.
#![tactic(auto)]

ghost use Rattle.std.specs.Prelude.{◌≡◌, ℕ, List, Ok};
ghost use Rattle.tidy_laws.specs.Prelude.{Allowed, Exchange, InEveryStateOf, IsQuiet, IsTidy, IsWithinLimits, IsWorldOf, Placed};
ghost use Rattle.tidy_laws.specs.Prelude.{Scenario as AScenario, World, after, scenario_in};
ghost use Rattle.tidy_laws.specs.Clusters.{Clusters};
ghost use Rattle.tidy_laws.specs.Dumps.{ReadsBack};
ghost use Rattle.tidy_laws.specs.Runs.{UntilsCanBePrinted};
ghost use Rattle.tidy_laws.specs.Trim.{IsOrderly, IsTrim};

use read_back_laws::{dumped_worlds_lack_flaws, dumped_worlds_open, dumps_read};

/// Each state of each run over a scenario has `IsTidy`, with errant writes or without, whatever rows the row store
/// hands back.
/// - A server without a source has nothing of a replica, and GTIDs find places only if they are used.
/// - Each coordinate of a replica can be printed.
/// - Transactions have sizes in their range, and logs have their settings' limits.
/// - Each server is of the cluster of its source and of the origins of its transactions.
///
/// So it is if the coordinates up to which the scenario's appliers are to go can be printed.
pub fn every_state_is_tidy()
    ensures { InEveryStateOf (λ s now. UntilsCanBePrinted s → IsTidy now.world) }
{}

/// The servers of each state without errant writes of each run are those of its scenario, with their settings in its
/// order and its mode. They have `Safe` and `IsTidy`.
pub fn quiet_states_are_worlds_of_their_scenario()
    ensures { InEveryStateOf (λ s now. UntilsCanBePrinted s → IsQuiet now.world
        → IsWorldOf s now.world) }
{}

/// In a scenario that was read the coordinates up to which appliers are to go can be printed.
pub fn read_scenarios_can_be_printed()
    ensures { (bytes : List ℕ) (s : AScenario) → scenario_in bytes ≡ Ok s → UntilsCanBePrinted s }
{}

/// Take what is dumped of a state without errant writes of a run over a scenario that was read, and keeps the limits of
/// scenarios. It reads without a fault, as a scenario that can be run and is what was dumped. Its servers open to the
/// very world: the history of each server, its log, first kept file, source, coordinates, threads and settings.
pub fn dumps_of_runs_read_back()
    ensures { InEveryStateOf (λ s now. (bytes : List ℕ) → scenario_in bytes ≡ Ok s
        → IsQuiet now.world → IsWithinLimits now.world s now.moment
        → ReadsBack now.world s now.moment) }
{
    dumped_worlds_lack_flaws();
    dumped_worlds_open();
    dumps_read();
}

/// An exchange that is allowed and in order keeps `IsTrim` of servers. It writes a transaction with a size in its
/// range, or starts a replica up to a coordinate that can be printed. Or it attaches a server to one of its own
/// cluster. A world with `Placed` whose servers have `IsTrim` has `IsTidy`.
pub fn exchanges_in_order_keep_trim()
    ensures keeps { (c : Clusters) (w : World) (e : Exchange) → IsTrim c w → Allowed w e
        → IsOrderly c w e →
        IsTrim c (after w e) }
    ensures tidy { (c : Clusters) (w : World) → Placed w → IsTrim c w → IsTidy w }
{}
