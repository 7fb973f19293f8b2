//! Laws of dumps that read: a dump reads without a fault, as the scenario that it has.

ghost use Rattle.std.specs.Prelude.{◌≡◌, ℕ, List, Ok};
ghost use Rattle.read_back_laws.specs.Prelude.{IsChecked, IsWithinLimits, IsWorldOf, Scenario, dump_text, dumped_scenario, opening_of, scenario_in};
ghost use Rattle.server_model.specs.Worlds.{World};

use scenario_dump::dumps_read_as_json;

/// What is dumped of a world without errant writes of a scenario that was read reads without a fault, as the scenario
/// of that world.
pub fn dumps_read()
    ensures { (bytes : List ℕ) (s : Scenario) (w : World) (now : ℕ) → scenario_in bytes ≡ Ok s
        → IsWorldOf s w → IsWithinLimits w s now → IsChecked (opening_of w)
        → scenario_in (dump_text w s now) ≡ Ok (dumped_scenario w s now) }
{
    crate::binlog_coords_items::printed_reads();
    dumps_read_as_json();
}
