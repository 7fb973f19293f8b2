//! Laws of reading servers.

ghost use Rattle.std.specs.Prelude.{◌≡◌, Bool, List, Ok, Option};
ghost use Rattle.scenario_servers.specs.Prelude.{Data, HostPort};
ghost use Rattle.scenario_servers.specs.declared.given.Given.{Given};
ghost use Rattle.scenario_servers.specs.Openings.{inits_of, IsGiven};
ghost use Rattle.scenario_servers.specs.Servers.{servers_in};

/// The servers that a text gives are 1 to 1,000, of different names and UUIDs. Each has its numbers in their ranges,
/// and a source that is one of them, or none.
pub fn read_servers_are_sound()
    ensures { (gtid : Bool) (d : Data) (given : List (Option HostPort) × List Given)
        → servers_in gtid d ≡ Ok given → IsGiven gtid (inits_of given.1) }
{}
