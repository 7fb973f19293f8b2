//! Laws of drawn scenarios that read: what is drawn reads without a fault, as it was drawn.

ghost use Rattle.std.specs.Prelude.{◌≡◌, ℕ, ◌+◌, ◌<◌, ◌≤◌, List, None, Ok, false, true};
ghost use Rattle.read_back_laws.specs.Prelude.{IsScenario, array, each, flaw_in, is_drawable, is_small, listed_count, scenario_in, scenario_text};
ghost use Rattle.read_back_laws.specs.Prelude.{scenario_with, servers_data, servers_from, servers_in, turn_in, turns_data, turns_from};
ghost use Rattle.read_back_laws.specs.Drawn.{givens_from, inits_from_drawn, listed_turns, names_from};
ghost use Rattle.read_back_laws.specs.Whole.{drawn_head, drawn_scenario};

/// The servers that are drawn read as those servers: their names, and each with what it was given.
pub fn drawn_servers_read()
    ensures { (seed servers : ℕ) → 0 < servers → servers ≤ 1000
        → servers_in false (array (servers_data 0 (servers_from seed servers).drawn))
        ≡ Ok (names_from 0 servers, givens_from 0 (servers_from seed servers).drawn) }
{}

/// The turns that are drawn over so many servers read as those turns.
pub fn drawn_turns_read()
    ensures { (servers x turns : ℕ) (printed : List (List ℕ)) → 0 < servers → servers ≤ 1000
        → each (turn_in (names_from 0 servers) printed 1)
        (turns_data (turns_from servers x turns).drawn)
        ≡ Ok (listed_turns (turns_from servers x turns).drawn) }
{}

/// What is drawn reads without a fault as far as its servers' opening: the text, its keys and its servers. What is left
/// is the opening of these servers and their turns.
pub fn drawn_texts_read()
    ensures { (seed servers turns : ℕ) → 0 < servers → servers ≤ 1000 → turns ≤ 1000000
        → scenario_in (scenario_text seed servers turns)
        ≡ scenario_with drawn_head
        (names_from 0 servers, givens_from 0 (servers_from seed servers).drawn)
        (turns_data (turns_from servers (servers_from seed servers).number turns).drawn) }
{}

/// Servers that are drawn have no flaw, however many there are. Each replica's source logs, is of its cluster, counts
/// no less and has a place for the replica's position. No chain of sources comes back, and what roots list agrees.
pub fn drawn_servers_lack_flaws()
    ensures { (seed servers : ℕ) →
        flaw_in (inits_from_drawn (servers_from seed servers).drawn) ≡ None }
{}

/// What is drawn within the bound reads without a fault, as the whole scenario that was drawn. So it meets the
/// condition of the calls that take a scenario. The bound is the reader's, with one transaction for each turn.
pub fn drawn_scenarios_read()
    ensures whole { (seed servers turns : ℕ) → 0 < servers → servers ≤ 1000 → turns ≤ 1000000
        → is_drawable servers turns ≡ true
        → scenario_in (scenario_text seed servers turns)
        ≡ Ok (drawn_scenario seed servers turns) }
    ensures runs { (seed servers turns : ℕ) → 0 < servers → servers ≤ 1000 → turns ≤ 1000000
        → is_drawable servers turns ≡ true
        → IsScenario (drawn_scenario seed servers turns) }
    ensures bound { (seed servers turns : ℕ) →
        let inits = inits_from_drawn (servers_from seed servers).drawn
        in is_drawable servers turns ≡ is_small servers (listed_count inits + turns) }
{}
