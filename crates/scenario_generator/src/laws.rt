//! Laws of what is drawn.

ghost use Rattle.std.specs.Prelude.{◌≡◌, ℕ, ◌+◌, ◌++◌, ◌<◌, ◌≤◌, ◌^◌, Ok, Some, codes, length, true};
ghost use Rattle.std.specs.Str.{is_utf8};
ghost use Rattle.serde_json.specs.Read.{read};
ghost use Rattle.orch_base.specs.Names.{name_at};
ghost use Rattle.orch_base.specs.declared.source.TheConstants.{MAX_SCENARIO_LEN};
ghost use Rattle.scenario_generator.specs.Numbers.{below, next};
ghost use Rattle.scenario_generator.specs.Promises.{ArePlaced, AreTurnsOf};
ghost use Rattle.scenario_generator.specs.Servers.{count_at, servers_from};
ghost use Rattle.scenario_generator.specs.Texts.{drawn_data, scenario_text, server_name};
ghost use Rattle.scenario_generator.specs.Turns.{turns_from};

/// Each number has 64 bits, and what it gives is below its bound.
pub fn numbers_are_in_bounds()
    ensures whole { (x : ℕ) → next x < 2 ^ 64 }
    ensures small { (bound x : ℕ) → 0 < bound → below bound x < bound }
{}

/// As many servers are drawn as were asked for. The first of each ten is a root. Each other one has an earlier source
/// of its ten and at most as many transactions as that. None has more than 20.
pub fn servers_stand_in_trees_of_ten()
    ensures count { (seed n : ℕ) → length (servers_from seed n).drawn ≡ n }
    ensures placed { (seed n : ℕ) → ArePlaced (servers_from seed n).drawn }
    ensures few { (seed n m : ℕ) → count_at (servers_from seed n).drawn m ≤ 20 }
{}

/// As many turns are drawn as were asked for. Each is one of these servers, and a write is one of 1 to 1,000 bytes at a
/// root.
pub fn turns_are_of_the_servers()
    ensures count { (servers x n : ℕ) → length (turns_from servers x n).drawn ≡ n }
    ensures each { (servers x n : ℕ) → 0 < servers
        → AreTurnsOf servers (turns_from servers x n).drawn }
{}

/// Names are counted from 1, in four digits at least. No two are the same, and each reads as a host.
pub fn names_are_numbered()
    ensures first { server_name 0 ≡ codes "s0001" }
    ensures four { server_name 998 ≡ codes "s0999" }
    ensures five { server_name 9999 ≡ codes "s10000" }
    ensures apart { (m n : ℕ) → m + 1 < 2 ^ 64 → n + 1 < 2 ^ 64 → server_name m ≡ server_name n
        → m ≡ n }
    ensures read { (n : ℕ) → n + 1 < 2 ^ 64
        → name_at (server_name n) ≡ Ok (record { host = server_name n; port = 3306 }) }
{}

/// The text is UTF-8 and JSON, and reads as the value that was drawn. For at most 1,000 servers and 1,000,000 turns it
/// isn't longer than a scenario's text may be.
pub fn drawn_texts_read_as_json()
    ensures read { (seed servers turns : ℕ) → 0 < servers
        → read (scenario_text seed servers turns) ≡ Some (drawn_data seed servers turns) }
    ensures utf8 { (seed servers turns : ℕ) → 0 < servers → servers < 2 ^ 64
        → is_utf8 (scenario_text seed servers turns) ≡ true }
    ensures short { (seed servers turns : ℕ) → 0 < servers → servers ≤ 1000 → turns ≤ 1000000
        → length (scenario_text seed servers turns) ≤ MAX_SCENARIO_LEN }
{}

/// Small scenarios in full: those that other implementations draw, too.
#[rattlefmt::skip]
pub fn small_scenarios_are_known()
    ensures one { scenario_text 7 1 0
        ≡ codes "{\"servers\":[{\"history\":[[\"s0001\",100,20]],\"name\":\"s0001\"}],\"turns\":[],\"version\":1}\n" }
    ensures two { scenario_text 18446744073709551615 2 0
        ≡ codes "{\"servers\":[{\"history\":[[\"s0001\",100,20]],\"name\":\"s0001\"},"
        ++ codes "{\"executed\":17,\"name\":\"s0002\",\"source\":\"s0001\"}],\"turns\":[],\"version\":1}\n" }
    ensures five { scenario_text 1 5 1
        ≡ codes "{\"servers\":[{\"history\":[[\"s0001\",100,20]],\"name\":\"s0001\"},"
        ++ codes "{\"executed\":15,\"name\":\"s0002\",\"source\":\"s0001\"},"
        ++ codes "{\"executed\":9,\"name\":\"s0003\",\"source\":\"s0001\"},"
        ++ codes "{\"executed\":8,\"name\":\"s0004\",\"source\":\"s0001\"},"
        ++ codes "{\"executed\":2,\"name\":\"s0005\",\"source\":\"s0003\"}],"
        ++ codes "\"turns\":[[\"fetch\",\"s0002\"]],\"version\":1}\n" }
{}
