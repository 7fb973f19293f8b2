//! Laws of the order of servers by name, over its definition alone.

ghost use Rattle.std.specs.Prelude.{◌≡◌, List, length};
ghost use Rattle.orch_base.specs.Names.{HostPort};
ghost use Rattle.name_order.specs.NameOrder.{by_name, IsOrder, IsRising};

/// The order of some names has each server once, and each is before those after it: by name, and by number if the names
/// are equal.
pub fn servers_stand_in_name_order()
    ensures count { (names : List HostPort) → length (by_name names) ≡ length names }
    ensures once { (names : List HostPort) → IsOrder (by_name names) }
    ensures rising { (names : List HostPort) → IsRising names (by_name names) }
{}
