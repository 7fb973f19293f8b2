//! Laws of openings.

ghost use Rattle.openings.specs.Opening.{Opened, IsChecked};
ghost use Rattle.openings.specs.Sound.{IsSound};

/// A checked opening fulfils `IsSound`. Each server with a source is under it, with a prefix of what the source has
/// executed. Its coordinates have their places in the source's log. No chain of sources comes back. The listed
/// histories agree with one another and with the origins of their transactions. The first kept file of each server is
/// one of its log's.
pub fn checked_openings_are_sound()
    ensures { (o : Opened) → IsChecked o → IsSound o.servers }
{}
