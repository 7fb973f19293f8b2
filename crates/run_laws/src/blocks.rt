//! The recoveries of the cluster beside which one begins.

ghost use Rattle.run_laws.specs.Beginnings.{RecoveriesBeginApart, ScansBeginApart, TakeoversBeginApart};

/// What begins is the audit's next recovery, of the moment of its attempt. Every recovery of its cluster that the audit
/// has by then is ended, and is acknowledged or began at least its own block period ago. In a scan each begins so,
/// beside the audit with those before it.
pub fn begins_keep_the_block()
    ensures recovery { RecoveriesBeginApart }
    ensures takeover { TakeoversBeginApart }
    ensures scan { ScansBeginApart }
{}
