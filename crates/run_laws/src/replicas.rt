//! The replicas with which recoveries begin.

ghost use Rattle.run_laws.specs.Beginnings.{RecoveriesNameOnce, RegroupsNameOnce, ScansNameOnce, TakeoversNameOnce};

/// What begins is of the replicas that the book has of the failed server, and names none twice. The source that takes
/// the replicas of an intermediate master is none of them. The replica that takes a master's place is one, but not the
/// master itself. Nor does a regroup name one twice.
pub fn begins_name_replicas_once()
    ensures recovery { RecoveriesNameOnce }
    ensures takeover { TakeoversNameOnce }
    ensures scan { ScansNameOnce }
    ensures regroup { RegroupsNameOnce }
{}
