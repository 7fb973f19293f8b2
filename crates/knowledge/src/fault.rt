//! Why a turn gave up.

use crate::instance_keeper_items::KeeperFault;
use crate::orch_base::Memory;
use std::fmt;

/// Why a turn, or the opening, gave up.
#[derive(Clone, Copy, Debug, PartialEq, Eq)]
pub enum TurnFault {
    /// The row store failed, and counted it.
    Keeper,
    /// Out of memory.
    Memory,
}

impl From<Memory> for TurnFault {
    ghost use Rattle.std.specs.Prelude.{◌≡◌};
    ghost use Rattle.knowledge.specs.declared.fault.TurnFault.TheVariants.{Memory};

    ghost from_gives = { λ _ e. e ≡ Memory };

    fn from(_e: Memory) -> TurnFault {
        TurnFault::Memory
    }
}

impl From<KeeperFault> for TurnFault {
    ghost use Rattle.std.specs.Prelude.{◌≡◌};
    ghost use Rattle.knowledge.specs.Faults.{fault_by};

    ghost from_gives = { λ x e. e ≡ fault_by x };

    fn from(e: KeeperFault) -> TurnFault {
        match e {
            KeeperFault::Failed => TurnFault::Keeper,
            KeeperFault::Memory => TurnFault::Memory,
        }
    }
}

impl fmt::Display for TurnFault {
    fn fmt<W: fmt::Write>(&self, f: &mut fmt::Formatter<W>) -> fmt::Result {
        match self {
            TurnFault::Keeper => write!(f, "the keeper failed"),
            TurnFault::Memory => write!(f, "out of memory"),
        }
    }
}
