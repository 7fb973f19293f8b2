//! What was seen of servers.

use crate::orch_base::{Moment, ServerNo};
use crate::{Memory, Seen};

/// One reading of a server.
#[derive(Drop)]
pub struct Observation {
    /// The server.
    pub no: ServerNo,
    /// The number of the reading: a later one has a greater number.
    pub read: u64,
    /// The moment of the reading.
    pub moment: Moment,
    /// What was seen: none if the server wasn't reached.
    pub seen: Option<Seen>,
}

impl Observation {
    ghost use Rattle.std.specs.Prelude.{◌≡◌, IfOk};

    /// The same observation once more. `Err` means out of memory.
    pub fn copy(&self) -> Result<Observation, Memory>
        ensures { IfOk result (λ o. o ≡ self.now) }
    {
        let seen = match &self.seen {
            Some(seen) => Some(seen.copy()?),
            None => None,
        };
        Ok(Observation {
            no: self.no,
            read: self.read,
            moment: self.moment,
            seen,
        })
    }
}

/// A server that orchestrator knows (orchestrator's documentation, "Discovery").
#[derive(Drop)]
pub struct Instance {
    /// The server.
    pub no: ServerNo,
    /// Whether the last reading reached the server.
    pub valid: bool,
    /// The number of the last reading.
    pub read: u64,
    /// The moment of the last reading.
    pub moment: Moment,
    /// What the last reading that reached it showed.
    pub seen: Seen,
}

impl Instance {
    ghost use Rattle.std.specs.Prelude.{◌≡◌, ◌↔◌, IfOk, IsTrue, OnOk, OnErr};

    /// The same instance once more. `Err` means out of memory.
    #[inline(always)]
    pub fn copy(&self) -> Result<Instance, Memory>
        ensures { IfOk result (λ i. i ≡ self.now) }
    {
        let seen = self.seen.copy()?;
        Ok(Instance {
            no: self.no,
            read: self.read,
            moment: self.moment,
            valid: self.valid,
            seen,
        })
    }

    /// Becomes the same as the other. If memory runs out, it stays as it was.
    pub(crate) fn set_to(&mut self, other: &Instance) -> Result<(), Memory>
        ensures ok { OnOk result (self.new ≡ other.now) }
        ensures err { OnErr result (self.new ≡ self.old) }
    {
        self.seen.set_to(&other.seen)?;
        self.no = other.no;
        self.read = other.read;
        self.moment = other.moment;
        self.valid = other.valid;
        Ok(())
    }

    /// Whether the instances are equal.
    pub fn is_same(&self, other: &Instance) -> bool
        ensures { IsTrue result ↔ (self.now ≡ other.now) }
    {
        (self.no == other.no && self.read == other.read)
            && (self.moment == other.moment && self.valid == other.valid)
            && self.seen.is_same(&other.seen)
    }
}
