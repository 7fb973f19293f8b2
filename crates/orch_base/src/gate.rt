//! Gates: a thread may wait at one before its turn.

/// What each thread of a live run passes before each of its turns, by its number and outside the lock. It changes
/// nothing that a clause speaks of.
pub trait Gate {
    fn pass(&self, worker: u32);
}

/// A gate that returns at once.
#[derive(Clone, Copy, Debug, PartialEq, Eq)]
pub struct NoGate;

impl Gate for NoGate {
    fn pass(&self, _worker: u32) {}
}
