//! What a decision comes to.

use crate::orch_base::OwnedText;
use commands::Lines;
use instance_keeper::Change;

/// What a decision makes of what is known.
#[derive(Drop)]
pub enum Effect {
    /// Nothing: it is kept already, or no recovery is kept that it is about.
    Stays,
    /// This change of the book.
    Change(Change),
    /// The recoveries of the cluster of this label are acknowledged.
    Acks(OwnedText),
}

/// What a decision answers, and what it makes of what is known.
#[derive(Drop)]
pub struct Decided {
    pub lines: Lines,
    pub effect: Effect,
}
