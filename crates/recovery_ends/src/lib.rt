//! Recoveries come to an end, whatever the servers and the book.
#![tactic(auto)]

mod ends;

pub use ends::recoveries_end;
