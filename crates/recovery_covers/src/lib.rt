//! How far recoveries have come in covering the replicas of the server that failed, or that gave up its place. Those
//! that are done cover them, and keep histories: what replicas had when they were stopped, the promoted server has.
#![tactic(auto)]

mod aims;
mod covers;
mod doings;
mod ends;
mod kept;
mod outcomes;
mod runs;

pub use aims::replicas_stay;
pub use covers::{recoveries_begin_covered, recoveries_cover};
pub use doings::recoveries_change_what_they_may;
pub use ends::recoveries_end_covered;
pub use kept::recoveries_keep_histories;
pub use outcomes::{covered_replicas_have_one_place, placed_servers_are_told};
pub use runs::recoveries_run;
