//! Why recoveries fail, why replicas are lost, and who is chosen.
#![tactic(auto)]

mod causes;
mod losses;
mod turning;

pub use causes::causes_are_true;
pub use losses::recoveries_tell_the_truth;
pub use turning::recoveries_turn_well;
