//! Laws of recoveries. Also how servers are below one another, and what exchanges and operations leave of it.
#![tactic(auto)]

mod begins;
mod exchanges;
mod held;
mod leases;
mod passes;
mod rings;
mod sound;
mod staying;

pub use begins::recoveries_begin;
pub use exchanges::outside_exchanges_leave_sources;
pub use held::recoveries_stay_held;
pub use leases::recoveries_keep_to_their_leases;
pub use passes::recoveries_pass;
pub use rings::rings_stay_own;
pub use sound::recoveries_stay_sound;
pub use staying::recoveries_stay_in_flight;
