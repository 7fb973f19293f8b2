//! Laws of unended jobs, plans and recoveries alike, over servers with jobs. Unended recoveries cover their replicas,
//! whatever happens beside them, and so they end. Their hooks run in order.
#![tactic(auto)]

mod aims;
mod begins;
mod covered_begins;
mod covered_numbers;
mod covered_others;
mod ends;
mod hooks;
mod losses;
mod numbers;
mod others;
mod taking;
mod upkeep;

pub use aims::aims_stay_in_flight;
pub use begins::{recoveries_begin_beside, unended_jobs_begin};
pub use covered_begins::{covered_jobs_begin, recoveries_begin_covered_beside};
pub use covered_numbers::covered_jobs_take_turns;
pub use covered_others::{covered_jobs_stay, restarts_leave_none_covered};
pub use ends::{finished_recoveries_cover, finished_recoveries_keep_histories};
pub use hooks::{
    hooks_before_recoveries_leave_servers, hooks_stay_tended, recoveries_tell_their_hooks,
};
pub use losses::facts_in_flight_are_true;
pub use numbers::numbered_turns_pass;
pub use others::{restarts_leave_no_job, unended_jobs_stay};
pub use taking::unended_jobs_take_turns;
pub use upkeep::{replicas_rest, upkeep_lasts, upkept_jobs_take_turns};
