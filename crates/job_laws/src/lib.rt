//! Laws of jobs: what every turn keeps of servers, of what was seen of them and of jobs.
#![tactic(auto)]

mod crossings;
mod deeds;
mod flights;
mod leases;
mod matches;
mod plans;
mod readings;
mod runs;

pub use crossings::{
    crossings_are_well, found_attachments_can_be_made, held_attachments_are_tried,
    purged_files_stop_jobs, seen_bridges_have_places,
};
pub use deeds::{each_operation_keeps_held, each_operation_keeps_sound, settling_ends};
pub use flights::{
    flights_open_sound, jobs_begin_held, jobs_keep_sound, other_turns_keep_sound,
    others_are_left_alone,
};
pub use leases::leases_are_listed;
pub use matches::{matched_logs_agree, matches_cross_well};
pub use plans::{plans_are_held, plans_join};
pub use readings::{readings_are_shown, readings_stay_shown};
pub use runs::runs_are_sound;
