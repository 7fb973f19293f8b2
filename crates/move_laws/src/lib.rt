//! Laws of the commands that move servers: what is refused, and that a permitted command's job may begin and has its
//! whole plan. Then what is answered by the book, the audit and the settings: the lowest refusal, and the latest bridge
//! and block. Also the clusters, each once, and the tries of a scan.
#![tactic(auto)]

mod begins;
mod begins_gtid;
mod begins_match;
mod begins_path;
mod kept;
mod kept_path;
mod last_kept;
mod listed;
mod lowest;
mod lowest_answered;
mod planned;
mod planned_gtid;
mod planned_match;
mod planned_path;
mod planned_single;
mod settings;
mod ways;

pub use begins::permitted_commands_begin;
pub use begins_gtid::permitted_gtid_commands_begin;
pub use begins_match::permitted_matches_begin;
pub use begins_path::permitted_relocations_begin;
pub use kept::permitted_moves_go_by_what_is_kept;
pub use kept_path::permitted_relocations_go_by_what_is_kept;
pub use last_kept::{last_blocks_are_told, latest_bridges_are_found};
pub use listed::{clusters_are_listed_once, scans_refuse_by_the_table};
pub use lowest::{gtid_numbers_rise, match_numbers_rise, numbers_rise, rows_answer_the_lowest};
pub use lowest_answered::the_lowest_number_is_answered;
pub use planned::permitted_moves_have_plans;
pub use planned_gtid::permitted_gtid_moves_have_plans;
pub use planned_match::permitted_matches_have_plans;
pub use planned_path::permitted_relocations_have_plans;
pub use planned_single::{repoints_go_on_under_their_source, single_servers_have_plans};
pub use settings::{permits_go_by_the_book, plans_go_by_the_book};
pub use ways::{ways_climb, ways_do_not_come_back, ways_go_where_the_forest_does};
