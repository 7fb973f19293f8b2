//! What a command line asks of a scenario's servers, and the report of it: a run's as it comes, or its summary at the
//! end. Also a single command's at the end, with the tables or the servers after it, or its plan. And the report of
//! turns that were taken.
#![tactic(auto)]

mod asked;
mod dumped;
mod ending;
mod journal;
mod laws;
mod nobody;
mod pieces;
mod planned;
mod progress;
mod report;
mod single;
mod summary;
mod verdict;

pub use asked::{Asked, Extra, Task, task_of};
pub use ending::Ending;
pub use journal::journal_report;
pub use laws::{
    asked_turns_are_sound, claims_decide_single_commands, cut_texts_begin_the_report,
    known_rows_fix_the_run, plans_are_answered_as_commands, summaries_count_the_turns,
};
use orch_core::{
    asking_commands_items, commands, instance_keeper_items, node_claims, orch_base,
    scenarios_items, turns, unended_jobs_items,
};
pub use report::task_report;
