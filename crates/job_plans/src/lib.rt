//! Jobs: a plan's operations, done one a turn, each turn looked up before it is taken.
#![tactic(auto)]

mod act;
mod job;
mod looks;
mod matching;
mod turns;
mod view;

pub use act::{Act, Look};
pub use job::Job;
pub use looks::has_place;
pub use matching::match_logs;
pub use operations::commands::{Cause, Command, CommandName, Refusal};
use operations::{
    binlog_coords_items, commands, instance_keeper_items, orch_base, server_model,
    server_words_items,
};
pub use operations::{Aim, Crossing, JobStep, Match, MatchFault, Op, Position, Sight};
/// Out of memory.
pub use operations::orch_base::Memory;
pub use turns::{change_hands, keep};
pub use view::JobView;
