//! Recoveries as definitions: what is done with the replicas of a server that failed, or that gives up its place
//! (orchestrator's documentation, "Topology recovery").
#![tactic(auto)]

mod laws;
mod means;
mod outcome;
mod purpose;
mod stage;
mod task;
mod why;

pub use laws::{
    recoveries_are_allowed, recoveries_stay_named, turns_are_walks, unmatched_replicas_are_started,
};
pub use means::Means;
pub use operations::{
    binlog_coords_items, commands, gtid_sets, instance_keeper_items, orch_base, server_model,
    server_words_items,
};
pub use outcome::{Follower, LostReplica, Outcome, Stopped};
pub use promotion_rules;
pub use purpose::Purpose;
pub use stage::Stage;
pub use task::{Task, Way};
pub use why::{Miss, Why};

/// What is passed on of `operations`.
pub mod operations_items {
    pub use operations::{Aim, Crossing, JobStep, Match, Op, Position, Sight};
}
