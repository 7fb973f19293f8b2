//! Whether a command that moves or changes servers may begin: the checks of the permission table, each by the book and
//! the servers' settings. Also which replicas may be promoted by the book.
#![tactic(auto)]

mod by_book;
mod by_settings;
mod candidates;
mod case;
mod moving;
mod replicas;
mod row;

pub use book_views;
pub use by_book::{attached_to, is_auto, is_before, is_below, is_valid, source, source_above};
pub use by_settings::{has_log, same_label};
pub use candidates::{has_candidate, is_candidate, without_candidate};
pub use case::{Case, Check, Lead, Move, moves_to, one_or_none};
pub use operations::{
    binlog_coords_items, commands, gtid_sets, instance_keeper_items, kept_rows_items, orch_base,
    server_model, server_words_items,
};
pub use replicas::{replicas_but, siblings};
pub use row::{PermitFault, answered, first_refusal, looks_at, refusal_around, unknown_in};
pub use topology_tree;
/// Out of memory.
pub use operations::orch_base::Memory;

/// What is passed on of `operations`.
pub mod operations_items {
    pub use operations::{Aim, Crossing, JobStep, Match, Op, Position, Sight};
}
