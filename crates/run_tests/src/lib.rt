//! Tests of what no run shows: calls with ample memory, books that no run comes to, and texts that none prints.
#![tactic(auto)]

#[cfg(test)]
mod made;
#[cfg(test)]
mod moves;
#[cfg(test)]
mod texts;

use permission::{
    binlog_coords_items, book_views, commands, gtid_sets, instance_keeper_items, operations_items,
    orch_base, server_model, server_words_items, topology_tree,
};
