//! The servers of a scenario's JSON text: what each is given.
#![tactic(auto)]

mod given;
mod history;
mod identity;
mod inits;
mod labels;
mod laws;
mod names;
mod rule;
mod server;
mod servers;
mod uuids;

pub use given::{Given, Identity, Replication, Setup, known_of, rules_of};
pub use inits::inits_of;
pub use labels::printed_name;
pub use laws::read_servers_are_sound;
pub use names::{Names, server_named};
pub use rule::maybe_rule;
use server_words::{binlog_coords_items, orch_base};
pub use servers::{Listed, servers_in};
