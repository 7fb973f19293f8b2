//! The modelled servers: each exchange with them is one step of a world.
#![tactic(auto)]

mod attach;
mod decisions;
mod gtids;
mod own;
mod purging;
mod server;
mod status;
mod steps;
mod world;

pub(crate) use decisions::{ApplyStep, FetchStep};
pub use server::Server;
use server_words::{binlog_coords_items, gtid_sets, orch_base};
pub use server_words::{
    ApplyAnswer, Ask, AttachFault, Event, FetchAnswer, Link, Plain, PurgeAnswer, RotateAnswer,
    Spot, Status, StatusFault, Threads, Unreachable, WriteAnswer,
};
pub use world::World;
