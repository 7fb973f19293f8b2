//! Laws of what is written: it reads back as what it was written of.
#![tactic(auto)]

mod drawn;
mod dumped;
mod opened;
mod scheduled;

pub use drawn::{
    drawn_scenarios_read, drawn_servers_lack_flaws, drawn_servers_read, drawn_texts_read,
    drawn_turns_read,
};
pub use dumped::dumps_read;
pub use opened::{dumped_worlds_lack_flaws, dumped_worlds_open};
use scenario_reader::binlog_coords_items;
pub use scheduled::schedules_read;
