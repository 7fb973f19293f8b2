//! The parts of a recovery's turn: the operations of its stages, which replica is promoted and how the others go. Then
//! what becomes of a stage whose operation fails, and changes of servers.
#![tactic(auto)]

mod choices;
mod dividing;
mod doing;
mod fates;
mod ops;
mod stages;
mod table;

pub use choices::{Ground, better_of, chosen_of, expels, lot_by, releases, way_below};
pub use dividing::{divide, leaders, lose_all, without};
pub use doing::{Change, Doing, doing_of, only, perform, then_starts};
pub use fates::{Fate, fate_of, spot_seen};
pub use ops::{drain, level, moving, one, room, shut, sight_of, three, trail, two};
use recovery_plans::{
    binlog_coords_items, commands, gtid_sets, instance_keeper_items, operations_items, orch_base,
    promotion_rules, server_model, server_words_items,
};
pub use stages::ends;
pub use table::{Back, Bar, Failing, Info, Made, info_of};
/// Out of memory.
pub use recovery_plans::orch_base::Memory;
