//! Single values of a scenario's JSON text, and the faults of reading them with their places.
#![tactic(auto)]

mod display;
mod fault;
mod field;
mod key;
mod value;

use binlog_coords::orch_base;
pub use fault::{Fault, FaultCode, Path, ReadFault, fails, holds, under, under_item};
pub use field::{bool_at, maybe_bool, maybe_coord, maybe_label, number_at, version_at, whole_at};
pub use key::{has_only, lacks, only_keys};
pub use value::{
    bool_in, coord_in, items_in, label_in, label_or_fails, members_in, name_in, number_in,
    short_in, text_in, text_within, uuid_in, version_in, whole_in,
};
