//! The texts of kept rows: each a compact JSON object of a list of fields, `f`, and a version, `v`; and the texts of
//! their keys (orchestrator's documentation, "Backend database").
#![tactic(auto)]

mod fault;
mod field;
mod key;
mod laws;
mod reading;
mod row_text;
mod table;
mod word;
mod write;

pub use fault::RowFault;
use kept_rows::{binlog_coords_items, gtid_sets, orch_base};
pub use key::{KeyText, TableNumber};
pub use laws::{read_rows_can_be_kept, table_numbers_read, texts_of_rows_read};
pub use row_text::RowText;
