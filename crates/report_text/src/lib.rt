//! The bytes of replies and tables. What is named `print` appends. If memory runs out, a part may have been appended.
#![tactic(auto)]

mod cause;
mod command;
mod line;
mod names;
mod number;
mod recovery;
mod refusal;
mod replies;
mod table;
mod totals;
mod turn;
mod words;

pub use names::PrintedNames;
pub use replies::{plain_text, reply_text, reply_text_by};
use server_words::{binlog_coords_items, orch_base};
pub use table::tables;
pub use totals::{Tally, summary};
