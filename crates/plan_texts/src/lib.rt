//! The text of a plan: a warning, the servers by their letters, and a numbered line for each operation. A line has the
//! statement of MySQL 8 and the condition under which alone it may be sent. What is named `print` appends. If memory
//! runs out, a part may have been appended.
#![tactic(auto)]

mod conditions;
mod laws;
mod letters;
mod line;
mod lines;
mod statements;
mod told;
mod words;

pub use laws::plans_are_told_so;
pub use line::{Apart, Expect, Line};
pub use lines::print_plan;
use operations::orch_base;
/// Out of memory.
pub use operations::orch_base::Memory;
