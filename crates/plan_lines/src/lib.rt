//! The lines of plans: a job's operations as they are, and those of a takeover in which nobody is lost. For a recovery
//! or a regroup it is the branch that is expected by the book as it is.
#![tactic(auto)]

mod branches;
mod chosen;
mod expected;
mod laws;
mod pieces;
mod straight;
mod takeovers;

pub use branches::{has_branches, recovery_plan};
pub use laws::plans_are_followed;
use permission::book_views;
pub use plan_texts::print_plan;
pub use recovery_parts::Ground;
pub use recovery_plans::operations_items::Op;
use recovery_plans::{instance_keeper_items, operations_items, orch_base};
pub use recovery_plans::{Means, Purpose};
/// Out of memory.
pub use recovery_plans::orch_base::Memory;
pub use straight::straight_lines;
