//! Commands: their names, what each is given, needs, uses and does, why one is refused or fails, and the lines that one
//! answers.
#![tactic(auto)]

mod arguments;
mod boxed;
mod cause;
mod kinds;
mod laws;
mod line;
mod name;
mod refusal;
mod route;
mod same;
mod table;
mod turn;
mod unknown;
mod value;

pub use arguments::{Arguments, Needs, Uses};
pub use boxed::BoxedSet;
pub use cause::Cause;
pub use kinds::{CoordsCommand, GtidCommand, MatchCommand, PathCommand};
pub use laws::{needed_keys_are_used, words_are_read};
pub use line::{HookPhase, Line, Lines, Lost, RecoveryLine, StateWord};
pub use name::CommandName;
pub use refusal::Refusal;
pub use route::{Decision, Planner, Question, Route};
use server_words::{binlog_coords_items, gtid_sets, orch_base};
pub use turn::{Answers, Command, CommandTurn, Found, Keys};
pub use unknown::unknown_instance;
pub use value::{number_within, rule_at, seconds_at};
/// Out of memory.
pub use server_words::orch_base::Memory;
