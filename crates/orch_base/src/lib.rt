//! What every layer uses: servers by name and number, sources and sinks that count their faults, and gates of threads.
#![tactic(auto)]

mod chain_laws;
mod code;
mod copied;
mod failed;
mod gate;
mod listed;
mod memory;
mod name;
mod recovery;
mod rule;
mod same;
mod server;
mod sink;
mod source;
mod text;

pub use chain_laws::chains_come_to_what_is_found;
pub use code::Code;
pub use copied::{Copied, copy_of};
pub use failed::{Failed, NotRead};
pub use gate::{Gate, NoGate};
pub use listed::Listed;
pub use memory::{MemSink, MemSource};
pub use name::{Name, NameFault, printed_reads};
pub use recovery::{CauseName, Ending, Kind};
pub use rule::Rule;
pub use same::{Same, same_values};
pub use server::{IoState, Moment, ServerNo, Settings, SourceState, Txn, Version};
pub use sink::{Sink, write_all};
pub use source::{MAX_SCENARIO_LEN, Source, read_all};
pub use text::OwnedText;
/// Out of memory.
pub use std::alloc::AllocError as Memory;
