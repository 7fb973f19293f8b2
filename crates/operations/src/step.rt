//! How a turn of a job ends.

use commands::{Cause, Lines};

/// What a turn of a job comes to.
#[derive(Drop)]
pub enum JobStep {
    /// The job goes on.
    Going,
    /// The job is done, and answers these lines.
    Done(Lines),
    /// The job failed, for this cause, after these lines: those of the hooks that ran.
    Failed(Cause, Lines),
}
