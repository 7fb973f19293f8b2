//! The ways in which a call ends.

ghost use Rattle.std.specs.Prelude.{◌≡◌};
ghost use Rattle.top_call.specs.Ends.{status_of};

/// How a call ends.
#[derive(Clone, Copy, Debug, PartialEq, Eq)]
pub enum Way {
    /// The report is written; whether a written reply is refused or failed.
    Reported(bool),
    /// A scenario is drawn and written.
    Drawn,
    /// The command line isn't accepted.
    Usage,
    /// The scenario has a fault.
    Fault,
    /// The source failed.
    Source,
    /// A sink failed that was to take the report.
    Sink,
    /// The row store failed.
    Keeper,
    /// Out of memory.
    Memory,
}

impl Way {
    /// The program's status.
    pub fn status(self) -> u8
        ensures { result ≡ status_of self }
    {
        match self {
            Way::Reported(true) => 7,
            Way::Reported(false) | Way::Drawn => 0,
            Way::Usage => 1,
            Way::Fault => 2,
            Way::Source => 3,
            Way::Sink => 4,
            Way::Keeper => 5,
            Way::Memory => 6,
        }
    }
}
