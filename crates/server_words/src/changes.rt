//! What changes one server: what orchestrator asks of it, and what happens to it.

ghost use Rattle.std.specs.Prelude.{◌≡◌};
ghost use Rattle.server_words.specs.Words.{link_text};

use binlog_coords::Coord;

/// The threads of a replica (MySQL 8.0 Reference Manual, "STOP REPLICA Statement").
#[derive(Clone, Copy, Debug, PartialEq, Eq)]
pub enum Threads {
    Both,
    /// The receiver, which reads the source's log (IO_THREAD).
    Receiver,
    /// The applier, which executes the relay log (SQL_THREAD).
    Applier,
}

/// A link of a server.
#[derive(Clone, Copy, Debug, PartialEq, Eq)]
pub enum Link {
    /// From orchestrator to the server.
    Desk,
    /// From the server to its source.
    Feed,
}

impl Link {
    /// Its word.
    pub fn word(self) -> &'static str
        ensures { result.now ≡ link_text self }
    {
        match self {
            Link::Desk => "desk",
            Link::Feed => "feed",
        }
    }
}

/// What orchestrator asks of a server.
#[derive(Clone, Copy, Debug, PartialEq, Eq)]
pub enum Ask {
    Stop(Threads),
    Start,
    StartUntil(Coord),
    Detach,
    Reattach,
    Reset,
    SetReadOnly(bool),
}

/// What happens to a server.
#[derive(Clone, Copy, Debug, PartialEq, Eq)]
pub enum Event {
    Fail,
    Heal,
    Cut(Link),
    Join(Link),
}
